//! Why an operand isn't what is asked of it.
use cr_base::{IllCause, OutOfMemory};

/// Why an operand isn't what is asked of it.
#[derive(Clone, Copy, Debug, PartialEq, Eq)]
pub enum OperandFault {
    /// The unit is ill-formed: nothing is selected or designated by this name (C11 6.5.2.3, 6.7.9p7).
    Ill(IllCause),
    OutOfMemory,
}

impl From<OutOfMemory> for OperandFault {
    ghost use Rattle.std.specs.Prelude.{◌≡◌};
    ghost use Rattle.cr_operands.specs.declared.fault.OperandFault.TheVariants as fault;

    ghost from_gives = { λ _ e. e ≡ fault.OutOfMemory };

    fn from(_: OutOfMemory) -> Self {
        OperandFault::OutOfMemory
    }
}
