//! Why a token or an action isn't bound.
use cr_base::{IllCause, OutOfMemory};
use std::alloc::{AllocError, AllocFailed};

/// Why a token or an action isn't bound.
#[derive(Clone, Copy, Debug, PartialEq, Eq)]
pub enum BindFault {
    /// The unit is ill-formed: the cause, and the number of the token.
    Ill(IllCause, u32),
    OutOfMemory,
}

impl From<OutOfMemory> for BindFault {
    ghost use Rattle.std.specs.Prelude.{◌≡◌};
    ghost use Rattle.cr_names.specs.declared.fault.BindFault.TheVariants as fault;

    ghost from_gives = { λ _ e. e ≡ fault.OutOfMemory };

    fn from(_: OutOfMemory) -> Self {
        BindFault::OutOfMemory
    }
}

impl From<AllocError> for BindFault {
    ghost use Rattle.std.specs.Prelude.{◌≡◌};
    ghost use Rattle.cr_names.specs.declared.fault.BindFault.TheVariants as fault;

    ghost from_gives = { λ _ e. e ≡ fault.OutOfMemory };

    fn from(_: AllocError) -> Self {
        BindFault::OutOfMemory
    }
}

impl<T: Drop> From<AllocFailed<T>> for BindFault {
    ghost use Rattle.std.specs.Prelude.{◌≡◌};
    ghost use Rattle.cr_names.specs.declared.fault.BindFault.TheVariants as fault;

    ghost from_gives = { λ _ e. e ≡ fault.OutOfMemory };

    fn from(_: AllocFailed<T>) -> Self {
        BindFault::OutOfMemory
    }
}
