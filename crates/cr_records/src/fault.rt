//! Why a record isn't changed.
use cr_base::OutOfMemory;
use cr_typing::TypeFault;
use std::alloc::{AllocError, AllocFailed};

/// Why a record isn't changed.
#[derive(Clone, Copy, Debug, PartialEq, Eq)]
pub enum RecordFault {
    /// The record has a member of that name already (C11 6.7.2.1, 6.2.3). It carries the later token, of several the least.
    Redeclared(u32),
    OutOfMemory,
}

impl From<OutOfMemory> for RecordFault {
    ghost use Rattle.std.specs.Prelude.{◌≡◌};
    ghost use Rattle.cr_records.specs.declared.fault.RecordFault.TheVariants as fault;

    ghost from_gives = { λ _ e. e ≡ fault.OutOfMemory };

    fn from(_: OutOfMemory) -> Self {
        RecordFault::OutOfMemory
    }
}

impl From<AllocError> for RecordFault {
    ghost use Rattle.std.specs.Prelude.{◌≡◌};
    ghost use Rattle.cr_records.specs.declared.fault.RecordFault.TheVariants as fault;

    ghost from_gives = { λ _ e. e ≡ fault.OutOfMemory };

    fn from(_: AllocError) -> Self {
        RecordFault::OutOfMemory
    }
}
