//! Why a member isn't added or found.
use cr_base::OutOfMemory;
use std::alloc::{AllocError, AllocFailed};

/// Why a member isn't added or found.
#[derive(Clone, Copy, Debug, PartialEq, Eq)]
pub enum TypeFault {
    /// The record lacks the member, or is incomplete.
    NoMember,
    /// What is selected from is no structure and no union.
    NotRecord,
    /// What is selected from is a generic selection whose results have different types.
    GenericType,
    /// A member is designated where the type isn't known, behind elided braces.
    Elision,
    /// The record has a member of that name already. It carries the later token, of several the least.
    Redeclared(u32),
    OutOfMemory,
}

impl From<OutOfMemory> for TypeFault {
    ghost use Rattle.std.specs.Prelude.{◌≡◌};
    ghost use Rattle.cr_typing.specs.declared.fault.TypeFault.TheVariants as fault;

    ghost from_gives = { λ _ e. e ≡ fault.OutOfMemory };

    fn from(_: OutOfMemory) -> Self {
        TypeFault::OutOfMemory
    }
}

impl From<AllocError> for TypeFault {
    ghost use Rattle.std.specs.Prelude.{◌≡◌};
    ghost use Rattle.cr_typing.specs.declared.fault.TypeFault.TheVariants as fault;

    ghost from_gives = { λ _ e. e ≡ fault.OutOfMemory };

    fn from(_: AllocError) -> Self {
        TypeFault::OutOfMemory
    }
}

impl<T: Drop> From<AllocFailed<T>> for TypeFault {
    ghost use Rattle.std.specs.Prelude.{◌≡◌};
    ghost use Rattle.cr_typing.specs.declared.fault.TypeFault.TheVariants as fault;

    ghost from_gives = { λ _ e. e ≡ fault.OutOfMemory };

    fn from(_: AllocFailed<T>) -> Self {
        TypeFault::OutOfMemory
    }
}
