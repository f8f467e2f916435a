//! Why a definition or an expansion is refused.
use cr_base::{OutOfMemory, Place};
use std::alloc::{AllocError, AllocFailed};

/// Why a macro isn't defined, or expansion stops. `BadDefine` has the place of the directive's `#`,
/// the next three the site of the macro's name: a wrong number of arguments, a call without its `)`,
/// and a paste or a string that is no token. `LimitMacros`: the macro work passes its limit.
#[derive(Clone, Copy, Debug, PartialEq, Eq)]
pub enum ExpandFault {
    BadDefine(Place),
    ArgCount(Place),
    OpenCall(Place),
    BadPaste(Place),
    LimitMacros,
    OutOfMemory,
}

impl From<OutOfMemory> for ExpandFault {
    ghost use Rattle.std.specs.Prelude.{◌≡◌};
    ghost use Rattle.cr_macros.specs.declared.fault.ExpandFault.TheVariants as fault;

    ghost from_gives = { λ _ e. e ≡ fault.OutOfMemory };

    fn from(_: OutOfMemory) -> Self {
        ExpandFault::OutOfMemory
    }
}

impl From<AllocError> for ExpandFault {
    ghost use Rattle.std.specs.Prelude.{◌≡◌};
    ghost use Rattle.cr_macros.specs.declared.fault.ExpandFault.TheVariants as fault;

    ghost from_gives = { λ _ e. e ≡ fault.OutOfMemory };

    fn from(_: AllocError) -> Self {
        ExpandFault::OutOfMemory
    }
}

impl<T: Drop> From<AllocFailed<T>> for ExpandFault {
    ghost use Rattle.std.specs.Prelude.{◌≡◌};
    ghost use Rattle.cr_macros.specs.declared.fault.ExpandFault.TheVariants as fault;

    ghost from_gives = { λ _ e. e ≡ fault.OutOfMemory };

    fn from(_: AllocFailed<T>) -> Self {
        ExpandFault::OutOfMemory
    }
}
