//! Why entities can't be renamed.

use cr_base::{OutOfMemory, Place, Role};

/// Why the entities of a class can't be renamed, with the first place of it in the order in which places
/// are shown: by the bytes of their paths, then by offset.
#[derive(Clone, Copy, Debug, PartialEq, Eq)]
pub enum Refusal {
    /// The new name begins with an underscore, and the class has an ordinary identifier or a tag of file
    /// scope (C11 7.1.3).
    Reserved,
    /// A macro has the new name.
    NewIsMacro(Place),
    /// A place of the class is a final token for something outside it, or has another role.
    Mixed(Place, Role),
    /// A made token denotes the class, or a string or a token is made of a place of it.
    Made(Place),
    /// A place of the class is in no file that may be written.
    Unwritable(Place),
    /// The new name can't be spelled at a place of the class.
    Spelling(Place),
    /// A pragma or an attribute has the old or the new name.
    Opaque(Place),
    /// A name would denote something else.
    Capture(Place),
}

/// Why there is no list of places to edit.
#[derive(Clone, Copy, Debug, PartialEq, Eq)]
pub enum VerdictFault {
    Refused(Refusal),
    OutOfMemory,
}

impl From<OutOfMemory> for VerdictFault {
    ghost use Rattle.std.specs.Prelude.{◌≡◌};
    ghost use Rattle.cr_class.specs.declared.refusal.VerdictFault.TheVariants as fault;

    ghost from_gives = { λ _ e. e ≡ fault.OutOfMemory };

    fn from(_: OutOfMemory) -> Self {
        VerdictFault::OutOfMemory
    }
}
