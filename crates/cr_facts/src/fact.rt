//! What a translation unit tells of its identifiers.
ghost use Rattle.std.specs.Prelude.{◌≡◌, IfOk};

use cr_base::{Key, Kind, OutOfMemory, Place, Role};
use std::alloc::Global;

/// One fact of a translation unit about a place, a key or both.
#[derive(PartialEq, Eq, PartialOrd, Ord, Drop)]
pub enum Fact {
    /// The place declares the entity of the key.
    Declares(Key, Place),
    /// The identifier at the place designates the entity of the key.
    Denotes(Place, Key),
    /// The entity of the key is of this kind.
    OfKind(Key, Kind),
    /// The entity of the key is declared at file scope.
    FileScope(Key),
    /// The identifier at the place was taken for this.
    HasRole(Place, Role),
    /// A made token whose expansion began at the place designates the entity of the key.
    MadeDenotes(Key, Place),
    /// The entity of the key has the new name.
    NewKey(Key),
    /// A live `#define` of the new name stands at the place.
    NewMacro(Place),
    /// The token at the place is spelled as the old name, in the body of a live macro that has a parameter spelled as
    /// the new one.
    BodyParam(Place),
    /// A live pragma other than `once`, or the brackets of an attribute, have the old or the new name at the place.
    OpaqueAt(Place),
    /// Renaming the entity of the key changes what is at the place.
    Conflict(Key, Place),
}

impl Fact {
    /// An equal fact of its own.
    pub fn copy(&self, alloc: Global) -> Result<Fact, OutOfMemory>
        ensures { IfOk result (λ made. made ≡ self.now) }
    {
        Ok(match self {
            Fact::Declares(key, place) => Fact::Declares(key.copy(alloc)?, *place),
            Fact::Denotes(place, key) => Fact::Denotes(*place, key.copy(alloc)?),
            Fact::OfKind(key, kind) => Fact::OfKind(key.copy(alloc)?, *kind),
            Fact::FileScope(key) => Fact::FileScope(key.copy(alloc)?),
            Fact::HasRole(place, role) => Fact::HasRole(*place, *role),
            Fact::MadeDenotes(key, place) => Fact::MadeDenotes(key.copy(alloc)?, *place),
            Fact::NewKey(key) => Fact::NewKey(key.copy(alloc)?),
            Fact::NewMacro(place) => Fact::NewMacro(*place),
            Fact::BodyParam(place) => Fact::BodyParam(*place),
            Fact::OpaqueAt(place) => Fact::OpaqueAt(*place),
            Fact::Conflict(key, place) => Fact::Conflict(key.copy(alloc)?, *place),
        })
    }
}
