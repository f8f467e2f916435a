//! What tells the entities of all translation units apart.
ghost use Rattle.std.specs.Prelude.{◌≡◌, IfOk};

use crate::{OutOfMemory, Place, Text};
use std::alloc::Global;

/// The keyword of a tag (C11 6.7.2.1, 6.7.2.2).
#[derive(Clone, Copy, Debug, PartialEq, Eq, PartialOrd, Ord, Hash)]
pub enum TagKind {
    Struct,
    Union,
    Enum,
}

/// What an identifier can designate (C11 6.2.1).
#[derive(Clone, Copy, Debug, PartialEq, Eq, PartialOrd, Ord, Hash)]
pub enum Kind {
    Function,
    Object,
    Typedef,
    Enumerator,
    Struct,
    Union,
    Enum,
    Member,
    Label,
}

/// The key of a structure or union: that of its file-scope tag, else its first place, else the number
/// of its unit and of its token where that token is made.
#[derive(PartialEq, Eq, PartialOrd, Ord, Drop)]
pub enum RecordKey {
    Tag(TagKind, Text),
    At(Place),
    Made(u32, u32),
}

/// The key of an entity. Equal keys are one entity, also in different translation units.
///
/// `Ext` has external linkage (C11 6.2.2), `Tag` is a tag of file scope, `Member` a member of a record;
/// any other entity has the place of its first declaration, or the number of its unit and of that
/// token where it is made.
#[derive(PartialEq, Eq, PartialOrd, Ord, Drop)]
pub enum Key {
    Ext(Text),
    Tag(TagKind, Text),
    Member(RecordKey, Text),
    At(Place),
    Made(u32, u32),
}

impl RecordKey {
    /// An equal key of its own.
    pub fn copy(&self, alloc: Global) -> Result<RecordKey, OutOfMemory>
        ensures { IfOk result (λ made. made ≡ self.now) }
    {
        match self {
            RecordKey::Tag(kind, name) => {
                let name = name.copy(alloc)?;
                Ok(RecordKey::Tag(*kind, name))
            }
            RecordKey::At(place) => Ok(RecordKey::At(*place)),
            RecordKey::Made(unit, token) => Ok(RecordKey::Made(*unit, *token)),
        }
    }
}

impl Key {
    /// An equal key of its own.
    pub fn copy(&self, alloc: Global) -> Result<Key, OutOfMemory>
        ensures { IfOk result (λ made. made ≡ self.now) }
    {
        match self {
            Key::Ext(name) => {
                let name = name.copy(alloc)?;
                Ok(Key::Ext(name))
            }
            Key::Tag(kind, name) => {
                let name = name.copy(alloc)?;
                Ok(Key::Tag(*kind, name))
            }
            Key::Member(record, name) => {
                let record = record.copy(alloc)?;
                let name = name.copy(alloc)?;
                Ok(Key::Member(record, name))
            }
            Key::At(place) => Ok(Key::At(*place)),
            Key::Made(unit, token) => Ok(Key::Made(*unit, *token)),
        }
    }
}
