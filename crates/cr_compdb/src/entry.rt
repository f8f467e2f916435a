//! What a database lists, and why one is refused.
ghost use Rattle.std.specs.Prelude.{◌≡◌};

use cr_base::{OutOfMemory, PathText, Unit};
use std::alloc::{AllocError, AllocFailed};

/// An entry of a database: a translation unit of C, or one that is skipped, with its number and the
/// path of its file.
#[derive(Drop)]
pub enum Entry {
    Unit(Unit),
    Skipped(u32, PathText),
}

/// What an entry lacks: that it is an object, its `directory`, its `file`, or its `arguments` or
/// `command`.
#[derive(Clone, Copy, Debug, PartialEq, Eq)]
pub enum FieldName {
    Object,
    Directory,
    File,
    Words,
}

/// Why a database is refused. Entries are numbered from 0.
#[derive(Clone, Copy, Debug, PartialEq, Eq)]
pub enum DbFault {
    /// The bytes are no JSON whose arrays and objects nest at most 127 deep.
    NotJson,
    /// The value is no array.
    NotArray,
    /// This entry lacks this part, or has it in another kind.
    Field(u32, FieldName),
    /// A quote in this entry's `command` isn't closed, or a backslash ends it.
    Quote(u32),
    /// There are more than 16,384 entries.
    LimitUnits,
    /// No memory was found.
    OutOfMemory,
}

impl From<OutOfMemory> for DbFault {
    ghost use Rattle.cr_compdb.specs.declared.entry.DbFault.TheVariants as fault;

    ghost from_gives = { λ _ e. e ≡ fault.OutOfMemory };

    fn from(_: OutOfMemory) -> Self {
        DbFault::OutOfMemory
    }
}

impl From<AllocError> for DbFault {
    ghost use Rattle.cr_compdb.specs.declared.entry.DbFault.TheVariants as fault;

    ghost from_gives = { λ _ e. e ≡ fault.OutOfMemory };

    fn from(_: AllocError) -> Self {
        DbFault::OutOfMemory
    }
}

impl<T: Drop> From<AllocFailed<T>> for DbFault {
    ghost use Rattle.cr_compdb.specs.declared.entry.DbFault.TheVariants as fault;

    ghost from_gives = { λ _ e. e ≡ fault.OutOfMemory };

    fn from(_: AllocFailed<T>) -> Self {
        DbFault::OutOfMemory
    }
}
