//! Why a run is refused.
ghost use Rattle.std.specs.Prelude.{◌≡◌, ◌++◌, IfOk};
ghost use Rattle.cr_goal.specs.Refusals.{code_of, IsRefusal};
ghost use Rattle.cr_goal.specs.declared.refusal.Refusal.TheVariants as refusal;

use cr_base::{OutOfMemory as NoMemory, PathText, Text};
use std::alloc::{AllocError, AllocFailed, Global};

/// What kind of refusal the words and the files decide.
#[derive(Clone, Copy, Debug, PartialEq, Eq)]
pub enum Status {
    /// A word of the command line is wrong or missing.
    Usage,
    /// The database can't be read as one.
    Database,
    /// A unit is ill-formed.
    IllFormed,
    /// There is nothing that can be renamed.
    NoSymbol,
    /// A name can't be given or taken.
    Reserved,
    /// A macro has the new name.
    Macro,
    /// A place of the renamed name is something else too.
    Mixed,
    /// A token that preprocessing makes would have to be renamed.
    Made,
    /// A place is in no file that may be written.
    Unwritable,
    /// The new name can't be spelled at a place.
    Spelling,
    /// A pragma or an attribute has one of the names.
    Opaque,
    /// A name would mean something else.
    Capture,
    /// A limit is passed.
    Limit,
    /// What is asked for isn't built.
    Unbuilt,
}

impl Status {
    /// The status that the program ends with.
    pub fn code(self) -> u8
        ensures { result ≡ code_of self }
    {
        match self {
            Status::Usage => 2,
            Status::Database => 3,
            Status::IllFormed => 5,
            Status::NoSymbol => 6,
            Status::Reserved => 7,
            Status::Macro => 8,
            Status::Mixed => 9,
            Status::Made => 10,
            Status::Unwritable => 11,
            Status::Spelling => 12,
            Status::Opaque => 13,
            Status::Capture => 14,
            Status::Limit => 19,
            Status::Unbuilt => 20,
        }
    }
}

/// A refusal that the words and the files decide, with what its line says.
#[derive(Drop)]
pub struct Refused {
    pub status: Status,
    pub text: Text,
}

/// Why nothing was changed.
#[derive(Drop)]
pub enum Refusal {
    /// The words and the files decide it.
    Decided(Refused),
    /// A read of this path failed.
    ReadFault(PathText),
    /// No memory was found.
    OutOfMemory,
}

impl From<NoMemory> for Refusal {
    ghost from_gives = { λ _ e. e ≡ refusal.OutOfMemory };

    fn from(_: NoMemory) -> Self {
        Refusal::OutOfMemory
    }
}

impl From<AllocError> for Refusal {
    ghost from_gives = { λ _ e. e ≡ refusal.OutOfMemory };

    fn from(_: AllocError) -> Self {
        Refusal::OutOfMemory
    }
}

impl<T: Drop> From<AllocFailed<T>> for Refusal {
    ghost from_gives = { λ _ e. e ≡ refusal.OutOfMemory };

    fn from(_: AllocFailed<T>) -> Self {
        Refusal::OutOfMemory
    }
}

fn joined(alloc: Global, words: &[u8], rest: &[u8]) -> Result<Text, NoMemory>
    ensures { IfOk result (λ text. text ≡ words.now ++ rest.now) }
{
    let mut text = words.to_vec(alloc)?;
    text.extend_from_slice(rest)?;
    Text::new(alloc, &text)
}

/// A refusal whose line says these words with the rest behind them; or no memory was found for them.
pub fn refusal_of(alloc: Global, status: Status, words: &[u8], rest: &[u8]) -> Refusal
    ensures { IsRefusal status (words.now ++ rest.now) result }
{
    match joined(alloc, words, rest) {
        Ok(text) => Refusal::Decided(Refused { status, text }),
        Err(NoMemory) => Refusal::OutOfMemory,
    }
}
