//! What a tree was asked for so far.
ghost use Rattle.std.specs.Prelude.{◌≡◌, [], ◌∷◌, ◌++◌};

use cr_base::PathText;
use std::mem;
use std::snapshot::Snapshot;

/// The calls that a tree was asked for so far, in their order, also those that failed. It is for clauses alone: a snapshot
/// has no bytes, so that all calls together take one byte and no memory.
#[derive(Drop)]
#[cycle(history)]
pub enum History {
    /// No call.
    Start,
    /// The last call is a read.
    Read(Snapshot<ReadCall>),
    /// The last call is a replace.
    Replace(Snapshot<ReplaceCall>),
}

/// A read: the calls before it, its path, and the bytes that it handed over.
#[derive(Drop)]
#[cycle(history)]
pub struct ReadCall {
    before: History,
    path: Snapshot<PathText>,
    bytes: Snapshot<Vec<u8>>,
}

/// A replace: the calls before it, and its path.
#[derive(Drop)]
#[cycle(history)]
pub struct ReplaceCall {
    before: History,
    path: Snapshot<PathText>,
}

impl History {
    ghost use Rattle.cr_world.specs.Histories.{reads_in, replaces_in};

    /// No call so far.
    pub fn new() -> History
        ensures reads { reads_in result ≡ [] }
        ensures replaces { replaces_in result ≡ [] }
    {
        History::Start
    }

    /// One more read, of this path, which handed over these bytes.
    pub fn add_read(&mut self, path: &PathText, bytes: &Vec<u8>)
        ensures reads { reads_in self.new ≡ reads_in self.old ++ (path.now, bytes.now.items) ∷ [] }
        ensures replaces { replaces_in self.new ≡ replaces_in self.old }
    {
        let before = mem::replace(self, History::Start);
        let path = Snapshot::of(path);
        let bytes = Snapshot::of(bytes);
        let call = ReadCall {
            before,
            path,
            bytes,
        };
        *self = History::Read(Snapshot::of(&call));
    }

    /// One more replace, of this path.
    pub fn add_replace(&mut self, path: &PathText)
        ensures reads { reads_in self.new ≡ reads_in self.old }
        ensures replaces { replaces_in self.new ≡ replaces_in self.old ++ path.now ∷ [] }
    {
        let before = mem::replace(self, History::Start);
        let path = Snapshot::of(path);
        let call = ReplaceCall { before, path };
        *self = History::Replace(Snapshot::of(&call));
    }
}
