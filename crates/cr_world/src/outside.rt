//! The two traits of the outside.
ghost use Rattle.std.specs.Prelude.{◌≡◌, ◌≤◌, ◌++◌, ◌∷◌, [], List, ℕ, Option};
ghost use Rattle.cr_world.specs.Outside.{Files, Rose, NoneFell, AllStay, HandsOver, SaysOfFile, ReplaceTells, WriteTells};

use cr_base::PathText;
use std::alloc::Global;

/// How a read ended.
#[derive(Clone, Copy, Debug, PartialEq, Eq)]
pub enum ReadEnd {
    /// The whole file was handed over.
    Bytes,
    /// No file is there.
    Absent,
    /// The file has more bytes than were asked for.
    Long,
    /// The read failed, and was counted.
    Failed,
    /// No memory was found for the bytes.
    OutOfMemory,
}

/// How a replace or a write ended.
#[derive(Clone, Copy, Debug, PartialEq, Eq)]
pub enum DoneEnd {
    /// All of it was done.
    Done,
    /// It failed, and was counted.
    Failed,
}

/// A tree of files. It tells its files, as a map from path to bytes, or nothing of them; and it counts its
/// failed calls for each path, in counters that stop at their last value. What it was asked for it tells always.
pub trait Tree {
    /// The files, where the tree tells them.
    ghost files: { Self → Option (List ℕ → Option (List ℕ)) };

    /// How many reads of each path failed.
    ghost reads: { Self → List ℕ → ℕ };

    /// How many replaces of each path failed.
    ghost replaces: { Self → List ℕ → ℕ };

    /// The reads so far, in their order, also those that failed: the path of each, and the bytes that it handed over.
    ghost readings: { Self → List (List ℕ × List ℕ) };

    /// The paths of the replaces so far, in their order, also of those that failed.
    ghost replacings: { Self → List (List ℕ) };

    /// Reads the file at a path into `into`, where it has at most `max` bytes. At every other end `into` is
    /// empty. No file changes, and `Failed` comes only where this path's count of failed reads rose.
    fn read(&mut self, alloc: Global, path: &PathText, max: usize, into: &mut Vec<u8>) -> ReadEnd
        ensures handed { HandsOver result max into.new.items }
        ensures file { (told : Files) → files self.old ≡ Some told → SaysOfFile result max into.new.items (told path.now) }
        ensures same { files self.new ≡ files self.old }
        ensures counts { NoneFell (reads self.old) (reads self.new) }
        ensures replaces { AllStay (replaces self.old) (replaces self.new) }
        ensures asked { readings self.new ≡ readings self.old ++ (path.now, into.new.items) ∷ [] }
        ensures replacings { replacings self.new ≡ replacings self.old }
        ensures failed { result ≡ ReadEnd.Failed → Rose (reads self.old path.now) (reads self.new path.now) };

    /// Puts these bytes at a path. After `Failed` the path holds these bytes or what it held, and its count of
    /// failed replaces rose. Every other path holds what it held.
    fn replace(&mut self, path: &PathText, bytes: &[u8]) -> DoneEnd
        ensures files { ReplaceTells result path.now bytes.now (files self.old) (files self.new) }
        ensures counts { NoneFell (replaces self.old) (replaces self.new) }
        ensures reads { AllStay (reads self.old) (reads self.new) }
        ensures asked { replacings self.new ≡ replacings self.old ++ path.now ∷ [] }
        ensures readings { readings self.new ≡ readings self.old }
        ensures failed { result ≡ DoneEnd.Failed → Rose (replaces self.old path.now) (replaces self.new path.now) };
}

/// A sink of bytes. It tells the bytes that were written, or nothing of them; and it counts its failed
/// writes.
pub trait Sink {
    /// The bytes that were written, where the sink tells them.
    ghost bytes: { Self → Option (List ℕ) };

    /// How many writes failed.
    ghost faults: { Self → ℕ };

    /// Writes the piece. After `Failed` a front of the piece was written, and the count of failed writes rose.
    fn write(&mut self, piece: &[u8]) -> DoneEnd
        ensures bytes { WriteTells result piece.now (bytes self.old) (bytes self.new) }
        ensures count { faults self.old ≤ faults self.new }
        ensures failed { result ≡ DoneEnd.Failed → Rose (faults self.old) (faults self.new) };
}
