//! A tree in memory, whose reads and replaces fail where a test says so.
ghost use Rattle.std.specs.Prelude.{◌≡◌, ◌↔◌, ◌≤◌, ◌++◌, ◌∷◌, [], Some, OnOk, OnErr, IsTrue};
ghost use Rattle.std.specs.Option.{option_map};
ghost use Rattle.cr_world.specs.Calls.{no_calls, with_failing, next_fails};
ghost use Rattle.cr_world.specs.Outside.{Files, Rose, NoneFell, AllStay, HandsOver, SaysOfFile, ReplaceTells};
ghost use Rattle.cr_world.specs.Memory.{no_files, files_of, PutIn};

use crate::calls::Calls;
use crate::{DoneEnd, History, ReadEnd, Tree};
use cr_base::{List, OutOfMemory, PathText};
use std::alloc::Global;
use std::collections::BTreeMap;

/// A map from paths to bytes. A read or replace whose number is listed fails, as does a replace that
/// finds no memory, and a failed replace leaves all files as they were.
#[derive(Drop)]
pub struct MemTree {
    alloc: Global,
    files: BTreeMap<PathText, List<u8>>,
    reads: Calls,
    replaces: Calls,
    history: History,
}

impl MemTree {
    ghost use Rattle.cr_world.specs.Histories.{reads_in, replaces_in};
    ghost use Rattle.cr_world.specs.Memory.{tree_files, read_log, replace_log, tree_history};

    /// A tree without files, none of whose calls is to fail.
    pub fn new(alloc: Global) -> MemTree
        ensures files { tree_files result ≡ no_files }
        ensures reads { read_log result ≡ no_calls }
        ensures replaces { replace_log result ≡ no_calls }
        ensures readings { reads_in (tree_history result) ≡ [] }
        ensures replacings { replaces_in (tree_history result) ≡ [] }
    {
        MemTree {
            alloc,
            files: BTreeMap::new(alloc),
            reads: Calls::new(alloc),
            replaces: Calls::new(alloc),
            history: History::new(),
        }
    }

    /// Puts these bytes at a path, in the place of those that stand there. Its one error is want of
    /// memory, and leaves the files as they were. It counts as no call of `replace`.
    pub fn put(&mut self, path: PathText, bytes: Vec<u8>) -> Result<(), OutOfMemory>
        ensures ok { OnOk result (PutIn path bytes.items (tree_files self.old) (tree_files self.new)) }
        ensures err { OnErr result (tree_files self.new ≡ tree_files self.old) }
        ensures reads { read_log self.new ≡ read_log self.old }
        ensures replaces { replace_log self.new ≡ replace_log self.old }
        ensures history { tree_history self.new ≡ tree_history self.old }
    {
        put_file(&mut self.files, path, List::of(bytes))
    }

    /// The bytes at a path, where a file is there. It counts as no call of `read`.
    pub fn get(&self, path: &PathText) -> Option<&[u8]>
        ensures { option_map (λ b. b.now) result ≡ tree_files self.now path.now }
    {
        let bytes = self.files.get(path)?;
        Some(bytes.items())
    }

    /// The n-th read, counted from 1 since the tree was made, is to fail.
    pub fn fail_read(&mut self, n: u64) -> Result<(), OutOfMemory>
        ensures ok { OnOk result (read_log self.new ≡ with_failing (read_log self.old) n) }
        ensures err { OnErr result (read_log self.new ≡ read_log self.old) }
        ensures files { tree_files self.new ≡ tree_files self.old }
        ensures replaces { replace_log self.new ≡ replace_log self.old }
        ensures history { tree_history self.new ≡ tree_history self.old }
    {
        self.reads.fail(n)
    }

    /// The n-th replace, counted from 1 since the tree was made, is to fail.
    pub fn fail_replace(&mut self, n: u64) -> Result<(), OutOfMemory>
        ensures ok { OnOk result (replace_log self.new ≡ with_failing (replace_log self.old) n) }
        ensures err { OnErr result (replace_log self.new ≡ replace_log self.old) }
        ensures files { tree_files self.new ≡ tree_files self.old }
        ensures reads { read_log self.new ≡ read_log self.old }
        ensures history { tree_history self.new ≡ tree_history self.old }
    {
        self.replaces.fail(n)
    }

    // Hands over the bytes at a path, where they are at most `max`.
    fn hand_over(&self, path: &PathText, max: usize, into: &mut Vec<u8>) -> ReadEnd
        requires { into.old.items ≡ [] }
        ensures handed { HandsOver result max into.new.items }
        ensures file { SaysOfFile result max into.new.items (tree_files self.now path.now) }
        ensures ended { (result ≡ ReadEnd.Failed) → ⊥ }
    {
        match self.get(path) {
            Some(bytes) => copy_into(bytes, max, into),
            None => ReadEnd::Absent,
        }
    }
}

impl Tree for MemTree {
    ghost use Rattle.cr_world.specs.Histories.{reads_in, replaces_in};
    ghost use Rattle.cr_world.specs.Memory.{tree_files, read_log, replace_log, tree_history, after_read, after_done};

    ghost files = { λ t. Some (tree_files t) };

    ghost reads = { λ t path. (read_log t).failed };

    ghost replaces = { λ t path. (replace_log t).failed };

    ghost readings = { λ t. reads_in (tree_history t) };

    ghost replacings = { λ t. replaces_in (tree_history t) };

    fn read(&mut self, _alloc: Global, path: &PathText, max: usize, into: &mut Vec<u8>) -> ReadEnd
        ensures handed { HandsOver result max into.new.items }
        ensures file { (told : Files) → Some (tree_files self.old) ≡ Some told → SaysOfFile result max into.new.items (told path.now) }
        ensures same { Some (tree_files self.new) ≡ Some (tree_files self.old) }
        ensures counts { NoneFell (λ _. (read_log self.old).failed) (λ _. (read_log self.new).failed) }
        ensures replaces { AllStay (λ _. (replace_log self.old).failed) (λ _. (replace_log self.new).failed) }
        ensures asked { reads_in (tree_history self.new) ≡ reads_in (tree_history self.old) ++ (path.now, into.new.items) ∷ [] }
        ensures replacings { replaces_in (tree_history self.new) ≡ replaces_in (tree_history self.old) }
        ensures failed { result ≡ ReadEnd.Failed → Rose (read_log self.old).failed (read_log self.new).failed }

        // Just the listed reads fail.
        ensures listed { (result ≡ ReadEnd.Failed) ↔ IsTrue (next_fails (read_log self.old)) }
        ensures reads { read_log self.new ≡ after_read (read_log self.old) result }
        ensures others { replace_log self.new ≡ replace_log self.old }
    {
        into.clear();
        if self.reads.next() {
            self.reads.add_fault();
            self.history.add_read(path, into);
            return ReadEnd::Failed;
        }
        let end = self.hand_over(path, max, into);
        self.history.add_read(path, into);
        end
    }

    fn replace(&mut self, path: &PathText, bytes: &[u8]) -> DoneEnd
        ensures files { ReplaceTells result path.now bytes.now (Some (tree_files self.old)) (Some (tree_files self.new)) }
        ensures counts { NoneFell (λ _. (replace_log self.old).failed) (λ _. (replace_log self.new).failed) }
        ensures reads { AllStay (λ _. (read_log self.old).failed) (λ _. (read_log self.new).failed) }
        ensures asked { replaces_in (tree_history self.new) ≡ replaces_in (tree_history self.old) ++ path.now ∷ [] }
        ensures readings { reads_in (tree_history self.new) ≡ reads_in (tree_history self.old) }
        ensures failed { result ≡ DoneEnd.Failed → Rose (replace_log self.old).failed (replace_log self.new).failed }

        // The listed replaces fail, and a failed one leaves all files.
        ensures listed { IsTrue (next_fails (replace_log self.old)) → result ≡ DoneEnd.Failed }
        ensures kept { result ≡ DoneEnd.Failed → tree_files self.new ≡ tree_files self.old }
        ensures replaces { replace_log self.new ≡ after_done (replace_log self.old) result }
        ensures others { read_log self.new ≡ read_log self.old }
    {
        self.history.add_replace(path);
        if self.replaces.next() {
            self.replaces.add_fault();
            return DoneEnd::Failed;
        }
        match put_copy(self.alloc, &mut self.files, path, bytes) {
            Ok(()) => DoneEnd::Done,
            Err(_) => {
                self.replaces.add_fault();
                DoneEnd::Failed
            }
        }
    }
}

// Hands over the bytes of a file, where they are at most `max`.
fn copy_into(bytes: &[u8], max: usize, into: &mut Vec<u8>) -> ReadEnd
    requires { into.old.items ≡ [] }
    ensures handed { HandsOver result max into.new.items }
    ensures file { SaysOfFile result max into.new.items (Some bytes.now) }
    ensures ended { (result ≡ ReadEnd.Failed) → ⊥ }
{
    if bytes.len() > max {
        return ReadEnd::Long;
    }
    match into.extend_from_slice(bytes) {
        Ok(()) => ReadEnd::Bytes,
        Err(_) => ReadEnd::OutOfMemory,
    }
}

fn put_file(
    files: &mut BTreeMap<PathText, List<u8>>,
    path: PathText,
    bytes: List<u8>,
) -> Result<(), OutOfMemory>
    ensures ok { OnOk result (PutIn path bytes (files_of files.old) (files_of files.new)) }
    ensures err { OnErr result (files_of files.new ≡ files_of files.old) }
{
    files.insert(path, bytes)?;
    Ok(())
}

fn put_copy(
    alloc: Global,
    files: &mut BTreeMap<PathText, List<u8>>,
    path: &PathText,
    bytes: &[u8],
) -> Result<(), OutOfMemory>
    ensures ok { OnOk result (PutIn path.now bytes.now (files_of files.old) (files_of files.new)) }
    ensures err { OnErr result (files_of files.new ≡ files_of files.old) }
{
    let path = path.copy(alloc)?;
    let bytes = bytes.to_vec(alloc)?;
    put_file(files, path, List::of(bytes))
}
