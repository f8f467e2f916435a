//! The calls of one kind, numbered from 1, and those among them that are to fail.
ghost use Rattle.std.specs.Prelude.{◌≡◌, ◌≤◌, OnOk, OnErr};

use cr_base::OutOfMemory;
use std::alloc::Global;

#[derive(Drop)]
pub struct Calls {
    pub(crate) made: u64,
    pub(crate) failing: Vec<u64>,
    pub(crate) failed: u64,
}

impl Calls {
    ghost use Rattle.cr_world.specs.Calls.{log_of, no_calls, with_failing, after_call, next_fails, after_fault};

    // No call was made, and none is to fail.
    pub(crate) fn new(alloc: Global) -> Calls
        ensures { log_of result ≡ no_calls }
    {
        Calls {
            made: 0,
            failing: Vec::new(alloc),
            failed: 0,
        }
    }

    // The n-th call is to fail.
    pub(crate) fn fail(&mut self, n: u64) -> Result<(), OutOfMemory>
        ensures ok { OnOk result (log_of self.new ≡ with_failing (log_of self.old) n) }
        ensures err { OnErr result (log_of self.new ≡ log_of self.old) }
    {
        self.failing.push(n)?;
        Ok(())
    }

    // Counts one more call, and says whether it is to fail.
    pub(crate) fn next(&mut self) -> bool
        ensures answer { result ≡ next_fails (log_of self.old) }
        ensures counted { log_of self.new ≡ after_call (log_of self.old) }
    {
        self.made = self.made.saturating_add(1);
        self.failing.contains(&self.made)
    }

    // Counts one more failed call.
    pub(crate) fn add_fault(&mut self)
        ensures counted { log_of self.new ≡ after_fault (log_of self.old) }
        ensures rises { self.old.failed ≤ self.new.failed }
    {
        self.failed = self.failed.saturating_add(1);
    }
}
