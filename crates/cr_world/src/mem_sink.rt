//! A sink in memory, whose writes fail where a test says so.
ghost use Rattle.std.specs.Prelude.{◌≡◌, ◌≤◌, ◌++◌, [], Some, OnOk, OnErr, IsTrue};
ghost use Rattle.cr_world.specs.Calls.{no_calls, with_failing, next_fails};
ghost use Rattle.cr_world.specs.Outside.{Rose, WriteTells};

use crate::calls::Calls;
use crate::{DoneEnd, Sink};
use cr_base::OutOfMemory;
use std::alloc::Global;

/// The bytes that were written. A write whose number is listed fails, as does one that finds no memory,
/// and a failed write adds nothing.
#[derive(Drop)]
pub struct MemSink {
    bytes: Vec<u8>,
    calls: Calls,
}

impl MemSink {
    ghost use Rattle.cr_world.specs.Memory.{sink_bytes, write_log};

    /// An empty sink, none of whose writes is to fail.
    pub fn new(alloc: Global) -> MemSink
        ensures bytes { sink_bytes result ≡ [] }
        ensures writes { write_log result ≡ no_calls }
    {
        MemSink {
            bytes: Vec::new(alloc),
            calls: Calls::new(alloc),
        }
    }

    /// The bytes that were written.
    pub fn bytes(&self) -> &[u8]
        ensures { result.now ≡ sink_bytes self.now }
    {
        &self.bytes
    }

    /// The n-th write, counted from 1 since the sink was made, is to fail.
    pub fn fail_write(&mut self, n: u64) -> Result<(), OutOfMemory>
        ensures ok { OnOk result (write_log self.new ≡ with_failing (write_log self.old) n) }
        ensures err { OnErr result (write_log self.new ≡ write_log self.old) }
        ensures bytes { sink_bytes self.new ≡ sink_bytes self.old }
    {
        self.calls.fail(n)
    }
}

impl Sink for MemSink {
    ghost use Rattle.cr_world.specs.Memory.{sink_bytes, write_log, after_done};

    ghost bytes = { λ s. Some (sink_bytes s) };

    ghost faults = { λ s. (write_log s).failed };

    fn write(&mut self, piece: &[u8]) -> DoneEnd
        ensures bytes { WriteTells result piece.now (Some (sink_bytes self.old)) (Some (sink_bytes self.new)) }
        ensures count { (write_log self.old).failed ≤ (write_log self.new).failed }
        ensures failed { result ≡ DoneEnd.Failed → Rose (write_log self.old).failed (write_log self.new).failed }
        ensures listed { IsTrue (next_fails (write_log self.old)) → result ≡ DoneEnd.Failed }
        ensures kept { result ≡ DoneEnd.Failed → sink_bytes self.new ≡ sink_bytes self.old }
        ensures writes { write_log self.new ≡ after_done (write_log self.old) result }
    {
        if self.calls.next() {
            self.calls.add_fault();
            return DoneEnd::Failed;
        }
        match self.bytes.extend_from_slice(piece) {
            Ok(()) => DoneEnd::Done,
            Err(_) => {
                self.calls.add_fault();
                DoneEnd::Failed
            }
        }
    }
}
