//! A stream of the system.
ghost use Rattle.cr_world.specs.Outside.{WriteTells};

use crate::{DoneEnd, Sink};
use std::io::Write;

/// A writer as a sink: it tells what the writer tells, which for a stream of the system is nothing.
#[derive(Drop)]
pub struct StdSink<W: Write + Drop> {
    writer: W,
    faults: u64,
}

impl<W: Write + Drop> StdSink<W> {
    /// The sink over this writer, with no failed write so far.
    pub fn new(writer: W) -> StdSink<W> {
        StdSink { writer, faults: 0 }
    }
}

impl<W: Write + Drop> Sink for StdSink<W> {
    ghost bytes = { λ s. W.contents s.writer };

    ghost faults = { λ s. s.faults };

    fn write(&mut self, piece: &[u8]) -> DoneEnd {
        let end = write_whole(&mut self.writer, piece);
        if matches!(end, DoneEnd::Failed) {
            self.faults = self.faults.saturating_add(1);
        }
        end
    }
}

// Writes the whole piece. A write that takes nothing of what is left is an error.
fn write_whole<W: Write>(writer: &mut W, piece: &[u8]) -> DoneEnd
    ensures { WriteTells result piece.now (W.contents writer.old) (W.contents writer.new) }
{
    let mut rest = piece;
    while !rest.is_empty() {
        match writer.write(rest) {
            Ok(0) => return DoneEnd::Failed,
            Ok(count) => rest = &rest[count..],
            Err(_) => return DoneEnd::Failed,
        }
    }
    match writer.flush() {
        Ok(()) => DoneEnd::Done,
        Err(_) => DoneEnd::Failed,
    }
}
