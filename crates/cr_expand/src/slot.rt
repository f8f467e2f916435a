//! What is left to be expanded, piece by piece.
ghost use Rattle.std.specs.Prelude.{◌≡◌, ◌++◌, OnOk};
ghost use Rattle.cr_expand.specs.Slots.{tokens, from_end, begun};

use crate::held::Held;
use cr_base::OutOfMemory;
use std::collections::VecDeque;

/// A token that is still to be expanded, or the end of an argument that is expanded by itself.
#[derive(Clone, Copy, Debug)]
pub enum Slot {
    Token(Held),
    End,
}

/// Puts tokens before the slots.
pub fn put_front(slots: &mut VecDeque<Slot>, list: &[Held]) -> Result<(), OutOfMemory>
    ensures { OnOk result (slots.new.items ≡ tokens list.now ++ slots.old.items) }
{
    for i in (0..list.len()).rev() {
        slots.push_front(Slot::Token(list[i]))?;
    }
    Ok(())
}

// Drops the tokens before the first end.
fn skip(slots: &mut VecDeque<Slot>)
    ensures { slots.new.items ≡ from_end slots.old.items }
{
    while let Some(Slot::Token(_)) = slots.front() {
        let _ = slots.pop_front();
    }
}

/// Drops the tokens before the first end, where the list isn't wanted.
pub fn begin(slots: &mut VecDeque<Slot>, wanted: bool)
    ensures { slots.new.items ≡ begun wanted slots.old.items }
{
    if !wanted {
        skip(slots);
    }
}
