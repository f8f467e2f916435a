//! Groups of parentheses among slots, of which it is known where they end.
ghost use Rattle.std.specs.Prelude.{◌≡◌, ◌≤◌, ◌<◌, ◌-◌, ◌++◌, OnOk, length, drop, replicate, slice_get, slice_index_or, if◌then◌else◌};
ghost use Rattle.cr_expand.specs.Groups.{opens, AreGroups, IsSpanAt};

use crate::slot::Slot;
use cr_base::{NameTable, OutOfMemory};
use cr_macros::is_mark;
use std::collections::VecDeque;

/// How far behind the `(` in a slot its `)` stands, where that is known; else 0.
pub fn known_span(
    names: &NameTable,
    slots: &VecDeque<Slot>,
    groups: &VecDeque<usize>,
    i: usize,
) -> usize
    requires slot { i < length slots.now.items }
    requires number { i < length groups.now.items }
    requires groups { AreGroups names.now (drop i slots.now.items) (drop i groups.now.items) }
    ensures number { result ≡ (if opens names.now (slice_get slots.now.items i) then slice_index_or groups.now.items i 0 else 0) }
    ensures span { IsSpanAt names.now slots.now.items i result }
{
    match slots[i] {
        Slot::End => 0,
        Slot::Token(h) => {
            if is_mark(names, b"(", h.token) {
                groups[i]
            } else {
                0
            }
        }
    }
}

/// Drops numbers at the front, until so many are left.
pub fn keep_last(groups: &mut VecDeque<usize>, kept: usize)
    requires { kept ≤ length groups.old.items }
    ensures { groups.new.items ≡ drop (length groups.old.items - kept) groups.old.items }
{
    while kept < groups.len() {
        let _ = groups.pop_front();
    }
}

/// Puts zeros in front, until there are so many numbers.
pub fn fill_front(groups: &mut VecDeque<usize>, count: usize) -> Result<(), OutOfMemory>
    requires { length groups.old.items ≤ count }
    ensures { OnOk result (groups.new.items ≡ replicate (count - length groups.old.items) 0 ++ groups.old.items) }
{
    for _ in groups.len()..count {
        groups.push_front(0)?;
    }
    Ok(())
}
