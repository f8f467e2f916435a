//! Where a call's arguments end.
ghost use Rattle.std.specs.Prelude.{◌≡◌, ℕ, ◌≤◌, ◌<◌, ◌+◌, ◌^◌, OnOk, [], length, slice_index_or, MatchOption, None};
ghost use Rattle.cr_expand.specs.HideSets.{Sets};
ghost use Rattle.cr_expand.specs.Held.{held};
ghost use Rattle.cr_expand.specs.Calls.{nested, shown, IsClosed, IsSearched, IsFound, IsEndAt};
ghost use Rattle.cr_expand.specs.Groups.{AreNoted, moved};

use crate::groups::{fill_front, keep_last, known_span};
use crate::held::Held;
use crate::slot::Slot;
use cr_base::{NameTable, OutOfMemory};
use cr_macros::is_mark;
use std::alloc::Global;
use std::collections::VecDeque;

/// Where the `)` of a call stands, of which the first two slots are the name and `(`.
#[derive(Clone, Copy, Debug)]
pub enum Close {
    /// At this slot.
    At(usize),
    /// Not before the end of the list that is being expanded.
    Missing,
    /// Not in what stands there yet.
    NotYet,
}

/// How far the slots were searched for a `)`, and how many `(` are open there.
#[derive(Clone, Copy, Debug)]
pub struct Search {
    pub at: usize,
    pub depth: usize,
}

impl Search {
    /// A search that begins behind the call's name and `(`.
    pub fn new() -> Search
        ensures { result ≡ record { at = 2; depth = 0 } }
    {
        Search { at: 2, depth: 0 }
    }
}

/// What is known of the slots ahead: how far they were searched for the `)` of the call at the
/// head, and for each slot with a `(` how far behind it its `)` stands, or 0 where that isn't known.
/// A slot with the `)` of such a group has the same number.
#[derive(Drop)]
pub struct Ahead {
    pub search: Search,
    pub groups: VecDeque<usize>,
}

impl Ahead {
    /// Of no slots nothing is known.
    pub fn new(alloc: Global) -> Ahead
        ensures search { result.search ≡ record { at = 2; depth = 0 } }
        ensures groups { result.groups.items ≡ [] }
    {
        Ahead {
            search: Search::new(),
            groups: VecDeque::new(alloc),
        }
    }

    /// A step was made, by which the first slot was used; there were so many slots before it, and
    /// there are so many now.
    pub fn go_on(&mut self, before: usize, now: usize) -> Result<(), OutOfMemory>
        requires { length self.old.groups.items ≡ before }
        ensures groups { OnOk result (self.new.groups.items ≡ moved self.old.groups.items before now) }
        ensures search { self.new.search ≡ self.old.search }
    {
        keep_last(&mut self.groups, now.min(before.saturating_sub(1)));
        fill_front(&mut self.groups, now)?;
        Ok(())
    }
}

// How many `(` are open behind a token; none where it is the `)` that matches.
fn depth_behind(names: &NameTable, depth: usize, h: Held) -> Option<usize>
    requires { depth ≤ 2 ^ 63 }
    ensures depth { result ≡ nested (shown names.now h) depth }
    ensures small { MatchOption result (Unit {0}) (λ d. d ≤ depth + 1) }
{
    if is_mark(names, b")", h.token) {
        return depth.checked_sub(1);
    }
    if is_mark(names, b"(", h.token) {
        return Some(depth + 1);
    }
    Some(depth)
}

// Where a search is behind a token, or behind the group that is known to begin there; none at the
// `)` that matches.
fn past(
    names: &NameTable,
    slots: &VecDeque<Slot>,
    groups: &VecDeque<usize>,
    here: Search,
    h: Held,
) -> Option<Search>
    requires noted { AreNoted names.now slots.now.items groups.now.items }
    requires place { here.at < length slots.now.items }
    requires token { slice_index_or slots.now.items here.at Slot.End ≡ Slot.Token h }
    requires small { here.depth ≤ here.at }
    ensures found { (start : ℕ) → IsFound names.now slots.now.items start here.at here.depth → MatchOption result (nested (shown names.now h) here.depth ≡ None) (λ s. IsFound names.now slots.now.items start s.at s.depth) }
    ensures goes { MatchOption result (Unit {0}) (λ s. (s.depth ≤ s.at) × (here.at < s.at)) }
{
    let Search { at, depth } = here;
    let span = known_span(names, slots, groups, at);
    if 0 < span {
        let at = at + span + 1;
        return Some(Search { at, depth });
    }
    match depth_behind(names, depth, h) {
        None => None,
        Some(depth) => Some(Search { at: at + 1, depth }),
    }
}

// Goes on with a search for the `)` that no `(` behind the search's start matches. Where it isn't
// there yet, the search has come to the slots' end.
fn close_behind(
    names: &NameTable,
    slots: &VecDeque<Slot>,
    groups: &VecDeque<usize>,
    search: &mut Search,
) -> Close
    requires noted { AreNoted names.now slots.now.items groups.now.items }
    requires small { search.old.depth ≤ search.old.at }
    ensures ends { (start : ℕ) → IsFound names.now slots.now.items start search.old.at search.old.depth → IsEndAt names.now slots.now.items start result }
    ensures found { (start : ℕ) → IsFound names.now slots.now.items start search.old.at search.old.depth → IsFound names.now slots.now.items start search.new.at search.new.depth }
    ensures small { search.new.depth ≤ search.new.at }
{
    let mut here = *search;
    while here.at < slots.len() {
        let Slot::Token(h) = slots[here.at] else {
            return Close::Missing;
        };
        let Some(behind) = past(names, slots, groups, here, h) else {
            return Close::At(here.at);
        };
        here = behind;
    }
    *search = here;
    Close::NotYet
}

// Notes where the group ends whose `(` is in a slot.
fn note_group(names: &NameTable, slots: &VecDeque<Slot>, groups: &mut VecDeque<usize>, i: usize)
    requires noted { AreNoted names.now slots.now.items groups.old.items }
    requires place { i < length slots.now.items }
    ensures { AreNoted names.now slots.now.items groups.new.items }
{
    let mut search = Search {
        at: i + 1,
        depth: 0,
    };
    if let Close::At(close) = close_behind(names, slots, groups, &mut search) {
        groups[i] = close - i;
        groups[close] = close - i;
    }
}

// Notes where the group ends that begins in the last slot before a place, if one does. Tells the
// place before which there may be more: a group that is noted already is passed over.
fn note_last(
    names: &NameTable,
    slots: &VecDeque<Slot>,
    groups: &mut VecDeque<usize>,
    end: usize,
) -> usize
    requires noted { AreNoted names.now slots.now.items groups.old.items }
    requires place { (0 < end) × (end ≤ length slots.now.items) }
    ensures noted { AreNoted names.now slots.now.items groups.new.items }
    ensures less { result < end }
{
    let last = end - 1;
    let Slot::Token(h) = slots[last] else {
        return last;
    };
    if is_mark(names, b")", h.token) {
        return last.saturating_sub(groups[last]);
    }
    if is_mark(names, b"(", h.token) {
        note_group(names, slots, groups, last);
    }
    last
}

// Notes where the groups end that begin in the third slot or behind it, and before a place.
fn note_groups(
    names: &NameTable,
    slots: &VecDeque<Slot>,
    groups: &mut VecDeque<usize>,
    close: usize,
)
    requires noted { AreNoted names.now slots.now.items groups.old.items }
    requires place { close ≤ length slots.now.items }
    ensures { AreNoted names.now slots.now.items groups.new.items }
{
    let mut end = close;
    while 2 < end {
        end = note_last(names, slots, groups, end);
    }
}

/// Finds the `)` of a call at the head, from where the search is, and notes where the groups end
/// that are inside the call, so that none of its slots is searched again. Where the `)` isn't there
/// yet, the search goes on from the slots' end.
pub fn close_of(names: &NameTable, slots: &VecDeque<Slot>, ahead: &mut Ahead) -> Close
    requires slots { 2 ≤ length slots.now.items }
    requires search { IsSearched names.now slots.now.items ahead.old.search }
    requires noted { AreNoted names.now slots.now.items ahead.old.groups.items }
    ensures closed { (sets : Sets) → IsClosed names.now sets slots.now.items result }
    ensures search { IsSearched names.now slots.now.items ahead.new.search }
    ensures noted { AreNoted names.now slots.now.items ahead.new.groups.items }
{
    let span = known_span(names, slots, &ahead.groups, 1);
    if 0 < span {
        return Close::At(1 + span);
    }
    let close = close_behind(names, slots, &ahead.groups, &mut ahead.search);
    if let Close::At(end) = close {
        note_groups(names, slots, &mut ahead.groups, end);
    }
    close
}
