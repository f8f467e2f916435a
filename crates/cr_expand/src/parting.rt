//! A call's arguments, parted by its commas.
ghost use Rattle.std.specs.Prelude.{◌≡◌, ◌≤◌, ◌<◌, ◌+◌, ◌^◌, ◌++◌, ◌∷◌, [], length, drop, false, nat_lt, List, map, IfOk, OnOk, MatchOption, slice_get, slice_set, if◌then◌else◌};
ghost use Rattle.cr_expand.specs.HideSets.{Sets};
ghost use Rattle.cr_expand.specs.Held.{held};
ghost use Rattle.cr_expand.specs.Slots.{tokens};
ghost use Rattle.cr_expand.specs.Calls.{part_at, IsTokenAt, IsCallAt, AreKeptAt};
ghost use Rattle.cr_expand.specs.Wanted.{kept_more, is_marked_whole};
ghost use Rattle.cr_expand.specs.Partings.{IsTaken};
ghost use Rattle.cr_expand.specs.Groups.{AreGroups, AreNoted, IsSpanAt};
ghost use Rattle.cr_expand.specs.declared.held.Held.{Held as TheHeld};
ghost use Rattle.cr_expand.specs.declared.slot.Slot.{Slot as TheSlot};

use crate::groups::known_span;
use crate::held::Held;
use crate::slot::Slot;
use crate::wanted::Needs;
use cr_base::{NameTable, OutOfMemory};
use cr_macros::is_mark;
use std::alloc::Global;
use std::collections::VecDeque;

/// The lists so far, the one that goes on, how many `(` are open in it, and how many commas still
/// part lists.
#[derive(Drop)]
pub struct Parting {
    pub lists: Vec<Vec<Held>>,
    pub list: Vec<Held>,
    pub depth: usize,
    pub commas: usize,
}

// How many `(` are open behind a token; none where it is a comma that parts lists.
fn depth_behind(names: &NameTable, commas: usize, depth: usize, h: Held) -> Option<usize>
    requires { depth ≤ 2 ^ 63 }
    ensures depth { (sets : Sets) → result ≡ part_at commas depth (held names.now sets h) }
    ensures small { MatchOption result (1 ≤ commas) (λ d. d ≤ depth + 1) }
{
    if is_mark(names, b"(", h.token) {
        return Some(depth + 1);
    }
    if is_mark(names, b")", h.token) {
        return Some(depth.saturating_sub(1));
    }
    if is_mark(names, b",", h.token) && depth == 0 && 1 <= commas {
        return None;
    }
    Some(depth)
}

impl Parting {
    // One more token of the list that goes on, where all of it is wanted, or it has none.
    fn keep(&mut self, needs: &Needs, h: Held) -> Result<(), OutOfMemory>
        ensures lists { (self.new.lists.items ≡ self.old.lists.items) × (self.new.commas ≡ self.old.commas) × (self.new.depth ≡ self.old.depth) }
        ensures list { OnOk result (self.new.list.items ≡ kept_more (is_marked_whole needs.now (length self.old.lists.items)) self.old.list.items h) }
    {
        if needs.is_whole(self.lists.len()) || self.list.is_empty() {
            self.list.push(h)?;
        }
        Ok(())
    }

    // One more token; tells whether it is a comma that parts lists.
    fn take(
        &mut self,
        alloc: Global,
        names: &NameTable,
        needs: &Needs,
        h: Held,
    ) -> Result<bool, OutOfMemory>
        requires { self.old.depth ≤ 2 ^ 63 }
        ensures small { self.new.depth ≤ self.old.depth + 1 }
        ensures taken { IfOk result (λ parts. IsTaken names.now (is_marked_whole needs.now) h self.old self.new parts) }
    {
        match depth_behind(names, self.commas, self.depth, h) {
            None => {
                let list = std::mem::replace(&mut self.list, Vec::new(alloc));
                self.lists.push(list)?;
                self.commas -= 1;
                Ok(true)
            }
            Some(depth) => {
                self.keep(needs, h)?;
                self.depth = depth;
                Ok(false)
            }
        }
    }
}

// How many slots behind one needn't be looked at: those of a group that is known and ends before the
// `)`, where no more tokens of the list are wanted than the `(`.
fn passed(
    names: &NameTable,
    slots: &VecDeque<Slot>,
    groups: &VecDeque<usize>,
    i: usize,
    close: usize,
    whole: bool,
) -> usize
    requires slot { i < length slots.now.items }
    requires number { i < length groups.now.items }
    requires groups { AreGroups names.now (drop i slots.now.items) (drop i groups.now.items) }
    ensures span { IsSpanAt names.now slots.now.items i result }
    ensures within { 0 < result → (i + result < close) × (whole ≡ false) }
{
    if whole {
        return 0;
    }
    let span = known_span(names, slots, groups, i);
    if span < close.saturating_sub(i) {
        span
    } else {
        0
    }
}

// How many `(` are open behind a token, or behind the group that it begins.
fn depth_past(span: usize, before: usize, behind: usize) -> usize
    ensures { result ≡ (if nat_lt 0 span then before else behind) }
{
    if 0 < span { before } else { behind }
}

/// The token in a slot.
pub fn token_at(slots: &VecDeque<Slot>, i: usize) -> Held
    requires { IsTokenAt slots.now.items i }
    ensures { slice_get slots.now.items i ≡ Some (Slot.Token result) }
{
    match slots[i] {
        Slot::Token(h) => h,
        Slot::End => unreachable!(),
    }
}

// An end in place of what is in a slot, where it is wanted.
fn end_if(slots: &mut VecDeque<Slot>, i: usize, wanted: bool)
    requires { i < length slots.old.items }
    ensures { slots.new.items ≡ (if wanted then slice_set slots.old.items i Slot.End else slots.old.items) }
{
    if wanted {
        slots[i] = Slot::End;
    }
}

/// Parts the tokens of a call, from the third slot to the `)`, by this many commas at most, and
/// puts ends in the place of the commas and the `)`. Tells the lists, each whole where that is
/// needed, and else its first token; a group in one of these that is known is passed over.
pub fn part(
    alloc: Global,
    names: &NameTable,
    slots: &mut VecDeque<Slot>,
    groups: &VecDeque<usize>,
    close: usize,
    commas: usize,
    needs: &Needs,
) -> Result<Vec<Vec<Held>>, OutOfMemory>
    requires call { IsCallAt slots.old.items close }
    requires noted { AreNoted names.now slots.old.items groups.now.items }
    ensures { (a b end : TheSlot) (inside : List TheHeld) (rest : List TheSlot) → slots.old.items ≡ a ∷ b ∷ (tokens inside ++ end ∷ rest) → close ≡ 2 + length inside → IfOk result (λ lists. AreKeptAt names.now commas (is_marked_whole needs.now) a b inside rest (map (λ v. v.items) lists.items) slots.new.items) }
{
    let mut parting = Parting {
        lists: Vec::new(alloc),
        list: Vec::new(alloc),
        depth: 0,
        commas,
    };
    let mut i = 2;
    while i < close {
        let whole = needs.is_whole(parting.lists.len());
        let span = passed(names, slots, groups, i, close, whole);
        let depth = parting.depth;
        let h = token_at(slots, i);
        let parts = parting.take(alloc, names, needs, h)?;
        end_if(slots, i, parts);
        parting.depth = depth_past(span, depth, parting.depth);
        i += span + 1;
    }
    end_if(slots, close, true);
    let Parting {
        mut lists,
        list,
        ..
    } = parting;
    lists.push(list)?;
    Ok(lists)
}
