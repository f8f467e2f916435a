//! The pastes of a body, from left to right.
ghost use Rattle.std.specs.Prelude.{◌≡◌, ◌+◌, ◌-◌, ◌<◌, ◌≤◌, ◌^◌, ◌++◌, ◌∷◌, [], Some, None, IfOk, IfErr, OnOk, length, List, false};
ghost use Rattle.cr_expand.specs.declared.held.Held.{Held as TheHeld};
ghost use Rattle.cr_macros.specs.Substitution as spec;
ghost use Rattle.cr_macros.specs.Tokens.{Text, token_of};
ghost use Rattle.cr_expand.specs.HideSets.{Grows};
ghost use Rattle.std.specs.List.{All};
ghost use Rattle.cr_expand.specs.Items.{IsTokenNamed};
ghost use Rattle.cr_expand.specs.Held.{held, all_held, IsKnown, AreKnown, IsNamed, AreTables, watch_of, Does, Stops};
ghost use Rattle.cr_expand.specs.Pasting.{pending, left_text, IsLeftKnown, or_none, Takes};
ghost use Rattle.cr_expand.specs.Parts.{joins, part_text, part_texts, IsPartKnown};

use crate::held::Held;
use crate::hide_sets::HideSets;
use crate::notes::Notes;
use crate::parts::Part;
use crate::paste::paste;
use cr_base::{NameTable, OutOfMemory, PpTok};
use cr_macros::ExpandFault;
use std::alloc::Global;

/// What is put behind one another, the token on the left, and whether `##` is directly behind it.
#[derive(Drop)]
pub struct Pasting {
    pub out: Vec<Held>,
    pub left: Option<Held>,
    pub pasting: bool,
}

// Puts a token behind the others, if there is one.
fn put(out: &mut Vec<Held>, left: Option<Held>) -> Result<(), OutOfMemory>
    ensures { OnOk result (out.new.items ≡ out.old.items ++ or_none left) }
{
    if let Some(h) = left {
        out.push(h)?;
    }
    Ok(())
}

// A token pasted to what is on the left; with a placemarker it is itself.
fn paste_after(
    alloc: Global,
    names: &mut NameTable,
    sets: &mut HideSets,
    notes: &mut Notes,
    name: PpTok,
    left: Option<Held>,
    b: Held,
) -> Result<Held, ExpandFault>
    requires room { length names.old < 2 ^ 32 - 1 }
    requires tables { AreTables names.old sets.old }
    requires left { IsLeftKnown names.old sets.old left }
    requires right { IsKnown names.old sets.old b }
    ensures does { (hide : List Text) → IfOk result (λ h. Does (watch_of names.old notes.old) notes.old.seen.items notes.new.seen.items (spec.paste_after (token_of names.old hide name) (held names.old sets.old b) (left_text names.old sets.old left)) (held names.new sets.new h)) }
    ensures stops { (hide : List Text) → IfErr result (λ e. Stops (spec.paste_after (token_of names.old hide name) (held names.old sets.old b) (left_text names.old sets.old left)) e) }
    ensures known { IfOk result (λ h. IsKnown names.new sets.new h) }
    ensures grows { Grows names.old names.new }
    ensures sets_grow { OnOk result (Grows sets.old sets.new) }
    ensures tables { OnOk result (AreTables names.new sets.new) }
    ensures length { length names.new ≤ length names.old + 1 }
    ensures same { (notes.new.from ≡ notes.old.from) × (notes.new.to ≡ notes.old.to) }
{
    match left {
        None => Ok(b),
        Some(a) => match paste(alloc, names, sets, notes, name, a, b) {
            Ok(made) => Ok(made),
            Err(e) => Err(e),
        },
    }
}

// A token that isn't pasted, or a placemarker, comes behind what is on the left.
fn go_past(state: &mut Pasting, next: Option<Held>) -> Result<(), OutOfMemory>
    ensures { OnOk result ((state.new.out.items ≡ state.old.out.items ++ or_none state.old.left) × (state.new.left ≡ next) × (state.new.pasting ≡ false)) }
{
    put(&mut state.out, state.left)?;
    state.left = next;
    state.pasting = false;
    Ok(())
}

// Takes one more part.
fn take_part(
    alloc: Global,
    names: &mut NameTable,
    sets: &mut HideSets,
    notes: &mut Notes,
    name: PpTok,
    state: &mut Pasting,
    part: Part,
) -> Result<(), ExpandFault>
    requires room { length names.old < 2 ^ 32 - 1 }
    requires tables { AreTables names.old sets.old }
    requires left { IsLeftKnown names.old sets.old state.old.left }
    requires part { IsPartKnown names.old sets.old part }
    ensures takes { OnOk result (Takes (watch_of names.old notes.old) notes.old.seen.items notes.new.seen.items names.old names.new sets.old sets.new name state.old state.new part) }
    ensures stops { (hide : List Text) (ps : List spec.Part) → IfErr result (λ e. Stops (spec.all_pasted (token_of names.old hide name) (left_text names.old sets.old state.old.left) state.old.pasting (part_text names.old sets.old part ∷ ps)) e) }
    ensures grows { Grows names.old names.new }
    ensures sets_grow { OnOk result (Grows sets.old sets.new) }
    ensures tables { OnOk result (AreTables names.new sets.new) }
    ensures length { OnOk result (length names.new + pending state.new.pasting ≤ length names.old + pending state.old.pasting + joins (part ∷ [])) }
    ensures most { length names.new ≤ length names.old + pending state.old.pasting + joins (part ∷ []) }
    ensures same { (notes.new.from ≡ notes.old.from) × (notes.new.to ≡ notes.old.to) }
{
    match part {
        Part::Joins => {
            state.pasting = true;
            Ok(())
        }
        Part::Placemarker => {
            if state.pasting {
                state.pasting = false;
                return Ok(());
            }
            go_past(state, None)?;
            Ok(())
        }
        Part::Is(b) => {
            if !state.pasting {
                go_past(state, Some(b))?;
                return Ok(());
            }
            let made = paste_after(alloc, names, sets, notes, name, state.left, b)?;
            state.left = Some(made);
            state.pasting = false;
            Ok(())
        }
    }
}

/// The tokens of a body's parts, each `##` done from left to right and the placemarkers gone.
pub fn paste_all(
    alloc: Global,
    names: &mut NameTable,
    sets: &mut HideSets,
    notes: &mut Notes,
    name: PpTok,
    parts: &[Part],
) -> Result<Vec<Held>, ExpandFault>
    requires room { length names.old + joins parts.now < 2 ^ 32 - 1 }
    requires tables { AreTables names.old sets.old }
    requires name { IsTokenNamed names.old name }
    requires watched { IsNamed names.old notes.old.from × IsNamed names.old notes.old.to }
    requires parts { All (IsPartKnown names.old sets.old) parts.now }
    ensures does { (hide : List Text) → IfOk result (λ hs. Does (watch_of names.old notes.old) notes.old.seen.items notes.new.seen.items (spec.all_pasted (token_of names.old hide name) None false (part_texts names.old sets.old parts.now)) (all_held names.new sets.new hs.items)) }
    ensures stops { (hide : List Text) → IfErr result (λ e. Stops (spec.all_pasted (token_of names.old hide name) None false (part_texts names.old sets.old parts.now)) e) }
    ensures known { IfOk result (λ hs. AreKnown names.new sets.new hs.items) }
    ensures grows { Grows names.old names.new }
    ensures sets_grow { OnOk result (Grows sets.old sets.new) }
    ensures tables { OnOk result (AreTables names.new sets.new) }
    ensures length { length names.new ≤ length names.old + joins parts.now }
    ensures same { OnOk result ((notes.new.from ≡ notes.old.from) × (notes.new.to ≡ notes.old.to)) }
{
    let mut state = Pasting {
        out: Vec::new(alloc),
        left: None,
        pasting: false,
    };
    for i in 0..parts.len() {
        take_part(alloc, names, sets, notes, name, &mut state, parts[i])?;
    }
    let Pasting { mut out, left, .. } = state;
    put(&mut out, left)?;
    Ok(out)
}
