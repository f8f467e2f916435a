//! What is put in takes the place of the macro's name.
ghost use Rattle.std.specs.Prelude.{◌≡◌, ℕ, ◌<◌, ◌++◌, ◌∷◌, [], IfOk, OnOk, length, List, map};
ghost use Rattle.std.specs.List.{All};
ghost use Rattle.cr_expand.specs.declared.held.Held.{Held as TheHeld};
ghost use Rattle.cr_macros.specs.Substitution as spec;
ghost use Rattle.cr_macros.specs.Tokens.{Text, token_of};
ghost use Rattle.cr_expand.specs.HideSets.{Grows, AreBelow};
ghost use Rattle.cr_expand.specs.Held.{held, all_held, hidden, IsKnown, AreKnown, AreTables};
ghost use Rattle.cr_expand.specs.Placing.{placed_one, IsPlacedAt, IsPlacing, ArePlaced};

use crate::held::Held;
use crate::hide_sets::{HideSet, HideSets};
use cr_base::{NameTable, OutOfMemory, PpTok};
use std::alloc::Global;

// A token at the macro's name, with more names hidden.
fn place_one(
    alloc: Global,
    sets: &mut HideSets,
    name: PpTok,
    hide: HideSet,
    h: Held,
    space: bool,
) -> Result<Held, OutOfMemory>
    requires hide { hide.0 < length sets.old }
    requires token { h.hide.0 < length sets.old }
    ensures below { (bound : ℕ) → AreBelow bound sets.old → AreBelow bound sets.new }
    ensures placed { IfOk result (λ r. IsPlacedAt sets.old sets.new name hide.0 h space r) }
{
    let all = sets.with_all(alloc, hide, h.hide)?;
    let mut token = h.token;
    token.site = name.site;
    token.line = name.line;
    token.space = space;
    Ok(Held { token, hide: all })
}

// Places each of the tokens, with its own white space, behind the others.
fn place_rest(
    alloc: Global,
    names: &NameTable,
    sets: &mut HideSets,
    name: PpTok,
    hide: HideSet,
    rest: &[Held],
    out: &mut Vec<Held>,
) -> Result<(), OutOfMemory>
    requires tables { AreTables names.now sets.old }
    requires hide { hide.0 < length sets.old }
    requires rest { AreKnown names.now sets.old rest.now }
    requires out { AreKnown names.now sets.old out.old.items }
    ensures placing { OnOk result (IsPlacing names.now sets.old sets.new (token_of names.now [] name) (hidden names.now sets.old hide.0) [] [] (all_held names.now sets.old out.old.items ++ map (placed_one (token_of names.now [] name) (hidden names.now sets.old hide.0)) (all_held names.now sets.old rest.now)) out.new.items) }
{
    for i in 0..rest.len() {
        let placed = place_one(alloc, sets, name, hide, rest[i], rest[i].token.space)?;
        out.push(placed)?;
    }
    Ok(())
}

// The first takes the white space of the macro's name.
fn place_some(
    alloc: Global,
    names: &NameTable,
    sets: &mut HideSets,
    name: PpTok,
    hide: HideSet,
    first: Held,
    rest: &[Held],
) -> Result<Vec<Held>, OutOfMemory>
    requires tables { AreTables names.now sets.old }
    requires hide { hide.0 < length sets.old }
    requires first { IsKnown names.now sets.old first }
    requires rest { AreKnown names.now sets.old rest.now }
    ensures { IfOk result (λ out. ArePlaced names.now sets.old sets.new (token_of names.now [] name) (hidden names.now sets.old hide.0) (first ∷ rest.now) out.items) }
{
    let placed = place_one(alloc, sets, name, hide, first, name.space)?;
    let mut out = Vec::new(alloc);
    out.push(placed)?;
    place_rest(alloc, names, sets, name, hide, rest, &mut out)?;
    Ok(out)
}

/// The tokens in the place of a macro's name: they have its site, the first its white space, and
/// more names are hidden from each.
pub fn place(
    alloc: Global,
    names: &NameTable,
    sets: &mut HideSets,
    name: PpTok,
    hide: HideSet,
    tokens: &[Held],
) -> Result<Vec<Held>, OutOfMemory>
    requires tables { AreTables names.now sets.old }
    requires hide { hide.0 < length sets.old }
    requires known { AreKnown names.now sets.old tokens.now }
    ensures { IfOk result (λ out. ArePlaced names.now sets.old sets.new (token_of names.now [] name) (hidden names.now sets.old hide.0) tokens.now out.items) }
{
    match tokens {
        [] => Ok(Vec::new(alloc)),
        [first, rest @ ..] => {
            let out = place_some(alloc, names, sets, name, hide, *first, rest)?;
            Ok(out)
        }
    }
}
