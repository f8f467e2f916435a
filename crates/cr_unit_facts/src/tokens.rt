//! Facts of identifiers by their spelling alone.
ghost use Rattle.std.specs.Prelude.{◌≡◌, true, length, IfOk, OnOk};
ghost use Rattle.cr_ll.specs.Guards as guards;
ghost use Rattle.cr_facts.specs.declared.fact.Fact.TheVariants as fact;
ghost use Rattle.cr_groups.specs.Adding.{Adds};
ghost use Rattle.cr_groups.specs.Firsts.{AreFirsts};
ghost use Rattle.cr_groups.specs.Rows.{IsOneOf};
ghost use Rattle.cr_binding.specs.UnitConflicts.{place_by};
ghost use Rattle.cr_unit_facts.specs.Telling as spec;
ghost use Rattle.cr_unit_facts.specs.Telling.{RoleAt, SpelledTells, TokensTell, is_noted, itself};

use cr_base::{Origin, OutOfMemory, Place, Role, Tok, TokKind};
use cr_facts::{Fact, FactSet};
use cr_groups::{Names, add_fact, first_at, is_one_of, is_same, note_first};
use indexmap::IndexMap;
use std::alloc::Global;

fn number_of(token: u32) -> Option<usize>
    ensures { result ≡ itself token }
{
    Some(token as usize)
}

/// Finds the tokens that stand in the brackets of attributes.
pub fn hidden_of(alloc: Global, hidden: &[u32]) -> Result<IndexMap<usize, usize>, OutOfMemory>
    ensures { IfOk result (λ firsts. AreFirsts itself
        hidden.now firsts.entries (length hidden.now)) }
{
    let mut firsts = IndexMap::new(alloc);
    let mut i = 0;
    'each: while i < hidden.len() {
        note_first(&mut firsts, number_of(hidden[i]), i)?;
        i += 1;
    }
    Ok(firsts)
}

fn is_name(kind: TokKind) -> bool
    ensures { result ≡ guards.is_name kind }
{
    match kind {
        TokKind::Ident => true,
        _ => false,
    }
}

fn role_of(hidden: bool) -> Role
    ensures { result ≡ spec.role_of hidden }
{
    if hidden { Role::Opaque } else { Role::Final }
}

// Adds a role of an identifier, where it stands at a place.
fn add_role(facts: &mut FactSet, origin: Origin, role: Role) -> Result<(), OutOfMemory>
    ensures { OnOk result (Adds facts.old facts.new (λ f. RoleAt role f origin)) }
{
    match origin {
        Origin::At(place) => {
            add_fact(facts, Fact::HasRole(place, role))?;
            Ok(())
        }
        Origin::Made => Ok(()),
    }
}

// Adds the role of an identifier of the old name.
fn add_if_old(
    facts: &mut FactSet,
    names: Names,
    hidden: bool,
    token: Tok,
) -> Result<(), OutOfMemory>
    ensures { OnOk result (Adds facts.old facts.new (λ f. (token.text ≡ names.old)
        × RoleAt (spec.role_of hidden) f token.origin)) }
{
    if !is_same(token.text, names.old) {
        return Ok(());
    }
    add_role(facts, token.origin, role_of(hidden))?;
    Ok(())
}

// The place of a token; where preprocessing made it, the place of the outermost macro's name.
fn place_of(token: Tok) -> Place
    ensures { result ≡ place_by token.site token.origin }
{
    match token.origin {
        Origin::At(place) => place,
        Origin::Made => token.site,
    }
}

// Adds that one of the names stands where it means nothing that is known, where it does.
fn add_opaque(
    facts: &mut FactSet,
    names: Names,
    hidden: bool,
    token: Tok,
) -> Result<(), OutOfMemory>
    ensures { OnOk result (Adds facts.old facts.new (λ f. IsOneOf names.old names.new token.text
        × (hidden ≡ true) × (f ≡ fact.OpaqueAt (place_by token.site token.origin)))) }
{
    if !is_one_of(names, token.text) {
        return Ok(());
    }
    if !hidden {
        return Ok(());
    }
    add_fact(facts, Fact::OpaqueAt(place_of(token)))?;
    Ok(())
}

// Adds what an identifier tells by its spelling.
fn add_spelled(
    facts: &mut FactSet,
    names: Names,
    hidden: bool,
    token: Tok,
) -> Result<(), OutOfMemory>
    ensures { OnOk result (Adds facts.old facts.new
        (SpelledTells names.old names.new hidden token)) }
{
    if !is_name(token.kind) {
        return Ok(());
    }
    add_if_old(facts, names, hidden, token)?;
    add_opaque(facts, names, hidden, token)?;
    Ok(())
}

// Adds what a token tells by its spelling and its number.
fn add_token(
    facts: &mut FactSet,
    hidden: &IndexMap<usize, usize>,
    names: Names,
    i: usize,
    token: Tok,
) -> Result<(), OutOfMemory>
    ensures { OnOk result (Adds facts.old facts.new
        (SpelledTells names.old names.new (is_noted hidden.now.entries i) token)) }
{
    if !is_one_of(names, token.text) {
        return Ok(());
    }
    let is_hidden = first_at(hidden, i).is_some();
    add_spelled(facts, names, is_hidden, token)?;
    Ok(())
}

/// Adds what the tokens of a unit tell by their spelling.
pub fn add_all_tokens(
    facts: &mut FactSet,
    tokens: &[Tok],
    hidden: &IndexMap<usize, usize>,
    names: Names,
) -> Result<(), OutOfMemory>
    ensures { OnOk result (Adds facts.old facts.new (TokensTell tokens.now names.old names.new
        (is_noted hidden.now.entries) (length tokens.now))) }
{
    let mut i = 0;
    'each: while i < tokens.len() {
        add_token(facts, hidden, names, i, tokens[i])?;
        i += 1;
    }
    Ok(())
}
