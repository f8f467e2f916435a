//! Facts of identifiers that mean an entity.
ghost use Rattle.std.specs.Prelude.{◌≡◌, ◌<◌, ◌⊎◌, true, length, slice_index_or, OnOk};
ghost use Rattle.cr_base.specs.declared.key.Kind.{Kind};
ghost use Rattle.cr_facts.specs.declared.fact.Fact.TheVariants as fact;
ghost use Rattle.cr_groups.specs.Adding.{Adds};
ghost use Rattle.cr_unit_facts.specs.Occurring.{IsOfNature, SaysAt, TokenSays, NatureSays, KindSays, PlaceSays};

use crate::nature::Nature;
use cr_base::{Key, Kind, Origin, OutOfMemory, Place, Tok};
use cr_facts::{Fact, FactSet};
use cr_groups::add_fact;
use std::alloc::Global;

// Adds that an entity is of a kind, where there is one.
fn add_kind(
    alloc: Global,
    facts: &mut FactSet,
    key: &Key,
    kind: Option<Kind>,
) -> Result<(), OutOfMemory>
    ensures { OnOk result (Adds facts.old facts.new (KindSays key.now kind)) }
{
    let Some(kind) = kind else {
        return Ok(());
    };
    let key = key.copy(alloc)?;
    add_fact(facts, Fact::OfKind(key, kind))?;
    Ok(())
}

// Adds that an entity has a declaration at file scope, where it has.
fn add_file_scope(
    alloc: Global,
    facts: &mut FactSet,
    key: &Key,
    file_scope: bool,
) -> Result<(), OutOfMemory>
    ensures { OnOk result (Adds facts.old facts.new
        (λ f. (file_scope ≡ true) × (f ≡ fact.FileScope key.now))) }
{
    if !file_scope {
        return Ok(());
    }
    let key = key.copy(alloc)?;
    add_fact(facts, Fact::FileScope(key))?;
    Ok(())
}

// Adds the nature of an entity.
fn add_nature(
    alloc: Global,
    facts: &mut FactSet,
    key: &Key,
    nature: Nature,
) -> Result<(), OutOfMemory>
    ensures { OnOk result (Adds facts.old facts.new (NatureSays key.now nature)) }
{
    add_kind(alloc, facts, key, nature.kind)?;
    add_kind(alloc, facts, key, nature.other)?;
    add_file_scope(alloc, facts, key, nature.file_scope)?;
    Ok(())
}

// Adds that a place denotes an entity, and that it declares it, where it does.
fn add_place(
    alloc: Global,
    facts: &mut FactSet,
    key: &Key,
    place: Place,
    declares: bool,
) -> Result<(), OutOfMemory>
    ensures { OnOk result (Adds facts.old facts.new (PlaceSays declares key.now place)) }
{
    let denoted = key.copy(alloc)?;
    add_fact(facts, Fact::Denotes(place, denoted))?;
    if !declares {
        return Ok(());
    }
    let declared = key.copy(alloc)?;
    add_fact(facts, Fact::Declares(declared, place))?;
    Ok(())
}

// Adds what an identifier at a place tells of an entity.
fn add_at(
    alloc: Global,
    facts: &mut FactSet,
    key: &Key,
    place: Place,
    declares: bool,
    nature: Nature,
) -> Result<(), OutOfMemory>
    ensures { OnOk result (Adds facts.old facts.new (SaysAt (declares ≡ true) (IsOfNature nature)
        (nature.file_scope ≡ true) key.now place)) }
{
    add_place(alloc, facts, key, place, declares)?;
    add_nature(alloc, facts, key, nature)?;
    Ok(())
}

// Adds what an identifier that preprocessing made tells of an entity.
fn add_made(alloc: Global, facts: &mut FactSet, key: &Key, site: Place) -> Result<(), OutOfMemory>
    ensures { OnOk result (Adds facts.old facts.new (λ f. f ≡ fact.MadeDenotes key.now site)) }
{
    let key = key.copy(alloc)?;
    add_fact(facts, Fact::MadeDenotes(key, site))?;
    Ok(())
}

/// Adds what a token tells of an entity, by the entity's key and nature, and by whether the token declares it.
pub fn add_occurrence(
    alloc: Global,
    facts: &mut FactSet,
    tokens: &[Tok],
    token: u32,
    key: &Key,
    declares: bool,
    nature: Nature,
) -> Result<(), OutOfMemory>
    requires { token < length tokens.now }
    ensures { OnOk result (Adds facts.old facts.new
        (TokenSays tokens.now token declares nature key.now)) }
{
    match tokens[token as usize].origin {
        Origin::At(place) => {
            add_at(alloc, facts, key, place, declares, nature)?;
            Ok(())
        }
        Origin::Made => {
            add_made(alloc, facts, key, tokens[token as usize].site)?;
            Ok(())
        }
    }
}
