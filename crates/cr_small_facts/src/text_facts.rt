//! The facts of a text.
ghost use Rattle.std.specs.Prelude.{◌≡◌, length, IfOk, OnOk};
ghost use Rattle.std.specs.FinSet.{union, from_list};
ghost use Rattle.cr_small.specs.Seen.{tokens_of, key_of_code};
ghost use Rattle.cr_lex.specs.Seen.{seen};
ghost use Rattle.cr_small_facts.specs.TextFacts as spec;
ghost use Rattle.cr_small_facts.specs.TextFacts.{facts_at, fact_if, facts_if_denoted, text_facts};

use cr_base::{Key, Kind, OutOfMemory, PathNo, Place, PpTok, Role, Text};
use cr_facts::{Fact, FactSet, facts_are_ordered};
use cr_small::{Denotation, EntityKey, SmallText};
use std::alloc::Global;

/// The key, over all files, of an entity of the file of a number (C11 6.2.2).
pub fn key_over(alloc: Global, file: PathNo, key: EntityKey) -> Result<Key, OutOfMemory>
    ensures { IfOk result (λ made. made ≡ spec.key_over file.0 (key_of_code key.entry)) }
{
    Ok(match key {
        EntityKey::External(name) => Key::Ext(Text::new(alloc, name)?),
        EntityKey::At(offset) => Key::At(Place { path: file, offset }),
    })
}

fn kind_of(denoted: Denotation) -> Kind
    ensures { result ≡ spec.kind_of denoted }
{
    if denoted.function {
        Kind::Function
    } else {
        Kind::Object
    }
}

/// The facts that a text tells of the names that are spelled as the old one. The text is that of the
/// file of this number.
pub fn facts_of(
    alloc: Global,
    text: &SmallText,
    file: PathNo,
    old: &[u8],
) -> Result<FactSet, OutOfMemory>
    requires { length text.now.denotes ≡ length text.now.tokens }
    ensures { IfOk result (λ facts. facts ≡ text_facts file.0 old.now (tokens_of text.now) text.now.denotes) }
{
    facts_are_ordered();
    let mut facts = FactSet::new(alloc);
    let denotes = text.denotes.items();
    for (i, token) in text.tokens.items().iter().enumerate() {
        if text.spelling(token) == old {
            tell_token(alloc, &mut facts, text, file, token, denotes[i])?;
        }
    }
    Ok(facts)
}

// What a token tells that is spelled as the old name.
fn tell_token(
    alloc: Global,
    facts: &mut FactSet,
    text: &SmallText,
    file: PathNo,
    token: &PpTok,
    denotes: Option<Denotation>,
) -> Result<(), OutOfMemory>
    ensures { OnOk result (facts.new ≡ union facts.old (from_list (facts_if_denoted file.0 (tokens_of text.now) (seen text.now.names token.now) denotes))) }
{
    facts_are_ordered();
    let Some(denoted) = denotes else {
        return Ok(());
    };
    let Some(key) = text.key_of(denoted) else {
        return Ok(());
    };
    let key = key_over(alloc, file, key)?;
    let place = Place {
        path: file,
        offset: token.site.offset,
    };
    tell(alloc, facts, place, &key, denoted)
}

// What an identifier at a place tells that denotes the entity of the key.
fn tell(
    alloc: Global,
    facts: &mut FactSet,
    place: Place,
    key: &Key,
    denoted: Denotation,
) -> Result<(), OutOfMemory>
    ensures { OnOk result (facts.new ≡ union facts.old (from_list (facts_at place key.now denoted))) }
{
    facts_are_ordered();
    facts.insert(Fact::Denotes(place, key.copy(alloc)?))?;
    facts.insert(Fact::HasRole(place, Role::Final))?;
    facts.insert(Fact::OfKind(key.copy(alloc)?, kind_of(denoted)))?;
    tell_if(
        facts,
        denoted.declares,
        Fact::Declares(key.copy(alloc)?, place),
    )?;
    tell_if(facts, denoted.linked, Fact::FileScope(key.copy(alloc)?))?;
    Ok(())
}

fn tell_if(facts: &mut FactSet, holds: bool, fact: Fact) -> Result<(), OutOfMemory>
    ensures { OnOk result (facts.new ≡ union facts.old (from_list (fact_if holds fact))) }
{
    facts_are_ordered();
    if holds {
        facts.insert(fact)?;
    }
    Ok(())
}
