//! Where the facts say that entities are declared.
ghost use Rattle.std.specs.Prelude.{◌≡◌, IfOk, map};
ghost use Rattle.cr_class.specs.Declarations.{AreDeclarations};

use cr_base::{Key, OutOfMemory, Place};
use cr_facts::{Fact, FactSet, facts_are_ordered};
use std::alloc::Global;

/// The declarations that facts tell: their keys and, beside them, their places.
#[derive(Drop)]
pub struct Declarations<'a> {
    pub keys: Vec<&'a Key>,
    pub places: Vec<Place>,
}

/// All declarations of a set of facts.
pub fn all_declarations(alloc: Global, facts: &FactSet) -> Result<Declarations<'_>, OutOfMemory>
    ensures { IfOk result (λ all. AreDeclarations facts.now (map (λ k. k.now) all.keys.items) all.places.items) }
{
    facts_are_ordered();
    let mut keys = Vec::new(alloc);
    let mut places = Vec::new(alloc);
    for fact in facts.iter() {
        if let Fact::Declares(key, place) = fact {
            keys.push(key)?;
            places.push(*place)?;
        }
    }
    Ok(Declarations { keys, places })
}
