//! What the facts say of the kinds of entities.
ghost use Rattle.std.specs.Prelude.{◌≡◌, IfOk};
ghost use Rattle.cr_class.specs.RenameClass as spec;

use cr_base::{Key, Kind, OutOfMemory};
use cr_facts::{Fact, FactSet};
use std::alloc::Global;

const ORDINARY: &[Kind] = &[
    Kind::Function,
    Kind::Object,
    Kind::Typedef,
    Kind::Enumerator,
];

const RENAMABLE: &[Kind] = &[
    Kind::Function,
    Kind::Object,
    Kind::Typedef,
    Kind::Enumerator,
    Kind::Struct,
    Kind::Union,
    Kind::Enum,
    Kind::Member,
];

fn is_of_kinds(
    alloc: Global,
    facts: &FactSet,
    key: &Key,
    kinds: &[Kind],
) -> Result<bool, OutOfMemory>
    ensures { IfOk result (λ is. is ≡ spec.is_of_kinds kinds.now facts.now key.now) }
{
    for kind in kinds {
        if facts.contains(&Fact::OfKind(key.copy(alloc)?, *kind)) {
            return Ok(true);
        }
    }
    Ok(false)
}

/// Whether the entity of the key can be renamed: it is of some kind other than a label.
pub fn is_renamable(alloc: Global, facts: &FactSet, key: &Key) -> Result<bool, OutOfMemory>
    ensures { IfOk result (λ is. is ≡ spec.is_renamable facts.now key.now) }
{
    let is = is_of_kinds(alloc, facts, key, RENAMABLE)?;
    Ok(is)
}

/// Whether the entity of the key is an ordinary identifier that is declared at file scope.
pub fn is_file_scope(alloc: Global, facts: &FactSet, key: &Key) -> Result<bool, OutOfMemory>
    ensures { IfOk result (λ is. is ≡ spec.is_file_scope facts.now key.now) }
{
    if !is_of_kinds(alloc, facts, key, ORDINARY)? {
        return Ok(false);
    }
    let fact = Fact::FileScope(key.copy(alloc)?);
    Ok(facts.contains(&fact))
}
