//! The facts of a unit.
ghost use Rattle.std.specs.Prelude.{IfOk};
ghost use Rattle.cr_ll.specs.Derivation.{Trees};
ghost use Rattle.cr_binding.specs.WellFormed.{IsWellFormed};
ghost use Rattle.cr_groups.specs.Rows.{source_of};
ghost use Rattle.cr_bound_facts.specs.Bound.{HaveTexts, IsKeptOf, AreFacts};

use crate::rows::{members_of, tokens_of};
use cr_base::{NameTable, OutOfMemory, Tok};
use cr_bound::Bound;
use cr_facts::FactSet;
use cr_groups::Names;
use cr_sound_law::{bound_things_are_at_tokens, members_are_unique, uses_are_sound};
use cr_unit_facts::facts_of_unit;
use cr_unit_law::units_are_one;
use std::alloc::Global;

/// The facts that the binding of a well-formed unit tells for the renaming of one name to another: what the identifiers of the
/// old name mean, what is known of the entities of both names, and where a renaming would change a meaning. Those of
/// preprocessing aren't among them.
///
/// The unit is told by its number, its tokens with the table of their texts, and what is kept of its binding; the names by
/// their numbers in the table.
pub fn facts_of_bound(
    alloc: Global,
    unit: u32,
    tokens: &[Tok],
    table: &NameTable,
    bound: &Bound,
    names: Names,
) -> Result<FactSet, OutOfMemory>
    requires texts { HaveTexts table.now tokens.now }
    requires kept { let t = source_of table.now tokens.now in
        (tree : Trees) × IsWellFormed t tree × IsKeptOf t bound.now tree }
    ensures { let t = source_of table.now tokens.now in
        IfOk result (λ facts. (tree : Trees) → IsWellFormed t tree
        → AreFacts unit t tree names.old names.new facts) }
{
    uses_are_sound();
    bound_things_are_at_tokens();
    members_are_unique();
    units_are_one();
    let members = members_of(alloc, bound.records())?;
    let records = tokens_of(alloc, bound.records().rows())?;
    let declared = bound.names().declared();
    let facts = facts_of_unit(
        alloc,
        unit,
        tokens,
        table,
        declared.paths(),
        declared.rows(),
        bound.names().uses(),
        &members,
        &records,
        bound.names().hidden(),
        names,
    )?;
    Ok(facts)
}
