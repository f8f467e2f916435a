//! Facts that are added to a set.
ghost use Rattle.std.specs.Prelude.{◌≡◌, OnOk};
ghost use Rattle.cr_groups.specs.Adding.{Adds};

use cr_base::OutOfMemory;
use cr_facts::{Fact, FactSet, facts_are_ordered};

/// Adds a fact to a set: the set has more exactly this one.
pub fn add_fact(facts: &mut FactSet, fact: Fact) -> Result<(), OutOfMemory>
    ensures { OnOk result (Adds facts.old facts.new (λ f. f ≡ fact)) }
{
    facts_are_ordered();
    facts.insert(fact)?;
    Ok(())
}
