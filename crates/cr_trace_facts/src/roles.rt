//! Facts of what identifiers were taken for.
ghost use Rattle.std.specs.Prelude.{OnOk};
ghost use Rattle.cr_groups.specs.Adding.{Adds};
ghost use Rattle.cr_trace_facts.specs.Telling.{RoleTells, Among};

use cr_base::{OutOfMemory, Role};
use cr_facts::{Fact, FactSet};
use cr_groups::add_fact;
use cr_macros::Seen;

// Adds what an identifier was taken for, unless it is a final token: the unit's binding tells of those.
fn add_role(facts: &mut FactSet, one: Seen) -> Result<(), OutOfMemory>
    ensures { OnOk result (Adds facts.old facts.new (RoleTells one)) }
{
    match one.role {
        Role::Final => Ok(()),
        role => add_fact(facts, Fact::HasRole(one.place, role)),
    }
}

/// Adds what identifiers were taken for, but for final tokens.
pub fn add_roles(facts: &mut FactSet, seen: &[Seen]) -> Result<(), OutOfMemory>
    ensures { OnOk result (Adds facts.old facts.new (Among RoleTells seen.now)) }
{
    for one in seen {
        add_role(facts, *one)?;
    }
    Ok(())
}
