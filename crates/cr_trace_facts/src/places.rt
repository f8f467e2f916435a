//! Facts of places alone.
ghost use Rattle.std.specs.Prelude.{OnOk};
ghost use Rattle.cr_groups.specs.Adding.{Adds};
ghost use Rattle.cr_trace_facts.specs.Telling.{Among, DefinesNew, IsInBody, IsOpaque};

use cr_base::{OutOfMemory, Place};
use cr_facts::{Fact, FactSet};
use cr_groups::add_fact;

/// Adds the places at which the new name is defined as a macro.
pub fn add_new_macros(facts: &mut FactSet, places: &[Place]) -> Result<(), OutOfMemory>
    ensures { OnOk result (Adds facts.old facts.new (Among DefinesNew places.now)) }
{
    for place in places {
        add_fact(facts, Fact::NewMacro(*place))?;
    }
    Ok(())
}

/// Adds the places of the old name in bodies of macros with a parameter that is spelled as the new one.
pub fn add_body_params(facts: &mut FactSet, places: &[Place]) -> Result<(), OutOfMemory>
    ensures { OnOk result (Adds facts.old facts.new (Among IsInBody places.now)) }
{
    for place in places {
        add_fact(facts, Fact::BodyParam(*place))?;
    }
    Ok(())
}

/// Adds the places in pragmas.
pub fn add_opaque(facts: &mut FactSet, places: &[Place]) -> Result<(), OutOfMemory>
    ensures { OnOk result (Adds facts.old facts.new (Among IsOpaque places.now)) }
{
    for place in places {
        add_fact(facts, Fact::OpaqueAt(*place))?;
    }
    Ok(())
}
