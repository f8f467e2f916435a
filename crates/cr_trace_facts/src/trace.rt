//! All that a trace tells.
ghost use Rattle.std.specs.Prelude.{OnOk};
ghost use Rattle.cr_groups.specs.Adding.{Adds};
ghost use Rattle.cr_keeps.specs.UnitFacts.{TraceTells};
ghost use Rattle.cr_trace_facts.specs.Telling.{trace_with};

use crate::places::{add_body_params, add_new_macros, add_opaque};
use crate::roles::add_roles;
use cr_base::{OutOfMemory, Place};
use cr_facts::FactSet;
use cr_macros::Seen;

/// Adds to a set of facts what the preprocessing of a unit tells of two names (C11 5.1.1.2, phase 4): what each identifier
/// of theirs was taken for, the places at which the new one is defined as a macro, those of the old one in bodies of macros
/// with a parameter that is spelled as the new one, and those in pragmas.
///
/// That an identifier is a final token isn't told: what it means is for the unit's binding.
pub fn add_trace(
    facts: &mut FactSet,
    seen: &[Seen],
    new_macros: &[Place],
    body_params: &[Place],
    opaque: &[Place],
) -> Result<(), OutOfMemory>
    ensures { OnOk result (Adds facts.old facts.new
        (TraceTells (trace_with seen.now new_macros.now body_params.now opaque.now))) }
{
    add_roles(facts, seen)?;
    add_new_macros(facts, new_macros)?;
    add_body_params(facts, body_params)?;
    add_opaque(facts, opaque)?;
    Ok(())
}
