//! Whether the entities of a class may be renamed.
ghost use Rattle.std.specs.Prelude.{◌≡◌, ◌<◌, ℕ, Err, IfOk, OnOk};
ghost use Rattle.std.specs.Option.{option_map};
ghost use Rattle.cr_class.specs.declared.refusal.Refusal.{Refusal as AnyRefusal};
ghost use Rattle.cr_class.specs.declared.refusal.VerdictFault.TheVariants as fault;
ghost use Rattle.cr_class.specs.Accepted.{NothingRefuses};
ghost use Rattle.cr_class.specs.Verdict.{Refuses, IsFirstRefusal};
ghost use Rattle.cr_class.specs.Judging.{PassesStep, RefusesFirst};

use crate::class::Class;
use crate::laws::an_accepted_verdict_tells_of_each_fact;
use crate::question::{Question, copied_places, members_of};
use crate::refusal::VerdictFault;
use crate::steps::{
    refuse_capture, refuse_macro, refuse_made, refuse_mixed, refuse_opaque, refuse_reserved,
    refuse_spelling, refuse_unwritable,
};
use cr_base::{PathText, Place};
use cr_facts::FactSet;
use cr_snapshot::Snapshot;
use std::alloc::Global;

// Refuses with the first refusal in the order of the steps.
fn judge(alloc: Global, question: &Question) -> Result<(), VerdictFault>
    ensures ok { OnOk result ((step : ℕ) → step < 8 → PassesStep question.now step) }
    ensures refused { (r : AnyRefusal) → result ≡ Err (fault.Refused r) → RefusesFirst question.now r }
{
    let members = members_of(alloc, question.class)?;
    refuse_reserved(question, &members)?;
    refuse_macro(alloc, question)?;
    refuse_mixed(alloc, question, &members)?;
    refuse_made(alloc, question, &members)?;
    refuse_unwritable(alloc, question)?;
    refuse_spelling(alloc, question)?;
    refuse_opaque(alloc, question)?;
    refuse_capture(alloc, question, &members)?;
    Ok(())
}

/// The places of a class, where the new name may stand in the place of the old one at each of them; else
/// the first refusal in the order of `Refusal`, with its place. The facts are those of all units.
///
/// An edit reaches only files below `root`, where one is given, and never a path that begins with `//`.
pub fn verdict(
    alloc: Global,
    facts: &FactSet,
    class: &Class,
    snapshot: &Snapshot,
    root: Option<&PathText>,
    old: &[u8],
    new: &[u8],
) -> Result<Vec<Place>, VerdictFault>
    ensures places { IfOk result (λ places. places.items ≡ class.now.places) }
    ensures ok { IfOk result (λ places. (r : AnyRefusal) → Refuses facts.now class.now snapshot.now (option_map (λ r. r.now) root.entry) old.now new.now r → ⊥) }
    ensures accepted { IfOk result (λ places. NothingRefuses facts.now class.now snapshot.now (option_map (λ r. r.now) root.entry) old.now new.now) }
    ensures refused { (r : AnyRefusal) → result ≡ Err (fault.Refused r) → IsFirstRefusal facts.now class.now snapshot.now (option_map (λ r. r.now) root.entry) old.now new.now r }
{
    an_accepted_verdict_tells_of_each_fact();
    let question = Question {
        facts,
        class,
        snapshot,
        root,
        old,
        new,
    };
    if let Err(fault) = judge(alloc, &question) {
        return Err(fault);
    }
    let places = copied_places(alloc, class.places.items())?;
    Ok(places)
}
