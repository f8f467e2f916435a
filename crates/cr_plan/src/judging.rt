//! Whether what is meant may be renamed.
ghost use Rattle.std.specs.Prelude.{◌≡◌, ◌++◌, ◌∷◌, IfOk, codes};
ghost use Rattle.std.specs.Option.{option_map, option_copied};
ghost use Rattle.cr_goal.specs.Refusals.{HasReadCause, IsRefusal};
ghost use Rattle.cr_goal.specs.declared.refusal.Status.TheVariants as status;
ghost use Rattle.cr_survey.specs.Refusals as places;
ghost use Rattle.cr_survey.specs.Running.{Comes};
ghost use Rattle.cr_plan.specs.Judgement as spec;
ghost use Rattle.cr_plan.specs.Judgement.{IsJudged};

use crate::meaning::Meant;
use cr_base::{OutOfMemory, PathText, Place, Role, is_identifier};
use cr_class::{ClassFault, Refusal as Judged, Target, VerdictFault, class_of, verdict};
use cr_facts::FactSet;
use cr_goal::{Refusal, Status, refusal_of};
use cr_snapshot::Snapshot;
use cr_survey::place_text;
use std::alloc::Global;

fn role_name(role: Role) -> &'static [u8]
    ensures { result.now ≡ spec.role_name role }
{
    match role {
        Role::Final => b"final",
        Role::MacroName => b"macro-name",
        Role::Param => b"param",
        Role::Controlling => b"controlling",
        Role::Directive => b"directive",
        Role::Stringized => b"stringized",
        Role::Pasted => b"pasted",
        Role::Opaque => b"opaque",
        Role::Dropped => b"dropped",
    }
}

fn at_place(
    alloc: Global,
    snapshot: &Snapshot,
    status: Status,
    what: &[u8],
    place: Place,
) -> Refusal
    ensures { IsRefusal status (what.now ++ places.place_text snapshot.now place) result }
{
    match place_text(alloc, snapshot, place) {
        Ok(text) => refusal_of(alloc, status, what, &text),
        Err(OutOfMemory) => Refusal::OutOfMemory,
    }
}

fn use_text(
    alloc: Global,
    snapshot: &Snapshot,
    place: Place,
    role: Role,
) -> Result<Vec<u8>, OutOfMemory>
    ensures { IfOk result (λ v. v.items ≡ places.place_text snapshot.now place ++ 32 ∷ spec.role_name role) }
{
    let mut text = place_text(alloc, snapshot, place)?;
    text.push(b' ')?;
    text.extend_from_slice(role_name(role))?;
    Ok(text)
}

fn mixed(alloc: Global, snapshot: &Snapshot, place: Place, role: Role) -> Refusal
    ensures { IsRefusal status.Mixed (codes "mixed: " ++ places.place_text snapshot.now place ++ 32 ∷ spec.role_name role) result }
{
    match use_text(alloc, snapshot, place, role) {
        Ok(text) => refusal_of(alloc, Status::Mixed, b"mixed: ", &text),
        Err(OutOfMemory) => Refusal::OutOfMemory,
    }
}

// The refusal of a verdict.
fn refused_by(alloc: Global, snapshot: &Snapshot, new: &[u8], judged: Judged) -> Refusal
    ensures { IsRefusal (spec.refused_by snapshot.now new.now judged).status (spec.refused_by snapshot.now new.now judged).text result }
{
    match judged {
        Judged::Reserved => refusal_of(alloc, Status::Reserved, b"reserved: ", new),
        Judged::NewIsMacro(p) => at_place(alloc, snapshot, Status::Macro, b"macro: ", p),
        Judged::Mixed(p, role) => mixed(alloc, snapshot, p, role),
        Judged::Made(p) => at_place(alloc, snapshot, Status::Made, b"made: ", p),
        Judged::Unwritable(p) => at_place(alloc, snapshot, Status::Unwritable, b"unwritable: ", p),
        Judged::Spelling(p) => at_place(alloc, snapshot, Status::Spelling, b"spelling: ", p),
        Judged::Opaque(p) => at_place(alloc, snapshot, Status::Opaque, b"opaque: ", p),
        Judged::Capture(p) => at_place(alloc, snapshot, Status::Capture, b"capture: ", p),
    }
}

fn no_symbol(alloc: Global) -> Refusal
    ensures { IsRefusal status.NoSymbol (codes "no symbol") result }
{
    refusal_of(alloc, Status::NoSymbol, b"no symbol", b"")
}

// What is meant by a name that is an identifier.
fn named(meant: &Meant) -> Option<&Target>
    ensures { option_copied result ≡ spec.named meant.now }
{
    if is_identifier(meant.old.bytes()) {
        meant.target.as_ref()
    } else {
        None
    }
}

/// The places at which what is meant is renamed, or why it isn't, over the facts of all units.
pub fn judge(
    alloc: Global,
    facts: &FactSet,
    snapshot: &Snapshot,
    root: Option<&PathText>,
    meant: &Meant,
    new: &[u8],
) -> Result<Vec<Place>, Refusal>
    ensures judged { Comes (IsJudged snapshot.now facts.now (option_map (λ r. r.now) root.entry) meant.now.old new.now (spec.named meant.now)) (λ v. v.items) result }
    ensures cause { HasReadCause (λ p. ⊥) result }
{
    let old = meant.old.bytes();
    let Some(target) = named(meant) else {
        return Err(no_symbol(alloc));
    };
    let class = match class_of(alloc, facts, snapshot, old, target) {
        Ok(class) => class,
        Err(ClassFault::NoSymbol) => return Err(no_symbol(alloc)),
        Err(ClassFault::OutOfMemory) => return Err(Refusal::OutOfMemory),
    };
    match verdict(alloc, facts, &class, snapshot, root, old, new) {
        Ok(places) => Ok(places),
        Err(VerdictFault::Refused(judged)) => Err(refused_by(alloc, snapshot, new, judged)),
        Err(VerdictFault::OutOfMemory) => Err(Refusal::OutOfMemory),
    }
}
