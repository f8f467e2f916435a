//! The steps of a verdict, each of which refuses with the first of its places.
ghost use Rattle.std.specs.Prelude.{◌≡◌, ◌≢◌, ◌<◌, ◌↔◌, ◌∷◌, Option, Some, None, Err, IfOk, OnOk, MatchOption, length, true};
ghost use Rattle.std.specs.List.{Contains};
ghost use Rattle.cr_base.specs.declared.token.Place.{Place as AnyPlace};
ghost use Rattle.cr_class.specs.declared.uses.Use.{Use as AnyUse};
ghost use Rattle.cr_class.specs.declared.refusal.Refusal.{Refusal as AnyRefusal};
ghost use Rattle.cr_class.specs.declared.refusal.VerdictFault.TheVariants as fault;
ghost use Rattle.cr_class.specs.ShownOrder.{shown_cmp};
ghost use Rattle.cr_class.specs.Declarations.{lesser, least};
ghost use Rattle.cr_class.specs.Verdict as spec;
ghost use Rattle.cr_class.specs.Verdict.{use_cmp};
ghost use Rattle.cr_class.specs.Judging.{HasMembers, PassesStep, RefusesAt, HasNoClash, IsClash};

use crate::files::{unspellable_places, unwritable_places};
use crate::places::{
    capture_places, has_clash, macro_places, made_places, mixed_uses, opaque_places,
};
use crate::question::{Members, Question};
use crate::refusal::{Refusal, VerdictFault};
use crate::target::{compare_shown, first_shown};
use crate::uses::Use;
use cr_base::Place;
use cr_facts::{Fact, facts_are_ordered};
use cr_snapshot::Snapshot;
use std::alloc::Global;
use std::cmp::Ordering;

// The place that is shown first.
fn least_place(snapshot: &Snapshot, places: &[Place]) -> Option<Place>
    ensures { result ≡ least (shown_cmp snapshot.now) None places.now }
{
    let mut best = None;
    for place in places {
        best = Some(first_shown(snapshot, best, *place));
    }
    best
}

// The one of two uses that is shown first: by place, then by role.
fn first_use(snapshot: &Snapshot, best: Option<Use>, other: Use) -> Use
    ensures { result ≡ lesser (use_cmp snapshot.now) best other }
{
    match best {
        None => other,
        Some(best) => {
            let places = compare_shown(snapshot, other.place, best.place);
            if places.then(other.role.cmp(&best.role)) == Ordering::Less {
                other
            } else {
                best
            }
        }
    }
}

// The use that is shown first.
fn least_use(snapshot: &Snapshot, uses: &[Use]) -> Option<Use>
    ensures { result ≡ least (use_cmp snapshot.now) None uses.now }
{
    let mut best = None;
    for other in uses {
        best = Some(first_use(snapshot, best, *other));
    }
    best
}

// Whether the class has an ordinary identifier or a tag of file scope.
fn has_file_scope(question: &Question, members: &Members) -> bool
    requires { HasMembers question.now members.now }
    ensures yes { result ≡ true → spec.HasFileScope question.now.facts.now question.now.class.now }
    ensures no { spec.HasFileScope question.now.facts.now question.now.class.now → result ≡ true }
{
    facts_are_ordered();
    for fact in question.facts.iter() {
        if let Fact::FileScope(key) = fact {
            if members.keys.contains(key) {
                return true;
            }
        }
    }
    false
}

fn is_underscored(name: &[u8]) -> bool
    ensures { result ≡ spec.is_underscored name.now }
{
    match name {
        [first, ..] => *first == b'_',
        [] => false,
    }
}

pub fn refuse_reserved(question: &Question, members: &Members) -> Result<(), VerdictFault>
    requires { HasMembers question.now members.now }
    ensures ok { OnOk result (PassesStep question.now 0) }
    ensures refused { (r : AnyRefusal) → result ≡ Err (fault.Refused r) → RefusesAt question.now 0 r }
{
    if is_underscored(question.new) && has_file_scope(question, members) {
        return Err(VerdictFault::Refused(Refusal::Reserved));
    }
    Ok(())
}

pub fn refuse_macro(alloc: Global, question: &Question) -> Result<(), VerdictFault>
    ensures ok { OnOk result (PassesStep question.now 1) }
    ensures refused { (r : AnyRefusal) → result ≡ Err (fault.Refused r) → RefusesAt question.now 1 r }
{
    facts_are_ordered();
    let places = macro_places(alloc, question.facts)?;
    match least_place(question.snapshot, &places) {
        None => Ok(()),
        Some(place) => Err(VerdictFault::Refused(Refusal::NewIsMacro(place))),
    }
}

pub fn refuse_mixed(
    alloc: Global,
    question: &Question,
    members: &Members,
) -> Result<(), VerdictFault>
    requires { HasMembers question.now members.now }
    ensures ok { OnOk result (PassesStep question.now 2) }
    ensures refused { (r : AnyRefusal) → result ≡ Err (fault.Refused r) → RefusesAt question.now 2 r }
{
    facts_are_ordered();
    let uses = mixed_uses(alloc, question.facts, members)?;
    match least_use(question.snapshot, &uses) {
        None => Ok(()),
        Some(mixed) => Err(VerdictFault::Refused(Refusal::Mixed(mixed.place, mixed.role))),
    }
}

pub fn refuse_made(
    alloc: Global,
    question: &Question,
    members: &Members,
) -> Result<(), VerdictFault>
    requires { HasMembers question.now members.now }
    ensures ok { OnOk result (PassesStep question.now 3) }
    ensures refused { (r : AnyRefusal) → result ≡ Err (fault.Refused r) → RefusesAt question.now 3 r }
{
    facts_are_ordered();
    let places = made_places(alloc, question.facts, members)?;
    match least_place(question.snapshot, &places) {
        None => Ok(()),
        Some(place) => Err(VerdictFault::Refused(Refusal::Made(place))),
    }
}

pub fn refuse_unwritable(alloc: Global, question: &Question) -> Result<(), VerdictFault>
    ensures ok { OnOk result (PassesStep question.now 4) }
    ensures refused { (r : AnyRefusal) → result ≡ Err (fault.Refused r) → RefusesAt question.now 4 r }
{
    let class = question.class.places.items();
    let places = unwritable_places(alloc, question.snapshot, question.root, class)?;
    match least_place(question.snapshot, &places) {
        None => Ok(()),
        Some(place) => Err(VerdictFault::Refused(Refusal::Unwritable(place))),
    }
}

pub fn refuse_spelling(alloc: Global, question: &Question) -> Result<(), VerdictFault>
    ensures ok { OnOk result (PassesStep question.now 5) }
    ensures refused { (r : AnyRefusal) → result ≡ Err (fault.Refused r) → RefusesAt question.now 5 r }
{
    let class = question.class.places.items();
    let places = unspellable_places(alloc, question.snapshot, question.old, question.new, class)?;
    match least_place(question.snapshot, &places) {
        None => Ok(()),
        Some(place) => Err(VerdictFault::Refused(Refusal::Spelling(place))),
    }
}

pub fn refuse_opaque(alloc: Global, question: &Question) -> Result<(), VerdictFault>
    ensures ok { OnOk result (PassesStep question.now 6) }
    ensures refused { (r : AnyRefusal) → result ≡ Err (fault.Refused r) → RefusesAt question.now 6 r }
{
    facts_are_ordered();
    let places = opaque_places(alloc, question.facts)?;
    match least_place(question.snapshot, &places) {
        None => Ok(()),
        Some(place) => Err(VerdictFault::Refused(Refusal::Opaque(place))),
    }
}

pub fn refuse_capture(
    alloc: Global,
    question: &Question,
    members: &Members,
) -> Result<(), VerdictFault>
    requires { HasMembers question.now members.now }
    ensures ok { OnOk result (PassesStep question.now 7) }
    ensures refused { (r : AnyRefusal) → result ≡ Err (fault.Refused r) → RefusesAt question.now 7 r }
{
    facts_are_ordered();
    let places = capture_places(alloc, question.facts, members)?;
    match least_place(question.snapshot, &places) {
        None => refuse_clash(alloc, question),
        Some(place) => Err(VerdictFault::Refused(Refusal::Capture(place))),
    }
}

// An entity of the class that would become one with another: the least place of the class shows it.
fn refuse_clash(alloc: Global, question: &Question) -> Result<(), VerdictFault>
    ensures ok { OnOk result (HasNoClash question.now) }
    ensures refused { (r : AnyRefusal) → result ≡ Err (fault.Refused r) → IsClash question.now r }
{
    let class = question.class.places.items();
    if !has_clash(
        alloc,
        question.facts,
        question.class.keys.items(),
        question.new,
    )? {
        return Ok(());
    }
    match least_place(question.snapshot, class) {
        None => Ok(()),
        Some(place) => Err(VerdictFault::Refused(Refusal::Capture(place))),
    }
}
