//! A batch of units, up to what they tell.
ghost use Rattle.std.specs.Prelude.{◌≡◌, ◌≤◌, ◌+◌, ℕ, List as ListOf, Ok, Err, Some, None, length, map, true, IfOk, OnOk};
ghost use Rattle.std.specs.List.{Contains};
ghost use Rattle.cr_base.specs.declared.unit.Unit.{Unit as TranslationUnit};
ghost use Rattle.cr_world.specs.Outside.{Files, Rose, OnlyRead, ReadsOnly};
ghost use Rattle.cr_snapshot.specs.Files.{apart_paths};
ghost use Rattle.cr_snapshot.specs.declared.known.KnownFile.{KnownFile};
ghost use Rattle.cr_phase4.specs.PreprocessingRun.{Agrees};
ghost use Rattle.cr_phase4.specs.Search.{world_of};
ghost use Rattle.cr_growth.specs.Growing.{HasCause, Grows};
ghost use Rattle.cr_growth.specs.Growth.{IsGrown};
ghost use Rattle.cr_growth.specs.declared.grow.GrowFault.TheVariants as fault;
ghost use Rattle.cr_goal.specs.Refusals.{HasReadCause};
ghost use Rattle.cr_survey.specs.Batches.{LooksFor, Tell, IsBatch};
ghost use Rattle.cr_survey.specs.Running.{AreEnds, Want, Comes, IsTold, IsOfWords, unit_of, after_runs};

use crate::refusals::{bad_unit, of_growth};
use crate::running::{Renaming, Running, are_settled, run_again, start, wants};
use crate::words::know_words;
use cr_base::Unit;
use cr_facts::FactSet;
use cr_goal::Refusal;
use cr_growth::{GrowFault, know_wanted};
use cr_snapshot::{KnowFault, Snapshot};
use cr_unit_end::UnitEnd;
use cr_world::Tree;
use std::alloc::Global;

// What units want is made known, in their order.
fn know_all<T: Tree>(
    alloc: Global,
    tree: &mut T,
    snapshot: &mut Snapshot,
    runs: &[Running<'_>],
) -> Result<(), GrowFault>
    ensures reads { ReadsOnly (T.files tree.old) (T.files tree.new) (T.reads tree.old) (T.reads tree.new) (T.replaces tree.old) (T.replaces tree.new) (T.replacings tree.old) (T.replacings tree.new) }
    ensures asked { OnlyRead (λ p. Want runs.now p) (T.readings tree.old) (T.readings tree.new) }
    ensures grows { (files : Files) → T.files tree.old ≡ Some files → Grows (after_runs files runs.now snapshot.old) snapshot.old snapshot.new result }
    ensures cause { HasCause (λ p. Want runs.now p × Rose (T.reads tree.old p) (T.reads tree.new p)) result }
    ensures apart { apart_paths snapshot.new ≡ apart_paths snapshot.old }
    ensures agrees { Agrees (world_of snapshot.old) (world_of snapshot.new) }
{
    match runs {
        [] => Ok(()),
        [run, rest @ ..] => {
            know_wanted(alloc, tree, snapshot, wants(&run.end))?;
            know_all(alloc, tree, snapshot, rest)
        }
    }
}

// A wave: what units want is made known, and those that wanted it run again.
fn run_wave<'a, T: Tree>(
    alloc: Global,
    tree: &mut T,
    snapshot: &mut Snapshot,
    runs: Vec<Running<'a>>,
    renaming: Renaming<'_>,
) -> Result<Vec<Running<'a>>, GrowFault>
    ensures reads { ReadsOnly (T.files tree.old) (T.files tree.new) (T.reads tree.old) (T.reads tree.new) (T.replaces tree.old) (T.replaces tree.new) (T.replacings tree.old) (T.replacings tree.new) }
    ensures asked { OnlyRead (λ p. Want runs.entry.items p) (T.readings tree.old) (T.readings tree.new) }
    ensures units { IfOk result (λ again. map unit_of again.items ≡ map unit_of runs.entry.items) }
    ensures ends { AreEnds snapshot.old renaming.entry.old.now renaming.entry.new.now runs.entry.items
        → IfOk result (λ again. AreEnds snapshot.new renaming.entry.old.now renaming.entry.new.now again.items) }
    ensures grows { (files : Files) → T.files tree.old ≡ Some files → OnOk result (after_runs files runs.entry.items snapshot.old ≡ Some snapshot.new) }
    ensures limit { (files : Files) → T.files tree.old ≡ Some files → result ≡ Err fault.LimitFiles → after_runs files runs.entry.items snapshot.old ≡ None }
    ensures cause { HasCause (λ p. Want runs.entry.items p × Rose (T.reads tree.old p) (T.reads tree.new p)) result }
    ensures apart { apart_paths snapshot.new ≡ apart_paths snapshot.old }
{
    know_all(alloc, tree, snapshot, &runs)?;
    let again = run_again(alloc, runs, snapshot, renaming)?;
    Ok(again)
}

// Far more waves than there are paths to make known.
const MOST_WAVES: u32 = 1_000_000_000;

// The ends of a batch's units, once none wants more.
fn run_batch<'a, T: Tree>(
    alloc: Global,
    tree: &mut T,
    snapshot: &mut Snapshot,
    batch: &'a [Unit],
    renaming: Renaming<'_>,
) -> Result<Vec<Running<'a>>, GrowFault>
    ensures reads { ReadsOnly (T.files tree.old) (T.files tree.new) (T.reads tree.old) (T.reads tree.new) (T.replaces tree.old) (T.replaces tree.new) (T.replacings tree.old) (T.replacings tree.new) }
    ensures asked { OnlyRead (LooksFor batch.now) (T.readings tree.old) (T.readings tree.new) }
    ensures units { IfOk result (λ runs. map unit_of runs.items ≡ batch.now) }
    ensures ends { IfOk result (λ runs. AreEnds snapshot.new renaming.entry.old.now renaming.entry.new.now runs.items) }
    ensures grown { (files : Files) → T.files tree.old ≡ Some files → OnOk result (IsGrown files batch.now snapshot.old (Some snapshot.new)) }
    ensures limit { (files : Files) → T.files tree.old ≡ Some files → result ≡ Err fault.LimitFiles → IsGrown files batch.now snapshot.old None }
    ensures cause { HasCause (λ p. LooksFor batch.now p × Rose (T.reads tree.old p) (T.reads tree.new p)) result }
    ensures apart { apart_paths snapshot.new ≡ apart_paths snapshot.old }
{
    let mut runs = start(alloc, batch, snapshot, renaming)?;
    for _ in 0..MOST_WAVES {
        if are_settled(&runs) {
            return Ok(runs);
        }
        runs = run_wave(alloc, tree, snapshot, runs, renaming)?;
    }
    Err(GrowFault::OutOfMemory)
}

// What a unit tells that ended so.
fn tell_one(
    alloc: Global,
    snapshot: &Snapshot,
    run: &Running<'_>,
    facts: &mut FactSet,
) -> Result<(), Refusal>
    ensures cause { HasReadCause (λ p. ⊥) result }
    ensures told { Comes (IsTold snapshot.now run.now facts.old) (λ _. facts.new) result }
{
    match &run.end {
        UnitEnd::Facts(more) => {
            facts.union(more)?;
            Ok(())
        }
        UnitEnd::Wants(_) => Err(Refusal::OutOfMemory),
        UnitEnd::Ill(cause, place) => {
            Err(bad_unit(alloc, snapshot, run.unit.number, *cause, *place))
        }
    }
}

// What units tell, up to the first that is ill-formed.
fn tell(
    alloc: Global,
    snapshot: &Snapshot,
    runs: &[Running<'_>],
    facts: &mut FactSet,
) -> Result<(), Refusal>
    ensures cause { HasReadCause (λ p. ⊥) result }
    ensures told { (old new : ListOf ℕ) → AreEnds snapshot.now old new runs.now
        → Comes (Tell old new snapshot.now (map unit_of runs.now) facts.old) (λ _. record { files = snapshot.now; facts = facts.new }) result }
{
    match runs {
        [] => Ok(()),
        [run, rest @ ..] => {
            tell_one(alloc, snapshot, run, facts)?;
            tell(alloc, snapshot, rest, facts)
        }
    }
}

fn of_words(alloc: Global, fault: KnowFault) -> Refusal
    ensures { IsOfWords fault result }
{
    match fault {
        KnowFault::LimitFiles => of_growth(alloc, GrowFault::LimitFiles),
        KnowFault::OutOfMemory => Refusal::OutOfMemory,
    }
}

/// What a batch of units tells, with what was told before: the texts of their command words are made known, then what they
/// want, until none wants more.
pub fn survey_batch<T: Tree>(
    alloc: Global,
    tree: &mut T,
    snapshot: &mut Snapshot,
    batch: &[Unit],
    renaming: Renaming<'_>,
    facts: &mut FactSet,
) -> Result<(), Refusal>
    requires room { apart_paths snapshot.old + length batch.now ≤ 65536 }
    ensures reads { ReadsOnly (T.files tree.old) (T.files tree.new) (T.reads tree.old) (T.reads tree.new) (T.replaces tree.old) (T.replaces tree.new) (T.replacings tree.old) (T.replacings tree.new) }
    ensures asked { OnlyRead (LooksFor batch.now) (T.readings tree.old) (T.readings tree.new) }
    ensures surveyed { (files : Files) → T.files tree.old ≡ Some files
        → Comes (IsBatch renaming.entry.old.now renaming.entry.new.now files batch.now snapshot.old facts.old) (λ _. record { files = snapshot.new; facts = facts.new }) result }
    ensures cause { HasReadCause (λ p. LooksFor batch.now p × Rose (T.reads tree.old p) (T.reads tree.new p)) result }
    ensures apart { apart_paths snapshot.new ≤ apart_paths snapshot.old + length batch.now }
{
    if let Err(fault) = know_words(alloc, batch, snapshot) {
        return Err(of_words(alloc, fault));
    }
    match run_batch(alloc, tree, snapshot, batch, renaming) {
        Ok(runs) => tell(alloc, snapshot, &runs, facts),
        Err(fault) => Err(of_growth(alloc, fault)),
    }
}
