//! What is to be done, before anything is changed.
ghost use Rattle.std.specs.Prelude.{◌≡◌, ◌≤◌, ◌+◌, ℕ, List, Some, Ok, length, map, string_bytes, IfOk};
ghost use Rattle.std.specs.List.{Contains};
ghost use Rattle.cr_compdb.specs.declared.entry.Entry.{Entry as EntryOf};
ghost use Rattle.cr_world.specs.Outside.{Files, Rose, OnlyRead, ReadsOnly};
ghost use Rattle.cr_snapshot.specs.Files.{apart_paths, built_ins};
ghost use Rattle.cr_goal.specs.Refusals.{Answers, HasReadCause};
ghost use Rattle.cr_goal.specs.Seen.{goal_of_code, sought_of_code};
ghost use Rattle.cr_edit.specs.Planned.{writes_if, AreWritesIf};
ghost use Rattle.cr_survey.specs.Batches.{LooksFor};
ghost use Rattle.cr_plan.specs.Meant as wanted;
ghost use Rattle.cr_plan.specs.Outcome.{rename_of, by_survey, by_name, by_entries, by_goal, IsOutcome};
ghost use Rattle.cr_plan.specs.Making.{AreParted, AreOfTree, AreThere, MayReadOf, first_or_limit};
ghost use Rattle.cr_plan.specs.Planning.{IsPlan, Plans, AreWritesFor, MayReadFor, MayRead, ReadsForItself, ReadsByItself};

use crate::editing::edit_files;
use crate::judging::judge;
use crate::meaning::{Meant, may_rename, what_is_meant};
use cr_base::{OutOfMemory, PathText, Place, Unit};
use cr_edit::{FileEdit, Head, Write, report, writes_of};
use cr_facts::FactSet;
use cr_goal::{Entries, Goal, Refusal, Sought, read_entries, read_goal};
use cr_growth::know_wanted;
use cr_snapshot::Snapshot;
use cr_survey::{Renaming, of_growth, survey};
use cr_world::Tree;
use std::alloc::Global;

/// A rename that is ready: the files that are to be replaced, in order, and the report.
#[derive(Drop)]
pub struct Plan {
    pub writes: Vec<Write>,
    pub report: Vec<u8>,
}

/// What the words ask for, those of the command line without the program's name; or why it isn't done. `ReadFault` comes
/// only where a read of its path failed in this call. Nothing is changed.
#[tactic(auto, unfolding(crate::specs::Outcome::IsOutcome))]
pub fn make_plan<T: Tree>(alloc: Global, words: &[String], tree: &mut T) -> Result<Plan, Refusal>
    ensures writes { IfOk result (λ plan. AreWritesFor (map string_bytes words.now) plan.writes.items) }
    ensures reads { ReadsOnly (T.files tree.old) (T.files tree.new) (T.reads tree.old) (T.reads tree.new) (T.replaces tree.old) (T.replaces tree.new) (T.replacings tree.old) (T.replacings tree.new) }
    ensures asked { (files : Files) → T.files tree.old ≡ Some files → OnlyRead (MayRead (map string_bytes words.now) files) (T.readings tree.old) (T.readings tree.new) }
    ensures own { ReadsByItself (map string_bytes words.now) (T.readings tree.old) (T.readings tree.new) }
    ensures decided { (files : Files) → T.files tree.old ≡ Some files
        → Plans files (IsOutcome (map string_bytes words.now) files) result }
    ensures cause { HasReadCause (λ path. Rose (T.reads tree.old path) (T.reads tree.new path)
        × ((files : Files) → T.files tree.old ≡ Some files → MayRead (map string_bytes words.now) files path)) result }
{
    let goal = read_goal(alloc, words)?;
    plan_goal(alloc, tree, &goal)
}

fn plan_goal<T: Tree>(alloc: Global, tree: &mut T, goal: &Goal<'_>) -> Result<Plan, Refusal>
    ensures writes { IfOk result (λ plan. AreWritesIf goal.now.in_place plan.writes.items) }
    ensures reads { ReadsOnly (T.files tree.old) (T.files tree.new) (T.reads tree.old) (T.reads tree.new) (T.replaces tree.old) (T.replaces tree.new) (T.replacings tree.old) (T.replacings tree.new) }
    ensures asked { (files : Files) → T.files tree.old ≡ Some files → OnlyRead (MayReadFor (goal_of_code goal.now) files) (T.readings tree.old) (T.readings tree.new) }
    ensures own { ReadsForItself (goal_of_code goal.now) (T.readings tree.old) (T.readings tree.new) }
    ensures decided { (files : Files) → T.files tree.old ≡ Some files
        → Plans files (by_goal files (Ok (goal_of_code goal.now))) result }
    ensures cause { HasReadCause (λ path. Rose (T.reads tree.old path) (T.reads tree.new path)
        × ((files : Files) → T.files tree.old ≡ Some files → MayReadFor (goal_of_code goal.now) files path)) result }
{
    let entries = read_entries(alloc, tree, &goal.units)?;
    let parted = Entries::of(alloc, entries)?;
    plan_entries(alloc, tree, goal, &parted)
}

// What the entries decide.
fn plan_entries<T: Tree>(
    alloc: Global,
    tree: &mut T,
    goal: &Goal<'_>,
    entries: &Entries,
) -> Result<Plan, Refusal>
    requires few { length entries.now.units.items ≤ 16384 }
    ensures writes { IfOk result (λ plan. AreWritesIf goal.now.in_place plan.writes.items) }
    ensures reads { ReadsOnly (T.files tree.old) (T.files tree.new) (T.reads tree.old) (T.reads tree.new) (T.replaces tree.old) (T.replaces tree.new) (T.replacings tree.old) (T.replacings tree.new) }
    ensures asked { OnlyRead (MayReadOf (goal_of_code goal.now) entries.now.units.items) (T.readings tree.old) (T.readings tree.new) }
    ensures decided { (files : Files) (es : List EntryOf) → T.files tree.old ≡ Some files → AreParted es entries.now
        → Plans files (by_entries files (goal_of_code goal.now) (Ok es)) result }
    ensures cause { HasReadCause (λ path. Rose (T.reads tree.old path) (T.reads tree.new path)
        × MayReadOf (goal_of_code goal.now) entries.now.units.items path) result }
{
    let mut snapshot = known_first(alloc, tree, &goal.sought)?;
    let meant = what_is_meant(alloc, &snapshot, &goal.sought)?;
    let meant = may_rename(alloc, goal.new, meant)?;
    plan_units(alloc, tree, &mut snapshot, goal, entries, &meant)
}

// What is read first.
fn first_wanted(alloc: Global, sought: &Sought<'_>) -> Result<Vec<PathText>, OutOfMemory>
    ensures { IfOk result (λ paths. paths.items ≡ wanted.first_wanted (sought_of_code sought.now)) }
{
    let mut paths = Vec::new(alloc);
    if let Sought::StandsAt(path, _) = sought {
        paths.push(path.copy(alloc)?)?;
    }
    Ok(paths)
}

// What is known before any unit.
fn known_first<T: Tree>(
    alloc: Global,
    tree: &mut T,
    sought: &Sought<'_>,
) -> Result<Snapshot, Refusal>
    ensures reads { ReadsOnly (T.files tree.old) (T.files tree.new) (T.reads tree.old) (T.reads tree.new) (T.replaces tree.old) (T.replaces tree.new) (T.replacings tree.old) (T.replacings tree.new) }
    ensures asked { OnlyRead (λ p. Contains (wanted.first_wanted (sought_of_code sought.now)) p) (T.readings tree.old) (T.readings tree.new) }
    ensures known { (files : Files) → T.files tree.old ≡ Some files
        → Answers (λ snapshot. snapshot) (first_or_limit (wanted.known_first files (sought_of_code sought.now))) result }
    ensures apart { IfOk result (λ snapshot. apart_paths snapshot ≡ apart_paths built_ins) }
    ensures cause { HasReadCause (λ p. Rose (T.reads tree.old p) (T.reads tree.new p)
        × Contains (wanted.first_wanted (sought_of_code sought.now)) p) result }
{
    let paths = first_wanted(alloc, sought)?;
    let mut snapshot = Snapshot::new(alloc)?;
    match know_wanted(alloc, tree, &mut snapshot, &paths) {
        Ok(()) => Ok(snapshot),
        Err(fault) => Err(of_growth(alloc, fault)),
    }
}

// What the units decide of a name.
fn plan_units<T: Tree>(
    alloc: Global,
    tree: &mut T,
    snapshot: &mut Snapshot,
    goal: &Goal<'_>,
    entries: &Entries,
    meant: &Meant,
) -> Result<Plan, Refusal>
    requires room { apart_paths snapshot.old + length entries.now.units.items ≤ 65536 }
    ensures writes { IfOk result (λ plan. AreWritesIf goal.now.in_place plan.writes.items) }
    ensures reads { ReadsOnly (T.files tree.old) (T.files tree.new) (T.reads tree.old) (T.reads tree.new) (T.replaces tree.old) (T.replaces tree.new) (T.replacings tree.old) (T.replacings tree.new) }
    ensures asked { OnlyRead (LooksFor entries.now.units.items) (T.readings tree.old) (T.readings tree.new) }
    ensures decided { (files : Files) (es : List EntryOf) → T.files tree.old ≡ Some files → AreParted es entries.now → AreOfTree files snapshot.old
        → Plans files (by_name files (goal_of_code goal.now) es snapshot.old (Ok meant.now)) result }
    ensures cause { HasReadCause (λ p. Rose (T.reads tree.old p) (T.reads tree.new p) × LooksFor entries.now.units.items p) result }
{
    let renaming = Renaming {
        old: meant.old.bytes(),
        new: goal.new,
    };
    let facts = survey(alloc, tree, snapshot, &entries.units, renaming)?;
    plan_facts(alloc, &facts, snapshot, goal, entries, meant)
}

// What the facts of all units decide.
fn plan_facts(
    alloc: Global,
    facts: &FactSet,
    snapshot: &Snapshot,
    goal: &Goal<'_>,
    entries: &Entries,
    meant: &Meant,
) -> Result<Plan, Refusal>
    ensures writes { IfOk result (λ plan. AreWritesIf goal.now.in_place plan.writes.items) }
    ensures decided { (files : Files) (es : List EntryOf) → AreParted es entries.now → AreOfTree files snapshot.now
        → Plans files (by_survey (goal_of_code goal.now) es meant.now (Ok (record { files = snapshot.now; facts = facts.now }))) result }
    ensures cause { HasReadCause (λ p. ⊥) result }
{
    let places = judge(alloc, facts, snapshot, goal.root.as_ref(), meant, goal.new)?;
    let plan = planned(alloc, snapshot, &places, goal, entries, meant.old.bytes())?;
    Ok(plan)
}

// How many bytes a name has.
fn length_of(name: &[u8]) -> Result<u32, OutOfMemory>
    ensures { IfOk result (λ n. n ≡ length name.now) }
{
    u32::try_from(name.len()).map_err(|_| OutOfMemory)
}

fn planned(
    alloc: Global,
    snapshot: &Snapshot,
    places: &[Place],
    goal: &Goal<'_>,
    entries: &Entries,
    old: &[u8],
) -> Result<Plan, OutOfMemory>
    ensures writes { IfOk result (λ plan. AreWritesIf goal.now.in_place plan.writes.items) }
    ensures plan { IfOk result (λ plan. (files : Files) (es : List EntryOf) → AreParted es entries.now → AreThere files snapshot.now places.now
        → IsPlan files (rename_of (goal_of_code goal.now) es old.now snapshot.now places.now) plan) }
{
    let edits = edit_files(alloc, snapshot, places, length_of(old)?, goal.new)?;
    let head = Head {
        old,
        new: goal.new,
        units: entries.units.len(),
    };
    let report = report(alloc, &head, &edits, &entries.skipped, goal.in_place)?;
    let writes = writes_in(alloc, edits, goal.in_place)?;
    Ok(Plan { writes, report })
}

// The files are replaced where that was asked for.
fn writes_in(alloc: Global, edits: Vec<FileEdit>, in_place: bool) -> Result<Vec<Write>, OutOfMemory>
    ensures { IfOk result (λ writes. writes.items ≡ writes_if in_place edits.items) }
{
    if in_place {
        writes_of(alloc, edits)
    } else {
        Ok(Vec::new(alloc))
    }
}
