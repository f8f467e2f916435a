//! What is to be done, before anything is changed.
ghost use Rattle.std.specs.Prelude.{◌≡◌, ◌≤◌, List, ℕ, Bool, map, string_bytes, length, Some, None, IfOk, false};
ghost use Rattle.std.specs.Option.{option_map};
ghost use Rattle.cr_compdb.specs.declared.entry.Entry.{Entry as EntryOf};
ghost use Rattle.cr_world.specs.Outside.{Files, Rose, OnlyRead};
ghost use Rattle.cr_small.specs.Seen.{key_of_code, target_of_code};
ghost use Rattle.cr_lex.specs.Lexing.{lexed};
ghost use Rattle.cr_small.specs.Texts.{IsTextOf};
ghost use Rattle.cr_small.specs.Renaming as renaming;
ghost use Rattle.cr_run.specs.Units.{IsMain};
ghost use Rattle.cr_run.specs.Survey.{Meaning, IsMeaning, size_of};
ghost use Rattle.cr_run.specs.Outcome as spec;
ghost use Rattle.cr_run.specs.Reading.{ReadsOnly, HasReadCause, MayRead, MayReadFor, ReadsForItself, ReadsByItself};
ghost use Rattle.cr_run.specs.Refusals.{Answers};
ghost use Rattle.cr_run.specs.Seen.{goal_of_code, skip_of_code};
ghost use Rattle.cr_run.specs.Held.{Wanted, Holds, SurveysTo, wanted_for};
ghost use Rattle.cr_run.specs.Table.{IsTable, RisesIn};
ghost use Rattle.cr_run.specs.Planning.{IsPlan, Plans, AreParted, AreWritesIf, AreWritesFor, writes_if};

use crate::edits::{FileEdit, edit_files};
use crate::entries::read_entries;
use crate::goal::{Goal, read_goal};
use crate::refusal::Refusal;
use crate::report::{Head, report};
use crate::survey::{Finding, MAX_FILE, Sought, Survey};
use crate::units::Entries;
use crate::write::{Write, writes_of};
use cr_base::{OutOfMemory, Unit};
use cr_small::{EntityKey, SmallText, Target, a_target_names_its_key, denotations_are_one};
use cr_small_facts::places_are_one;
use cr_world::{ReadEnd, Tree};
use std::alloc::Global;

/// A rename that is ready: the files that are to be replaced, in order, and the report.
#[derive(Drop)]
pub struct Plan {
    pub writes: Vec<Write>,
    pub report: Vec<u8>,
}

/// What the words ask for, or why it isn't done. Nothing is changed.
pub fn make_plan<'a, T: Tree>(
    alloc: Global,
    words: &'a [String],
    tree: &mut T,
) -> Result<Plan, Refusal<'a>>
    ensures writes { IfOk result (λ plan. AreWritesFor (map string_bytes words.now) plan.writes.items) }
    ensures reads { ReadsOnly (T.files tree.old) (T.files tree.new) (T.reads tree.old) (T.reads tree.new) (T.replaces tree.old) (T.replaces tree.new) (T.replacings tree.old) (T.replacings tree.new) }
    ensures asked { (files : Files) → T.files tree.old ≡ Some files → OnlyRead (MayRead (map string_bytes words.now) files) (T.readings tree.old) (T.readings tree.new) }
    ensures own { ReadsByItself (map string_bytes words.now) (T.readings tree.old) (T.readings tree.new) }
    ensures decided { (meaning : Meaning) (files : Files) → IsMeaning meaning → T.files tree.old ≡ Some files
        → Plans files (spec.outcome meaning (map string_bytes words.now) files) result }
    ensures cause { HasReadCause (λ path. Rose (T.reads tree.old path) (T.reads tree.new path)
        × ((files : Files) → T.files tree.old ≡ Some files → MayRead (map string_bytes words.now) files path)) result }
{
    let goal = read_goal(alloc, words)?;
    plan_goal(alloc, tree, &goal)
}

fn plan_goal<'a, T: Tree>(alloc: Global, tree: &mut T, goal: &Goal<'a>) -> Result<Plan, Refusal<'a>>
    ensures writes { IfOk result (λ plan. AreWritesIf goal.now.in_place plan.writes.items) }
    ensures reads { ReadsOnly (T.files tree.old) (T.files tree.new) (T.reads tree.old) (T.reads tree.new) (T.replaces tree.old) (T.replaces tree.new) (T.replacings tree.old) (T.replacings tree.new) }
    ensures asked { (files : Files) → T.files tree.old ≡ Some files → OnlyRead (MayReadFor (goal_of_code goal.now) files) (T.readings tree.old) (T.readings tree.new) }
    ensures own { ReadsForItself (goal_of_code goal.now) (T.readings tree.old) (T.readings tree.new) }
    ensures decided { (meaning : Meaning) (files : Files) → IsMeaning meaning → T.files tree.old ≡ Some files
        → Plans files (spec.of_goal meaning files (goal_of_code goal.now)) result }
    ensures cause { HasReadCause (λ path. Rose (T.reads tree.old path) (T.reads tree.new path)
        × ((files : Files) → T.files tree.old ≡ Some files → MayReadFor (goal_of_code goal.now) files path)) result }
{
    let entries = read_entries(alloc, tree, goal)?;
    let parted = Entries::of(alloc, entries)?;
    plan_entries(alloc, tree, goal, &parted)
}

// What the entries decide.
fn plan_entries<'a, T: Tree>(
    alloc: Global,
    tree: &mut T,
    goal: &Goal<'a>,
    entries: &Entries,
) -> Result<Plan, Refusal<'a>>
    ensures writes { IfOk result (λ plan. AreWritesIf goal.now.in_place plan.writes.items) }
    ensures reads { ReadsOnly (T.files tree.old) (T.files tree.new) (T.reads tree.old) (T.reads tree.new) (T.replaces tree.old) (T.replaces tree.new) (T.replacings tree.old) (T.replacings tree.new) }
    ensures asked { OnlyRead (λ path. spec.IsSourceOrMain (goal_of_code goal.now) entries.now.units.items path) (T.readings tree.old) (T.readings tree.new) }
    ensures decided { (meaning : Meaning) (files : Files) (es : List EntryOf) → IsMeaning meaning → T.files tree.old ≡ Some files → AreParted es entries.now
        → Plans files (spec.of_entries meaning files (goal_of_code goal.now) es) result }
    ensures cause { HasReadCause (λ path. Rose (T.reads tree.old path) (T.reads tree.new path)
        × spec.IsSourceOrMain (goal_of_code goal.now) entries.now.units.items path) result }
{
    let mut bytes = Vec::new(alloc);
    match tree.read(alloc, &goal.source, MAX_FILE, &mut bytes) {
        ReadEnd::Bytes => plan_source(alloc, tree, goal, entries, &bytes),
        ReadEnd::Absent => plan_absent(alloc, tree, goal, entries),
        ReadEnd::Long => Err(Refusal::LimitFiles),
        ReadEnd::Failed => Err(Refusal::ReadFault(goal.source.copy(alloc)?)),
        ReadEnd::OutOfMemory => Err(Refusal::OutOfMemory),
    }
}

// Nothing stands at an offset of a source that is absent.
fn plan_absent<'a, T: Tree>(
    alloc: Global,
    tree: &mut T,
    goal: &Goal<'a>,
    entries: &Entries,
) -> Result<Plan, Refusal<'a>>
    ensures writes { IfOk result (λ plan. AreWritesIf goal.now.in_place plan.writes.items) }
    ensures reads { ReadsOnly (T.files tree.old) (T.files tree.new) (T.reads tree.old) (T.reads tree.new) (T.replaces tree.old) (T.replaces tree.new) (T.replacings tree.old) (T.replacings tree.new) }
    ensures asked { OnlyRead (λ path. IsMain entries.now.units.items path) (T.readings tree.old) (T.readings tree.new) }
    ensures decided { (meaning : Meaning) (files : Files) (es : List EntryOf) → IsMeaning meaning → T.files tree.old ≡ Some files → AreParted es entries.now → files goal.now.source ≡ None
        → Plans files (spec.of_target meaning files (goal_of_code goal.now) es None) result }
    ensures cause { HasReadCause (λ path. Rose (T.reads tree.old path) (T.reads tree.new path)
        × IsMain entries.now.units.items path) result }
{
    let sought = Sought {
        source: &goal.source,
        old: b"",
        key: None,
        new: goal.new,
    };
    let found = Finding::unclear(alloc, 0);
    let mut survey = Survey::start(alloc, goal.source.copy(alloc)?, found, 0)?;
    survey.read_units(alloc, tree, &sought, &entries.units)?;
    Err(Refusal::NoSymbol)
}

// What a source that is there decides.
fn plan_source<'a, T: Tree>(
    alloc: Global,
    tree: &mut T,
    goal: &Goal<'a>,
    entries: &Entries,
    bytes: &[u8],
) -> Result<Plan, Refusal<'a>>
    requires { length bytes.now ≤ 16777216 }
    ensures writes { IfOk result (λ plan. AreWritesIf goal.now.in_place plan.writes.items) }
    ensures reads { ReadsOnly (T.files tree.old) (T.files tree.new) (T.reads tree.old) (T.reads tree.new) (T.replaces tree.old) (T.replaces tree.new) (T.replacings tree.old) (T.replacings tree.new) }
    ensures asked { OnlyRead (λ path. IsMain entries.now.units.items path) (T.readings tree.old) (T.readings tree.new) }
    ensures decided { (meaning : Meaning) (files : Files) (es : List EntryOf) → IsMeaning meaning → T.files tree.old ≡ Some files → AreParted es entries.now → files goal.now.source ≡ Some bytes.now
        → Plans files (spec.of_text meaning files (goal_of_code goal.now) es (lexed bytes.now)) result }
    ensures cause { HasReadCause (λ path. Rose (T.reads tree.old path) (T.reads tree.new path)
        × IsMain entries.now.units.items path) result }
{
    denotations_are_one();
    let Some(text) = SmallText::read(alloc, bytes)? else {
        return Err(Refusal::Unbuilt(goal.source.copy(alloc)?));
    };
    plan_text(alloc, tree, goal, entries, bytes, &text)
}

// What a source of the small form decides.
fn plan_text<'a, T: Tree>(
    alloc: Global,
    tree: &mut T,
    goal: &Goal<'a>,
    entries: &Entries,
    bytes: &[u8],
    text: &SmallText,
) -> Result<Plan, Refusal<'a>>
    requires size { length bytes.now ≤ 16777216 }
    requires text { IsTextOf bytes.now text.now }
    ensures writes { IfOk result (λ plan. AreWritesIf goal.now.in_place plan.writes.items) }
    ensures reads { ReadsOnly (T.files tree.old) (T.files tree.new) (T.reads tree.old) (T.reads tree.new) (T.replaces tree.old) (T.replaces tree.new) (T.replacings tree.old) (T.replacings tree.new) }
    ensures asked { OnlyRead (λ path. IsMain entries.now.units.items path) (T.readings tree.old) (T.readings tree.new) }
    ensures decided { (meaning : Meaning) (files : Files) (es : List EntryOf) → IsMeaning meaning → T.files tree.old ≡ Some files → AreParted es entries.now → files goal.now.source ≡ Some bytes.now
        → meaning (lexed bytes.now) ≡ Some text.now.denotes
        → Plans files (spec.of_denotes meaning files (goal_of_code goal.now) es (lexed bytes.now).tokens text.now.denotes) result }
    ensures cause { HasReadCause (λ path. Rose (T.reads tree.old path) (T.reads tree.new path)
        × IsMain entries.now.units.items path) result }
{
    let target = text.target_at(goal.offset as usize);
    may_rename(goal, &target)?;
    let survey = survey_from(alloc, tree, goal, &entries.units, bytes, text, &target)?;
    let target = renamable(goal, &entries.units, target)?;
    survey.spell(alloc)?;
    let plan = planned(alloc, goal, entries, &survey, &target)?;
    Ok(plan)
}

// What stands at the offset keeps its name where that is `main` or the new name.
fn may_rename<'a>(goal: &Goal<'a>, target: &Option<Target>) -> Result<(), Refusal<'a>>
    ensures may { Answers (λ done. option_map target_of_code target.now) (spec.may_rename (goal_of_code goal.now) (option_map target_of_code target.now)) result }
    ensures cause { HasReadCause (λ path. ⊥) result }
{
    match target {
        Some(target) => may_rename_target(goal, target),
        None => Ok(()),
    }
}

fn may_rename_target<'a>(goal: &Goal<'a>, target: &Target) -> Result<(), Refusal<'a>>
    ensures may { Answers (λ done. Some (target_of_code target.now)) (spec.may_rename (goal_of_code goal.now) (Some (target_of_code target.now))) result }
    ensures cause { HasReadCause (λ path. ⊥) result }
{
    if target.name == goal.new {
        return Err(Refusal::Reserved(goal.new));
    }
    if target.name == b"main".as_slice() {
        return Err(Refusal::Reserved(b"main"));
    }
    Ok(())
}

// The main files of the units, where none refuses.
fn survey_from<'a, T: Tree>(
    alloc: Global,
    tree: &mut T,
    goal: &Goal<'_>,
    units: &[Unit],
    bytes: &[u8],
    text: &SmallText,
    target: &Option<Target<'_>>,
) -> Result<Survey, Refusal<'a>>
    requires size { length bytes.now ≤ 16777216 }
    requires text { IsTextOf bytes.now text.now }
    requires target { option_map target_of_code target.now ≡ renaming.target_at goal.now.offset (lexed bytes.now).tokens text.now.denotes }
    ensures reads { ReadsOnly (T.files tree.old) (T.files tree.new) (T.reads tree.old) (T.reads tree.new) (T.replaces tree.old) (T.replaces tree.new) (T.replacings tree.old) (T.replacings tree.new) }
    ensures asked { OnlyRead (λ path. IsMain units.now path) (T.readings tree.old) (T.readings tree.new) }
    ensures surveyed { (meaning : Meaning) (files : Files) → IsMeaning meaning → T.files tree.old ≡ Some files → files goal.now.source ≡ Some bytes.now
        → meaning (lexed bytes.now) ≡ Some text.now.denotes
        → SurveysTo meaning files (wanted_for (goal_of_code goal.now) (option_map target_of_code target.now)) units.now result }
    ensures placed { IfOk result (λ survey. (t : renaming.Target) → option_map target_of_code target.now ≡ Some t → IsTable (RisesIn t.name) (Some t.key) survey) }
    ensures cause { HasReadCause (λ path. Rose (T.reads tree.old path) (T.reads tree.new path) × IsMain units.now path) result }
{
    a_target_names_its_key();
    let sought = Sought {
        source: &goal.source,
        old: name_of(target),
        key: key_of(target),
        new: goal.new,
    };
    let found = Finding::of(alloc, &sought, 0, bytes, text)?;
    let mut survey = Survey::start(alloc, goal.source.copy(alloc)?, found, bytes.len())?;
    survey.read_units(alloc, tree, &sought, units)?;
    Ok(survey)
}

// The name of what stands at the offset, or nothing.
fn name_of<'b>(target: &Option<Target<'b>>) -> &'b [u8]
    ensures { result.now ≡ spec.name_or_nothing (option_map target_of_code target.now) }
{
    match target {
        Some(target) => target.name,
        None => b"",
    }
}

// The key of what stands at the offset.
fn key_of<'b>(target: &Option<Target<'b>>) -> Option<EntityKey<'b>>
    ensures { option_map key_of_code result ≡ option_map (λ t. t.key) (option_map target_of_code target.now) }
{
    match target {
        Some(target) => Some(target.key),
        None => None,
    }
}

// What stands at the offset must be a name, in the main file of some unit.
fn renamable<'a, 'b>(
    goal: &Goal<'a>,
    units: &[Unit],
    target: Option<Target<'b>>,
) -> Result<Target<'b>, Refusal<'a>>
    ensures renamable { Answers target_of_code (spec.renamable (goal_of_code goal.now) units.now (option_map target_of_code target.entry)) result }
    ensures cause { HasReadCause (λ path. ⊥) result }
{
    let Some(target) = target else {
        return Err(Refusal::NoSymbol);
    };
    if !has_main(goal, units) {
        return Err(Refusal::NoSymbol);
    }
    if begins_with_underscore(goal.new) && target.at_file_scope {
        return Err(Refusal::Reserved(goal.new));
    }
    Ok(target)
}

// Whether the source is the main file of a unit.
fn has_main(goal: &Goal<'_>, units: &[Unit]) -> bool
    ensures { result ≡ spec.is_main_source (goal_of_code goal.now) units.now }
{
    for unit in units {
        if goal.source == unit.main {
            return true;
        }
    }
    false
}

fn begins_with_underscore(name: &[u8]) -> bool
    ensures { result ≡ spec.begins_with_underscore name.now }
{
    match name {
        [first, ..] => *first == b'_',
        [] => false,
    }
}

fn planned(
    alloc: Global,
    goal: &Goal<'_>,
    entries: &Entries,
    survey: &Survey,
    target: &Target,
) -> Result<Plan, OutOfMemory>
    requires { IsTable (RisesIn target.now.name.now) (Some (key_of_code target.now.key)) survey.now }
    ensures writes { IfOk result (λ plan. AreWritesIf goal.now.in_place plan.writes.items) }
    ensures plan { IfOk result (λ plan. (meaning : Meaning) (files : Files) (es : List EntryOf) → AreParted es entries.now
        → Holds meaning files (wanted_for (goal_of_code goal.now) (Some (target_of_code target.now))) entries.now.units.items survey.now
        → IsPlan files (spec.rename_of meaning files (goal_of_code goal.now) es (target_of_code target.now)) plan) }
{
    places_are_one();
    let places = survey.places(alloc, target.key)?;
    let edits = edit_files(alloc, survey, &places, target.name, goal.new)?;
    let head = Head {
        old: target.name,
        new: goal.new,
        units: entries.units.len(),
    };
    let report = report(alloc, &head, &edits, &entries.skipped, goal.in_place)?;
    let writes = writes_in(alloc, edits, goal.in_place)?;
    Ok(Plan { writes, report })
}

// The files are replaced where that was asked for.
fn writes_in(alloc: Global, edits: Vec<FileEdit>, in_place: bool) -> Result<Vec<Write>, OutOfMemory>
    ensures { IfOk result (λ writes. writes.items ≡ writes_if in_place edits.items) }
{
    if in_place {
        writes_of(alloc, edits)
    } else {
        Ok(Vec::new(alloc))
    }
}
