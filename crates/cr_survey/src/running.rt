//! A unit on its way to its end.
ghost use Rattle.std.specs.Prelude.{◌≡◌, IfOk, map, Bool, true, List as ListOf};
ghost use Rattle.cr_snapshot.specs.declared.known.KnownFile.{KnownFile};
ghost use Rattle.cr_phase4.specs.PreprocessingRun.{Agrees};
ghost use Rattle.cr_phase4.specs.Search.{world_of};
ghost use Rattle.cr_growth.specs.Growth.{is_none};
ghost use Rattle.cr_unit_end.specs.UnitEnds.{IsUnitEnd};
ghost use Rattle.cr_survey.specs.Running.{AreEnds, wants_of, want_none, unit_of};

use cr_base::{OutOfMemory, PathText, Unit};
use cr_snapshot::Snapshot;
use cr_unit_end::{UnitEnd, end_of_unit};
use cr_unit_end_law::ended_units_stay;
use std::alloc::Global;

/// The two names of a renaming.
#[derive(Clone, Copy)]
pub struct Renaming<'a> {
    pub old: &'a [u8],
    pub new: &'a [u8],
}

/// A unit, and how it ended over the files that are known.
#[derive(Drop)]
pub struct Running<'a> {
    pub unit: &'a Unit,
    pub end: UnitEnd,
}

/// What a unit wants that ended so.
pub fn wants(end: &UnitEnd) -> &[PathText]
    ensures { result.now ≡ wants_of end.now }
{
    match end {
        UnitEnd::Wants(paths) => paths.as_slice(),
        UnitEnd::Facts(_) | UnitEnd::Ill(..) => &[],
    }
}

/// Whether none wants more.
pub fn are_settled(runs: &[Running<'_>]) -> bool
    ensures { result ≡ want_none runs.now }
{
    for run in runs {
        if !wants(&run.end).is_empty() {
            return false;
        }
    }
    true
}

/// Each unit's end over the files that are known.
pub fn start<'a>(
    alloc: Global,
    units: &'a [Unit],
    snapshot: &Snapshot,
    renaming: Renaming<'_>,
) -> Result<Vec<Running<'a>>, OutOfMemory>
    ensures units { IfOk result (λ runs. map unit_of runs.items ≡ units.now) }
    ensures ends { IfOk result (λ runs. AreEnds snapshot.now renaming.entry.old.now renaming.entry.new.now runs.items) }
{
    let mut runs = Vec::with_capacity(alloc, units.len())?;
    for unit in units {
        let end = end_of_unit(alloc, unit, snapshot, renaming.old, renaming.new)?;
        runs.push(Running { unit, end })?;
    }
    Ok(runs)
}

// A unit that wanted more ends anew, and any other as it did.
fn run_on<'a>(
    alloc: Global,
    run: Running<'a>,
    snapshot: &Snapshot,
    renaming: Renaming<'_>,
) -> Result<Running<'a>, OutOfMemory>
    ensures unit { IfOk result (λ on. unit_of on ≡ unit_of run.entry) }
    ensures end { (files : ListOf KnownFile) → Agrees (world_of files) (world_of snapshot.now)
        → IsUnitEnd files run.entry.unit.now renaming.entry.old.now renaming.entry.new.now run.entry.end
        → IfOk result (λ on. IsUnitEnd snapshot.now on.unit.now renaming.entry.old.now renaming.entry.new.now on.end) }
{
    ended_units_stay();
    let Running { unit, end } = run;
    match end {
        UnitEnd::Wants(_) => {
            let end = end_of_unit(alloc, unit, snapshot, renaming.old, renaming.new)?;
            Ok(Running { unit, end })
        }
        end => Ok(Running { unit, end }),
    }
}

/// Each unit's end, once more files are known.
pub fn run_again<'a>(
    alloc: Global,
    runs: Vec<Running<'a>>,
    snapshot: &Snapshot,
    renaming: Renaming<'_>,
) -> Result<Vec<Running<'a>>, OutOfMemory>
    ensures units { IfOk result (λ again. map unit_of again.items ≡ map unit_of runs.entry.items) }
    ensures ends { (files : ListOf KnownFile) → Agrees (world_of files) (world_of snapshot.now)
        → AreEnds files renaming.entry.old.now renaming.entry.new.now runs.entry.items
        → IfOk result (λ again. AreEnds snapshot.now renaming.entry.old.now renaming.entry.new.now again.items) }
{
    let mut again = Vec::with_capacity(alloc, runs.len())?;
    for run in runs {
        again.push(run_on(alloc, run, snapshot, renaming)?)?;
    }
    Ok(again)
}
