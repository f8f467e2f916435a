//! All units of a run.
ghost use Rattle.std.specs.Prelude.{◌≡◌, ◌≤◌, ◌+◌, ℕ, Some, length};
ghost use Rattle.std.specs.FinSet.{empty};
ghost use Rattle.cr_world.specs.Outside.{Files, Rose, OnlyRead, ReadsOnly};
ghost use Rattle.cr_snapshot.specs.Files.{apart_paths};
ghost use Rattle.cr_goal.specs.Refusals.{HasReadCause};
ghost use Rattle.cr_survey.specs.Batches.{LooksFor, AreSurveyed};
ghost use Rattle.cr_survey.specs.Running.{Comes};

use crate::batch::survey_batch;
use crate::running::Renaming;
use cr_base::Unit;
use cr_facts::FactSet;
use cr_goal::Refusal;
use cr_snapshot::Snapshot;
use cr_world::Tree;
use std::alloc::Global;

const BATCH: usize = 64;

/// What the units tell, in batches of 64: the text of each unit's command words is made known, then the files that units
/// want are read, in waves, until none wants more; and then the first unit of the batch that is ill-formed or over a limit
/// refuses, or the facts of all are taken together.
///
/// `ReadFault` comes only where a read of its path failed in this call, and that of a path that a unit wants. No file of
/// the tree changes.
pub fn survey<T: Tree>(
    alloc: Global,
    tree: &mut T,
    snapshot: &mut Snapshot,
    units: &[Unit],
    renaming: Renaming<'_>,
) -> Result<FactSet, Refusal>
    requires room { apart_paths snapshot.old + length units.now ≤ 65536 }
    ensures reads { ReadsOnly (T.files tree.old) (T.files tree.new) (T.reads tree.old) (T.reads tree.new) (T.replaces tree.old) (T.replaces tree.new) (T.replacings tree.old) (T.replacings tree.new) }
    ensures asked { OnlyRead (LooksFor units.now) (T.readings tree.old) (T.readings tree.new) }
    ensures surveyed { (files : Files) → T.files tree.old ≡ Some files
        → Comes (AreSurveyed renaming.entry.old.now renaming.entry.new.now files units.now snapshot.old empty) (λ facts. record { files = snapshot.new; facts = facts }) result }
    ensures cause { HasReadCause (λ p. LooksFor units.now p × Rose (T.reads tree.old p) (T.reads tree.new p)) result }
{
    let mut facts = FactSet::new(alloc);
    let mut rest = units;
    while !rest.is_empty() {
        let (batch, more) = rest.split_at(rest.len().min(BATCH));
        survey_batch(alloc, tree, snapshot, batch, renaming, &mut facts)?;
        rest = more;
    }
    Ok(facts)
}
