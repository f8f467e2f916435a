//! The texts of the units' command words.
ghost use Rattle.std.specs.Prelude.{◌≡◌, ◌≤◌, ◌<◌, ◌+◌, Err, Some, None, length, IfOk, OnOk};
ghost use Rattle.cr_snapshot.specs.Files.{finding, apart_paths};
ghost use Rattle.cr_snapshot.specs.declared.snapshot.KnowFault.TheVariants as fault;
ghost use Rattle.cr_phase4.specs.Search as search;
ghost use Rattle.cr_survey.specs.Batches.{words_file, unless_known, with_words};

use cr_base::{OutOfMemory, PathText, Unit};
use cr_goal::push_number;
use cr_snapshot::{Found, KnowFault, Snapshot};
use std::alloc::Global;

// The path of the text of a unit's command words.
fn words_path(alloc: Global, unit: &Unit) -> Result<PathText, OutOfMemory>
    ensures { IfOk result (λ path. path ≡ search.words_path unit.now) }
{
    let mut text = b"words/".to_vec(alloc)?;
    push_number(alloc, &mut text, unit.number as usize)?;
    let path = PathText::apart(alloc, &text)?;
    Ok(path)
}

fn words_of(alloc: Global, unit: &Unit) -> Result<Vec<u8>, OutOfMemory>
    ensures { IfOk result (λ v. v.items ≡ unit.now.words) }
{
    let words = unit.words.bytes().to_vec(alloc)?;
    Ok(words)
}

fn know_unit_words(alloc: Global, unit: &Unit, snapshot: &mut Snapshot) -> Result<(), KnowFault>
    requires room { apart_paths snapshot.old < 65536 }
    ensures ok { OnOk result (unless_known (words_file unit.now) snapshot.old (finding (search.words_path unit.now) snapshot.old) ≡ Some snapshot.new) }
    ensures limit { result ≡ Err fault.LimitFiles → unless_known (words_file unit.now) snapshot.old (finding (search.words_path unit.now) snapshot.old) ≡ None }
    ensures apart { apart_paths snapshot.new ≤ apart_paths snapshot.old + 1 }
{
    let path = words_path(alloc, unit)?;
    if let Found::Unknown = snapshot.get(&path) {
        let words = words_of(alloc, unit)?;
        snapshot.know(path, Some(words))?;
    }
    Ok(())
}

/// Makes the texts of the units' command words known, each beside all files.
///
/// `LimitFiles` comes exactly where one of them is longer than a file may be.
pub fn know_words(alloc: Global, units: &[Unit], snapshot: &mut Snapshot) -> Result<(), KnowFault>
    requires room { apart_paths snapshot.old + length units.now ≤ 65536 }
    ensures ok { OnOk result (with_words units.now snapshot.old ≡ Some snapshot.new) }
    ensures limit { result ≡ Err fault.LimitFiles → with_words units.now snapshot.old ≡ None }
    ensures apart { apart_paths snapshot.new ≤ apart_paths snapshot.old + length units.now }
{
    match units {
        [] => Ok(()),
        [unit, rest @ ..] => {
            know_unit_words(alloc, unit, snapshot)?;
            know_words(alloc, rest, snapshot)
        }
    }
}
