//! The top call.
ghost use Rattle.std.specs.Prelude.{◌≡◌, ◌≢◌, ◌⊎◌, ◌++◌, List, ℕ, map, take, string_bytes, Some, Ok, Err, codes, decimal};
ghost use Rattle.cr_world.specs.Outside.{Files, Rose, OnlyRead};
ghost use Rattle.cr_run.specs.Goal.{IsInPlace};
ghost use Rattle.cr_run.specs.Renames.{Rename};
ghost use Rattle.cr_run.specs.Outcome.{IsOutcome, Outcome};
ghost use Rattle.cr_run.specs.Report.{report_of};
ghost use Rattle.cr_run.specs.Keeps.{Keeps};
ghost use Rattle.cr_run.specs.Reading.{MayRead, ReadsByItself};
ghost use Rattle.cr_run.specs.Told.{Gained, GainedFront, Tells, line_of};
ghost use Rattle.cr_run.specs.Written.{IsHalfWritten, files_after, replaced_by, fault_text};
ghost use Rattle.cr_run.specs.Top.{Holds, IsDecided, NoneRose, decided_status};

use crate::laws::{an_accepted_rename_keeps_the_meaning, the_outcome_is_one};
use crate::plan::make_plan;
use crate::refusal::{refuse, tell};
use crate::write::replace_all;
use cr_small::every_text_is_decided;
use cr_world::{DoneEnd, Sink, Tree};
use std::alloc::Global;

/// Renames what stands at an offset of a file in all translation units of a database, and gives the
/// status.
///
/// `words` are those of the command line without the program's name:
/// `[-p DATABASE] SOURCE --offset N --new-name NAME [-i]`. The offset is in bytes from 0 in the old file.
/// Without a database the source is the one unit. The status is 0 where the rename was done: with `-i`
/// the files are written, and else the edited texts are printed behind the report, which goes to `out`.
/// It is 2 where the words are others, 3 where the database is refused, 4 where a file couldn't be read,
/// 6 where no name stands at the offset, 7 where a name can't be given or taken, 12 where the new name
/// can't be spelled at a place of the old one, 16 where a file couldn't be written, 17 where no memory was
/// found, 18 where `out` failed, 19 where a limit is passed, and 20 where a word or a file is of a form that
/// isn't built yet. In each of these `err` gets one line.
pub fn crename_serial<T: Tree, O: Sink, E: Sink>(
    alloc: Global,
    words: &[String],
    tree: &mut T,
    out: &mut O,
    err: &mut E,
) -> u8
    // 0: the words and the files decide this rename. The files are edited so where they are to be written,
    // its report is written whole, and nothing is said.
    ensures renamed { result ≡ 0 → (files : Files) → T.files tree.old ≡ Some files
        → (r : Rename) × IsOutcome (map string_bytes words.now) files (Ok r)
        × Holds (T.files tree.new) (files_after r files)
        × Gained (O.bytes out.old) (O.bytes out.new) (report_of files r) }
    ensures silent { result ≡ 0 → err.new ≡ err.old }

    // Each unit's edited file has the same tokens but for the name, the same tree, and each name denotes
    // what it denoted; and two names of any units are linked just where they were.
    ensures keeps { result ≡ 0 → (files : Files) → T.files tree.old ≡ Some files
        → (r : Rename) → IsOutcome (map string_bytes words.now) files (Ok r)
        → Keeps (map string_bytes words.now) files r }

    // A refusal is the one that the words and the files decide, and its line is told.
    ensures refused { IsDecided result → (files : Files) → T.files tree.old ≡ Some files
        → (text : List ℕ) × IsOutcome (map string_bytes words.now) files (Err (record { status = result; text = text }))
        × Tells (E.bytes err.old) (E.bytes err.new) (E.faults err.old) (E.faults err.new) (line_of text) }

    // 4: a read of the path that the line names failed in this call.
    ensures read_fault { result ≡ 4 → (path : List ℕ) × Rose (T.reads tree.old path) (T.reads tree.new path)
        × Tells (E.bytes err.old) (E.bytes err.new) (E.faults err.old) (E.faults err.new) (line_of (codes "read fault: " ++ path))
        × ((files : Files) → T.files tree.old ≡ Some files → MayRead (map string_bytes words.now) files path) }

    // 16: the words ask that files are written, and a replace of the path that the line names failed in this call. The first n of
    // the files that change are new, this one is old or new, all others are old, and nothing is printed.
    ensures write_fault { result ≡ 16 → (path : List ℕ) × (n : ℕ) × Rose (T.replaces tree.old path) (T.replaces tree.new path)
        × Tells (E.bytes err.old) (E.bytes err.new) (E.faults err.old) (E.faults err.new) (line_of (codes "write fault: " ++ fault_text path n))
        × IsInPlace (map string_bytes words.now) × (out.new ≡ out.old)
        × ((files : Files) → T.files tree.old ≡ Some files
        → (r : Rename) × IsOutcome (map string_bytes words.now) files (Ok r)
        × (told : Files) × (T.files tree.new ≡ Some told) × IsHalfWritten n path r files told) }

    // 17: it names nothing.
    ensures out_of_memory { result ≡ 17
        → Tells (E.bytes err.old) (E.bytes err.new) (E.faults err.old) (E.faults err.new) (line_of (codes "out of memory")) }

    // 18: a write of the report failed in this call, and a front of it stands. The files are as after 0.
    ensures output_fault { result ≡ 18 → Rose (O.faults out.old) (O.faults out.new)
        × Tells (E.bytes err.old) (E.bytes err.new) (E.faults err.old) (E.faults err.new) (line_of (codes "output fault"))
        × ((files : Files) → T.files tree.old ≡ Some files
        → (r : Rename) × IsOutcome (map string_bytes words.now) files (Ok r)
        × Holds (T.files tree.new) (files_after r files)
        × GainedFront (O.bytes out.old) (O.bytes out.new) (report_of files r)) }

    // Whatever is answered, only the database and the source that the words name were read, and main files of units of the
    // database, as it was read; where the tree tells its files, of the database that stands there.
    ensures reads_only { ReadsByItself (map string_bytes words.now) (T.readings tree.old) (T.readings tree.new) }
    ensures reads_told { (files : Files) → T.files tree.old ≡ Some files
        → OnlyRead (MayRead (map string_bytes words.now) files) (T.readings tree.old) (T.readings tree.new) }

    // Whatever is answered, nothing was replaced without `-i`,
    ensures replaces_none { (IsInPlace (map string_bytes words.now) → ⊥) → T.replacings tree.new ≡ T.replacings tree.old }

    // and with it only first ones of the files that the decided rename changes, in their order.
    ensures replaces_only { (files : Files) → T.files tree.old ≡ Some files
        → (r : Rename) → IsOutcome (map string_bytes words.now) files (Ok r)
        → (n : ℕ) × (T.replacings tree.new ≡ T.replacings tree.old ++ take n (replaced_by r)) }

    // Every answer but 0, 16 and 18 leaves the files and the output as they were, and asked for no replace.
    ensures unchanged { (result ≡ 0 → ⊥) → (result ≡ 16 → ⊥) → (result ≡ 18 → ⊥) → (T.files tree.new ≡ T.files tree.old)
        × (T.replacings tree.new ≡ T.replacings tree.old) × (out.new ≡ out.old) }

    // No other status is answered.
    ensures statuses { IsDecided result ⊎ (result ≡ 0) ⊎ (result ≡ 4) ⊎ (result ≡ 16) ⊎ (result ≡ 17) ⊎ (result ≡ 18) }

    // Where nothing outside failed, the status is the decided one, unless memory ran out.
    ensures complete { (files : Files) → T.files tree.old ≡ Some files
        → NoneRose (T.reads tree.old) (T.reads tree.new)
        → NoneRose (T.replaces tree.old) (T.replaces tree.new)
        → (Rose (O.faults out.old) (O.faults out.new) → ⊥)
        → (o : Outcome) → IsOutcome (map string_bytes words.now) files o
        → (result ≡ decided_status o) ⊎ (result ≡ 17) }
{
    every_text_is_decided();
    the_outcome_is_one();
    an_accepted_rename_keeps_the_meaning();
    let plan = match make_plan(alloc, words, tree) {
        Ok(plan) => plan,
        Err(refusal) => return refuse(err, &refusal),
    };
    if let Some(write) = replace_all(tree, &plan.writes) {
        tell(err, b"write fault: ", write.fault.bytes());
        return 16;
    }
    match out.write(&plan.report) {
        DoneEnd::Done => 0,
        DoneEnd::Failed => {
            tell(err, b"output fault", b"");
            18
        }
    }
}
