//! The laws that a renaming keeps the preprocessing of a translation unit.
#![tactic(auto)]

ghost use Rattle.cr_preproc_law.specs.Renaming.{KeepsPreprocessing};
ghost use Rattle.cr_preproc_law.specs.Finals.{FinalsPass, SnapshotsAreNumbered};
ghost use Rattle.cr_preproc_law.specs.Standing.{FinalsStand};
ghost use Rattle.cr_preproc_law.specs.Traces.{TracesAreFine};

use cr_expand_law::{expansion_keeps_origins, renaming_keeps_each_use, renaming_keeps_expansion};
use cr_lex::{renaming_keeps_lexing, tokens_stand_in_order};
use cr_snapshot::known_files_stay_known;

/// The final tokens of a unit come, with their kinds and spellings, from text lines and from definitions of its files, or
/// are made.
///
/// It does nothing: its contract is the law.
pub fn final_tokens_come_from_text()
    ensures { FinalsPass }
{
    expansion_keeps_origins();
}

/// A final token that comes from a place stands there, with its spelling, in the file that is known.
///
/// It does nothing: its contract is the law.
pub fn final_tokens_stand_in_files()
    ensures { FinalsStand }
{
    known_files_stay_known();
    final_tokens_come_from_text();
}

/// Where a name is replaced in files at places of identifiers that are spelled so, each of them a
/// final token of some unit, a unit that was preprocessed whole is preprocessed as before
/// (C11 5.1.1.2, phases 1 to 4): the same lines are live, each `#if` has the value that it had, the
/// same files are opened and looked for, and the same tokens are given, but for the new name and the
/// places. The new name is an identifier that is not reserved, names no macro and captures no
/// parameter, and the identifiers renamed are at most final tokens, or dropped by a call.
///
/// It does nothing: its contract is the law.
pub fn renaming_keeps_preprocessing()
    ensures { KeepsPreprocessing }
{
    renaming_keeps_lexing();
    tokens_stand_in_order();
    renaming_keeps_expansion();
    renaming_keeps_each_use();
    final_tokens_come_from_text();
}

/// What a unit's trace says of a renaming: where each identifier at its places is at most final or
/// dropped, the new name is defined as no macro and captures none of them, nothing that happens in the
/// unit's preprocessing does harm.
///
/// It does nothing: its contract is the law.
pub fn a_free_trace_does_no_harm()
    ensures { TracesAreFine }
{}

/// Each number of a snapshot is that of one file. It does nothing: its contract is the law.
pub fn each_number_is_of_one_file()
    ensures { SnapshotsAreNumbered }
{
    known_files_stay_known();
}
