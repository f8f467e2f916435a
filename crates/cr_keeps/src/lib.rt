//! The law that an accepted rename keeps the meaning of all units.
#![tactic(auto)]

ghost use Rattle.cr_keeps.specs.OneMeaning.{MeaningsAreOne};
ghost use Rattle.cr_keeps.specs.AcceptedRenames.{AcceptedRenamesKeep, AcceptedRenamesKeepTrees, EditsReachTrees};

use cr_binding_law::{keys_are_whole_entities, renaming_of_keys_keeps_units, units_are_consistent};
use cr_class::an_accepted_verdict_tells_of_each_fact;
use cr_keys_law::{identifiers_are_spelled_as_what_they_mean, keys_move, keys_tell_names};
use cr_lex::{renaming_keeps_lexing, tokens_stand_in_order};
use cr_phase4::preprocessing_goes_on;
use cr_phase7_law::renaming_keeps_tokens;
use cr_preproc_law::{
    a_free_trace_does_no_harm, each_number_is_of_one_file, final_tokens_stand_in_files,
    renaming_keeps_preprocessing,
};
use cr_snapshot::known_files_stay_known;
use cr_unit_law::units_are_one;

/// Where all units are well-formed, a table has just their facts, a class is that of a target over it, and no fact refuses
/// the new name, the renaming at the places of the class keeps the meaning of the units (C11 5.1.1.2, 6.2.1 to 6.2.3). In
/// the edited files each unit is preprocessed to the same tokens, but for the name at these places, and has the same tree;
/// each of its identifiers means what it meant; and two tokens of any two units mean one entity just where they did.
///
/// It holds over the known files, and over each whole tree of which they are a part: no edit is beside the tree.
///
/// The old name is one without a meaning of its own: no `__func__`, no `__FUNCTION__`, and none that begins with
/// `__builtin_`.
///
/// It does nothing: its contract is the law.
pub fn an_accepted_rename_keeps_the_units()
    ensures files { AcceptedRenamesKeep }
    ensures trees { AcceptedRenamesKeepTrees }
    ensures reach { EditsReachTrees }
{
    renaming_keeps_lexing();
    tokens_stand_in_order();
    known_files_stay_known();
    preprocessing_goes_on();
    each_number_is_of_one_file();
    renaming_keeps_preprocessing();
    a_free_trace_does_no_harm();
    final_tokens_stand_in_files();
    renaming_keeps_tokens();
    renaming_of_keys_keeps_units();
    units_are_consistent();
    keys_are_whole_entities();
    identifiers_are_spelled_as_what_they_mean();
    keys_tell_names();
    keys_move();
    an_accepted_verdict_tells_of_each_fact();
}

/// A unit that is well-formed has one meaning: its tokens, and their tree (C11 5.1.1.2, 6.9).
///
/// It does nothing: its contract is the law.
pub fn units_mean_one_thing()
    ensures { MeaningsAreOne }
{
    units_are_one();
}
