//! The law that no edit of an accepted rename is idle.
#![tactic(auto)]

ghost use Rattle.cr_idle_law.specs.Idle.{NoEditIsIdle};

use cr_facts::facts_are_ordered;
use cr_keys_law::{identifiers_are_spelled_as_what_they_mean, keys_tell_names};
use cr_lex::tokens_stand_in_order;
use cr_phase7_law::renaming_keeps_tokens;
use cr_preproc_law::final_tokens_stand_in_files;
use cr_snapshot::known_files_stay_known;

/// Whatever places with the target get the new name so that the units keep their meaning, all places of the class are among
/// them: none of the edits of a rename can be left out.
///
/// It does nothing: its contract is the law.
pub fn no_edit_is_idle()
    ensures { NoEditIsIdle }
{
    known_files_stay_known();
    tokens_stand_in_order();
    final_tokens_stand_in_files();
    renaming_keeps_tokens();
    identifiers_are_spelled_as_what_they_mean();
    keys_tell_names();
    facts_are_ordered();
}
