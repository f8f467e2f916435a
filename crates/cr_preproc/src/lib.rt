//! Preprocessing of a translation unit.
#![tactic(auto)]

ghost use Rattle.cr_phase4.specs.Runs.{FollowsTheRules};
ghost use Rattle.cr_preproc.specs.Frames.{OpensInFront};
ghost use Rattle.cr_preproc.specs.Leading.{GoesByTokens};

mod condition;
mod conditional;
mod definitions;
mod directing;
mod directive;
mod evaluate;
mod expansion;
mod header;
mod include;
mod line;
mod listing;
mod once;
mod open_file;
mod open_ifs;
mod preproc;
mod progress;
mod reader;
mod roles;
mod search;
mod trace;
mod turning;
mod words;

pub use cr_macros::Seen;
pub use preproc::{PreTurn, Preproc, steps_preprocess_the_unit};
pub use trace::Trace;

/// The expansion of a run is what the rules of expansion say of it, however often they are used, where a
/// token of the result is given out as soon as it is found. It does nothing: its contract is the law.
pub fn a_run_follows_its_rules()
    ensures { FollowsTheRules }
{}

/// A run goes from one token of its result to the next. It does nothing: its contract is the law.
pub fn a_run_goes_by_its_tokens()
    ensures { GoesByTokens }
{}

/// To open a file and to go on with others is to open it in front of them. It does nothing: its contract
/// is the law.
pub fn a_file_is_opened_in_front()
    ensures { OpensInFront }
{}
