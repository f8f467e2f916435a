//! Laws of the outcome. These functions do nothing: their contracts are the laws.
ghost use Rattle.cr_run.specs.Outcome.{OneOutcome};
ghost use Rattle.cr_run.specs.Keeps.{AcceptedKeeps};

use cr_small::{
    a_target_names_its_key, denotations_are_one, keys_move, renaming_keeps_the_meaning,
};

/// Words and files decide one outcome.
pub fn the_outcome_is_one()
    ensures { OneOutcome }
{
    denotations_are_one();
}

/// An accepted rename keeps the meaning of each unit, and the links between them.
pub fn an_accepted_rename_keeps_the_meaning()
    ensures { AcceptedKeeps }
{
    a_target_names_its_key();
    renaming_keeps_the_meaning();
    keys_move();
}
