//! What a program keeps of the open nodes of a unit while it binds it, and that this is the binding.
#![tactic(auto)]

ghost use Rattle.cr_known.specs.Nested.{NestsGoAlong};
ghost use Rattle.cr_known.specs.Laws.{ActsByShapes, EndsBySaved, KnownIsBound, SoundStepsBind, FaultsAreOfCutTrees};

mod nest;
mod parts;

pub use nest::{Leaves, Nest};

/// Of the trees of a node that ended its shape is enough. It does nothing: its contract is the law.
pub fn actions_go_by_shapes()
    ensures { ActsByShapes }
{}

/// Of the state in which a node began what was saved is enough. It does nothing: its contract is the law.
pub fn ends_go_by_saved()
    ensures { EndsBySaved }
{}

/// From the start through the steps of a tree, what is kept is the binding of the tree. It does nothing: its contract is
/// the law.
pub fn known_is_bound()
    ensures { KnownIsBound }
{}

/// The same where no fault is seen before an opening. It does nothing: its contract is the law.
pub fn sound_steps_bind()
    ensures { SoundStepsBind }
{}

/// Where steps stop, trees that are cut off there have the fault that is kept. It does nothing: its contract is the law.
pub fn faults_are_of_cut_trees()
    ensures { FaultsAreOfCutTrees }
{}

/// The calls of `Nest` do to nodes and shapes what they do to all that is kept. It does nothing: its contract is the law.
pub fn nests_go_along()
    ensures { NestsGoAlong }
{}
