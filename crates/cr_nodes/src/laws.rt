//! What runs of the moves are: laws of the definitions. Each function does nothing; its contract is
//! the law.
ghost use Rattle.cr_nodes.specs.Laws.{CallsAreRuns, RunsJoin, StepsAreATrees, AllStepsAreMade, RunsDerive, RunsBegin, ChildrenAreTold, AsksComeBeforeNodes, MachineFits, EndFits, AwaitedIsFit};

use cr_binding::steps_bind;

/// Given the first events of a tree, the nodes make its first steps, and wait for its next event; and
/// at the end they have made all.
pub fn steps_are_a_trees()
    ensures fronts { StepsAreATrees }
    ensures whole { AllStepsAreMade }
{}

/// What calls do one after another is a run of the moves.
pub fn calls_are_a_run()
    ensures calls { CallsAreRuns }
    ensures join { RunsJoin }
{}

/// At the end of a run the tokens have the tree whose steps were made, and before that a tree that is
/// cut off there.
pub fn runs_are_of_trees()
    ensures derive { RunsDerive }
    ensures begin { RunsBegin }
    ensures children { ChildrenAreTold }
{
    steps_bind();
}

/// After an ask comes a further ask of the same node, or the node is opened.
pub fn asks_come_before_nodes()
    ensures { AsksComeBeforeNodes }
{}

/// The events that the machine of the grammar gives, and its end, are those that the open nodes wait
/// for, and none of them is unfit.
pub fn the_machine_fits()
    ensures waits { MachineFits }
    ensures end { EndFits }
    ensures fit { AwaitedIsFit }
{}
