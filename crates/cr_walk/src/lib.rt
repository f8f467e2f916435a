//! What is kept of a unit while its events come, call by call, is its binding: at the end that of a well-formed unit, and at
//! a fault that of an ill-formed one. The functions do nothing: their contracts are laws.
#![tactic(auto)]

ghost use Rattle.cr_walk.specs.Laws.{BeginsSeen, OpensAreSeen, ClosesAreSeen, TokensAreSeen, ActionsAreSeen, AsksAreSeen, TokensAreIll, ActionsAreIll, EndIsBound, TreesAreBound, EventsFit, EndFits};
ghost use Rattle.cr_known.specs.Laws.{SoundStepsBind, FaultsAreOfCutTrees};
ghost use Rattle.cr_nodes.specs.Laws.{CallsAreRuns, RunsJoin, RunsDerive, RunsBegin, AsksComeBeforeNodes, AllStepsAreMade};

use cr_known::{faults_are_of_cut_trees, sound_steps_bind};
use cr_nodes::{
    asks_come_before_nodes, calls_are_a_run, runs_are_of_trees, steps_are_a_trees, the_machine_fits,
};

// The laws of open nodes, and of what is kept of them.
fn lower_laws()
    ensures calls { CallsAreRuns }
    ensures join { RunsJoin }
    ensures derive { RunsDerive }
    ensures begin { RunsBegin }
    ensures asks { AsksComeBeforeNodes }
    ensures made { AllStepsAreMade }
    ensures bind { SoundStepsBind }
    ensures faults { FaultsAreOfCutTrees }
{
    calls_are_a_run();
    runs_are_of_trees();
    asks_come_before_nodes();
    steps_are_a_trees();
    sound_steps_bind();
    faults_are_of_cut_trees();
}

/// What a binder has seen at the start, and after one more call that opens or closes a node, or takes a token, an action or
/// an ask.
pub fn calls_are_seen()
    ensures begins { BeginsSeen }
    ensures opens { OpensAreSeen }
    ensures closes { ClosesAreSeen }
    ensures tokens { TokensAreSeen }
    ensures actions { ActionsAreSeen }
    ensures asks { AsksAreSeen }
{
    lower_laws();
}

/// Where a token or an action brings the first fault, the unit is ill-formed for that cause at that token.
pub fn faults_are_of_the_unit()
    ensures tokens { TokensAreIll }
    ensures actions { ActionsAreIll }
{
    lower_laws();
}

/// At the end the unit is well-formed, and what is kept is the binding of its one tree.
pub fn ends_are_bound()
    ensures end { EndIsBound }
    ensures trees { TreesAreBound }
{
    lower_laws();
}

/// The events that the machine of the grammar gives, and its end, are never unfit.
pub fn events_fit()
    ensures events { EventsFit }
    ensures end { EndFits }
{
    the_machine_fits();
}
