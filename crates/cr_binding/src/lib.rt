//! The definition of binding (C11 6.2, 6.5 to 6.9), which computes: what each identifier of a translation unit means,
//! the keys and facts that follow, and laws over it.
#![tactic(auto)]

ghost use Rattle.cr_binding.specs.ActionsStay.{KeepsMeaning, KeepsDeclaration, KeepsTakenLinkage, KeepsUnseenTag, KeepsTagHere, KeepsAskedName, KeepsDeniedAsk};
ghost use Rattle.cr_binding.specs.BindingGrows.{BindingGrows, FaultStays, ScopesAreTold};
ghost use Rattle.cr_binding.specs.BindingStays.{BindingStays};
ghost use Rattle.cr_binding.specs.FreeUnits.{MentionsAreFree, NewTagsAreFree, AsksAreFree, DeclarationsAreFree, AllAreFree};
ghost use Rattle.cr_binding.specs.SoundUnits.{ActionsAreDone};
ghost use Rattle.cr_binding.specs.Steps.{StepsBind, StepsAreEvents};
ghost use Rattle.cr_binding.specs.MembersStay.{KeepsSelection, KeepsNewMembers};

use cr_capture::{
    renaming_keeps_a_new_tag, renaming_keeps_an_ask, renaming_keeps_linkage, renaming_keeps_lookup,
};
use cr_scope::lookup_means;

/// Where two spellings of the same tokens have the same look-ups, redeclarations and selections at each action, they
/// have the same binding. It does nothing: its contract is the law.
pub fn binding_stays()
    ensures { BindingStays }
{}

/// The walk over a tree is made in steps by what keeps the open nodes on a stack, and the steps are of the tokens,
/// actions and asks that the machine of the grammar gives. It does nothing: its contract is the law.
pub fn steps_bind()
    ensures binds { StepsBind }
    ensures events { StepsAreEvents }
{}

/// The lists of a unit only grow while it is bound, a fault stays the first one, and what was visible at a place is told
/// by the lists in the end. It does nothing: its contract is the law.
pub fn binding_grows()
    ensures lists { BindingGrows }
    ensures fault { FaultStays }
    ensures scopes { ScopesAreTold }
{}

/// In a unit without a fault every action is done without one, and what it leaves is in the lists in the end. It does
/// nothing: its contract is the law.
pub fn actions_are_done()
    ensures { ActionsAreDone }
{}

/// Where neither what an action reads nor a declaration before it has a conflict of a renamed declaration, the action
/// reads the same after the renaming: what a token denotes, that a declaration may stand beside those before it, which
/// linkage it takes, that a tag isn't declared yet, and which tag of the present scope a token names.
///
/// It does nothing: its contract is the law.
pub fn renaming_keeps_what_is_read()
    ensures meaning { KeepsMeaning }
    ensures declaration { KeepsDeclaration }
    ensures linkage { KeepsTakenLinkage }
    ensures tag { KeepsUnseenTag }
    ensures tag_here { KeepsTagHere }
{
    renaming_keeps_lookup();
    renaming_keeps_linkage();
    renaming_keeps_a_new_tag();
}

/// In the same case an identifier that was asked is a typedef name after the renaming just where it was one: one that
/// denotes a declaration, and one that declares a parameter or is built in. It does nothing: its contract is the law.
pub fn renaming_keeps_what_is_asked()
    ensures denoted { KeepsAskedName }
    ensures denied { KeepsDeniedAsk }
{
    lookup_means();
    renaming_keeps_lookup();
    renaming_keeps_an_ask();
}

/// Where no member that is renamed meets one of the new name in a record, a token that selects a member selects it after
/// the renaming, and members that are new to a record are new to it. It does nothing: its contract is the law.
pub fn renaming_keeps_members()
    ensures selection { KeepsSelection }
    ensures members { KeepsNewMembers }
{}

/// Where no conflict of a unit is one of a renamed entity, none of its mentions has one in the scopes in which it stands.
/// It does nothing: its contract is the law.
pub fn free_units_have_free_mentions()
    ensures mentions { MentionsAreFree }
    ensures tags { NewTagsAreFree }
    ensures asks { AsksAreFree }
    ensures declarations { DeclarationsAreFree }
    ensures all { AllAreFree }
{}
