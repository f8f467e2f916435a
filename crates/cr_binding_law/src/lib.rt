//! The law that a renaming keeps what the identifiers of a whole translation unit mean.
#![tactic(auto)]

ghost use Rattle.cr_binding_law.specs.AskedIdentifiers.{AskedIdentifiersAreUsed};
ghost use Rattle.cr_binding_law.specs.ConsistentUnits.{UnitsAreConsistent, LabelsStandInFunctions};
ghost use Rattle.cr_binding_law.specs.RenamingKeys.{EntitiesHaveOneKey, KeysAreEntities, KeysAreFree, RenamingOfKeysKeepsUnits};
ghost use Rattle.cr_binding_law.specs.UnitStays.{RenamingKeepsUnits};

use cr_binding::{
    actions_are_done, binding_stays, free_units_have_free_mentions, renaming_keeps_members,
    renaming_keeps_what_is_asked, renaming_keeps_what_is_read,
};
use cr_scope::lookup_means;

/// Where entities of a well-formed unit get a new name, and no conflict of the unit is one of theirs, the unit is
/// well-formed with the same tree, and each identifier means what it meant (C11 6.2.1 to 6.2.3).
///
/// It does nothing: its contract is the law.
pub fn renaming_keeps_units()
    ensures { RenamingKeepsUnits }
{
    lookup_means();
    actions_are_done();
    binding_stays();
    renaming_keeps_what_is_read();
    renaming_keeps_what_is_asked();
    renaming_keeps_members();
    free_units_have_free_mentions();
}

/// The declarations and members of any unit are consistent (C11 6.2.1, 6.2.3, 6.7p3, 6.7.2.1): each declaration may stand
/// beside those before it, typedef names are ordinary identifiers, a name selects one member of a record, and in a
/// well-formed unit labels stand in functions.
///
/// It does nothing: its contract is the law.
pub fn units_are_consistent()
    ensures lists { UnitsAreConsistent }
    ensures labels { LabelsStandInFunctions }
{}

/// Declarations of one entity have one key. So the tokens that mean an entity of some keys are of whole entities; where the
/// facts of a unit tell no conflict of one of these keys, none of its mentions has one.
///
/// It does nothing: its contract is the law.
pub fn keys_are_whole_entities()
    ensures one_key { EntitiesHaveOneKey }
    ensures entities { KeysAreEntities }
    ensures free { KeysAreFree }
{}

/// Where the entities of some keys get a new name, and the facts of a well-formed unit tell no conflict of one of these
/// keys, the unit is well-formed with the same tree, and each identifier means what it meant.
///
/// It does nothing: its contract is the law.
pub fn renaming_of_keys_keeps_units()
    ensures { RenamingOfKeysKeepsUnits }
{
    renaming_keeps_units();
    keys_are_whole_entities();
}

/// In a well-formed unit an identifier of which it was asked whether it is a typedef name is looked up in the scope of the
/// ask or inside it, or it isn't one and declares a parameter, or it is supplied by the compiler.
///
/// It does nothing: its contract is the law.
pub fn asked_identifiers_are_used()
    ensures { AskedIdentifiersAreUsed }
{}
