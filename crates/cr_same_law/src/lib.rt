//! Laws on a unit that means the same after a renaming: what it can't have had before.
#![tactic(auto)]

ghost use Rattle.cr_same_law.specs.Asks.{SameMeaningsTellNothing};
ghost use Rattle.cr_same_law.specs.SameMeaning.{SameMeaningsAreFree, UnitsDeclareTags};
ghost use Rattle.cr_same_law.specs.Told.{UnitsAreTold};

use cr_binding_law::{asked_identifiers_are_used, keys_are_whole_entities, units_are_consistent};
use cr_scope::lookup_means;

/// A name that was looked up denotes what its spelling meant where it was; labels alone are in the name space of labels, and
/// no tag is an ordinary identifier (C11 6.2.1, 6.2.3).
///
/// It does nothing: its contract is the law.
pub fn units_are_told()
    ensures { UnitsAreTold }
{
    lookup_means();
}

/// A tag use that finds nothing declares its tag next (C11 6.7.2.3).
///
/// It does nothing: its contract is the law.
pub fn units_declare_tags()
    ensures { UnitsDeclareTags }
{}

/// A unit that means the same after a renaming had no conflict of what is renamed, but of some asks: the converse of the law
/// that a renaming without conflicts keeps the meaning.
///
/// It does nothing: its contract is the law.
pub fn same_meanings_are_free()
    ensures { SameMeaningsAreFree }
{
    lookup_means();
    units_are_consistent();
    units_declare_tags();
}

/// A unit that means the same after the entities of some keys have the new name tells no conflict of one of these keys, but
/// for asks of which nothing is promised.
///
/// It does nothing: its contract is the law.
pub fn same_meanings_tell_nothing()
    ensures { SameMeaningsTellNothing }
{
    lookup_means();
    units_are_consistent();
    keys_are_whole_entities();
    asked_identifiers_are_used();
    units_declare_tags();
}
