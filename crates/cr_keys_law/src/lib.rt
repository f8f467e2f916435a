//! Laws on the keys of entities, by which tokens of several units are linked.
#![tactic(auto)]

ghost use Rattle.cr_keys_law.specs.KeysMove.{KeysMove};
ghost use Rattle.cr_keys_law.specs.SpelledAlike.{KeysTellNames};
ghost use Rattle.cr_keys_law.specs.Spelled.{IdentifiersAreSpelled};

use cr_binding_law::units_are_consistent;
use cr_scope::lookup_means;

/// An identifier that denotes a declaration, jumps to a label or selects a member is spelled as that.
///
/// It does nothing: its contract is the law.
pub fn identifiers_are_spelled_as_what_they_mean()
    ensures { IdentifiersAreSpelled }
{
    lookup_means();
}

/// The key of an entity tells the spelling of each token that means it.
///
/// It does nothing: its contract is the law.
pub fn keys_tell_names()
    ensures { KeysTellNames }
{
    identifiers_are_spelled_as_what_they_mean();
}

/// After a renaming of the entities of some keys each token means an entity of the moved key: a key that has a name has
/// the new one where it is one of these keys, and a place is moved.
///
/// It does nothing: its contract is the law.
pub fn keys_move()
    ensures { KeysMove }
{
    units_are_consistent();
}
