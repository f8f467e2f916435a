//! The law that what is bound of a well-formed unit is sound: of its tokens, and of what was declared before.
#![tactic(auto)]

ghost use Rattle.cr_sound_law.specs.Sound.{UsesAreSound, DeclarationsAreAtTokens, MembersAreAtTokens, RecordsAreAtTokens, HiddenAreTokens, MembersAreUnique};

use cr_binding::binding_grows;
use cr_scope::lookup_means;

/// In a well-formed unit each use has a token, and denotes what was declared before under its name and is visible
/// (C11 6.2.1p4); a tag that denotes nothing is declared right there (6.7.2.3p8). A label that is gone to has that name.
///
/// It does nothing: its contract is the law.
pub fn uses_are_sound()
    ensures { UsesAreSound }
{
    binding_grows();
    lookup_means();
}

/// In a well-formed unit declarations, members and records have tokens, the record in which a member is written is one of
/// the unit, and what stands in the brackets of attributes are tokens.
///
/// It does nothing: its contract is the law.
pub fn bound_things_are_at_tokens()
    ensures declarations { DeclarationsAreAtTokens }
    ensures members { MembersAreAtTokens }
    ensures records { RecordsAreAtTokens }
    ensures hidden { HiddenAreTokens }
{
    binding_grows();
    lookup_means();
}

/// In a well-formed unit no two members of one record have one name (C11 6.7.2.1, 6.2.3), member by member.
///
/// It does nothing: its contract is the law.
pub fn members_are_unique()
    ensures { MembersAreUnique }
{
    binding_grows();
    lookup_means();
}
