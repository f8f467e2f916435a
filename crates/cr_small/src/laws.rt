//! Laws of the small form. These functions do nothing: their contracts are the laws.
ghost use Rattle.cr_small.specs.SmallForm.{DenotesOne};
ghost use Rattle.cr_small.specs.Laws.{PlacesRise, HasPlace, NamesItsKey, HaveOneName, Decided, RenamingKeepsMeaning, KeysMove};

use cr_lex::{renaming_keeps_lexing, tokens_stand_in_order};

/// The places of an entity lie one behind another in the text.
pub fn places_rise()
    ensures { PlacesRise }
{
    tokens_stand_in_order();
}

/// What stands at an offset has a place.
pub fn a_target_has_a_place()
    ensures { HasPlace }
{}

/// What stands at an offset, and has external linkage, has the name of its key.
pub fn a_target_names_its_key()
    ensures { NamesItsKey }
{
    tokens_stand_in_order();
}

/// Each token that denotes an entity is spelled as the entity's name.
pub fn entities_have_one_name()
    ensures { HaveOneName }
{
    tokens_stand_in_order();
}

/// What the tokens of a text of the small form denote is one.
pub fn denotations_are_one()
    ensures { DenotesOne }
{}

/// Of each text it is decided what its tokens denote, or that it isn't of the small form.
pub fn every_text_is_decided()
    ensures { Decided }
{}

/// Each entity of a text of the small form can be renamed to a name that the text doesn't have and that can
/// be spelled at its places, and the meaning is kept.
pub fn renaming_keeps_the_meaning()
    ensures { RenamingKeepsMeaning }
{
    tokens_stand_in_order();
    renaming_keeps_lexing();
}

/// After such a rename each token denotes the entity of the moved key.
pub fn keys_move()
    ensures { KeysMove }
{
    tokens_stand_in_order();
    renaming_keeps_lexing();
}
