//! Laws of lexing.
ghost use Rattle.cr_lex.specs.Order.{StandsInOrder};
ghost use Rattle.cr_lex.specs.Renaming.{KeepsLexing};

/// Where an old name is replaced by a new one at places of identifiers that are spelled so, and the new
/// name can be spelled there, the tokens of the edited bytes are the old ones with spellings changed at
/// these places and places shifted, and the fault is the old one. It does nothing: its contract is the law.
pub fn renaming_keeps_lexing()
    ensures { KeepsLexing }
{}

/// The tokens of a file stand in its bytes one behind another, each at least as long as its text. It does
/// nothing: its contract is the law.
pub fn tokens_stand_in_order()
    ensures { StandsInOrder }
{}
