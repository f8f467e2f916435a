//! What a token at the head of a list means.
ghost use Rattle.std.specs.Prelude.{◌≡◌, ◌||◌, not, List};
ghost use Rattle.cr_base.specs.NameTable.{IsDistinct};
ghost use Rattle.cr_macros.specs.Expansion as spec;
ghost use Rattle.cr_macros.specs.Tokens.{Text, Token, token_of, is_ident, has};
ghost use Rattle.cr_macros.specs.Definition.{text_of};
ghost use Rattle.cr_macros.specs.MacroTables.{table_of};
ghost use Rattle.cr_expand.specs.Held.{held, hidden, IsKnown, IsNamed, AreTables};
ghost use Rattle.cr_expand.specs.Heading.{use_text, AreMacrosKnown, IsLookedUp};

use crate::held::Held;
use crate::hide_sets::HideSets;
use cr_base::NameTable;
use cr_macros::{Macro, MacroTable, Predefined, is_ident, predefined_named, text};

/// What a token means before the tokens behind it are looked at: it stays, or it names a
/// predefined macro, or another one.
pub enum Head<'a> {
    Stays,
    Predefined(Predefined),
    Named(&'a Macro),
}

// A predefined macro comes before one that is defined (C11 6.10.8p4).
fn named<'a>(names: &NameTable, macros: &'a MacroTable, h: Held) -> Head<'a>
    requires distinct { IsDistinct names.now }
    requires macros { AreMacrosKnown names.now macros.now }
    requires token { IsNamed names.now h.token.text }
    ensures looked_up { IsLookedUp macros.now h.token.text result }
    ensures means { (file : Text) (hide : List Text) (rest : List Token) → spec.use_of_name (table_of names.now macros.now file) (token_of names.now hide h.token) rest (spec.predefined file h.token.line (text_of names.now h.token.text)) ≡ use_text names.now file (token_of names.now hide h.token) rest result }
{
    match predefined_named(text(names, h.token.text)) {
        Some(p) => Head::Predefined(p),
        None => match macros.lookup(h.token.text) {
            Some(m) => Head::Named(m),
            None => Head::Stays,
        },
    }
}

// No identifier, or one that is hidden from itself.
fn is_kept(names: &NameTable, sets: &HideSets, h: Held) -> bool
    requires tables { AreTables names.now sets.now }
    requires token { IsKnown names.now sets.now h }
    ensures { result ≡ (not (is_ident h.token.kind) || has (hidden names.now sets.now h.hide.0) (text_of names.now h.token.text)) }
{
    let _count = names.len();
    !is_ident(h.token.kind) || sets.has(h.hide, h.token.text)
}

/// What a token means: it stays where it is no identifier, names no macro, or is hidden from itself.
pub fn head_of<'a>(names: &NameTable, macros: &'a MacroTable, sets: &HideSets, h: Held) -> Head<'a>
    requires tables { AreTables names.now sets.now }
    requires macros { AreMacrosKnown names.now macros.now }
    requires token { IsKnown names.now sets.now h }
    ensures looked_up { IsLookedUp macros.now h.token.text result }
    ensures means { (file : Text) (rest : List Token) → spec.use_of (table_of names.now macros.now file) (held names.now sets.now h) rest ≡ use_text names.now file (held names.now sets.now h) rest result }
{
    if is_kept(names, sets, h) {
        return Head::Stays;
    }
    named(names, macros, h)
}
