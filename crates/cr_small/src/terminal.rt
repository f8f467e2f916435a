//! What a token is in the grammar.
ghost use Rattle.std.specs.Prelude.{◌≡◌, ◌∷◌, [], map};
ghost use Rattle.std.specs.List.{list_all};
ghost use Rattle.cr_base.specs.Names as names;
ghost use Rattle.cr_small.specs.Terminals as terminals;
ghost use Rattle.cr_lex.specs.Seen.{seen};

use crate::keyword::is_keyword;
use crate::spelling::spelling;
use cr_base::{NameTable, PpTok, is_digit, is_identifier};

/// What a token is in the grammar of the small form. `Other` is none of its terminals.
#[derive(Clone, Copy, PartialEq, Eq)]
pub enum Terminal {
    Int,
    Void,
    Return,
    Static,
    Extern,
    Name,
    Number,
    Open,
    Close,
    Begin,
    End,
    Semicolon,
    Assign,
    Plus,
    Other,
}

#[tactic(auto, unfolding(crate::specs::Terminals::is_name))]
fn is_name(text: &[u8]) -> bool
    ensures { result ≡ terminals.is_name text.now }
{
    is_identifier(text) && !is_keyword(text)
}

fn all_digits(text: &[u8]) -> bool
    ensures { result ≡ list_all names.is_digit text.now }
{
    text.iter().all(|b| is_digit(*b))
}

fn is_number(text: &[u8]) -> bool
    ensures { result ≡ terminals.is_number text.now }
{
    match text {
        [] => false,
        [digit, rest @ ..] => all_digits(text) && (*digit != b'0' || rest.is_empty()),
    }
}

fn punctuator(text: &[u8]) -> Terminal
    ensures { result ≡ terminals.punctuator text.now }
{
    match text {
        [byte] => punctuator_of(*byte),
        _ => Terminal::Other,
    }
}

fn punctuator_of(byte: u8) -> Terminal
    ensures { result ≡ terminals.punctuator (byte ∷ []) }
{
    match byte {
        b'(' => Terminal::Open,
        b')' => Terminal::Close,
        b'{' => Terminal::Begin,
        b'}' => Terminal::End,
        b';' => Terminal::Semicolon,
        b'=' => Terminal::Assign,
        b'+' => Terminal::Plus,
        _ => Terminal::Other,
    }
}

#[tactic(auto, unfolding(crate::specs::Terminals::terminal_of))]
pub fn terminal_of(text: &[u8]) -> Terminal
    ensures { result ≡ terminals.terminal_of text.now }
{
    if text == b"int".as_slice() {
        Terminal::Int
    } else if text == b"void".as_slice() {
        Terminal::Void
    } else if text == b"return".as_slice() {
        Terminal::Return
    } else if text == b"static".as_slice() {
        Terminal::Static
    } else if text == b"extern".as_slice() {
        Terminal::Extern
    } else if is_name(text) {
        Terminal::Name
    } else if is_number(text) {
        Terminal::Number
    } else {
        punctuator(text)
    }
}

fn begins_with_underscore(text: &[u8]) -> bool
    ensures { result ≡ terminals.begins_with_underscore text.now }
{
    match text {
        [first, ..] => *first == b'_',
        [] => false,
    }
}

pub fn has_plain_names(names: &NameTable, tokens: &[PpTok]) -> bool
    ensures { result ≡ terminals.has_plain_names (map (seen names.now) tokens.now) }
{
    for token in tokens {
        if begins_with_underscore(spelling(names, token.text)) {
            return false;
        }
    }
    true
}
