//! Directives that aren't conditional, by their words (C11 6.10.2 to 6.10.7).
ghost use Rattle.std.specs.Prelude.{◌≡◌, ◌&&◌, codes, bytes_eq, false};
ghost use Rattle.cr_macros.specs.Tokens.{tokens_of};
ghost use Rattle.cr_phase4.specs.Directives as spec;
ghost use Rattle.cr_preproc.specs.Words.{IsWord};

use cr_base::{NameTable, PpTok};
use cr_macros::{is_ident, text};

// What a directive that isn't conditional asks for. `Nothing` has no effect, `Named` none but that its
// tokens are seen, and `Unknown` is wrong.
#[derive(Clone, Copy, Debug, PartialEq, Eq)]
pub enum Order {
    Define,
    Include,
    Undef,
    Pragma,
    Named,
    Nothing,
    Error,
    Unknown,
}

// What a word asks for.
pub fn asked_by(word: &[u8]) -> Order
    ensures { IsWord word.now result }
{
    if word == b"define".as_slice() {
        Order::Define
    } else if word == b"include".as_slice() {
        Order::Include
    } else if word == b"undef".as_slice() {
        Order::Undef
    } else if word == b"pragma".as_slice() {
        Order::Pragma
    } else if word == b"line".as_slice() || word == b"warning".as_slice() {
        Order::Named
    } else if word == b"ident".as_slice() {
        Order::Nothing
    } else if word == b"error".as_slice() {
        Order::Error
    } else {
        Order::Unknown
    }
}

// Whether a pragma says that its file isn't opened again.
pub fn is_once(names: &NameTable, tokens: &[PpTok]) -> bool
    ensures { result ≡ spec.begins_with_once (tokens_of names.now tokens.now) }
{
    match tokens {
        [] => false,
        [word, ..] => is_ident(word.kind) && text(names, word.text) == b"once".as_slice(),
    }
}
