//! What a line of a file is.
ghost use Rattle.std.specs.Prelude.{◌≡◌, ◌∷◌, [], List as ListOf};
ghost use Rattle.cr_base.specs.declared.token.PpTok.{PpTok as TheToken};
ghost use Rattle.cr_macros.specs.Tokens.{tokens_of, token_of};
ghost use Rattle.cr_preproc.specs.LineParts.{AreParts};
ghost use Rattle.cr_phase4.specs.Lines as spec;
ghost use Rattle.cr_preproc.specs.Seen.{seen_line};

use cr_base::{NameTable, Place, PpTok};
use cr_macros::{is_hash, is_ident, text};
use cr_phase4::Word;

// A line (C11 6.10p1): text, or a directive with the place of its `#`, its word and the tokens behind
// that. `Empty` is a `#` alone, and behind a `Wordless` one no word stands.
#[derive(Clone, Copy)]
pub enum Line<'a> {
    Plain,
    Conditional(Place, PpTok, Word, &'a [PpTok]),
    Directive(Place, PpTok, &'a [PpTok]),
    Empty,
    Wordless(Place),
}

fn word_of(text: &[u8]) -> Option<Word>
    ensures { result ≡ spec.word_of text.now }
{
    if text == b"if".as_slice() {
        Some(Word::If)
    } else if text == b"ifdef".as_slice() {
        Some(Word::Ifdef)
    } else if text == b"ifndef".as_slice() {
        Some(Word::Ifndef)
    } else if text == b"elif".as_slice() {
        Some(Word::Elif)
    } else if text == b"else".as_slice() {
        Some(Word::Else)
    } else if text == b"endif".as_slice() {
        Some(Word::Endif)
    } else {
        None
    }
}

fn by_word<'a>(
    names: &NameTable,
    hash: Place,
    word: PpTok,
    rest: &'a [PpTok],
    found: Option<Word>,
) -> Line<'a>
    ensures parts { (behind all : ListOf TheToken) (first : TheToken) → behind ≡ word ∷ rest.now → all ≡ first ∷ behind → AreParts all result }
    ensures seen { seen_line names.now result ≡ spec.by_word hash (token_of names.now [] word) (tokens_of names.now rest.now) found }
{
    match found {
        None => Line::Directive(hash, word, rest),
        Some(kind) => Line::Conditional(hash, word, kind, rest),
    }
}

fn behind_hash<'a>(names: &NameTable, hash: Place, tokens: &'a [PpTok]) -> Line<'a>
    ensures parts { (all : ListOf TheToken) (first : TheToken) → all ≡ first ∷ tokens.now → AreParts all result }
    ensures seen { seen_line names.now result ≡ spec.behind_hash hash (tokens_of names.now tokens.now) }
{
    match tokens {
        [] => Line::Empty,
        [word, rest @ ..] => {
            if is_ident(word.kind) {
                by_word(names, hash, *word, rest, word_of(text(names, word.text)))
            } else {
                Line::Wordless(hash)
            }
        }
    }
}

// What the tokens of a line are.
pub fn line_of<'a>(names: &NameTable, tokens: &'a [PpTok]) -> Line<'a>
    ensures parts { AreParts tokens.now result }
    ensures seen { seen_line names.now result ≡ spec.line_of (tokens_of names.now tokens.now) }
{
    match tokens {
        [first, rest @ ..] if is_hash(names, *first) => behind_hash(names, first.site, rest),
        _ => Line::Plain,
    }
}
