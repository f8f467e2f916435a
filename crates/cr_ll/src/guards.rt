//! When a guard holds of the next two tokens, and which alternative a node takes.
ghost use Rattle.std.specs.Prelude.{◌≡◌, ◌+◌, ◌-◌, ◌^◌, ◌≤◌, ◌<◌, [], drop, length, IsTrue, ◌↔◌, slice_index_or};
ghost use Rattle.cr_grammar.specs.Grammar.{rule};
ghost use Rattle.cr_ll.specs.Guards.{token_at, terminal, terminals, seen, fits, meets, verdict, choice, IsWithin};
ghost use Rattle.cr_ll.specs.Guards as spec;

use cr_base::{Name, NameTable, Tok, TokKind};
use cr_grammar::{Guard, NonTerm, Term, alternatives, spellings};

// A token's kind and its spelling.
#[derive(Clone, Copy)]
pub struct Lexeme<'a> {
    pub kind: TokKind,
    pub text: &'a [u8],
}

// What a guard says: it holds, it fails, or it asks for one of the next two tokens.
#[derive(Clone, Copy)]
pub enum Verdict {
    Holds,
    Fails,
    Asks(usize),
}

/// Which alternative is taken, or which one waits for the reply to which of the next two tokens.
#[derive(Clone, Copy)]
pub enum Choice {
    Nothing,
    Takes(usize),
    Waits(usize, usize),
}

fn text_of(names: &NameTable, name: Name) -> &[u8]
    ensures { result.now ≡ slice_index_or names.now name.0 [] }
{
    if (name.0 as usize) < names.len() {
        names.text(name)
    } else {
        b""
    }
}

fn lexeme_of<'a>(names: &'a NameTable, token: Tok) -> Lexeme<'a>
    ensures { seen result ≡ terminal names.now token }
{
    Lexeme {
        kind: token.kind,
        text: text_of(names, token.text),
    }
}

pub fn lexeme_at<'a>(names: &'a NameTable, tokens: &[Tok], i: usize) -> Lexeme<'a>
    ensures { seen result ≡ token_at (terminals names.now tokens.now) i }
{
    if i < tokens.len() {
        lexeme_of(names, tokens[i])
    } else {
        Lexeme {
            kind: TokKind::End,
            text: b"",
        }
    }
}

fn holds_if(b: bool) -> Verdict
    ensures { result ≡ spec.holds_if b }
{
    if b { Verdict::Holds } else { Verdict::Fails }
}

fn is_name(kind: TokKind) -> bool
    ensures { result ≡ spec.is_name kind }
{
    matches!(kind, TokKind::Ident)
}

fn is_constant(kind: TokKind) -> bool
    ensures { result ≡ spec.is_constant kind }
{
    matches!(kind, TokKind::Constant)
}

fn is_string(kind: TokKind) -> bool
    ensures { result ≡ spec.is_string kind }
{
    matches!(kind, TokKind::Str)
}

fn is_end(kind: TokKind) -> bool
    ensures { result ≡ spec.is_end kind }
{
    matches!(kind, TokKind::End)
}

fn is_spelled_kind(kind: TokKind) -> bool
    ensures { result ≡ spec.is_spelled_kind kind }
{
    matches!(kind, TokKind::Keyword | TokKind::Punct)
}

// Whether a text is one of the words, which blanks part.
fn is_among(text: &[u8], words: &[u8]) -> bool
    ensures { result ≡ spec.is_among text.now words.now }
{
    words.split(|b| *b == b' ').any(|word| word == text)
}

fn is_spelled(term: Term, x: Lexeme) -> bool
    ensures { result ≡ spec.is_spelled term (seen x.entry) }
{
    is_spelled_kind(x.kind) && is_among(x.text, spellings(term))
}

fn asks_if(b: bool, ahead: usize, otherwise: Verdict) -> Verdict
    ensures { result ≡ spec.asks_if b ahead otherwise }
{
    if b { Verdict::Asks(ahead) } else { otherwise }
}

fn fits_of(term: Term, x: Lexeme, ahead: usize) -> Verdict
    ensures { result ≡ fits term (seen x.entry) ahead }
{
    match term {
        Term::End => holds_if(is_end(x.kind)),
        Term::NotEnd => holds_if(!is_end(x.kind)),
        Term::Identifier => holds_if(is_name(x.kind)),
        Term::Constant => holds_if(is_constant(x.kind)),
        Term::StringLiteral => holds_if(is_string(x.kind)),
        Term::TypedefName => asks_if(is_name(x.kind), ahead, Verdict::Fails),
        Term::Specifier => asks_if(
            is_name(x.kind),
            ahead,
            holds_if(is_spelled(Term::Specifier, x)),
        ),
        _ => holds_if(is_spelled(term, x)),
    }
}

fn is_held(v: Verdict) -> bool
    ensures { IsTrue result ↔ (v ≡ Verdict.Holds) }
{
    match v {
        Verdict::Holds => true,
        _ => false,
    }
}

fn meets_of(term: Term, x: Lexeme) -> Verdict
    ensures { result ≡ meets term (seen x.entry) }
{
    if is_end(x.kind) {
        Verdict::Fails
    } else {
        fits_of(term, x, 0)
    }
}

/// Whether the token at a place is one that the table expects so.
pub fn meets_at(names: &NameTable, tokens: &[Tok], i: usize, term: Term) -> bool
    ensures exact { IsTrue result ↔ (meets term (token_at (terminals names.now tokens.now) i) ≡ Verdict.Holds) }
    ensures within { IsTrue result → i < length tokens.now }
{
    i < tokens.len() && is_held(meets_of(term, lexeme_at(names, tokens, i)))
}

// The place of the token that is asked for.
pub fn ask_at(i: u32, ahead: usize) -> u32
    requires { i < 2 ^ 32 - 1 }
    ensures { result ≡ spec.ask_at i ahead }
{
    if ahead == 0 { i } else { i + 1 }
}

fn verdict_of(guard: Guard, x: Lexeme, y: Lexeme) -> Verdict
    ensures { result ≡ verdict guard (seen x.entry) (seen y.entry) }
{
    match guard {
        Guard::Else => Verdict::Holds,
        Guard::First(first) => fits_of(first, x, 0),
        Guard::Both(first, second) => match fits_of(first, x, 0) {
            Verdict::Holds => fits_of(second, y, 1),
            other => other,
        },
    }
}

// The first alternative from number `from` on whose guard doesn't fail.
pub fn choose(n: NonTerm, from: usize, x: Lexeme, y: Lexeme) -> Choice
    ensures first { result ≡ choice from (drop from (rule n)) (seen x.entry) (seen y.entry) }
    ensures within { IsWithin result (length (rule n)) }
    ensures short { IsWithin result (2 ^ 64 - 1) }
{
    let rows = alternatives(n);
    for i in from..rows.len() {
        match verdict_of(rows[i].guard, x, y) {
            Verdict::Holds => return Choice::Takes(i),
            Verdict::Asks(ahead) => return Choice::Waits(i, ahead),
            Verdict::Fails => {}
        }
    }
    Choice::Nothing
}

/// The alternative of a nonterminal, from number `from` on, that the token at a place and the one behind it
/// choose: the first whose guard doesn't fail.
pub fn choose_at(names: &NameTable, tokens: &[Tok], i: usize, n: NonTerm, from: usize) -> Choice
    requires { i < 2 ^ 64 - 1 }
    ensures first { result ≡ choice from (drop from (rule n)) (token_at (terminals names.now tokens.now) i) (token_at (terminals names.now tokens.now) (i + 1)) }
    ensures within { IsWithin result (length (rule n)) }
    ensures short { IsWithin result (2 ^ 64 - 1) }
{
    let next = lexeme_at(names, tokens, i);
    choose(n, from, next, lexeme_at(names, tokens, i + 1))
}
