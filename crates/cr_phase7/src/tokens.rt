//! The tokens of a translation unit.
ghost use Rattle.std.specs.Prelude.{◌≡◌, ◌∷◌, ◌++◌, [], ◌^◌, ◌<◌, ◌≤◌, Ok, Err, Some, IfOk, IfErr, OnOk, OnErr, false, length, codes, bytes_eq, slice_index_or, slice_get};
ghost use Rattle.cr_base.specs.NameTable.{with_text};
ghost use Rattle.cr_phase7.specs.Numbers.{is_among};
ghost use Rattle.cr_phase7.specs.Tokens as spec;
ghost use Rattle.cr_phase7.specs.Tokens.{text_of, kept, bad_pragma, converted, tokens_of, end_token, IsBad, AreTokens};

use crate::number::{is_among, is_number};
use crate::words::is_word;
use cr_base::{Name, NameTable, Origin, OutOfMemory, Place, PpKind, PpTok, Tok, TokKind};
use std::alloc::{AllocError, Global};

/// Why there are no tokens: a preprocessing token at this place is none, or want of memory.
#[derive(Clone, Copy, Debug, PartialEq, Eq)]
pub enum Phase7Fault {
    BadToken(Place),
    OutOfMemory,
}

impl From<OutOfMemory> for Phase7Fault {
    ghost use Rattle.cr_phase7.specs.declared.tokens.Phase7Fault.TheVariants as fault;

    ghost from_gives = { λ _ e. e ≡ fault.OutOfMemory };

    fn from(_: OutOfMemory) -> Self {
        Phase7Fault::OutOfMemory
    }
}

impl From<AllocError> for Phase7Fault {
    ghost use Rattle.cr_phase7.specs.declared.tokens.Phase7Fault.TheVariants as fault;

    ghost from_gives = { λ _ e. e ≡ fault.OutOfMemory };

    fn from(_: AllocError) -> Self {
        Phase7Fault::OutOfMemory
    }
}

const HASHES: &[u8] = b"# ## %: %:%:";

// What is left where the pragmas go, and the site of the first that hasn't their form.
#[derive(Drop)]
pub struct Kept {
    pub tokens: Vec<PpTok>,
    pub bad: Option<Place>,
}

fn spelling(names: &NameTable, name: Name) -> &[u8]
    ensures { result.now ≡ slice_index_or names.now name.0 [] }
{
    if (name.0 as usize) < names.len() {
        names.text(name)
    } else {
        b""
    }
}

#[tactic(auto, unfolding(crate::specs::Tokens::hashes))]
fn is_hash(text: &[u8]) -> bool
    ensures { result ≡ is_among text.now spec.hashes }
{
    is_among(text, HASHES)
}

fn word_kind(b: bool) -> TokKind
    ensures { result ≡ spec.word_kind b }
{
    if b { TokKind::Keyword } else { TokKind::Ident }
}

fn only_if(b: bool, kind: TokKind) -> Option<TokKind>
    ensures { result ≡ spec.only_if b kind }
{
    if b { Some(kind) } else { None }
}

// The kind of the token that a preprocessing token becomes, where it becomes one.
fn kind_by(text: &[u8], kind: PpKind) -> Option<TokKind>
    ensures { result ≡ spec.kind_by text.now kind }
{
    match kind {
        PpKind::Ident => Some(word_kind(is_word(text))),
        PpKind::Number => only_if(is_number(text), TokKind::Constant),
        PpKind::Char => Some(TokKind::Constant),
        PpKind::Str => Some(TokKind::Str),
        PpKind::Punct => only_if(!is_hash(text), TokKind::Punct),
        PpKind::Stray => None,
    }
}

fn is_string_kind(kind: PpKind) -> bool
    ensures { result ≡ spec.is_string_kind kind }
{
    matches!(kind, PpKind::Str)
}

fn is_string(kind: TokKind) -> bool
    ensures { result ≡ spec.is_string kind }
{
    matches!(kind, TokKind::Str)
}

fn is_pragma(names: &NameTable, x: PpTok) -> bool
    ensures { result ≡ spec.is_pragma names.now x }
{
    matches!(x.kind, PpKind::Ident) && spelling(names, x.text) == b"_Pragma".as_slice()
}

fn is_open(names: &NameTable, x: PpTok) -> bool
    ensures { result ≡ spec.is_open names.now x }
{
    matches!(x.kind, PpKind::Punct) && spelling(names, x.text) == b"(".as_slice()
}

fn is_close(names: &NameTable, x: PpTok) -> bool
    ensures { result ≡ spec.is_close names.now x }
{
    matches!(x.kind, PpKind::Punct) && spelling(names, x.text) == b")".as_slice()
}

// Behind `_Pragma`: `(`, one string literal and `)` (C11 6.10.9).
fn has_pragma_form(names: &NameTable, xs: &[PpTok]) -> bool
    ensures { result ≡ spec.has_pragma_form names.now xs.now }
{
    match xs {
        [a, b, c, ..] => is_open(names, *a) && is_string_kind(b.kind) && is_close(names, *c),
        _ => false,
    }
}

// What a place among the tokens is: of a pragma still, no pragma, the beginning of one, or of none.
#[derive(Clone, Copy)]
pub enum Standing {
    Inside,
    Plain,
    Pragma,
    Broken,
}

fn stand_at(names: &NameTable, skip: usize, x: PpTok, rest: &[PpTok]) -> Standing
    ensures { result ≡ spec.stand_at names.now skip x rest.now }
{
    if skip > 0 {
        Standing::Inside
    } else if !is_pragma(names, x) {
        Standing::Plain
    } else if has_pragma_form(names, rest) {
        Standing::Pragma
    } else {
        Standing::Broken
    }
}

fn without_pragmas(alloc: Global, names: &NameTable, from: &[PpTok]) -> Result<Kept, OutOfMemory>
    ensures tokens { IfOk result (λ r. r.tokens.items ≡ kept names.now 0 from.now) }
    ensures bad { IfOk result (λ r. r.bad ≡ bad_pragma names.now 0 from.now) }
{
    let mut tokens = Vec::new(alloc);
    let mut skip: usize = 0;
    for i in 0..from.len() {
        match stand_at(names, skip, from[i], &from[i + 1..]) {
            Standing::Inside => {
                skip -= 1;
                continue;
            }
            Standing::Plain => {
                tokens.push(from[i])?;
                continue;
            }
            Standing::Pragma => {
                skip = 3;
                continue;
            }
            Standing::Broken => {
                return Ok(Kept {
                    tokens,
                    bad: Some(from[i].site),
                });
            }
        }
    }
    Ok(Kept { tokens, bad: None })
}

fn put(tokens: &mut Vec<Tok>, goes: bool, token: Tok) -> Result<(), OutOfMemory>
    ensures { OnOk result (tokens.new.items ≡ tokens.old.items ++ spec.unless goes token) }
{
    if !goes {
        tokens.push(token)?;
    }
    Ok(())
}

fn token(x: PpTok, kind: TokKind) -> Tok
    ensures { result ≡ spec.token x kind }
{
    Tok {
        kind,
        text: x.text,
        origin: x.origin,
        site: x.site,
    }
}

fn convert(alloc: Global, names: &NameTable, from: &[PpTok]) -> Result<Vec<Tok>, Phase7Fault>
    ensures ok { IfOk result (λ ts. converted names.now false from.now ≡ Ok ts.items) }
    ensures bad { IfErr result (λ fault. IsBad (converted names.now false from.now) fault) }
{
    let mut tokens = Vec::new(alloc);
    let mut was = false;
    for i in 0..from.len() {
        match kind_by(spelling(names, from[i].text), from[i].kind) {
            None => return Err(Phase7Fault::BadToken(from[i].site)),
            Some(kind) => {
                put(&mut tokens, was && is_string(kind), token(from[i], kind))?;
                was = is_string(kind);
            }
        }
    }
    Ok(tokens)
}

fn put_last(tokens: &mut Vec<Tok>, token: Tok)
    requires { length tokens.old.items < tokens.old.cap }
    ensures { tokens.new.items ≡ tokens.old.items ++ token ∷ [] }
{
    match tokens.push(token) {
        Ok(()) => {}
        Err(_) => unreachable!(),
    }
}

/// The tokens of a translation unit (C11 5.1.1.2, phases 5 to 7; 6.4), with an end behind them.
///
/// `_Pragma`, `(`, one string literal and `)` are taken out; adjacent string literals are one token,
/// the first. `BadToken` is at the first preprocessing token that becomes no token: a number that has
/// not the form of a constant, a stray byte, `#`, `##`, or a `_Pragma` that isn't followed so.
pub fn tokens7(
    alloc: Global,
    names: &mut NameTable,
    from: &[PpTok],
    end: Place,
) -> Result<Vec<Tok>, Phase7Fault>
    requires { length names.old < 2 ^ 31 }
    ensures ok { IfOk result (λ ts. AreTokens names.old from.now end names.new ts.items) }
    ensures bad { IfErr result (λ fault. IsBad (tokens_of names.old from.now) fault) }
    ensures names { OnOk result (names.new ≡ with_text names.old []) }
    ensures kept { OnErr result (names.new ≡ names.old) }
{
    let left = without_pragmas(alloc, names, from)?;
    let mut tokens = convert(alloc, names, &left.tokens)?;
    if let Some(place) = left.bad {
        return Err(Phase7Fault::BadToken(place));
    }
    tokens.reserve(1)?;
    let text = names.intern(b"")?;
    put_last(
        &mut tokens,
        Tok {
            kind: TokKind::End,
            text,
            origin: Origin::At(end),
            site: end,
        },
    );
    Ok(tokens)
}
