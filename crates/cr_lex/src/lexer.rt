//! Tokens one by one, and all of a file.
ghost use Rattle.std.specs.Prelude.{◌≡◌, ◌≤◌, ◌<◌, ◌+◌, ◌-◌, ◌^◌, [], ℕ, List as ListOf, length, map, slice_index_or, slice_range, IfOk, OnOk, OnErr, false, true, All, not, ◌==◌};
ghost use Rattle.std.specs.Option.{option_map};
ghost use Rattle.cr_base.specs.NameTable.{with_text, IsDistinct};
ghost use Rattle.cr_base.specs.NameTable.{Interns};
ghost use Rattle.cr_lex.specs.Joins.{text_of};
ghost use Rattle.cr_lex.specs.Lexing.{lexed, token};
ghost use Rattle.cr_lex.specs.Scanning.{cell_of, own_cells};
ghost use Rattle.cr_lex.specs.Joins.{line_at};
ghost use Rattle.cr_lex.specs.Seen.{seen, place, IsOf, IsStep, fault_in, with_texts, first_of, Extends};
ghost use Rattle.std.specs.List.{AllByRecursion};
ghost use Rattle.cr_lex.specs.Standing.{IsSpot, IsOwn, before, left_at};
ghost use Rattle.cr_lex.specs.Lexers.{left, IsIn};

use crate::spot::{Ahead, Own, Spot, go_on, start};
use crate::text::{first_trigraph, has_join, line_feeds, without_joins};
use crate::{LexFault, LexStep, Lexed};
use cr_base::{List, Name, NameTable, Origin, OutOfMemory, PathNo, Place, PpTok};
use std::alloc::Global;

/// A place between the tokens of a file (C11 5.1.1.2, phases 1 to 3).
#[derive(Drop)]
pub struct Lexer {
    file: PathNo,
    spot: Spot,
}

// The line of an offset, from that of one before it.
fn line_from(bytes: &[u8], spot: Spot, at: usize) -> usize
    requires spot { spot.line ≡ line_at bytes.now spot.counted }
    requires counted { spot.counted ≤ at }
    requires within { at ≤ length bytes.now }
    ensures line { result ≡ line_at bytes.now at }
    ensures small { result ≤ 1 + length bytes.now }
{
    spot.line + line_feeds(&bytes[spot.counted..at])
}

// The name of what is written in a token, and whether there is a join inside.
fn name_of(names: &mut NameTable, bytes: &[u8], own: Own) -> Result<(Name, bool), OutOfMemory>
    requires room { length names.old < 2 ^ 32 - 1 }
    requires own { IsOwn bytes.now own.at own }
    ensures name { IfOk result (λ r. Interns names.old (text_of (own_cells bytes.now own.at own.end)) names.new r.0.0) }
    ensures joined { IfOk result (λ r. r.1 ≡ not (own.end == own.at + length (own_cells bytes.now own.at own.end))) }
    ensures err { OnErr result (names.new ≡ names.old) }
{
    if has_join(bytes, own.at, own.end) {
        let text = without_joins(names.alloc(), bytes, own.at, own.end)?;
        let name = names.intern(&text)?;
        Ok((name, own.end != own.at + text.len()))
    } else {
        let name = names.intern(&bytes[own.at..own.end])?;
        Ok((name, false))
    }
}

fn place(file: PathNo, at: usize) -> Place
    requires { at ≤ 16777216 }
    ensures { result ≡ place file at }
{
    Place {
        path: file,
        offset: at as u32,
    }
}

fn token_of(
    names: &mut NameTable,
    bytes: &[u8],
    file: PathNo,
    spot: Spot,
    own: Own,
) -> Result<PpTok, OutOfMemory>
    requires bytes { length bytes.now ≤ 16777216 }
    requires room { length names.old < 2 ^ 32 - 1 }
    requires own { IsOwn bytes.now own.at own }
    requires counted { spot.counted ≤ own.at }
    requires line { spot.line ≡ line_at bytes.now spot.counted }
    ensures seen { IfOk result (λ t. seen names.new t ≡ token (before spot) own.kind (cell_of bytes.now own.at) (own_cells bytes.now own.at own.end)) }
    ensures file { IfOk result (λ t. IsOf file names.new t) }
    ensures names { OnOk result (names.new ≡ with_text names.old (text_of (own_cells bytes.now own.at own.end))) }
    ensures err { OnErr result (names.new ≡ names.old) }
{
    let (text, joined) = name_of(names, bytes, own)?;
    let site = place(file, own.at);
    Ok(PpTok {
        kind: own.kind,
        text,
        origin: Origin::At(site),
        site,
        line: line_from(bytes, spot, own.at) as u32,
        end: own.end as u32,
        space: spot.space,
        first: spot.first,
        joined,
    })
}

// The place behind a token.
fn behind_token(own: Own, line: usize) -> Spot
    ensures { result ≡ record { at = own.end; counted = own.at; line = line; first = false; space = false; marks = own.marks } }
{
    Spot {
        at: own.end,
        counted: own.at,
        line,
        first: false,
        space: false,
        marks: own.marks,
    }
}

impl Lexer {
    /// The beginning of a file.
    #[tactic(auto, unfolding(crate::specs::Lexers::left, crate::specs::Lexers::IsIn))]
    pub fn new(file: PathNo) -> Lexer
        ensures file { result.file ≡ file }
        ensures within { (bytes : ListOf ℕ) → IsIn bytes result }
        ensures left { (bytes : ListOf ℕ) → left bytes result ≡ lexed bytes }
    {
        Lexer {
            file,
            spot: start(),
        }
    }

    /// The next token of a file's bytes, or that there is none: at the end, or for a fault, which
    /// comes again at each further call. The bytes are those of the calls before. Where no memory is
    /// found, the lexer and the table of names are as they were.
    #[tactic(auto, unfolding(crate::specs::Lexers::left, crate::specs::Lexers::IsIn))]
    pub fn next(&mut self, names: &mut NameTable, bytes: &[u8]) -> Result<LexStep, OutOfMemory>
        requires bytes { length bytes.now ≤ 16777216 }
        requires room { length names.old < 2 ^ 32 - 1 }
        requires within { IsIn bytes.now self.old }
        ensures step { IfOk result (λ step. IsStep self.old.file names.new (left bytes.now self.old) (left bytes.now self.new) step) }
        ensures names { OnOk result (names.new ≡ with_texts names.old (first_of (left bytes.now self.old).tokens)) }
        ensures file { self.new.file ≡ self.old.file }
        ensures within { IsIn bytes.now self.new }
        ensures err { OnErr result ((self.new ≡ self.old) × (names.new ≡ names.old)) }
    {
        let halt = go_on(bytes, self.spot);
        let own = match halt.ahead {
            Ahead::End => return Ok(LexStep::End),
            Ahead::Open(at) => return Ok(LexStep::Fault(LexFault::OpenComment(place(
                self.file, at,
            )))),
            Ahead::Token(own) => own,
        };
        if let Some(at) = first_trigraph(bytes, own.at, own.end) {
            return Ok(LexStep::Fault(LexFault::Trigraph(place(self.file, at))));
        }
        let token = token_of(names, bytes, self.file, halt.spot, own)?;
        self.spot = behind_token(own, token.line as usize);
        Ok(LexStep::Token(token))
    }
}

// The tokens up to the first fault; where no memory is found, the texts that were put in stay.
fn run(
    alloc: Global,
    names: &mut NameTable,
    bytes: &[u8],
    file: PathNo,
) -> Result<Lexed, OutOfMemory>
    requires bytes { length bytes.now ≤ 16777216 }
    requires room { length names.old < 2 ^ 31 }
    ensures tokens { IfOk result (λ l. map (seen names.new) l.tokens ≡ (lexed bytes.now).tokens) }
    ensures file { IfOk result (λ l. AllByRecursion (IsOf file names.new) l.tokens) }
    ensures fault { IfOk result (λ l. l.fault ≡ option_map (fault_in file) (lexed bytes.now).fault) }
    ensures names { OnOk result (names.new ≡ with_texts names.old (lexed bytes.now).tokens) }
    ensures kept { Extends names.old names.new }
{
    let mut lexer = Lexer::new(file);
    let mut tokens = Vec::new(alloc);
    loop {
        match lexer.next(names, bytes)? {
            LexStep::Token(token) => tokens.push(token)?,
            LexStep::End => {
                return Ok(Lexed {
                    tokens: List::of(tokens),
                    fault: None,
                });
            }
            LexStep::Fault(fault) => {
                return Ok(Lexed {
                    tokens: List::of(tokens),
                    fault: Some(fault),
                });
            }
        }
    }
}

/// The tokens of a file's bytes up to the first fault, in order, and that fault (C11 5.1.1.2, phases
/// 1 to 3; 6.4). Each token's text is put into the table of names, once. Where no memory is found, the
/// table is as it was.
pub fn lex(
    alloc: Global,
    names: &mut NameTable,
    bytes: &[u8],
    file: PathNo,
) -> Result<Lexed, OutOfMemory>
    requires bytes { length bytes.now ≤ 16777216 }
    requires room { length names.old < 2 ^ 31 }
    ensures tokens { IfOk result (λ l. map (seen names.new) l.tokens ≡ (lexed bytes.now).tokens) }
    ensures file { IfOk result (λ l. AllByRecursion (IsOf file names.new) l.tokens) }
    ensures fault { IfOk result (λ l. l.fault ≡ option_map (fault_in file) (lexed bytes.now).fault) }
    ensures names { OnOk result (names.new ≡ with_texts names.old (lexed bytes.now).tokens) }
    ensures kept { Extends names.old names.new }
    ensures err { OnErr result (names.new ≡ names.old) }
{
    let held = names.len();
    match run(alloc, names, bytes, file) {
        Ok(lexed) => Ok(lexed),
        Err(fault) => {
            names.truncate(held);
            Err(fault)
        }
    }
}
