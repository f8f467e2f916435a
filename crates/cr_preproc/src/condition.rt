//! The list of an `#if` in which `defined` is answered (C11 6.10.1p1).
ghost use Rattle.std.specs.Prelude.{◌≡◌, List as ListOf, ◌^◌, ◌-◌, ◌<◌, ◌+◌, ◌++◌, flat_map, [], codes, IfOk, IfSome, OnOk, length, map, is_some, if◌then◌else◌};
ghost use Rattle.std.specs.Option.{option_map};
ghost use Rattle.cr_base.specs.NameTable.{with_text};
ghost use Rattle.cr_cond.specs.Value.{is_defined};
ghost use Rattle.cr_macros.specs.Definition.{text_of};
ghost use Rattle.cr_macros.specs.Substitution.{made};
ghost use Rattle.cr_macros.specs.Tokens.{Text, token_of, tokens_of};
ghost use Rattle.cr_macros.specs.MacroTables.{macro_named};
ghost use Rattle.cr_base.specs.declared.token.PpKind.TheVariants as kind;
ghost use Rattle.cr_phase4.specs.Conditionals as spec;
ghost use Rattle.cr_phase4.specs.Traces.{all_events_seen};
ghost use Rattle.cr_preproc.specs.Seen.{IsNamed, AreNamed, AreMacrosNamed, macros_of, seen_asked, seen_answer, answer_at, answered_list, AreDigits};

use crate::trace::{Renaming, note};
use cr_base::{Name, NameTable, Origin, OutOfMemory, PpKind, PpTok, Role};
use cr_macros::{MacroTable, Seen, is_ident, is_mark, predefined_named, text};
use std::alloc::Global;

fn is_defined(names: &NameTable, t: PpTok) -> bool
    ensures { result ≡ is_defined (spec.lexeme_of (token_of names.now [] t)) }
{
    matches!(t.kind, PpKind::Ident) && text(names, t.text) == b"defined".as_slice()
}

fn has_macro(names: &NameTable, macros: &MacroTable, name: Name) -> bool
    requires named { name.0 < length names.now }
    requires macros { AreMacrosNamed names.now macros.now }
    ensures { result ≡ is_some (macros_of names.now macros.now (text_of names.now name)) }
{
    // The table of names has each text once.
    let _ = names.text(name);
    macros.lookup(name).is_some()
}

// Whether a token names a macro, a predefined one too.
pub fn is_macro(names: &NameTable, macros: &MacroTable, t: PpTok) -> bool
    requires named { IsNamed names.now t }
    requires macros { AreMacrosNamed names.now macros.now }
    ensures { result ≡ spec.is_macro_of (macros_of names.now macros.now) (token_of names.now [] t) }
{
    predefined_named(text(names, t.text)).is_some() || has_macro(names, macros, t.text)
}

// The name that `defined` asks for, and how many tokens that takes.
fn asked(names: &NameTable, tokens: &[PpTok]) -> Option<(PpTok, usize)>
    requires { AreNamed names.now tokens.now }
    ensures named { IfSome result (λ found. IsNamed names.now found.0) }
    ensures asked { seen_asked names.now result ≡ spec.asked (tokens_of names.now tokens.now) }
{
    match tokens {
        [] => None,
        [name, ..] if is_ident(name.kind) => Some((*name, 1)),
        [open, name, close, ..] => {
            if is_mark(names, b"(", *open) && is_ident(name.kind) && is_mark(names, b")", *close) {
                Some((*name, 3))
            } else {
                None
            }
        }
        _ => None,
    }
}

fn number(t: PpTok, text: Name) -> PpTok
    ensures text { result.text ≡ text }
    ensures made { (names : ListOf Text) → token_of names [] result ≡ made (token_of names [] t) kind.Number (text_of names text) t.space [] }
{
    PpTok {
        kind: PpKind::Number,
        text,
        origin: Origin::Made,
        site: t.site,
        line: t.line,
        end: 0,
        space: t.space,
        first: false,
        joined: false,
    }
}

fn digit(digits: [Name; 2], is_one: bool) -> Name
    ensures { (names : ListOf Text) → AreDigits names digits → text_of names result ≡ (if is_one then codes "1" else codes "0") }
{
    if is_one { digits[1] } else { digits[0] }
}

// `defined` with the name that it asks for, answered.
fn answered(
    names: &NameTable,
    macros: &MacroTable,
    digits: [Name; 2],
    t: PpTok,
    name: PpTok,
) -> PpTok
    requires macros { AreMacrosNamed names.now macros.now }
    requires name { IsNamed names.now name }
    requires digits { AreDigits names.now digits }
    ensures named { IsNamed names.now result }
    ensures answered { token_of names.now [] result ≡ spec.answered (spec.is_macro_of (macros_of names.now macros.now)) (spec.Asks (token_of names.now [] t) (token_of names.now [] name)) }
{
    number(t, digit(digits, is_macro(names, macros, name)))
}

// The token at the head, with `defined` and its name answered, and how many more tokens that takes.
fn answer(
    names: &NameTable,
    macros: &MacroTable,
    digits: [Name; 2],
    t: PpTok,
    rest: &[PpTok],
) -> (PpTok, usize)
    requires macros { AreMacrosNamed names.now macros.now }
    requires token { IsNamed names.now t }
    requires rest { AreNamed names.now rest.now }
    requires digits { AreDigits names.now digits }
    ensures named { IsNamed names.now result.0 }
    ensures answered { seen_answer names.now result ≡ answer_at (spec.is_macro_of (macros_of names.now macros.now)) (token_of names.now [] t) (tokens_of names.now rest.now) }
{
    if !is_defined(names, t) {
        return (t, 0);
    }
    match asked(names, rest) {
        None => (t, 0),
        Some((name, more)) => (answered(names, macros, digits, t, name), more),
    }
}

// The tokens of a list with `defined` answered, where the names of `0` and `1` are these.
fn answered_with(
    alloc: Global,
    names: &NameTable,
    macros: &MacroTable,
    digits: [Name; 2],
    tokens: &[PpTok],
) -> Result<Vec<PpTok>, OutOfMemory>
    requires macros { AreMacrosNamed names.now macros.now }
    requires tokens { AreNamed names.now tokens.now }
    requires digits { AreDigits names.now digits }
    ensures named { IfOk result (λ made. AreNamed names.now made.items) }
    ensures made { IfOk result (λ made. tokens_of names.now made.items ≡ answered_list (macros_of names.now macros.now) (tokens_of names.now tokens.now)) }
{
    let mut made = Vec::new(alloc);
    let mut skip: usize = 0;
    for i in 0..tokens.len() {
        if skip > 0 {
            skip -= 1;
            continue;
        }
        let (token, more) = answer(names, macros, digits, tokens[i], &tokens[i + 1..]);
        made.push(token)?;
        skip = more;
    }
    Ok(made)
}

// Notes `defined` and the names that it asks for.
pub fn note_asked(
    seen: &mut Vec<Seen>,
    names: &NameTable,
    renaming: Renaming,
    tokens: &[PpTok],
) -> Result<(), OutOfMemory>
    requires { AreNamed names.now tokens.now }
    ensures { OnOk result (seen.new.items ≡ seen.old.items ++ all_events_seen (text_of names.now renaming.old) (text_of names.now renaming.new) (flat_map spec.asking (spec.pieces 0 (tokens_of names.now tokens.now)))) }
{
    let mut skip: usize = 0;
    for i in 0..tokens.len() {
        if skip > 0 {
            skip -= 1;
            continue;
        }
        skip = note_at(seen, names, renaming, tokens[i], &tokens[i + 1..])?;
    }
    Ok(())
}

// Notes the token at the head, where it is `defined` and asks for a name, with that name; and how many more
// tokens that takes.
fn note_at(
    seen: &mut Vec<Seen>,
    names: &NameTable,
    renaming: Renaming,
    t: PpTok,
    rest: &[PpTok],
) -> Result<usize, OutOfMemory>
    requires { AreNamed names.now rest.now }
    ensures more { IfOk result (λ more. more ≡ (spec.piece_at (token_of names.now [] t) (tokens_of names.now rest.now)).1) }
    ensures noted { OnOk result (seen.new.items ≡ seen.old.items ++ all_events_seen (text_of names.now renaming.old) (text_of names.now renaming.new) (spec.asking (spec.piece_at (token_of names.now [] t) (tokens_of names.now rest.now)).0)) }
{
    if !is_defined(names, t) {
        return Ok(0);
    }
    match asked(names, rest) {
        None => Ok(0),
        Some((name, more)) => {
            note(seen, names, renaming, Role::Directive, t)?;
            note(seen, names, renaming, Role::Directive, name)?;
            Ok(more)
        }
    }
}

/// The tokens of a list with `defined` answered. The table of names has gained `0` and `1`.
pub fn answer_defined(
    alloc: Global,
    names: &mut NameTable,
    macros: &MacroTable,
    tokens: &[PpTok],
) -> Result<Vec<PpTok>, OutOfMemory>
    requires room { length names.old < 2 ^ 32 - 2 }
    requires macros { AreMacrosNamed names.old macros.now }
    requires tokens { AreNamed names.old tokens.now }
    ensures made { IfOk result (λ made. tokens_of names.new made.items ≡ answered_list (macros_of names.new macros.now) (tokens_of names.new tokens.now)) }
    ensures named { IfOk result (λ made. AreNamed names.new made.items) }
    ensures names { OnOk result (names.new ≡ with_text (with_text names.old (codes "0")) (codes "1")) }
{
    let zero = names.intern(b"0")?;
    let one = names.intern(b"1")?;
    let made = answered_with(alloc, names, macros, [zero, one], tokens)?;
    Ok(made)
}
