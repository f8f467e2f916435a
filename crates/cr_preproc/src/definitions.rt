//! Macros that are defined and undefined (C11 6.10.3).
ghost use Rattle.std.specs.Prelude.{◌≡◌, ◌≤◌, ◌<◌, None, [], OnOk, IfErr, IfSome, OnErr, length, codes, position};
ghost use Rattle.std.specs.Option.{option_map};
ghost use Rattle.cr_macros.specs.Definition.{IsFirstPlaced, text_of};
ghost use Rattle.cr_macros.specs.Definition as number;
ghost use Rattle.cr_macros.specs.MacroTables.{Defines, Sets};
ghost use Rattle.cr_macros.specs.Tokens.{token_of, tokens_of};
ghost use Rattle.cr_phase4.specs.Definition as spec;
ghost use Rattle.cr_preproc.specs.Seen.{IsNamed, AreNamed, AreMacrosNamed, SetsText, IsDefined, IsUndefined};

use cr_base::{Name, NameTable, PpTok};
use cr_macros::{ExpandFault, MacroTable, is_ident, is_mark, predefined_named, text};

/// Carries a `define` line out, given from its `#` to the line's end. A refused line changes nothing.
pub fn define(macros: &mut MacroTable, names: &NameTable, line: &[PpTok]) -> Result<(), ExpandFault>
    requires words { 2 ≤ length line.now }
    requires placed { IsFirstPlaced line.now }
    requires line { AreNamed names.now line.now }
    requires macros { AreMacrosNamed names.now macros.old }
    ensures defines { OnOk result (IsDefined names.now line.now macros.old macros.new) }
    ensures named { OnOk result (AreMacrosNamed names.now macros.new) }
    ensures by_number { OnOk result (Defines names.now line.now macros.old macros.new) }
    ensures refused { IfErr result (λ fault. IsUndefined names.now line.now fault) }
    ensures kept { OnErr result (macros.new ≡ macros.old) }
{
    // The table of names has each text once.
    let _ = names.text(line[0].text);
    macros.define(names, line)?;
    Ok(())
}

/// Takes the macro of a name away, if there is one.
pub fn undefine(macros: &mut MacroTable, names: &NameTable, name: Name)
    requires name { name.0 < length names.now }
    requires macros { AreMacrosNamed names.now macros.old }
    ensures sets { SetsText names.now macros.old (text_of names.now name) None macros.new }
    ensures named { AreMacrosNamed names.now macros.new }
    ensures by_number { Sets macros.old name None macros.new }
{
    // The table of names has each text once.
    let _ = names.text(name);
    macros.undefine(name);
}

// The place of the first `)`.
fn close_of(names: &NameTable, tokens: &[PpTok]) -> Option<usize>
    ensures place { result ≡ position (number.is_mark names.now (codes ")")) tokens.now }
    ensures within { IfSome result (λ i. i < length tokens.now) }
{
    tokens.iter().position(|t| is_mark(names, b")", *t))
}

fn inside<'a>(names: &NameTable, tokens: &'a [PpTok]) -> &'a [PpTok]
    ensures { tokens_of names.now result.now ≡ spec.inside_of (tokens_of names.now tokens.now) (spec.close_of (tokens_of names.now tokens.now)) }
{
    match close_of(names, tokens) {
        None => &[],
        Some(close) => &tokens[..close],
    }
}

/// The tokens of a parameter list, of what stands behind a macro's name.
pub fn parameters<'a>(names: &NameTable, behind: &'a [PpTok]) -> &'a [PpTok]
    ensures { tokens_of names.now result.now ≡ spec.parameters_of (tokens_of names.now behind.now) }
{
    match behind {
        [open, rest @ ..] if is_mark(names, b"(", *open) && !open.space => inside(names, rest),
        _ => &[],
    }
}

/// The name of an `undef`.
pub fn undefined_name(names: &NameTable, tokens: &[PpTok]) -> Option<PpTok>
    ensures name { option_map (token_of names.now []) result ≡ spec.undefined_name (tokens_of names.now tokens.now) }
    ensures named { AreNamed names.now tokens.now → IfSome result (λ t. IsNamed names.now t) }
{
    match tokens {
        [name, ..] if is_free_name(names, *name) => Some(*name),
        _ => None,
    }
}

fn is_free_name(names: &NameTable, t: PpTok) -> bool
    ensures { result ≡ spec.is_free_name (token_of names.now [] t) }
{
    let word = text(names, t.text);
    is_ident(t.kind) && !(b"defined".as_slice() == word || predefined_named(word).is_some())
}
