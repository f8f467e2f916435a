//! The spelling of an argument (C11 6.10.3.2).
ghost use Rattle.std.specs.Prelude.{◌≡◌, ◌++◌, ◌∷◌, [], if◌then◌else◌, OnOk, IfOk};
ghost use Rattle.cr_macros.specs.Substitution as spec;
ghost use Rattle.cr_expand.specs.Held.{held, all_held};

use crate::held::Held;
use cr_base::{NameTable, OutOfMemory, PpKind};
use cr_macros::text;
use std::alloc::Global;

fn is_quoted(kind: PpKind) -> bool
    ensures { result ≡ spec.is_quoted kind }
{
    matches!(kind, PpKind::Char | PpKind::Str)
}

/// Puts the bytes behind, with a backslash before each quote and backslash, as a string literal spells them.
pub fn put_escaped(out: &mut Vec<u8>, bytes: &[u8]) -> Result<(), OutOfMemory>
    ensures { OnOk result (out.new.items ≡ out.old.items ++ spec.escaped bytes.now) }
{
    for i in 0..bytes.len() {
        if bytes[i] == b'"' || bytes[i] == b'\\' {
            out.push(b'\\')?;
        }
        out.push(bytes[i])?;
    }
    Ok(())
}

fn put_spelling(out: &mut Vec<u8>, names: &NameTable, h: Held) -> Result<(), OutOfMemory>
    ensures { OnOk result (out.new.items ≡ out.old.items ++ spec.spelling_of (held names.now [] h)) }
{
    let bytes = text(names, h.token.text);
    if is_quoted(h.token.kind) {
        put_escaped(out, bytes)?;
    } else {
        out.extend_from_slice(bytes)?;
    }
    Ok(())
}

fn put_blank(out: &mut Vec<u8>, space: bool) -> Result<(), OutOfMemory>
    ensures { OnOk result (out.new.items ≡ out.old.items ++ (if space then 32 ∷ [] else [])) }
{
    if space {
        out.push(b' ')?;
    }
    Ok(())
}

fn put_rest(out: &mut Vec<u8>, names: &NameTable, rest: &[Held]) -> Result<(), OutOfMemory>
    ensures { OnOk result (out.new.items ≡ out.old.items ++ spec.spelling_of_rest (all_held names.now [] rest.now)) }
{
    for i in 0..rest.len() {
        put_blank(out, rest[i].token.space)?;
        put_spelling(out, names, rest[i])?;
    }
    Ok(())
}

fn put_all(out: &mut Vec<u8>, names: &NameTable, arg: &[Held]) -> Result<(), OutOfMemory>
    ensures { OnOk result (out.new.items ≡ out.old.items ++ spec.spelling (all_held names.now [] arg.now)) }
{
    match arg {
        [] => Ok(()),
        [first, rest @ ..] => {
            put_spelling(out, names, *first)?;
            put_rest(out, names, rest)?;
            Ok(())
        }
    }
}

/// The text of the string that `#` makes of an argument.
pub fn quoted_spelling(
    alloc: Global,
    names: &NameTable,
    arg: &[Held],
) -> Result<Vec<u8>, OutOfMemory>
    ensures { IfOk result (λ text. text.items ≡ spec.in_quotes (spec.spelling (all_held names.now [] arg.now))) }
{
    let mut out = Vec::new(alloc);
    out.push(b'"')?;
    put_all(&mut out, names, arg)?;
    out.push(b'"')?;
    Ok(out)
}
