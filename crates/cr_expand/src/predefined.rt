//! The token that a predefined macro gives (C11 6.10.8.1).
ghost use Rattle.std.specs.Prelude.{◌≡◌, ◌<◌, ◌≤◌, ◌+◌, ◌-◌, ◌^◌, IfOk, OnOk, List, length};
ghost use Rattle.cr_base.specs.NameTable.{IsDistinct};
ghost use Rattle.cr_macros.specs.Definition.{text_of};
ghost use Rattle.cr_macros.specs.Expansion as spec;
ghost use Rattle.cr_macros.specs.Substitution as spec_substitution;
ghost use Rattle.cr_macros.specs.Tokens.{Text, token_of};
ghost use Rattle.cr_expand.specs.HideSets.{Grows};
ghost use Rattle.cr_expand.specs.Held.{IsNamed};
ghost use Rattle.cr_expand.specs.Predefines.{IsGivenText};

use crate::strings::made;
use cr_base::{Name, NameTable, OutOfMemory, PpKind, PpTok};
use cr_macros::Predefined;
use itoa::Buffer;

// A kind with the name of a text.
fn literal(names: &mut NameTable, kind: PpKind, text: &[u8]) -> Result<(PpKind, Name), OutOfMemory>
    requires { length names.old < 2 ^ 32 - 1 }
    ensures given { IfOk result (λ given. IsGivenText names.old names.new (kind, text.now) given) }
    ensures grows { Grows names.old names.new }
    ensures length { length names.new ≤ length names.old + 1 }
{
    let name = names.intern(text)?;
    Ok((kind, name))
}

// The kind and the text that it gives on a line.
fn text_for(
    names: &mut NameTable,
    file: Name,
    line: u32,
    p: Predefined,
) -> Result<(PpKind, Name), OutOfMemory>
    requires room { length names.old < 2 ^ 32 - 1 }
    requires distinct { IsDistinct names.old }
    requires file { IsNamed names.old file }
    ensures given { IfOk result (λ given. IsGivenText names.old names.new (spec.predefined_token (text_of names.old file) line p) given) }
    ensures grows { Grows names.old names.new }
    ensures length { length names.new ≤ length names.old + 1 }
{
    let mut buffer = Buffer::new();
    let literal_text: (PpKind, &[u8]) = match p {
        Predefined::File => return Ok((PpKind::Str, file)),
        Predefined::Line => (PpKind::Number, buffer.format(line).as_bytes()),
        Predefined::Date => (PpKind::Str, b"\"Jan  1 1970\""),
        Predefined::Time => (PpKind::Str, b"\"00:00:00\""),
        Predefined::Standard => (PpKind::Number, b"1"),
        Predefined::Version => (PpKind::Number, b"201112L"),
        Predefined::Hosted => (PpKind::Number, b"1"),
    };
    let (kind, text) = literal_text;
    let given = literal(names, kind, text)?;
    Ok(given)
}

/// The token that a predefined macro gives in the place of its name; `file` is the text that
/// `__FILE__` gives.
pub fn predefined_token(
    names: &mut NameTable,
    file: Name,
    name: PpTok,
    p: Predefined,
) -> Result<PpTok, OutOfMemory>
    requires room { length names.old < 2 ^ 32 - 1 }
    requires distinct { IsDistinct names.old }
    requires file { IsNamed names.old file }
    ensures token { (hide hidden : List Text) → IfOk result (λ t. let given = spec.predefined_token (text_of names.old file) name.line p in token_of names.new hide t ≡ spec_substitution.made (token_of names.old hidden name) given.0 given.1 name.space hide) }
    ensures named { IfOk result (λ t. IsNamed names.new t.text) }
    ensures grows { Grows names.old names.new }
    ensures distinct { OnOk result (IsDistinct names.new) }
    ensures length { length names.new ≤ length names.old + 1 }
{
    let (kind, text) = text_for(names, file, name.line, p)?;
    Ok(made(name, kind, text, name.space))
}
