//! The header name of an include (C11 6.10.2, 6.4.7).
ghost use Rattle.std.specs.Prelude.{◌≡◌, ◌++◌, [], codes, IfOk, Some, None, if◌then◌else◌};
ghost use Rattle.std.specs.Option.{option_map};
ghost use Rattle.cr_macros.specs.Tokens.{tokens_of, token_of, is_mark};
ghost use Rattle.cr_phase4.specs.Directives as spec;
ghost use Rattle.cr_preproc.specs.Seen.{seen_header};

use cr_base::{NameTable, OutOfMemory, PpKind, PpTok};
use cr_macros::{is_mark, text};
use std::alloc::Global;

// What an include names: `angled` says that it stands between `<` and `>`.
#[derive(Drop)]
pub struct Header {
    pub angled: bool,
    pub name: Vec<u8>,
}

// Puts a token's text behind what is there, with a blank before it where white space is; of a `>`, which is
// answered by true, the blank alone.
fn put_token(names: &NameTable, t: PpTok, name: &mut Vec<u8>) -> Result<bool, OutOfMemory>
    ensures test { IfOk result (λ ends. ends ≡ is_mark (codes ">") (token_of names.now [] t)) }
    ensures put { IfOk result (λ ends. name.new.items ≡ name.old.items ++ (spec.blank_of (token_of names.now [] t) ++ (if ends then [] else (token_of names.now [] t).text))) }
{
    if t.space {
        name.push(b' ')?;
    }
    if is_mark(names, b">", t) {
        return Ok(true);
    }
    name.extend_from_slice(text(names, t.text))?;
    Ok(false)
}

// Puts the text up to a last `>` behind what is there; false where no `>` is the last token and the only one.
fn put_to_greater(
    names: &NameTable,
    tokens: &[PpTok],
    name: &mut Vec<u8>,
) -> Result<bool, OutOfMemory>
    ensures { IfOk result (λ good. (if good then Some name.new.items else None) ≡ option_map (λ rest. name.old.items ++ rest) (spec.to_greater (tokens_of names.now tokens.now))) }
{
    for i in 0..tokens.len() {
        if put_token(names, tokens[i], name)? {
            return Ok(i + 1 == tokens.len());
        }
    }
    Ok(false)
}

// What stands between the quotes of a string without a prefix.
fn quoted(alloc: Global, text: &[u8]) -> Result<Option<Header>, OutOfMemory>
    ensures { IfOk result (λ found. option_map seen_header found ≡ spec.quoted_text text.now) }
{
    match text {
        [b'"', rest @ ..] => {
            let end = rest.len().saturating_sub(1);
            let name = rest[..end].to_vec(alloc)?;
            Ok(Some(Header {
                angled: false,
                name,
            }))
        }
        _ => Ok(None),
    }
}

fn angled(alloc: Global, names: &NameTable, tokens: &[PpTok]) -> Result<Option<Header>, OutOfMemory>
    ensures { IfOk result (λ found. option_map seen_header found ≡ spec.angled (spec.to_greater (tokens_of names.now tokens.now))) }
{
    let mut name = Vec::new(alloc);
    if put_to_greater(names, tokens, &mut name)? {
        Ok(Some(Header { angled: true, name }))
    } else {
        Ok(None)
    }
}

// The header name that tokens are: one string without a prefix, or `<` to `>`.
pub fn header_name(
    alloc: Global,
    names: &NameTable,
    tokens: &[PpTok],
) -> Result<Option<Header>, OutOfMemory>
    ensures { IfOk result (λ found. option_map seen_header found ≡ spec.header_name (tokens_of names.now tokens.now)) }
{
    match tokens {
        [] => Ok(None),
        [t] => {
            if matches!(t.kind, PpKind::Str) {
                let found = quoted(alloc, text(names, t.text))?;
                Ok(found)
            } else {
                Ok(None)
            }
        }
        [t, rest @ ..] => {
            if is_mark(names, b"<", *t) {
                let found = angled(alloc, names, rest)?;
                Ok(found)
            } else {
                Ok(None)
            }
        }
    }
}
