//! What the names of a text denote.
ghost use Rattle.std.specs.Prelude.{◌≡◌, false, map, length, None, IfOk, IfSome};
ghost use Rattle.std.specs.Option.{option_map};
ghost use Rattle.std.specs.List.{zip};
ghost use Rattle.cr_small.specs.Resolution.{file_scope, resolved};
ghost use Rattle.cr_small.specs.Holding.{AreBraced};
ghost use Rattle.cr_small.specs.SmallForm.{Resolves};
ghost use Rattle.cr_lex.specs.Lexing.{Lexed};
ghost use Rattle.cr_lex.specs.Seen.{seen};

use crate::grammar::{Part, read_parts};
use crate::scopes::Scopes;
use crate::spelling::spelling;
use crate::terminal::has_plain_names;
use cr_base::{NameTable, OutOfMemory, PpTok};
use std::alloc::Global;

/// The entity that a token denotes: the number of its first declaring token, whether it is a function,
/// and else an object, whether it has linkage, and whether that is internal, and else external
/// (C11 6.2.2); and whether the token declares it, and else mentions it.
#[derive(Clone, Copy, Debug, PartialEq, Eq)]
pub struct Denotation {
    pub token: usize,
    pub function: bool,
    pub linked: bool,
    pub internal: bool,
    pub declares: bool,
}

/// The entity that one token denotes, if it is an identifier that denotes one.
#[derive(Clone, Copy)]
pub struct Binding {
    pub denotes: Option<Denotation>,
}

// What each token denotes, from what it does; nothing where a name is undeclared or redeclared.
fn bind(
    alloc: Global,
    names: &NameTable,
    tokens: &[PpTok],
    parts: &[Part],
) -> Result<Option<Vec<Option<Denotation>>>, OutOfMemory>
    requires length { length parts.now ≡ length tokens.now }
    requires braced { AreBraced parts.now false }
    ensures { IfOk result (λ found. option_map (λ v. v.items) found ≡ resolved 0 file_scope (zip (map (seen names.now) tokens.now) parts.now)) }
{
    let mut denotes = Vec::with_capacity(alloc, tokens.len())?;
    let mut scopes = Scopes::new(alloc);
    for (i, token) in tokens.iter().enumerate() {
        let Some(binding) = scopes.meet(parts[i], spelling(names, token.text), i)? else {
            return Ok(None);
        };
        denotes.push(binding.denotes)?;
    }
    Ok(Some(denotes))
}

/// What each token of a text denotes, in their order; nothing where the tokens are not those of a text
/// of the small form.
pub fn resolve(
    alloc: Global,
    names: &NameTable,
    tokens: &[PpTok],
) -> Result<Option<Vec<Option<Denotation>>>, OutOfMemory>
    ensures resolves { IfOk result (λ found. (text : Lexed) → text.fault ≡ None → map (seen names.now) tokens.now ≡ text.tokens → Resolves text (option_map (λ v. v.items) found)) }
    ensures length { IfOk result (λ found. IfSome found (λ v. length v.items ≡ length tokens.now)) }
{
    if !has_plain_names(names, tokens) {
        return Ok(None);
    }
    let Some(parts) = read_parts(alloc, names, tokens)? else {
        return Ok(None);
    };
    let found = bind(alloc, names, tokens, &parts)?;
    Ok(found)
}
