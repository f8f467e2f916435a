//! What stands at an offset, and where its entity stands.
ghost use Rattle.std.specs.Prelude.{◌≡◌, ℕ, List, length, map, IfOk};
ghost use Rattle.std.specs.Option.{option_map};
ghost use Rattle.std.specs.List.{zip};
ghost use Rattle.cr_small.specs.Keys.{key_of, is_key};
ghost use Rattle.cr_lex.specs.Lexing.{lexed};
ghost use Rattle.cr_lex.specs.Seen.{seen};
ghost use Rattle.cr_small.specs.Seen.{key_of_code, target_of_code};
ghost use Rattle.cr_small.specs.Renaming as renaming;

use crate::binder::Denotation;
use crate::spelling::spelling;
use cr_base::{NameTable, OutOfMemory, PpTok};
use cr_lex::{is_unspellable, tokens_stand_in_order};
use std::alloc::Global;

/// The key of an entity of a text: its name where it has external linkage, and else the offset of its
/// first declaring token (C11 6.2.2).
#[derive(Clone, Copy)]
pub enum EntityKey<'a> {
    External(&'a [u8]),
    At(u32),
}

/// A name of a text, the key of the entity that it denotes, and whether that is declared at file scope.
#[derive(Clone, Copy)]
pub struct Target<'a> {
    pub name: &'a [u8],
    pub key: EntityKey<'a>,
    pub at_file_scope: bool,
}

impl<'a> EntityKey<'a> {
    fn is(self, other: EntityKey<'_>) -> bool
        ensures { result ≡ is_key (key_of_code self.entry) (key_of_code other.entry) }
    {
        match (self, other) {
            (EntityKey::External(name), EntityKey::External(other)) => name == other,
            (EntityKey::At(offset), EntityKey::At(other)) => offset == other,
            _ => false,
        }
    }
}

/// The key of what a token denotes.
pub fn key_of<'a>(
    names: &'a NameTable,
    tokens: &[PpTok],
    denoted: Denotation,
) -> Option<EntityKey<'a>>
    ensures { option_map key_of_code result ≡ key_of (map (seen names.now) tokens.now) denoted }
{
    let first = tokens.get(denoted.token)?;
    Some(if denoted.linked && !denoted.internal {
        EntityKey::External(spelling(names, first.text))
    } else {
        EntityKey::At(first.site.offset)
    })
}

/// Whether some token is spelled so.
pub fn has_text(names: &NameTable, tokens: &[PpTok], text: &[u8]) -> bool
    ensures { result ≡ renaming.has_text text.now (map (seen names.now) tokens.now) }
{
    for token in tokens {
        if spelling(names, token.text) == text {
            return true;
        }
    }
    false
}

fn covers(token: &PpTok, offset: usize) -> bool
    ensures { (texts : List (List ℕ)) → result ≡ renaming.covers offset (seen texts token.now) }
{
    token.site.offset as usize <= offset && offset < token.end as usize
}

fn target_of<'a>(
    names: &'a NameTable,
    tokens: &[PpTok],
    token: &PpTok,
    denotes: Option<Denotation>,
) -> Option<Target<'a>>
    ensures { option_map target_of_code result ≡ renaming.target_of (map (seen names.now) tokens.now) (seen names.now token.now) denotes }
{
    let denoted = denotes?;
    let key = key_of(names, tokens, denoted)?;
    Some(Target {
        name: spelling(names, token.text),
        key,
        at_file_scope: denoted.linked,
    })
}

/// What stands at an offset, if a name does. `denotes` is what each token denotes.
pub fn target_at<'a>(
    names: &'a NameTable,
    tokens: &[PpTok],
    denotes: &[Option<Denotation>],
    offset: usize,
) -> Option<Target<'a>>
    requires { length denotes.now ≡ length tokens.now }
    ensures { option_map target_of_code result ≡ renaming.target_at offset (map (seen names.now) tokens.now) denotes.now }
{
    for (i, token) in tokens.iter().enumerate() {
        if covers(token, offset) {
            return target_of(names, tokens, token, denotes[i]);
        }
    }
    None
}

fn denotes_key(
    names: &NameTable,
    tokens: &[PpTok],
    denotes: Option<Denotation>,
    key: EntityKey,
) -> bool
    ensures { result ≡ renaming.denotes_key (map (seen names.now) tokens.now) (key_of_code key.entry) denotes }
{
    match denotes {
        Some(denoted) => has_key(key_of(names, tokens, denoted), key),
        None => false,
    }
}

fn has_key(found: Option<EntityKey>, key: EntityKey) -> bool
    ensures { result ≡ renaming.has_key (key_of_code key.entry) (option_map key_of_code found.entry) }
{
    match found {
        Some(found) => key.is(found),
        None => false,
    }
}

/// The offsets of the tokens that denote an entity of this key, in order. `denotes` is what each token
/// denotes.
pub fn places_of(
    alloc: Global,
    names: &NameTable,
    tokens: &[PpTok],
    denotes: &[Option<Denotation>],
    key: EntityKey,
) -> Result<Vec<usize>, OutOfMemory>
    requires { length denotes.now ≡ length tokens.now }
    ensures { IfOk result (λ places. places.items ≡ renaming.places_of (key_of_code key.entry) (map (seen names.now) tokens.now) denotes.now) }
{
    let mut places = Vec::new(alloc);
    for (i, token) in tokens.iter().enumerate() {
        if denotes_key(names, tokens, denotes[i], key) {
            places.push(token.site.offset as usize)?;
        }
    }
    Ok(places)
}

/// The offset of the first token that denotes an entity of this key and in whose place the new name
/// can't be spelled. The tokens are those of the bytes, and `denotes` is what each of them denotes.
pub fn first_unspellable(
    bytes: &[u8],
    new: &[u8],
    names: &NameTable,
    tokens: &[PpTok],
    denotes: &[Option<Denotation>],
    key: EntityKey,
) -> Option<usize>
    requires length { length denotes.now ≡ length tokens.now }
    requires tokens { map (seen names.now) tokens.now ≡ (lexed bytes.now).tokens }
    ensures { result ≡ renaming.first_unspellable bytes.now new.now (key_of_code key.entry) (map (seen names.now) tokens.now) denotes.now }
{
    tokens_stand_in_order();
    for (i, token) in tokens.iter().enumerate() {
        if denotes_key(names, tokens, denotes[i], key) && is_unspellable(bytes, new, *token) {
            return Some(token.site.offset as usize);
        }
    }
    None
}
