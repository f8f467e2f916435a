//! Texts of the small form.
ghost use Rattle.std.specs.Prelude.{◌≡◌, ◌≤◌, ℕ, List as ListOf, [], length, slice_index_or, IfOk};
ghost use Rattle.std.specs.Option.{option_map};
ghost use Rattle.cr_small.specs.Keys as keys;
ghost use Rattle.cr_small.specs.Renaming as renaming;
ghost use Rattle.cr_small.specs.Seen.{tokens_of, key_of_code, target_of_code};
ghost use Rattle.cr_small.specs.Texts.{IsTextOf, Reads};

use crate::binder::{Denotation, resolve};
use crate::renaming::{
    EntityKey, Target, first_unspellable, has_text, key_of, places_of, target_at,
};
use crate::spelling::spelling;
use cr_base::{List, NameTable, OutOfMemory, PathNo, PpTok};
use cr_lex::lex;
use std::alloc::Global;

/// A text of the small form: its tokens, what each of them denotes, and the table of their spellings.
#[derive(Drop)]
pub struct SmallText {
    pub names: NameTable,
    pub tokens: List<PpTok>,
    pub denotes: List<Option<Denotation>>,
}

impl SmallText {
    /// Cuts bytes into tokens (C11 5.1.1.2, phases 1 to 3) and finds what each of them denotes; nothing
    /// where they aren't a text of the small form.
    pub fn read(alloc: Global, bytes: &[u8]) -> Result<Option<SmallText>, OutOfMemory>
        requires { length bytes.now ≤ 16777216 }
        ensures { IfOk result (λ found. Reads bytes.now found) }
    {
        let mut names = NameTable::new(alloc);
        let lexed = lex(alloc, &mut names, bytes, PathNo(0))?;
        if lexed.fault.is_some() {
            return Ok(None);
        }
        let Some(denotes) = resolve(alloc, &names, lexed.tokens.items())? else {
            return Ok(None);
        };
        Ok(Some(SmallText {
            names,
            tokens: lexed.tokens,
            denotes: List::of(denotes),
        }))
    }

    /// Whether some token is spelled so.
    pub fn has_text(&self, text: &[u8]) -> bool
        ensures { result ≡ renaming.has_text text.now (tokens_of self.now) }
    {
        has_text(&self.names, self.tokens.items(), text)
    }

    /// The spelling of one of the text's tokens.
    pub fn spelling(&self, token: &PpTok) -> &[u8]
        ensures { result.now ≡ slice_index_or self.now.names token.now.text.0 [] }
    {
        spelling(&self.names, token.text)
    }

    /// The key of what one of the text's tokens denotes.
    pub fn key_of(&self, denoted: Denotation) -> Option<EntityKey<'_>>
        ensures { option_map key_of_code result ≡ keys.key_of (tokens_of self.now) denoted }
    {
        key_of(&self.names, self.tokens.items(), denoted)
    }

    /// What stands at an offset, if a name does. The offset is in bytes from 0.
    pub fn target_at(&self, offset: usize) -> Option<Target<'_>>
        requires { length self.now.denotes ≡ length self.now.tokens }
        ensures { option_map target_of_code result ≡ renaming.target_at offset (tokens_of self.now) self.now.denotes }
    {
        target_at(
            &self.names,
            self.tokens.items(),
            self.denotes.items(),
            offset,
        )
    }

    /// The offsets of the tokens that denote an entity of this key, in order.
    pub fn places_of(&self, alloc: Global, key: EntityKey) -> Result<Vec<usize>, OutOfMemory>
        requires { length self.now.denotes ≡ length self.now.tokens }
        ensures { IfOk result (λ places. places.items ≡ renaming.places_of (key_of_code key.entry) (tokens_of self.now) self.now.denotes) }
    {
        places_of(
            alloc,
            &self.names,
            self.tokens.items(),
            self.denotes.items(),
            key,
        )
    }

    /// The offset of the first token that denotes an entity of this key and in whose place the new name
    /// can't be spelled. The bytes are those of the text.
    pub fn first_unspellable(&self, bytes: &[u8], new: &[u8], key: EntityKey) -> Option<usize>
        requires { IsTextOf bytes.now self.now }
        ensures { result ≡ renaming.first_unspellable bytes.now new.now (key_of_code key.entry) (tokens_of self.now) self.now.denotes }
    {
        first_unspellable(
            bytes,
            new,
            &self.names,
            self.tokens.items(),
            self.denotes.items(),
            key,
        )
    }
}
