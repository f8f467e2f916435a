//! Which places were taken for what.
ghost use Rattle.std.specs.Prelude.{◌≡◌, ◌++◌, ◌||◌, bytes_eq, OnOk, map, flat_map, ℕ, List};
ghost use Rattle.cr_macros.specs.Definition.{text_of};
ghost use Rattle.cr_macros.specs.Tokens.{Text, token_of, takes};
ghost use Rattle.cr_expand.specs.HideSets.{Sets};
ghost use Rattle.cr_expand.specs.Held.{noted, watch_of, all_held};

use crate::held::Held;
use cr_base::{Name, NameTable, Origin, OutOfMemory, PpTok, Role};
use cr_macros::{Seen, is_ident, text};

/// The places of identifiers with one of two names, each time that one is taken for something.
#[derive(Drop)]
pub struct Notes {
    pub from: Name,
    pub to: Name,
    pub seen: Vec<Seen>,
}

impl Notes {
    fn is_watched(&self, names: &NameTable, name: Name) -> bool
        ensures { result ≡ (bytes_eq (text_of names.now name) (text_of names.now self.now.from) || bytes_eq (text_of names.now name) (text_of names.now self.now.to)) }
    {
        let word = text(names, name);
        word == text(names, self.from) || word == text(names, self.to)
    }

    /// Notes for what a token is taken, where it is an identifier with a place.
    pub fn take(&mut self, names: &NameTable, role: Role, t: PpTok) -> Result<(), OutOfMemory>
        ensures seen { (hide : List Text) → OnOk result (self.new.seen.items ≡ self.old.seen.items ++ noted (watch_of names.now self.old) (takes role (token_of names.now hide t))) }
        ensures same { (self.new.from ≡ self.old.from) × (self.new.to ≡ self.old.to) }
    {
        if let Origin::At(place) = t.origin {
            if is_ident(t.kind) && self.is_watched(names, t.text) {
                self.seen.push(Seen { place, role })?;
            }
        }
        Ok(())
    }

    /// Notes for what each of the tokens is taken.
    pub fn take_all(
        &mut self,
        names: &NameTable,
        role: Role,
        tokens: &[Held],
    ) -> Result<(), OutOfMemory>
        ensures seen { (sets : Sets) → OnOk result (self.new.seen.items ≡ self.old.seen.items ++ noted (watch_of names.now self.old) (flat_map (takes role) (all_held names.now sets tokens.now))) }
        ensures same { (self.new.from ≡ self.old.from) × (self.new.to ≡ self.old.to) }
    {
        for i in 0..tokens.len() {
            self.take(names, role, tokens[i].token)?;
        }
        Ok(())
    }
}
