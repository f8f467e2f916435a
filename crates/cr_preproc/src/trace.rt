//! What is kept of a unit for the renaming of one name to another.
ghost use Rattle.std.specs.Prelude.{◌≡◌, ◌++◌, [], OnOk, map};
ghost use Rattle.cr_macros.specs.Definition.{text_of};
ghost use Rattle.cr_macros.specs.Tokens.{MacroText, token_of, tokens_of};
ghost use Rattle.cr_phase4.specs.Tasks.{Defined};
ghost use Rattle.cr_phase4.specs.Traces.{is_either, seen_as, all_seen_as, new_macros_of};

use cr_base::{Name, NameTable, Origin, OutOfMemory, Place, PpTok, Role};
use cr_macros::{Seen, is_ident, text};
use std::alloc::Global;

// The name that is renamed, and the one that takes its place.
#[derive(Clone, Copy, Debug)]
pub struct Renaming {
    pub old: Name,
    pub new: Name,
}

/// What is kept of a unit for a renaming, of the identifiers that are spelled old or new: what each was
/// taken for, in the order in which that happened; the places of the names in `define` lines of the new
/// name; the places of the old name in bodies of macros with a parameter that is spelled new; and the
/// places in pragmas.
#[derive(Drop)]
pub struct Trace {
    pub seen: Vec<Seen>,
    pub new_macros: Vec<Place>,
    pub body_params: Vec<Place>,
    pub opaque: Vec<Place>,
}

impl Trace {
    pub fn new(alloc: Global) -> Trace
        ensures { (result.seen.items ≡ []) × (result.new_macros.items ≡ []) × (result.body_params.items ≡ []) × (result.opaque.items ≡ []) }
    {
        Trace {
            seen: Vec::new(alloc),
            new_macros: Vec::new(alloc),
            body_params: Vec::new(alloc),
            opaque: Vec::new(alloc),
        }
    }
}

impl Renaming {
    fn has(self, names: &NameTable, name: Name) -> bool
        ensures { result ≡ is_either (text_of names.now self.old) (text_of names.now self.new) (text_of names.now name) }
    {
        let word = text(names, name);
        word == text(names, self.old) || word == text(names, self.new)
    }
}

// Notes for what a token is taken, where it is an identifier with a place that is spelled old or new.
pub fn note(
    seen: &mut Vec<Seen>,
    names: &NameTable,
    renaming: Renaming,
    role: Role,
    t: PpTok,
) -> Result<(), OutOfMemory>
    ensures { OnOk result (seen.new.items ≡ seen.old.items ++ seen_as (text_of names.now renaming.old) (text_of names.now renaming.new) role (token_of names.now [] t)) }
{
    if let Origin::At(place) = t.origin {
        if is_ident(t.kind) && renaming.has(names, t.text) {
            seen.push(Seen { place, role })?;
        }
    }
    Ok(())
}

// The same of each of the tokens.
pub fn note_all(
    seen: &mut Vec<Seen>,
    names: &NameTable,
    renaming: Renaming,
    role: Role,
    tokens: &[PpTok],
) -> Result<(), OutOfMemory>
    ensures { OnOk result (seen.new.items ≡ seen.old.items ++ all_seen_as (text_of names.now renaming.old) (text_of names.now renaming.new) role (tokens_of names.now tokens.now)) }
{
    for i in 0..tokens.len() {
        note(seen, names, renaming, role, tokens[i])?;
    }
    Ok(())
}

// Notes the name of a `define` line where it is the new one.
pub fn note_new_macro(
    places: &mut Vec<Place>,
    names: &NameTable,
    new: Name,
    name: PpTok,
) -> Result<(), OutOfMemory>
    ensures { (m : MacroText) → OnOk result (places.new.items ≡ places.old.items ++ new_macros_of (text_of names.now new) (Defined (token_of names.now [] name) m)) }
{
    if text(names, name.text) == text(names, new) {
        places.push(name.site)?;
    }
    Ok(())
}

// Notes the places of what is seen.
pub fn note_seen_places(places: &mut Vec<Place>, seen: &[Seen]) -> Result<(), OutOfMemory>
    ensures { OnOk result (places.new.items ≡ places.old.items ++ map (λ s. s.place) seen.now) }
{
    for s in seen {
        places.push(s.place)?;
    }
    Ok(())
}
