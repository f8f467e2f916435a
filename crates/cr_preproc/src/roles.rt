//! What the identifiers of a macro's definition are taken for.
ghost use Rattle.std.specs.Prelude.{◌≡◌, ◌++◌, ◌||◌, ◌&&◌, [], OnOk, is_some, bytes_eq, codes};
ghost use Rattle.std.specs.List.{list_any};
ghost use Rattle.cr_macros.specs.Definition.{text_of};
ghost use Rattle.cr_macros.specs.MacroTables.{macro_text};
ghost use Rattle.cr_macros.specs.Substitution as subst;
ghost use Rattle.cr_macros.specs.Tokens.{Token, token_of, tokens_of};
ghost use Rattle.cr_phase4.specs.Definition.{parameters_of};
ghost use Rattle.cr_phase4.specs.Directives.{definition_marks};
ghost use Rattle.cr_phase4.specs.Tasks.{Defined};
ghost use Rattle.cr_phase4.specs.Traces.{params_seen, all_events_seen, all_old_at, body_params_of};

use crate::definitions::parameters;
use crate::trace::{Renaming, note, note_all};
use cr_base::{Name, NameTable, Origin, OutOfMemory, Place, PpTok, Role};
use cr_macros::{Macro, Seen, is_ident, text};

// Whether a text is that of one of the names.
fn is_among(names: &NameTable, list: &[Name], word: &[u8]) -> bool
    ensures { result ≡ list_any (λ p. bytes_eq (text_of names.now p) word.now) list.now }
{
    list.iter().any(|p| text(names, *p) == word)
}

fn is_named(names: &NameTable, list: &[Name], variadic: bool, word: &[u8]) -> bool
    ensures { result ≡ (list_any (λ p. bytes_eq (text_of names.now p) word.now) list.now || (variadic && bytes_eq (codes "__VA_ARGS__") word.now)) }
{
    is_among(names, list, word) || variadic && b"__VA_ARGS__".as_slice() == word
}

fn has_param(names: &NameTable, m: &Macro, word: &[u8]) -> bool
    ensures { result ≡ is_some (subst.index_of (subst.params_of (macro_text names.now m.now)) word.now) }
{
    match &m.params {
        None => false,
        Some(params) => is_named(names, params.items(), m.variadic, word),
    }
}

fn is_param(names: &NameTable, m: &Macro, t: PpTok) -> bool
    ensures { result ≡ is_some (subst.param (macro_text names.now m.now) (token_of names.now [] t)) }
{
    is_ident(t.kind) && has_param(names, m, text(names, t.text))
}

// Notes the parameters that stand in a body.
fn note_params(
    seen: &mut Vec<Seen>,
    names: &NameTable,
    renaming: Renaming,
    m: &Macro,
    body: &[PpTok],
) -> Result<(), OutOfMemory>
    ensures { OnOk result (seen.new.items ≡ seen.old.items ++ params_seen (text_of names.now renaming.old) (text_of names.now renaming.new) (macro_text names.now m.now) (tokens_of names.now body.now)) }
{
    for i in 0..body.len() {
        if is_param(names, m, body[i]) {
            note(seen, names, renaming, Role::Param, body[i])?;
        }
    }
    Ok(())
}

// Notes the roles of a definition: of the name, the parameters, and those in the body.
pub fn note_definition(
    seen: &mut Vec<Seen>,
    names: &NameTable,
    renaming: Renaming,
    name: PpTok,
    behind: &[PpTok],
    m: &Macro,
) -> Result<(), OutOfMemory>
    ensures { OnOk result (seen.new.items ≡ seen.old.items ++ all_events_seen (text_of names.now renaming.old) (text_of names.now renaming.new)
        (definition_marks (record { name = token_of names.now [] name; parameters = parameters_of (tokens_of names.now behind.now); macro = macro_text names.now m.now }))) }
{
    note(seen, names, renaming, Role::Directive, name)?;
    note_all(
        seen,
        names,
        renaming,
        Role::Param,
        parameters(names, behind),
    )?;
    note_params(seen, names, renaming, m, m.body.items())?;
    Ok(())
}

// Notes the places of the identifiers that are spelled `old`.
fn note_places(
    places: &mut Vec<Place>,
    names: &NameTable,
    old: Name,
    tokens: &[PpTok],
) -> Result<(), OutOfMemory>
    ensures { OnOk result (places.new.items ≡ places.old.items ++ all_old_at (text_of names.now old) (tokens_of names.now tokens.now)) }
{
    for i in 0..tokens.len() {
        let t = tokens[i];
        if let Origin::At(place) = t.origin {
            if is_ident(t.kind) && text(names, t.text) == text(names, old) {
                places.push(place)?;
            }
        }
    }
    Ok(())
}

// Notes where the old name stands in a body that has a parameter spelled as the new one.
pub fn note_captured(
    places: &mut Vec<Place>,
    names: &NameTable,
    renaming: Renaming,
    m: &Macro,
) -> Result<(), OutOfMemory>
    ensures { (name : Token) → OnOk result (places.new.items ≡ places.old.items ++ body_params_of (text_of names.now renaming.old) (text_of names.now renaming.new) (Defined name (macro_text names.now m.now))) }
{
    if has_param(names, m, text(names, renaming.new)) {
        note_places(places, names, renaming.old, m.body.items())?;
    }
    Ok(())
}
