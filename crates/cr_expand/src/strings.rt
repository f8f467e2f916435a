//! The string that `#` makes of an argument (C11 6.10.3.2).
ghost use Rattle.std.specs.Prelude.{◌≡◌, ◌+◌, ◌-◌, ◌<◌, ◌≤◌, ◌^◌, [], IfOk, IfErr, length, List};
ghost use Rattle.cr_base.specs.NameTable.{IsDistinct};
ghost use Rattle.cr_base.specs.declared.token.PpTok.{PpTok as ThePpTok};
ghost use Rattle.cr_macros.specs.Substitution as spec;
ghost use Rattle.cr_macros.specs.Definition.{text_of};
ghost use Rattle.cr_macros.specs.Tokens.{Text, token_of};
ghost use Rattle.cr_expand.specs.HideSets.{Grows};
ghost use Rattle.cr_expand.specs.Held.{held, all_held, IsKnown, watch_of, Does, Stops};

use crate::held::Held;
use crate::hide_sets::HideSets;
use crate::notes::Notes;
use crate::spelling::quoted_spelling;
use cr_base::{Name, NameTable, Origin, PpKind, PpTok, Role};
use cr_macros::{ExpandFault, is_string};
use std::alloc::Global;

/// A token that was made in the place of a macro's name.
pub fn made(name: PpTok, kind: PpKind, text: Name, space: bool) -> PpTok
    ensures text { result.text ≡ text }
    ensures token { (names hide hidden : List Text) → token_of names hide result ≡ spec.made (token_of names hidden name) kind (text_of names text) space hide }
{
    PpTok {
        kind,
        text,
        origin: Origin::Made,
        site: name.site,
        line: name.line,
        end: 0,
        space,
        first: false,
        joined: false,
    }
}

/// The string of an argument, in the place of a macro's name, with the white space of its `#`.
/// `BadPaste`: the spelling is no string literal.
pub fn string_of(
    alloc: Global,
    names: &mut NameTable,
    sets: &HideSets,
    notes: &mut Notes,
    name: PpTok,
    hash: PpTok,
    arg: &[Held],
) -> Result<Held, ExpandFault>
    requires room { length names.old < 2 ^ 32 - 1 }
    requires distinct { IsDistinct names.old }
    ensures does { (hide : List Text) → IfOk result (λ h. Does (watch_of names.old notes.old) notes.old.seen.items notes.new.seen.items (spec.string_of (token_of names.old hide name) (token_of names.old [] hash) (all_held names.old sets.now arg.now)) (held names.new sets.now h)) }
    ensures stops { (hide : List Text) → IfErr result (λ e. Stops (spec.string_of (token_of names.old hide name) (token_of names.old [] hash) (all_held names.old sets.now arg.now)) e) }
    ensures known { IfOk result (λ h. IsKnown names.new sets.now h) }
    ensures grows { Grows names.old names.new }
    ensures length { length names.new ≤ length names.old + 1 }
    ensures distinct { IsDistinct names.new }
    ensures same { (notes.new.from ≡ notes.old.from) × (notes.new.to ≡ notes.old.to) }
{
    let text = quoted_spelling(alloc, names, arg)?;
    if !is_string(&text) {
        return Err(ExpandFault::BadPaste(name.site));
    }
    notes.take_all(names, Role::Stringized, arg)?;
    let number = names.intern(&text)?;
    Ok(Held {
        token: made(name, PpKind::Str, number, hash.space),
        hide: sets.empty(),
    })
}
