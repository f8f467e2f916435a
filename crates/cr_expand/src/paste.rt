//! `##` (C11 6.10.3.3).
ghost use Rattle.std.specs.Prelude.{◌≡◌, ◌+◌, ◌-◌, ◌<◌, ◌≤◌, ◌^◌, ◌++◌, [], IfOk, IfErr, OnOk, length, List};
ghost use Rattle.cr_base.specs.NameTable.{IsDistinct};
ghost use Rattle.cr_macros.specs.Substitution as spec;
ghost use Rattle.cr_macros.specs.Definition.{text_of};
ghost use Rattle.cr_macros.specs.Tokens.{Text, token_of};
ghost use Rattle.cr_expand.specs.HideSets.{Grows};
ghost use Rattle.cr_expand.specs.Held.{held, IsKnown, IsNamed, AreTables, watch_of, Does, Stops};

use crate::held::Held;
use crate::hide_sets::HideSets;
use crate::notes::Notes;
use crate::strings::made;
use cr_base::{NameTable, OutOfMemory, PpTok, Role};
use cr_macros::{ExpandFault, one_token, text};
use std::alloc::Global;

fn joined(alloc: Global, names: &NameTable, a: PpTok, b: PpTok) -> Result<Vec<u8>, OutOfMemory>
    ensures { IfOk result (λ v. v.items ≡ text_of names.now a.text ++ text_of names.now b.text) }
{
    let mut out = Vec::new(alloc);
    out.extend_from_slice(text(names, a.text))?;
    out.extend_from_slice(text(names, b.text))?;
    Ok(out)
}

/// The one token that two tokens' texts make together, in the place of a macro's name; from it is
/// hidden what is hidden from both. `BadPaste`: the texts are no one preprocessing token.
pub fn paste(
    alloc: Global,
    names: &mut NameTable,
    sets: &mut HideSets,
    notes: &mut Notes,
    name: PpTok,
    a: Held,
    b: Held,
) -> Result<Held, ExpandFault>
    requires room { length names.old < 2 ^ 32 - 1 }
    requires tables { AreTables names.old sets.old }
    requires left { IsKnown names.old sets.old a }
    requires right { IsKnown names.old sets.old b }
    ensures does { (hide : List Text) → IfOk result (λ h. Does (watch_of names.old notes.old) notes.old.seen.items notes.new.seen.items (spec.paste (token_of names.old hide name) (held names.old sets.old a) (held names.old sets.old b)) (held names.new sets.new h)) }
    ensures stops { (hide : List Text) → IfErr result (λ e. Stops (spec.paste (token_of names.old hide name) (held names.old sets.old a) (held names.old sets.old b)) e) }
    ensures known { IfOk result (λ h. IsKnown names.new sets.new h) }
    ensures grows { Grows names.old names.new }
    ensures sets_grow { OnOk result (Grows sets.old sets.new) }
    ensures tables { OnOk result (AreTables names.new sets.new) }
    ensures length { length names.new ≤ length names.old + 1 }
    ensures same { (notes.new.from ≡ notes.old.from) × (notes.new.to ≡ notes.old.to) }
{
    let text = joined(alloc, names, a.token, b.token)?;
    let Some(kind) = one_token(&text) else {
        return Err(ExpandFault::BadPaste(name.site));
    };
    notes.take(names, Role::Pasted, a.token)?;
    notes.take(names, Role::Pasted, b.token)?;
    let number = names.intern(&text)?;
    let hide = sets.both(alloc, a.hide, b.hide)?;
    Ok(Held {
        token: made(name, kind, number, a.token.space),
        hide,
    })
}
