//! Hide sets of what is put in for a macro's name.
ghost use Rattle.std.specs.Prelude.{◌<◌, IfOk, length};
ghost use Rattle.cr_macros.specs.Definition.{text_of};
ghost use Rattle.cr_macros.specs.Tokens.{with_name, both};
ghost use Rattle.cr_expand.specs.Held.{hidden, AreTables, IsNamed};
ghost use Rattle.cr_expand.specs.Hiding.{IsHidden};

use crate::hide_sets::{HideSet, HideSets};
use cr_base::{Name, NameTable, OutOfMemory};
use std::alloc::Global;

/// A set with one more name.
pub fn with_one(
    names: &NameTable,
    sets: &mut HideSets,
    set: HideSet,
    name: Name,
) -> Result<HideSet, OutOfMemory>
    requires tables { AreTables names.now sets.old }
    requires set { set.0 < length sets.old }
    requires name { IsNamed names.now name }
    ensures { IfOk result (λ n. IsHidden names.now sets.old sets.new n.0 (with_name (text_of names.now name) (hidden names.now sets.old set.0))) }
{
    let _count = names.len();
    let more = sets.with_one_more(set, name)?;
    Ok(more)
}

// The names that are in both.
fn met(
    alloc: Global,
    names: &NameTable,
    sets: &mut HideSets,
    a: HideSet,
    b: HideSet,
) -> Result<HideSet, OutOfMemory>
    requires tables { AreTables names.now sets.old }
    requires a { a.0 < length sets.old }
    requires b { b.0 < length sets.old }
    ensures { IfOk result (λ n. IsHidden names.now sets.old sets.new n.0 (both (hidden names.now sets.old a.0) (hidden names.now sets.old b.0))) }
{
    let _count = names.len();
    let common = sets.both(alloc, a, b)?;
    Ok(common)
}

/// What a call hides: the names that are hidden from both its name and its `)`, and its own.
pub fn hidden_by_call(
    alloc: Global,
    names: &NameTable,
    sets: &mut HideSets,
    opens: HideSet,
    closes: HideSet,
    name: Name,
) -> Result<HideSet, OutOfMemory>
    requires tables { AreTables names.now sets.old }
    requires opens { opens.0 < length sets.old }
    requires closes { closes.0 < length sets.old }
    requires name { IsNamed names.now name }
    ensures { IfOk result (λ n. IsHidden names.now sets.old sets.new n.0 (with_name (text_of names.now name) (both (hidden names.now sets.old opens.0) (hidden names.now sets.old closes.0)))) }
{
    let common = met(alloc, names, sets, opens, closes)?;
    let hide = with_one(names, sets, common, name)?;
    Ok(hide)
}
