//! The numbers of a macro's parameters.
ghost use Rattle.std.specs.Prelude.{◌≡◌, ◌+◌, nat_eq, if◌then◌else◌, OnOk, IfOk, length, Some, None, List, Bool};
ghost use Rattle.indexmap.specs.IndexMap.{get};
ghost use Rattle.cr_base.specs.NameTable.{IsDistinct};
ghost use Rattle.cr_base.specs.declared.token.Name.{Name as TheName};
ghost use Rattle.cr_expand.specs.Items.{number_of, or_rest, AreNumbers, looked_up, IsMacroKnown, Serves};
ghost use Rattle.cr_macros.specs.Definition.{is_rest};
ghost use Rattle.cr_macros.specs.Tokens.{is_ident};

use cr_base::{Name, NameTable, OutOfMemory, PpTok};
use cr_macros::{Macro, is_ident, is_rest};
use indexmap::IndexMap;
use std::alloc::Global;

/// The number of each parameter by name, and that of the variable one.
#[derive(Drop)]
pub struct Params {
    pub places: IndexMap<Name, usize>,
    pub rest: Option<usize>,
}

// Gives a name the number, where it has none.
fn put(places: &mut IndexMap<Name, usize>, name: Name, n: usize) -> Result<(), OutOfMemory>
    ensures { (other : TheName) → OnOk result (get ⟦<Name as PartialEq>⟧.eq places.new other ≡ or_rest (nat_eq name.0 other.0) (get ⟦<Name as PartialEq>⟧.eq places.old other) n) }
{
    if !places.contains_key(&name) {
        let _ = places.insert(name, n)?;
    }
    Ok(())
}

fn places(alloc: Global, names: &[Name]) -> Result<IndexMap<Name, usize>, OutOfMemory>
    ensures { (other : TheName) → IfOk result (λ places. get ⟦<Name as PartialEq>⟧.eq places other ≡ number_of names.now other) }
{
    let mut places = IndexMap::new(alloc);
    for i in 0..names.len() {
        put(&mut places, names[i], i)?;
    }
    Ok(places)
}

impl Params {
    /// The numbers of these parameters, the variable one's behind them.
    pub fn of(alloc: Global, names: &[Name], variadic: bool) -> Result<Params, OutOfMemory>
        ensures { IfOk result (λ p. AreNumbers names.now variadic p) }
    {
        let places = places(alloc, names)?;
        Ok(Params {
            places,
            rest: only_if(variadic, names.len()),
        })
    }

    /// The number of the parameter that a token names.
    pub fn number(&self, names: &NameTable, t: PpTok) -> Option<usize>
        ensures { result ≡ looked_up names.now self.now t }
    {
        if !is_ident(t.kind) {
            return None;
        }
        match self.places.get(&t.text) {
            Some(n) => Some(*n),
            None => self.number_of_rest(is_rest(names, t)),
        }
    }

    /// The numbers of a macro's parameters.
    pub fn of_macro(alloc: Global, names: &NameTable, m: &Macro) -> Result<Params, OutOfMemory>
        requires distinct { IsDistinct names.now }
        requires known { IsMacroKnown names.now m.now }
        ensures { IfOk result (λ p. Serves names.now m.now p) }
    {
        match &m.params {
            None => {
                let params = Params::of(alloc, &[], false)?;
                Ok(params)
            }
            Some(list) => {
                let params = Params::of(alloc, list.items(), m.variadic)?;
                Ok(params)
            }
        }
    }

    fn number_of_rest(&self, is_rest: bool) -> Option<usize>
        ensures { result ≡ (if is_rest then self.now.rest else None) }
    {
        if is_rest { self.rest } else { None }
    }
}

fn only_if(b: bool, n: usize) -> Option<usize>
    ensures { result ≡ (if b then Some n else None) }
{
    if b { Some(n) } else { None }
}
