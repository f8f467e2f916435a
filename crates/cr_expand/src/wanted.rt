//! Which arguments of a call are wanted, how, and in what number.
ghost use Rattle.std.specs.Prelude.{◌≡◌, ◌<◌, IfOk, List, ℕ, map, option_map, slice_index_or, vec_len, true, false};
ghost use Rattle.std.specs.List.{list_any};
ghost use Rattle.cr_base.specs.NameTable.{IsDistinct};
ghost use Rattle.cr_macros.specs.Substitution as spec;
ghost use Rattle.cr_macros.specs.MacroTables.{macro_text};
ghost use Rattle.cr_macros.specs.Tokens.{Text};
ghost use Rattle.cr_expand.specs.Items.{item_text, item_texts, is_number, IsMacroKnown};
ghost use Rattle.cr_expand.specs.Wanted.{is_wanted, is_whole, is_as_is, is_marked_whole, is_one_empty as spec_is_one_empty, counted as spec_counted};

use crate::held::Held;
use crate::items::{Item, items};
use crate::params::Params;
use crate::subst::{mark, unmarked, used_arguments};
use cr_base::{NameTable, OutOfMemory};
use cr_macros::Macro;
use std::alloc::Global;

/// Which arguments the macro's body takes expanded, which it takes as they are, and which it uses.
#[derive(Drop)]
pub struct Needs {
    pub expanded: Vec<bool>,
    pub as_is: Vec<bool>,
    pub used: Vec<bool>,
}

// Whether an argument is marked.
fn is_marked(marks: &[bool], n: usize) -> bool
    ensures { result ≡ slice_index_or marks.now n false }
{
    n < marks.len() && marks[n]
}

impl Needs {
    /// Whether all tokens of an argument are needed as they are: the body takes it so, or uses no
    /// copy of it.
    pub fn is_whole(&self, n: usize) -> bool
        ensures { result ≡ is_marked_whole self.now n }
    {
        is_marked(&self.as_is, n) || !is_marked(&self.used, n)
    }
}

// The number of the argument that an item takes expanded.
fn expanded_argument_of(item: Item) -> Option<usize>
    ensures { (names : List Text) (n : ℕ) → spec.is_full n (item_text names item) ≡ is_number n result }
{
    match item {
        Item::Full(_, n) | Item::CommaRest(_, _, n) => Some(n),
        Item::Stays(_) | Item::Spelt(_, _) | Item::Bare(_, _) | Item::Paste => None,
    }
}

// Which arguments have an item that takes them expanded.
fn expanded_arguments(alloc: Global, count: usize, items: &[Item]) -> Result<Vec<bool>, OutOfMemory>
    ensures { (names : List Text) → IfOk result (λ wanted. (vec_len wanted ≡ count) × ((n : ℕ) → n < count → slice_index_or wanted.items n false ≡ list_any (spec.is_full n) (item_texts names items.now))) }
{
    let mut wanted = unmarked(alloc, count)?;
    for i in 0..items.len() {
        mark(&mut wanted, expanded_argument_of(items[i]));
    }
    Ok(wanted)
}

// The number of the argument that an item takes as it is.
fn as_is_argument_of(item: Item) -> Option<usize>
    ensures { (names : List Text) (n : ℕ) → is_as_is n (item_text names item) ≡ is_number n result }
{
    match item {
        Item::Spelt(_, n) | Item::Bare(_, n) => Some(n),
        Item::Stays(_) | Item::Full(_, _) | Item::CommaRest(_, _, _) | Item::Paste => None,
    }
}

// Which arguments have an item that takes them as they are.
fn as_is_arguments(alloc: Global, count: usize, items: &[Item]) -> Result<Vec<bool>, OutOfMemory>
    ensures { (names : List Text) → IfOk result (λ wanted. (vec_len wanted ≡ count) × ((n : ℕ) → n < count → slice_index_or wanted.items n false ≡ list_any (is_as_is n) (item_texts names items.now))) }
{
    let mut wanted = unmarked(alloc, count)?;
    for i in 0..items.len() {
        mark(&mut wanted, as_is_argument_of(items[i]));
    }
    Ok(wanted)
}

/// How the macro's body takes so many arguments.
pub fn needs_of(
    alloc: Global,
    names: &NameTable,
    m: &Macro,
    count: usize,
) -> Result<Needs, OutOfMemory>
    requires distinct { IsDistinct names.now }
    requires known { IsMacroKnown names.now m.now }
    ensures expanded { IfOk result (λ needs. (n : ℕ) → n < count → slice_index_or needs.expanded.items n false ≡ is_wanted (macro_text names.now m.now) n) }
    ensures whole { IfOk result (λ needs. (n : ℕ) → n < count → is_marked_whole needs n ≡ is_whole (macro_text names.now m.now) n) }
{
    let params = Params::of_macro(alloc, names, m)?;
    let items = items(alloc, names, m, &params)?;
    let expanded = expanded_arguments(alloc, count, &items)?;
    let as_is = as_is_arguments(alloc, count, &items)?;
    let used = used_arguments(alloc, count, &items)?;
    Ok(Needs {
        expanded,
        as_is,
        used,
    })
}

// Whether there is one list, and it is empty.
fn is_one_empty(lists: &[Vec<Held>]) -> bool
    ensures { result ≡ spec_is_one_empty (map (λ v. v.items) lists.now) }
{
    match lists {
        [list] => list.is_empty(),
        _ => false,
    }
}

// The arguments of a macro without a variable one: where none is wanted, none stands there.
fn counted_plain(alloc: Global, count: usize, lists: Vec<Vec<Held>>) -> Option<Vec<Vec<Held>>>
    ensures { option_map (λ v. map (λ l. l.items) v.items) result ≡ spec_counted count false (map (λ v. v.items) lists.items) }
{
    if count == 0 {
        return is_one_empty(&lists).then_some(Vec::new(alloc));
    }
    (lists.len() == count).then_some(lists)
}

// Those of a macro with a variable one, which may be missing.
fn counted_variadic(
    alloc: Global,
    count: usize,
    mut lists: Vec<Vec<Held>>,
) -> Result<Option<Vec<Vec<Held>>>, OutOfMemory>
    ensures { IfOk result (λ args. option_map (λ v. map (λ l. l.items) v.items) args ≡ spec_counted count true (map (λ v. v.items) lists.items)) }
{
    if lists.len() > count && lists.len() - count == 1 {
        return Ok(Some(lists));
    }
    if lists.len() == count {
        lists.push(Vec::new(alloc))?;
        return Ok(Some(lists));
    }
    Ok(None)
}

/// The arguments of a call that has these lists, where their number is right (C11 6.10.3p4): a
/// macro without parameters takes none, and the variable argument may be missing.
pub fn counted(
    alloc: Global,
    count: usize,
    variadic: bool,
    lists: Vec<Vec<Held>>,
) -> Result<Option<Vec<Vec<Held>>>, OutOfMemory>
    ensures { IfOk result (λ args. option_map (λ v. map (λ l. l.items) v.items) args ≡ spec_counted count variadic (map (λ v. v.items) lists.items)) }
{
    if variadic {
        let args = counted_variadic(alloc, count, lists)?;
        Ok(args)
    } else {
        Ok(counted_plain(alloc, count, lists))
    }
}
