//! The items of a macro's body.
ghost use Rattle.std.specs.Prelude.{◌≡◌, ◌≤◌, bytes_eq, codes, ◌∷◌, [], IfOk, OnOk, length, List, map, if◌then◌else◌, ◌&&◌, ◌||◌, Some, None, Option, Bool, is_some, drop};
ghost use Rattle.std.specs.List.{All};
ghost use Rattle.cr_expand.specs.Parts.{IsItemNamed};
ghost use Rattle.cr_expand.specs.Items.{IsPairNamed, found_text, item_text, item_texts, with_text, Serves, IsTokenNamed, IsMacroKnown};
ghost use Rattle.cr_macros.specs.Substitution as spec;
ghost use Rattle.cr_macros.specs.Tokens.{Text, token_of, tokens_of, is_mark};
ghost use Rattle.cr_macros.specs.MacroTables.{macro_text};
ghost use Rattle.cr_base.specs.NameTable.{IsDistinct};

use crate::params::Params;
use cr_base::{NameTable, OutOfMemory, PpTok};
use cr_macros::{Macro, is_hash, is_mark, is_paste, text};
use std::alloc::Global;

/// An item of a body, with the number of its parameter (C11 6.10.3.1 to 6.10.3.3).
#[derive(Clone, Copy, Debug)]
pub enum Item {
    /// It stays.
    Stays(PpTok),
    /// `#` and a parameter.
    Spelt(PpTok, usize),
    /// A parameter beside `##`.
    Bare(PpTok, usize),
    /// Any other parameter.
    Full(PpTok, usize),
    /// `, ## __VA_ARGS__`.
    CommaRest(PpTok, PpTok, usize),
    /// `##`.
    Paste,
}

// An item, and how many more tokens it takes, by what stands there.
fn item_by(
    t: PpTok,
    paste: bool,
    beside: bool,
    spelt: Option<usize>,
    rest: Option<(PpTok, usize)>,
    own: Option<usize>,
) -> (Item, usize)
    ensures found { (names : List Text) → found_text names result ≡ spec.item_by (token_of names [] t) paste beside spelt (with_text names rest) own }
    ensures named { (names : List Text) → IsTokenNamed names t → IsPairNamed names rest → IsItemNamed names result.0 }
{
    if paste {
        return (Item::Paste, 0);
    }
    if let Some(n) = spelt {
        return (Item::Spelt(t, n), 1);
    }
    if let Some((v, n)) = rest {
        return (Item::CommaRest(t, v, n), 2);
    }
    match own {
        Some(n) => (beside_or_not(t, beside, n), 0),
        None => (Item::Stays(t), 0),
    }
}

fn beside_or_not(t: PpTok, beside: bool, n: usize) -> Item
    ensures text { (names : List Text) → item_text names result ≡ (if beside then spec.Bare (token_of names [] t) n else spec.Full (token_of names [] t) n) }
    ensures named { (names : List Text) → IsTokenNamed names t → IsItemNamed names result }
{
    if beside {
        Item::Bare(t, n)
    } else {
        Item::Full(t, n)
    }
}

fn next_is_paste(names: &NameTable, rest: &[PpTok]) -> bool
    ensures { result ≡ spec.next_is spec.is_paste (tokens_of names.now rest.now) }
{
    match rest {
        [] => false,
        [t, ..] => is_paste(names, *t),
    }
}

// The parameter that comes next, behind a `#`.
fn spelt(names: &NameTable, m: &Macro, params: &Params, t: PpTok, rest: &[PpTok]) -> Option<usize>
    requires serves { Serves names.now m.now params.now }
    requires known { All (IsTokenNamed names.now) rest.now }
    ensures { result ≡ spec.only_if (is_some m.now.params && spec.is_hash (token_of names.now [] t)) (spec.next_param (macro_text names.now m.now) (tokens_of names.now rest.now)) }
{
    if !m.params.is_some() || !is_hash(names, t) {
        return None;
    }
    match rest {
        [] => None,
        [next, ..] => params.number(names, *next),
    }
}

// Behind a comma: `##` and the variable parameter.
fn pasted_rest(
    names: &NameTable,
    m: &Macro,
    params: &Params,
    rest: &[PpTok],
) -> Option<(PpTok, usize)>
    requires serves { Serves names.now m.now params.now }
    requires known { All (IsTokenNamed names.now) rest.now }
    ensures rest { with_text names.now result ≡ spec.pasted_rest (macro_text names.now m.now) (tokens_of names.now rest.now) }
    ensures named { IsPairNamed names.now result }
{
    match rest {
        [paste, v, ..] if m.variadic && is_paste(names, *paste) && is_rest_text(names, *v) => {
            with_number(*v, params.number(names, *v))
        }
        _ => None,
    }
}

fn is_rest_text(names: &NameTable, t: PpTok) -> bool
    ensures { result ≡ bytes_eq (token_of names.now [] t).text (codes "__VA_ARGS__") }
{
    text(names, t.text) == b"__VA_ARGS__".as_slice()
}

fn with_number(t: PpTok, n: Option<usize>) -> Option<(PpTok, usize)>
    ensures text { (names : List Text) → with_text names result ≡ spec.with_token (token_of names [] t) n }
    ensures named { (names : List Text) → IsTokenNamed names t → IsPairNamed names result }
{
    match n {
        None => None,
        Some(n) => Some((t, n)),
    }
}

fn comma_rest(
    names: &NameTable,
    m: &Macro,
    params: &Params,
    t: PpTok,
    rest: &[PpTok],
) -> Option<(PpTok, usize)>
    requires serves { Serves names.now m.now params.now }
    requires known { All (IsTokenNamed names.now) rest.now }
    ensures named { IsPairNamed names.now result }
    ensures rest { with_text names.now result ≡ spec.only_if (is_mark (codes ",") (token_of names.now [] t)) (spec.pasted_rest (macro_text names.now m.now) (tokens_of names.now rest.now)) }
{
    if !is_mark(names, b",", t) {
        return None;
    }
    pasted_rest(names, m, params, rest)
}

fn is_beside(names: &NameTable, beside: bool, rest: &[PpTok]) -> bool
    ensures { result ≡ (beside || spec.next_is spec.is_paste (tokens_of names.now rest.now)) }
{
    beside || next_is_paste(names, rest)
}

// The item at a token; beside says that `##` is directly before.
fn item_at(
    names: &NameTable,
    m: &Macro,
    params: &Params,
    beside: bool,
    t: PpTok,
    rest: &[PpTok],
) -> (Item, usize)
    requires serves { Serves names.now m.now params.now }
    requires token { IsTokenNamed names.now t }
    requires known { All (IsTokenNamed names.now) rest.now }
    ensures named { IsItemNamed names.now result.0 }
    ensures found { found_text names.now result ≡ spec.item_at (macro_text names.now m.now) beside (token_of names.now [] t) (tokens_of names.now rest.now) }
{
    item_by(
        t,
        is_paste(names, t),
        is_beside(names, beside, rest),
        spelt(names, m, params, t, rest),
        comma_rest(names, m, params, t, rest),
        params.number(names, t),
    )
}

/// The items of a macro's body.
pub fn items(
    alloc: Global,
    names: &NameTable,
    m: &Macro,
    params: &Params,
) -> Result<Vec<Item>, OutOfMemory>
    requires serves { Serves names.now m.now params.now }
    requires known { IsMacroKnown names.now m.now }
    ensures count { IfOk result (λ items. length items.items ≤ length m.now.body) }
    ensures named { IfOk result (λ items. All (IsItemNamed names.now) items.items) }
    ensures items { IfOk result (λ items. item_texts names.now items.items ≡ spec.body_items (macro_text names.now m.now)) }
{
    let body = m.body.items();
    let mut items = Vec::new(alloc);
    let mut beside = false;
    let mut skip: usize = 0;
    for i in 0..body.len() {
        if skip > 0 {
            skip -= 1;
            beside = false;
            continue;
        }
        let (item, more) = item_at(names, m, params, beside, body[i], &body[i + 1..]);
        items.push(item)?;
        beside = is_paste(names, body[i]);
        skip = more;
    }
    Ok(items)
}
