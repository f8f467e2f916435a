//! A body with its items filled in.
ghost use Rattle.std.specs.Prelude.{◌≡◌, ◌++◌, ◌∷◌, [], OnOk, map, slice_index_or};
ghost use Rattle.cr_expand.specs.Parts.{parts_here, spaced, or_placemarker_here, comma_and_here, unhidden, filled_here, arg_here};
ghost use Rattle.cr_expand.specs.declared.items.Item.TheVariants as item_of;

use crate::held::Held;
use crate::hide_sets::HideSet;
use crate::items::Item;
use cr_base::{OutOfMemory, PpTok};

/// What stands in a body once its items are replaced (C11 6.10.3.3).
#[derive(Clone, Copy, Debug)]
pub enum Part {
    Is(Held),
    Placemarker,
    Joins,
}

pub fn unhidden(token: PpTok) -> Held
    ensures { result ≡ unhidden token }
{
    Held {
        token,
        hide: HideSet(0),
    }
}

// A token with white space before it, or none.
fn with_space(h: Held, space: bool) -> Held
    ensures { spaced space (h ∷ []) ≡ result ∷ [] }
{
    let mut token = h.token;
    token.space = space;
    Held {
        token,
        hide: h.hide,
    }
}

fn put_plain(parts: &mut Vec<Part>, tokens: &[Held]) -> Result<(), OutOfMemory>
    ensures { OnOk result (parts.new.items ≡ parts.old.items ++ parts_here tokens.now) }
{
    for i in 0..tokens.len() {
        parts.push(Part::Is(tokens[i]))?;
    }
    Ok(())
}

fn put_tokens(parts: &mut Vec<Part>, tokens: &[Held], space: bool) -> Result<(), OutOfMemory>
    ensures { OnOk result (parts.new.items ≡ parts.old.items ++ parts_here (spaced space tokens.now)) }
{
    match tokens {
        [] => Ok(()),
        [first, rest @ ..] => {
            parts.push(Part::Is(with_space(*first, space)))?;
            put_plain(parts, rest)?;
            Ok(())
        }
    }
}

fn put_or_placemarker(
    parts: &mut Vec<Part>,
    tokens: &[Held],
    space: bool,
) -> Result<(), OutOfMemory>
    ensures { OnOk result (parts.new.items ≡ parts.old.items ++ or_placemarker_here (spaced space tokens.now)) }
{
    if tokens.is_empty() {
        parts.push(Part::Placemarker)?;
        return Ok(());
    }
    put_tokens(parts, tokens, space)?;
    Ok(())
}

// The comma and the variable argument, or a placemarker where that is empty.
fn put_comma_rest(
    parts: &mut Vec<Part>,
    comma: PpTok,
    raw: &[Held],
    full: &[Held],
    space: bool,
) -> Result<(), OutOfMemory>
    ensures { OnOk result (parts.new.items ≡ parts.old.items ++ comma_and_here (unhidden comma) (or_placemarker_here (spaced space full.now)) raw.now) }
{
    if raw.is_empty() {
        parts.push(Part::Placemarker)?;
        return Ok(());
    }
    parts.push(Part::Is(unhidden(comma)))?;
    put_or_placemarker(parts, full, space)?;
    Ok(())
}

/// An argument by its number; one that isn't there is empty.
pub fn arg(args: &[Vec<Held>], n: usize) -> &[Held]
    ensures { result.now ≡ arg_here (map (λ v. v.items) args.now) n }
{
    match args.get(n) {
        Some(arg) => arg,
        None => &[],
    }
}

/// Puts an item behind the parts, with its string where it is one.
pub fn put_item(
    parts: &mut Vec<Part>,
    raw: &[Vec<Held>],
    full: &[Vec<Held>],
    made: Held,
    item: Item,
) -> Result<(), OutOfMemory>
    ensures { OnOk result (parts.new.items ≡ parts.old.items ++ filled_here (map (λ v. v.items) raw.now) (map (λ v. v.items) full.now) made item) }
{
    match item {
        Item::Stays(t) => parts.push(Part::Is(unhidden(t)))?,
        Item::Spelt(_, _) => parts.push(Part::Is(made))?,
        Item::Bare(t, n) => put_or_placemarker(parts, arg(raw, n), t.space)?,
        Item::Full(t, n) => put_tokens(parts, arg(full, n), t.space)?,
        Item::CommaRest(comma, t, n) => {
            put_comma_rest(parts, comma, arg(raw, n), arg(full, n), t.space)?
        }
        Item::Paste => parts.push(Part::Joins)?,
    }
    Ok(())
}
