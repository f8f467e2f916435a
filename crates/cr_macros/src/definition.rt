//! What a `define` line defines.
ghost use Rattle.std.specs.Prelude.{◌≡◌, ◌≤◌, ◌<◌, ◌+◌, take, IfSome, ◌&&◌, ◌||◌, not, ◌∷◌, [], Some, None, true, codes, IfOk, OnOk, option_map, false, length, drop, position, fold, if◌then◌else◌};
ghost use Rattle.std.specs.List.{list_any};
ghost use Rattle.cr_macros.specs.Definition as spec;
ghost use Rattle.cr_macros.specs.declared.definition.ParamList.{ParamList as TheParamList};

use crate::macros::Macro;
use crate::words::{is_hash, is_ident, is_macro_name, is_mark, is_paste, is_rest};
use cr_base::{List, Name, NameTable, OutOfMemory, PpTok};
use indexmap::IndexSet;
use std::alloc::Global;

// The parameters, and whether `...` stands behind them.
#[derive(Drop)]
pub struct ParamList {
    names: IndexSet<Name>,
    variadic: bool,
}

// Puts the one token of a piece behind the parameters; false: it is wrong there.
fn put_token(names: &NameTable, params: &mut ParamList, t: PpTok) -> Result<bool, OutOfMemory>
    requires { params.old.variadic ≡ false }
    ensures { IfOk result (λ good. (if good then Some (params.new.names.keys, params.new.variadic) else None) ≡ spec.with_token names.now params.old.names.keys t) }
{
    if is_mark(names, b"...", t) {
        params.variadic = true;
        return Ok(true);
    }
    if !is_ident(t.kind) || is_rest(names, t) {
        return Ok(false);
    }
    let (_, new) = params.names.insert_full(t.text)?;
    Ok(new)
}

// Puts a piece between two commas behind the parameters.
fn put_piece(
    names: &NameTable,
    params: &mut ParamList,
    piece: &[PpTok],
) -> Result<bool, OutOfMemory>
    ensures { IfOk result (λ good. (if good then Some (params.new.names.keys, params.new.variadic) else None) ≡ spec.after_piece names.now piece.now (Some (params.old.names.keys, params.old.variadic))) }
{
    if params.variadic {
        return Ok(false);
    }
    match piece {
        [t] => {
            let good = put_token(names, params, *t)?;
            Ok(good)
        }
        _ => Ok(false),
    }
}

fn only_if(good: bool, list: ParamList) -> Option<ParamList>
    ensures { result ≡ (if good then Some list else None) }
{
    if good { Some(list) } else { None }
}

// The parameters of a function-like macro, or none where they are wrong.
fn params(
    alloc: Global,
    names: &NameTable,
    inside: &[PpTok],
) -> Result<Option<ParamList>, OutOfMemory>
    ensures { IfOk result (λ found. option_map (λ p. (p.names.keys, p.variadic)) found ≡ spec.params_of names.now inside.now) }
{
    let mut list = ParamList {
        names: IndexSet::new(alloc),
        variadic: false,
    };
    if inside.is_empty() {
        return Ok(Some(list));
    }
    let mut good = true;
    for piece in inside.split(|t| is_mark(names, b",", *t)) {
        if good {
            good = put_piece(names, &mut list, piece)?;
        }
    }
    Ok(only_if(good, list))
}

fn has_pastes_inside(names: &NameTable, body: &[PpTok]) -> bool
    ensures { result ≡ spec.has_pastes_inside names.now body.now }
{
    match body {
        [] => true,
        [.., last] => !is_paste(names, body[0]) && !is_paste(names, *last),
    }
}

// Whether a token names a parameter.
fn is_param(names: &NameTable, list: &ParamList, t: PpTok) -> bool
    ensures { result ≡ spec.is_param names.now list.now.names.keys list.now.variadic t }
{
    is_ident(t.kind) && (list.names.contains(&t.text) || (list.variadic && is_rest(names, t)))
}

fn param_is_next(names: &NameTable, list: &ParamList, rest: &[PpTok]) -> bool
    ensures { result ≡ spec.param_is_next names.now list.now.names.keys list.now.variadic rest.now }
{
    match rest {
        [] => false,
        [t, ..] => is_param(names, list, *t),
    }
}

// Whether each `#` is before a parameter.
fn has_params_behind_hashes(names: &NameTable, list: &ParamList, body: &[PpTok]) -> bool
    ensures { result ≡ spec.has_params_behind_hashes names.now list.now.names.keys list.now.variadic body.now }
{
    for i in 0..body.len() {
        if is_hash(names, body[i]) && !param_is_next(names, list, &body[i + 1..]) {
            return false;
        }
    }
    true
}

fn has_rest(names: &NameTable, body: &[PpTok]) -> bool
    ensures { result ≡ list_any (spec.is_rest names.now) body.now }
{
    body.iter().any(|t| is_rest(names, *t))
}

fn object_like(
    alloc: Global,
    names: &NameTable,
    name: Name,
    body: &[PpTok],
) -> Result<Option<Macro>, OutOfMemory>
    ensures { IfOk result (λ m. m ≡ spec.if_good names.now (Some (spec.object_like name body.now))) }
{
    if !has_pastes_inside(names, body) || has_rest(names, body) {
        return Ok(None);
    }
    let body = List::of(body.to_vec(alloc)?);
    Ok(Some(Macro {
        name,
        params: None,
        variadic: false,
        body,
    }))
}

fn is_good_body(names: &NameTable, list: &ParamList, body: &[PpTok]) -> bool
    ensures { result ≡ (spec.has_pastes_inside names.now body.now && (spec.has_params_behind_hashes names.now list.now.names.keys list.now.variadic body.now && (list.now.variadic || not (list_any (spec.is_rest names.now) body.now)))) }
{
    has_pastes_inside(names, body)
        && has_params_behind_hashes(names, list, body)
        && (list.variadic || !has_rest(names, body))
}

fn with_params(
    alloc: Global,
    names: &NameTable,
    name: Name,
    list: ParamList,
    body: &[PpTok],
) -> Result<Option<Macro>, OutOfMemory>
    ensures { IfOk result (λ m. m ≡ spec.if_good names.now (spec.function_like name body.now (Some (list.names.keys, list.variadic)))) }
{
    if !is_good_body(names, &list, body) {
        return Ok(None);
    }
    let params: Vec<Name> = list.names.iter().copied().collect(alloc)?;
    let body = List::of(body.to_vec(alloc)?);
    Ok(Some(Macro {
        name,
        params: Some(List::of(params)),
        variadic: list.variadic,
        body,
    }))
}

// The place of the first `)`.
fn close_of(names: &NameTable, rest: &[PpTok]) -> Option<usize>
    ensures place { result ≡ position (spec.is_mark names.now (codes ")")) rest.now }
    ensures within { IfSome result (λ i. i < length rest.now) }
{
    rest.iter().position(|t| is_mark(names, b")", *t))
}

// The macro whose parameters are the tokens up to a place, where `)` stands.
fn with_params_up_to(
    alloc: Global,
    names: &NameTable,
    name: Name,
    rest: &[PpTok],
    close: usize,
) -> Result<Option<Macro>, OutOfMemory>
    requires { close < length rest.now }
    ensures { IfOk result (λ m. m ≡ spec.if_good names.now (spec.function_like name (drop (close + 1) rest.now) (spec.params_of names.now (take close rest.now)))) }
{
    match params(alloc, names, &rest[..close])? {
        None => Ok(None),
        Some(list) => {
            let made = with_params(alloc, names, name, list, &rest[close + 1..])?;
            Ok(made)
        }
    }
}

// The macro whose name and `(` stand before this rest.
fn function_like(
    alloc: Global,
    names: &NameTable,
    name: Name,
    rest: &[PpTok],
) -> Result<Option<Macro>, OutOfMemory>
    ensures { IfOk result (λ m. m ≡ spec.if_good names.now (spec.with_params names.now name rest.now (position (spec.is_mark names.now (codes ")")) rest.now))) }
{
    match close_of(names, rest) {
        None => Ok(None),
        Some(close) => {
            let made = with_params_up_to(alloc, names, name, rest, close)?;
            Ok(made)
        }
    }
}

// The macro whose name stands before this rest.
fn behind_name(
    alloc: Global,
    names: &NameTable,
    name: Name,
    rest: &[PpTok],
) -> Result<Option<Macro>, OutOfMemory>
    ensures { IfOk result (λ m. m ≡ spec.if_good names.now (spec.macro_of names.now name rest.now)) }
{
    match rest {
        [t, inside @ ..] if is_mark(names, b"(", *t) && !t.space => {
            let made = function_like(alloc, names, name, inside)?;
            Ok(made)
        }
        _ => {
            let made = object_like(alloc, names, name, rest)?;
            Ok(made)
        }
    }
}

/// What a `define` line defines, from its `#` on, or nothing where it is wrong.
pub fn definition(
    alloc: Global,
    names: &NameTable,
    line: &[PpTok],
) -> Result<Option<Macro>, OutOfMemory>
    requires { 2 ≤ length line.now }
    ensures { IfOk result (λ m. m ≡ spec.definition names.now line.now) }
{
    match &line[2..] {
        [t, rest @ ..] if is_macro_name(names, *t) => {
            let made = behind_name(alloc, names, t.text, rest)?;
            Ok(made)
        }
        _ => Ok(None),
    }
}
