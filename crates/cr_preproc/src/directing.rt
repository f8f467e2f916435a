//! Directives that aren't conditional (C11 6.10.2 to 6.10.7).
ghost use Rattle.std.specs.Prelude.{◌≡◌, ◌≤◌, [], IfOk, OnOk, length, drop, List as ListOf};
ghost use Rattle.cr_base.specs.declared.cause.Role.TheVariants as role;
ghost use Rattle.cr_base.specs.declared.token.Place.{Place as ThePlace};
ghost use Rattle.cr_base.specs.declared.unit.Unit.{Unit as TheUnit};
ghost use Rattle.cr_macros.specs.Definition.{IsFirstPlaced};
ghost use Rattle.cr_macros.specs.Tokens.{Text, Token, token_of, tokens_of};
ghost use Rattle.cr_phase4.specs.Directives as spec;
ghost use Rattle.cr_phase4.specs.Search.{World};
ghost use Rattle.cr_preproc.specs.Leading.{IsDirected, includes_given};
ghost use Rattle.cr_preproc.specs.Falling.{IsUnexpanded};
ghost use Rattle.cr_preproc.specs.Progressing.{IsProgress};
ghost use Rattle.cr_preproc.specs.Seen.{AreNamed, IsNamed};
ghost use Rattle.cr_phase4.specs.Tasks.{◌>>>◌, tell, marks};
ghost use Rattle.cr_preproc.specs.Words.{by_order};
ghost use Rattle.cr_preproc.specs.declared.directing.Directed.TheVariants as directed;
ghost use Rattle.cr_preproc.specs.declared.directive.Order.TheVariants as order;

use crate::directive::{Order, asked_by, is_once};
use crate::expansion::Fault;
use crate::header::{Header, header_name};
use crate::progress::Progress;
use cr_base::{IllCause, OutOfMemory, PathText, Place, PpTok, Role};
use cr_macros::text;
use std::alloc::Global;

// What a directive leads to.
#[derive(Drop)]
pub enum Directed {
    // It is carried out.
    Goes,
    // The unit ends so.
    Fails(Fault),
    // The list of an include is expanded.
    Expands,
    // A file of this name is looked for, for an include at this place.
    Looks(Header, Place),
}

// The site of the first token.
pub fn site_of(hash: Place, tokens: &[PpTok]) -> Place
    ensures { (names : ListOf Text) → result ≡ spec.site_of hash (tokens_of names tokens.now) }
{
    match tokens {
        [] => hash,
        [first, ..] => first.site,
    }
}

fn fails(cause: IllCause, place: Place) -> Directed
    ensures { result ≡ directed.Fails (record { cause = cause; place = place }) }
{
    Directed::Fails(Fault { cause, place })
}

fn define(
    progress: &mut Progress,
    line: &[PpTok],
    hash: Place,
    rest: &[PpTok],
) -> Result<Directed, OutOfMemory>
    requires good { IsProgress progress.old }
    requires words { 2 ≤ length line.now }
    requires size { length line.now ≤ 33554432 }
    requires placed { IsFirstPlaced line.now }
    requires line { AreNamed progress.old.names line.now }
    requires rest { rest.now ≡ drop 2 line.now }
    ensures directed { (w : World) (u : TheUnit) (enter : spec.Opening) (path : Text) → IfOk result (λ d. IsDirected w u enter path hash (tokens_of progress.old.names rest.now) progress.old progress.new (by_order w u enter path hash (tokens_of progress.old.names rest.now) order.Define) d) }
    ensures names { progress.new.names ≡ progress.old.names }
    ensures good { OnOk result (IsProgress progress.new) }
    ensures reading { OnOk result (progress.new.reading ≡ progress.old.reading) }
{
    if progress.define(line)? {
        Ok(Directed::Goes)
    } else {
        Ok(fails(IllCause::BadDefine, hash))
    }
}

fn undefine(progress: &mut Progress, hash: Place, rest: &[PpTok]) -> Result<Directed, OutOfMemory>
    requires good { IsProgress progress.old }
    requires rest { AreNamed progress.old.names rest.now }
    ensures directed { (w : World) (u : TheUnit) (enter : spec.Opening) (path : Text) → IfOk result (λ d. IsDirected w u enter path hash (tokens_of progress.old.names rest.now) progress.old progress.new (by_order w u enter path hash (tokens_of progress.old.names rest.now) order.Undef) d) }
    ensures names { progress.new.names ≡ progress.old.names }
    ensures good { OnOk result (IsProgress progress.new) }
    ensures reading { OnOk result (progress.new.reading ≡ progress.old.reading) }
{
    if progress.undefine(rest)? {
        Ok(Directed::Goes)
    } else {
        Ok(fails(IllCause::BadDefine, hash))
    }
}

fn include(
    alloc: Global,
    progress: &mut Progress,
    hash: Place,
    rest: &[PpTok],
) -> Result<Directed, OutOfMemory>
    requires good { IsProgress progress.old }
    ensures directed { (w : World) (u : TheUnit) (enter : spec.Opening) (path : Text) → IfOk result (λ d. IsDirected w u enter path hash (tokens_of progress.old.names rest.now) progress.old progress.new (by_order w u enter path hash (tokens_of progress.old.names rest.now) order.Include) d) }
    ensures names { progress.new.names ≡ progress.old.names }
    ensures good { OnOk result (IsProgress progress.new) }
    ensures reading { OnOk result (progress.new.reading ≡ progress.old.reading) }
{
    progress.note_all(Role::Directive, rest)?;
    match header_name(alloc, &progress.names, rest)? {
        None => Ok(Directed::Expands),
        Some(header) => Ok(Directed::Looks(header, site_of(hash, rest))),
    }
}

// An include whose list was expanded.
pub fn include_given(
    alloc: Global,
    progress: &mut Progress,
    hash: Place,
    given: &[PpTok],
) -> Result<Directed, OutOfMemory>
    requires good { IsProgress progress.old }
    ensures directed { (w : World) (u : TheUnit) (enter : spec.Opening) (path : Text) (ts : ListOf Token) → IfOk result (λ d. IsDirected w u enter path hash ts progress.old progress.new (includes_given w u enter path hash (tokens_of progress.old.names given.now)) d) }
    ensures names { progress.new.names ≡ progress.old.names }
    ensures good { OnOk result (IsProgress progress.new) }
    ensures reading { OnOk result (progress.new.reading ≡ progress.old.reading) }
    ensures unexpanded { IfOk result (λ d. IsUnexpanded d) }
{
    progress.note_all(Role::Directive, given)?;
    match header_name(alloc, &progress.names, given)? {
        None => Ok(fails(IllCause::BadDirective, hash)),
        Some(header) => Ok(Directed::Looks(header, site_of(hash, given))),
    }
}

fn pragma(progress: &mut Progress, path: &PathText, rest: &[PpTok]) -> Result<Directed, OutOfMemory>
    requires good { IsProgress progress.old }
    ensures directed { (w : World) (u : TheUnit) (enter : spec.Opening) (hash : ThePlace) → IfOk result (λ d. IsDirected w u enter path.now hash (tokens_of progress.old.names rest.now) progress.old progress.new (by_order w u enter path.now hash (tokens_of progress.old.names rest.now) order.Pragma) d) }
    ensures names { progress.new.names ≡ progress.old.names }
    ensures good { OnOk result (IsProgress progress.new) }
    ensures reading { OnOk result (progress.new.reading ≡ progress.old.reading) }
{
    if is_once(&progress.names, rest) {
        progress.add_once(path.bytes())?;
        Ok(Directed::Goes)
    } else {
        progress.note_opaque(rest)?;
        Ok(Directed::Goes)
    }
}

// A directive that has no effect but that its tokens are seen.
fn named(progress: &mut Progress, rest: &[PpTok]) -> Result<Directed, OutOfMemory>
    requires good { IsProgress progress.old }
    ensures directed { (w : World) (u : TheUnit) (enter : spec.Opening) (path : Text) (hash : ThePlace) → IfOk result (λ d. IsDirected w u enter path hash (tokens_of progress.old.names rest.now) progress.old progress.new (by_order w u enter path hash (tokens_of progress.old.names rest.now) order.Named) d) }
    ensures names { progress.new.names ≡ progress.old.names }
    ensures good { OnOk result (IsProgress progress.new) }
    ensures reading { OnOk result (progress.new.reading ≡ progress.old.reading) }
{
    progress.note_all(Role::Directive, rest)?;
    Ok(Directed::Goes)
}

fn error(progress: &mut Progress, hash: Place, rest: &[PpTok]) -> Result<Directed, OutOfMemory>
    requires good { IsProgress progress.old }
    ensures directed { (w : World) (u : TheUnit) (enter : spec.Opening) (path : Text) → IfOk result (λ d. IsDirected w u enter path hash (tokens_of progress.old.names rest.now) progress.old progress.new (by_order w u enter path hash (tokens_of progress.old.names rest.now) order.Error) d) }
    ensures names { progress.new.names ≡ progress.old.names }
    ensures good { OnOk result (IsProgress progress.new) }
    ensures reading { OnOk result (progress.new.reading ≡ progress.old.reading) }
{
    progress.note_all(Role::Directive, rest)?;
    Ok(fails(IllCause::ErrorDirective, hash))
}

// A directive by what its word asks for.
fn carry_out(
    alloc: Global,
    progress: &mut Progress,
    path: &PathText,
    line: &[PpTok],
    hash: Place,
    asked: Order,
    rest: &[PpTok],
) -> Result<Directed, OutOfMemory>
    requires good { IsProgress progress.old }
    requires words { 2 ≤ length line.now }
    requires size { length line.now ≤ 33554432 }
    requires placed { IsFirstPlaced line.now }
    requires line { AreNamed progress.old.names line.now }
    requires rest { rest.now ≡ drop 2 line.now }
    requires named { AreNamed progress.old.names rest.now }
    ensures directed { (w : World) (u : TheUnit) (enter : spec.Opening) → IfOk result (λ d. IsDirected w u enter path.now hash (tokens_of progress.old.names rest.now) progress.old progress.new (by_order w u enter path.now hash (tokens_of progress.old.names rest.now) asked) d) }
    ensures names { progress.new.names ≡ progress.old.names }
    ensures good { OnOk result (IsProgress progress.new) }
    ensures reading { OnOk result (progress.new.reading ≡ progress.old.reading) }
{
    match asked {
        Order::Define => {
            let directed = define(progress, line, hash, rest)?;
            Ok(directed)
        }
        Order::Undef => {
            let directed = undefine(progress, hash, rest)?;
            Ok(directed)
        }
        Order::Include => {
            let directed = include(alloc, progress, hash, rest)?;
            Ok(directed)
        }
        Order::Pragma => {
            let directed = pragma(progress, path, rest)?;
            Ok(directed)
        }
        Order::Named => {
            let directed = named(progress, rest)?;
            Ok(directed)
        }
        Order::Nothing => Ok(Directed::Goes),
        Order::Error => {
            let directed = error(progress, hash, rest)?;
            Ok(directed)
        }
        Order::Unknown => Ok(fails(IllCause::BadDirective, hash)),
    }
}

// A directive by its word: the line that it is, from its `#` on, and what stands behind the word.
pub fn direct(
    alloc: Global,
    progress: &mut Progress,
    path: &PathText,
    line: &[PpTok],
    hash: Place,
    word: PpTok,
    rest: &[PpTok],
) -> Result<Directed, OutOfMemory>
    requires good { IsProgress progress.old }
    requires words { 2 ≤ length line.now }
    requires size { length line.now ≤ 33554432 }
    requires placed { IsFirstPlaced line.now }
    requires line { AreNamed progress.old.names line.now }
    requires rest { rest.now ≡ drop 2 line.now }
    requires word { IsNamed progress.old.names word }
    ensures directed { (w : World) (u : TheUnit) (enter : spec.Opening) → IfOk result (λ d. IsDirected w u enter path.now hash (tokens_of progress.old.names rest.now) progress.old progress.new
        (tell (marks role.Directive (token_of progress.old.names [] word)) >>> λ n. spec.directive w u enter path.now hash (token_of progress.old.names [] word).text (tokens_of progress.old.names rest.now)) d) }
    ensures names { progress.new.names ≡ progress.old.names }
    ensures good { OnOk result (IsProgress progress.new) }
    ensures reading { OnOk result (progress.new.reading ≡ progress.old.reading) }
{
    progress.note(Role::Directive, word)?;
    let asked = asked_by(text(&progress.names, word.text));
    let directed = carry_out(alloc, progress, path, line, hash, asked, rest)?;
    Ok(directed)
}
