//! How a unit ends.
ghost use Rattle.std.specs.Prelude.{◌≡◌, ◌≤◌, ◌<◌, ◌^◌, List, length, IfOk};
ghost use Rattle.cr_ll.specs.Derivation.{Trees};
ghost use Rattle.cr_snapshot.specs.declared.known.KnownFile.{KnownFile};
ghost use Rattle.cr_preproc.specs.Seen.{AreNamed};
ghost use Rattle.cr_binding.specs.WellFormed.{IsWellFormed};
ghost use Rattle.cr_unit.specs.Converting.{end_place};
ghost use Rattle.cr_bound_facts.specs.Bound.{HaveTexts};
ghost use Rattle.cr_reading.specs.Reading.{IsBound};
ghost use Rattle.cr_unit_end.specs.UnitEnds.{source, AreFacts, IsTokensEnd, IsBehind, IsUnitEnd};

use cr_base::{IllCause, OutOfMemory, PathText, Place, Unit};
use cr_bound_facts::facts_of_bound;
use cr_facts::FactSet;
use cr_groups::Names;
use cr_preproc::Trace;
use cr_reading::{Read, read_tokens};
use cr_sema::Sema;
use cr_snapshot::Snapshot;
use cr_trace_facts::add_trace;
use cr_unit::{Converted, Preprocessed, UnitTokens, Whole, convert, place_behind, preprocess};
use std::alloc::Global;

/// How a unit ends over the files that are known.
#[derive(Drop)]
pub enum UnitEnd {
    /// It is well-formed, and tells these facts.
    Facts(FactSet),
    /// Files are wanted of which nothing is known.
    Wants(Vec<PathText>),
    /// It is ill-formed, or over a limit, and where.
    Ill(IllCause, Place),
}

// What a trace and what is bound tell.
fn facts_of(
    alloc: Global,
    number: u32,
    trace: &Trace,
    tokens: &UnitTokens,
    sema: &Sema,
) -> Result<FactSet, OutOfMemory>
    requires texts { HaveTexts tokens.now.names tokens.now.tokens.items }
    requires bound { IsBound (source tokens.now) sema.now }
    ensures { IfOk result (λ facts. (tree : Trees) → IsWellFormed (source tokens.now) tree
        → AreFacts number trace.now tokens.now tree facts) }
{
    let names = Names {
        old: tokens.old,
        new: tokens.new,
    };
    let mut facts = facts_of_bound(
        alloc,
        number,
        &tokens.tokens,
        &tokens.names,
        sema.bound(),
        names,
    )?;
    add_trace(
        &mut facts,
        &trace.seen,
        &trace.new_macros,
        &trace.body_params,
        &trace.opaque,
    )?;
    Ok(facts)
}

// How tokens end.
fn end_of_tokens(
    alloc: Global,
    number: u32,
    trace: &Trace,
    tokens: &UnitTokens,
) -> Result<UnitEnd, OutOfMemory>
    requires short { length tokens.now.tokens.items ≤ 2 ^ 25 }
    requires texts { HaveTexts tokens.now.names tokens.now.tokens.items }
    ensures { IfOk result (IsTokensEnd number trace.now tokens.now) }
{
    match read_tokens(alloc, &tokens.tokens, &tokens.names)? {
        Read::WellFormed(sema) => {
            let facts = facts_of(alloc, number, trace, tokens, &sema)?;
            Ok(UnitEnd::Facts(facts))
        }
        Read::Ill(cause, place) => Ok(UnitEnd::Ill(cause, place)),
    }
}

// How a unit ends that was preprocessed whole.
fn end_of_whole(
    alloc: Global,
    unit: &Unit,
    end: Place,
    whole: Whole,
    old: &[u8],
    new: &[u8],
) -> Result<UnitEnd, OutOfMemory>
    requires room { length whole.names < 2 ^ 31 }
    requires named { AreNamed whole.names whole.tokens.items }
    requires within { length whole.tokens.items ≤ 1048576 }
    ensures { (files : List KnownFile) → end ≡ end_place files unit.now.main
        → IfOk result (IsBehind files unit.now old.now new.now whole) }
{
    let Whole {
        names,
        tokens,
        trace,
    } = whole;
    match convert(alloc, names, &tokens, end, old, new)? {
        Converted::Tokens(made) => {
            let ended = end_of_tokens(alloc, unit.number, &trace, &made)?;
            Ok(ended)
        }
        Converted::BadToken(place) => Ok(UnitEnd::Ill(IllCause::BadToken, place)),
    }
}

/// Reads a unit over the files that a snapshot knows: its preprocessing (C11 5.1.1.2, phases 1 to 4), its tokens (phases 5 to
/// 7), their tree and what their identifiers mean (6.4 to 6.9), up to its facts for the renaming of one name to another, to
/// files that it wants, or to the first cause for which it is ill-formed.
pub fn end_of_unit(
    alloc: Global,
    unit: &Unit,
    snapshot: &Snapshot,
    old: &[u8],
    new: &[u8],
) -> Result<UnitEnd, OutOfMemory>
    ensures { IfOk result (IsUnitEnd snapshot.now unit.now old.now new.now) }
{
    match preprocess(alloc, unit, snapshot, old, new)? {
        Preprocessed::Whole(whole) => {
            let end = place_behind(snapshot, &unit.main);
            let end = end_of_whole(alloc, unit, end, whole, old, new)?;
            Ok(end)
        }
        Preprocessed::Wants(paths) => Ok(UnitEnd::Wants(paths)),
        Preprocessed::Ill(cause, place) => Ok(UnitEnd::Ill(cause, place)),
    }
}
