//! The refusals that units decide.
ghost use Rattle.std.specs.Prelude.{◌≡◌, ◌++◌, ◌∷◌, IfOk, decimal};
ghost use Rattle.cr_class.specs.ShownOrder as shown;
ghost use Rattle.cr_goal.specs.Refusals.{IsRefusal};
ghost use Rattle.cr_survey.specs.Refusals as spec;
ghost use Rattle.cr_survey.specs.Running.{IsOfGrowth};

use cr_base::{IllCause, OutOfMemory, Place};
use cr_goal::{Refusal, Status, push_number, refusal_of};
use cr_growth::GrowFault;
use cr_snapshot::Snapshot;
use std::alloc::Global;

// The path of a place, or nothing where no path has its number.
fn path_of(snapshot: &Snapshot, place: Place) -> &[u8]
    ensures { result.now ≡ shown.path_of snapshot.now place }
{
    match snapshot.path_at(place.path) {
        Some(path) => path.bytes(),
        None => &[],
    }
}

/// A place as it is shown: the path of its file, a colon, and its offset in bytes from 0.
pub fn place_text(alloc: Global, snapshot: &Snapshot, place: Place) -> Result<Vec<u8>, OutOfMemory>
    ensures { IfOk result (λ v. v.items ≡ spec.place_text snapshot.now place) }
{
    let mut text = path_of(snapshot, place).to_vec(alloc)?;
    text.push(b':')?;
    push_number(alloc, &mut text, place.offset as usize)?;
    Ok(text)
}

fn cause_name(cause: IllCause) -> &'static [u8]
    ensures { result.now ≡ spec.cause_name cause }
{
    match cause {
        IllCause::MissingFile => b"MissingFile",
        IllCause::OpenComment => b"OpenComment",
        IllCause::Trigraph => b"Trigraph",
        IllCause::BadDirective => b"BadDirective",
        IllCause::ErrorDirective => b"ErrorDirective",
        IllCause::OpenIf => b"OpenIf",
        IllCause::StrayElse => b"StrayElse",
        IllCause::BadDefine => b"BadDefine",
        IllCause::ArgCount => b"ArgCount",
        IllCause::OpenCall => b"OpenCall",
        IllCause::BadPaste => b"BadPaste",
        IllCause::CondSyntax => b"CondSyntax",
        IllCause::DivideByZero => b"DivideByZero",
        IllCause::Overflow => b"Overflow",
        IllCause::CondConstant => b"CondConstant",
        IllCause::MadeDefined => b"MadeDefined",
        IllCause::BadToken => b"BadToken",
        IllCause::Syntax => b"Syntax",
        IllCause::BadSpecifiers => b"BadSpecifiers",
        IllCause::Redeclared => b"Redeclared",
        IllCause::Unresolved => b"Unresolved",
        IllCause::NoMember => b"NoMember",
        IllCause::NotRecord => b"NotRecord",
        IllCause::GenericType => b"GenericType",
        IllCause::Elision => b"Elision",
        IllCause::LimitTokens => b"tokens",
        IllCause::LimitMacros => b"macros",
        IllCause::LimitReading => b"reading",
        IllCause::LimitIncludes => b"includes",
        IllCause::LimitDepth => b"depth",
    }
}

// The number of a unit, with a space behind it, and what is said of it.
fn unit_text(alloc: Global, number: u32, what: &[u8]) -> Result<Vec<u8>, OutOfMemory>
    ensures { IfOk result (λ v. v.items ≡ decimal number ++ 32 ∷ what.now) }
{
    let mut text = Vec::new(alloc);
    push_number(alloc, &mut text, number as usize)?;
    text.push(b' ')?;
    text.extend_from_slice(what)?;
    Ok(text)
}

fn over_limit(alloc: Global, number: u32, what: &[u8]) -> Refusal
    ensures { IsRefusal (spec.over_limit number what.now).status (spec.over_limit number what.now).text result }
{
    match unit_text(alloc, number, what) {
        Ok(text) => refusal_of(alloc, Status::Limit, b"limit: unit ", &text),
        Err(OutOfMemory) => Refusal::OutOfMemory,
    }
}

fn ill_text(alloc: Global, number: u32, place: &[u8], why: &[u8]) -> Result<Vec<u8>, OutOfMemory>
    ensures { IfOk result (λ v. v.items ≡ decimal number ++ 32 ∷ place.now ++ 32 ∷ why.now) }
{
    let mut text = unit_text(alloc, number, place)?;
    text.push(b' ')?;
    text.extend_from_slice(why)?;
    Ok(text)
}

fn ill_formed_text(
    alloc: Global,
    snapshot: &Snapshot,
    number: u32,
    place: Place,
    why: &[u8],
) -> Result<Vec<u8>, OutOfMemory>
    ensures { IfOk result (λ v. v.items ≡ decimal number ++ 32 ∷ spec.place_text snapshot.now place ++ 32 ∷ why.now) }
{
    let place = place_text(alloc, snapshot, place)?;
    ill_text(alloc, number, &place, why)
}

fn ill_formed(alloc: Global, snapshot: &Snapshot, number: u32, place: Place, why: &[u8]) -> Refusal
    ensures { IsRefusal (spec.ill_formed number (spec.place_text snapshot.now place) why.now).status (spec.ill_formed number (spec.place_text snapshot.now place) why.now).text result }
{
    match ill_formed_text(alloc, snapshot, number, place, why) {
        Ok(text) => refusal_of(alloc, Status::IllFormed, b"ill-formed: unit ", &text),
        Err(OutOfMemory) => Refusal::OutOfMemory,
    }
}

/// The refusal of a unit that is ill-formed for a cause, or over a limit.
pub fn bad_unit(
    alloc: Global,
    snapshot: &Snapshot,
    number: u32,
    cause: IllCause,
    place: Place,
) -> Refusal
    ensures { IsRefusal (spec.bad_unit snapshot.now number place cause).status (spec.bad_unit snapshot.now number place cause).text result }
{
    let what = cause_name(cause);
    match cause {
        IllCause::LimitTokens
        | IllCause::LimitMacros
        | IllCause::LimitReading
        | IllCause::LimitIncludes
        | IllCause::LimitDepth => over_limit(alloc, number, what),
        _ => ill_formed(alloc, snapshot, number, place, what),
    }
}

/// The refusal where no more files are made known.
pub fn of_growth(alloc: Global, fault: GrowFault) -> Refusal
    ensures { IsOfGrowth fault result }
{
    match fault {
        GrowFault::LimitFiles => refusal_of(alloc, Status::Limit, b"limit: ", b"files"),
        GrowFault::ReadFault(path) => Refusal::ReadFault(path),
        GrowFault::OutOfMemory => Refusal::OutOfMemory,
    }
}
