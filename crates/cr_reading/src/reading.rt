//! The tokens of a unit, read by the grammar's machine and bound.
ghost use Rattle.std.specs.Prelude.{◌≡◌, ◌≤◌, ◌+◌, ◌^◌, IfOk, None, List, length};
ghost use Rattle.cr_ll.specs.Derivation.{Item};
ghost use Rattle.cr_binding.specs.Source.{Source, token_of};
ghost use Rattle.cr_names.specs.Names.{HasTokens};
ghost use Rattle.cr_sema.specs.Walking.{IsNext};
ghost use Rattle.cr_sema.specs.Sema.{source_of, HasCome, MayCome, IsNoAsk};
ghost use Rattle.cr_reading.specs.Reading.{IsRead};
ghost use Rattle.cr_reading.specs.Loops.{Reads, LeadsOn, IsEnded, ill_of, IsBoundOrIll};

use cr_base::{IllCause, NameTable, OutOfMemory, PathNo, Place, Tok};
use cr_ll::{Event, Machine, MachineFault};
use cr_ll_law::events_fall;
use cr_sema::{Sema, SemaFault};
use std::alloc::Global;

/// What reading a unit's tokens comes to.
#[derive(Drop)]
pub enum Read {
    /// The unit is well-formed, and this is its binding.
    WellFormed(Sema),
    /// It is ill-formed, or over the limit of depth, and where.
    Ill(IllCause, Place),
}

// How the tokens of a unit end.
#[derive(Clone, Copy)]
enum Ended {
    WellFormed,
    Ill(IllCause, Place),
}

const NO_PLACE: Place = Place {
    path: PathNo(0),
    offset: 0,
};

// The place of a token.
fn site_of(tokens: &[Tok], i: u32) -> Place
    ensures { (t : Source) → HasTokens tokens.now t → result ≡ (token_of t i).site }
{
    match tokens.get(i as usize) {
        Some(token) => token.site,
        None => NO_PLACE,
    }
}

// What a fault of the machine makes of the unit.
fn ill_by(tokens: &[Tok], fault: MachineFault) -> Ended
    ensures { (t : Source) → HasTokens tokens.now t → result ≡ ill_of t fault }
{
    match fault {
        MachineFault::Syntax(i) => Ended::Ill(IllCause::Syntax, site_of(tokens, i)),
        MachineFault::LimitDepth => Ended::Ill(IllCause::LimitDepth, NO_PLACE),
    }
}

// Binds an event, and answers the unit's end where binding finds a fault.
fn bind(
    sema: &mut Sema,
    tokens: &[Tok],
    names: &NameTable,
    event: Event,
) -> Result<Option<Ended>, OutOfMemory>
    requires short { length tokens.now ≤ 2 ^ 25 }
    requires no_ask { IsNoAsk event }
    requires may { MayCome (source_of names.now tokens.now) event sema.old }
    ensures { let t = source_of names.now tokens.now in (es : List Item)
        → HasCome t es sema.old → IsNext t es event
        → IfOk result (IsBoundOrIll t es event sema.new) }
{
    match sema.act(tokens, names, event) {
        Ok(()) => Ok(None),
        Err(SemaFault::Ill(cause, place)) => Ok(Some(Ended::Ill(cause, place))),
        Err(SemaFault::OutOfMemory) => Err(OutOfMemory),
    }
}

// Goes on to the next token that is passed, or to the unit's end.
fn pass_token(
    machine: &mut Machine,
    sema: &mut Sema,
    tokens: &[Tok],
    names: &NameTable,
) -> Result<Option<Ended>, OutOfMemory>
    requires short { length tokens.now ≤ 2 ^ 25 }
    requires placed { machine.old.place ≤ length tokens.now }
    requires idle { machine.old.waits ≡ None }
    requires reads { Reads (source_of names.now tokens.now) machine.old sema.old }
    ensures leads { let t = source_of names.now tokens.now in
        IfOk result (LeadsOn t machine.old machine.new sema.new) }
    ensures placed { machine.new.place ≤ length tokens.now }
{
    events_fall();
    'events: loop {
        match machine.step(tokens, names) {
            Err(fault) => return Ok(Some(ill_by(tokens, fault))),
            Ok(Event::Done) => {
                let ill = bind(sema, tokens, names, Event::Done)?;
                return Ok(Some(ill.unwrap_or(Ended::WellFormed)));
            }
            Ok(Event::Ask(i)) => {
                let answer = sema.ask(tokens, names, i)?;
                machine.reply(answer);
            }
            Ok(Event::Act(action)) => {
                if let Some(end) = bind(sema, tokens, names, Event::Act(action))? {
                    return Ok(Some(end));
                }
            }
            Ok(Event::Token(i)) => {
                let end = bind(sema, tokens, names, Event::Token(i))?;
                return Ok(end);
            }
        }
    }
}

// What is read where the tokens end so.
fn read_of(end: Ended, sema: Sema) -> Read
    ensures { (t : Source) → IsEnded t sema end → IsRead t result }
{
    match end {
        Ended::WellFormed => Read::WellFormed(sema),
        Ended::Ill(cause, place) => Read::Ill(cause, place),
    }
}

/// Reads the tokens of a unit by the grammar (C11 6.4 to 6.9), and binds them: the answer is the unit's binding, or the first
/// cause for which it is ill-formed, with its place.
pub fn read_tokens(alloc: Global, tokens: &[Tok], names: &NameTable) -> Result<Read, OutOfMemory>
    requires short { length tokens.now ≤ 2 ^ 25 }
    ensures { IfOk result (IsRead (source_of names.now tokens.now)) }
{
    let mut machine = Machine::new(alloc)?;
    let mut sema = Sema::new(alloc)?;
    'tokens: for passed in 0..tokens.len() + 1 {
        let _round = passed;
        if let Some(end) = pass_token(&mut machine, &mut sema, tokens, names)? {
            return Ok(read_of(end, sema));
        }
    }
    unreachable!()
}
