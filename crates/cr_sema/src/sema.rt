//! What is bound of a unit while its events come.
ghost use Rattle.std.specs.Prelude.{◌≡◌, ◌≤◌, ◌^◌, [], ℕ, true, length, IfOk, IsErr, OnErr, Err, List};
ghost use Rattle.cr_ll.specs.Derivation.{Item};
ghost use Rattle.cr_ll.specs.declared.state.Event.{Event};
ghost use Rattle.cr_binding.specs.Source.{Source, token_of};
ghost use Rattle.cr_names.specs.Names.{HasTokens};
ghost use Rattle.cr_sema.specs.Walking.{IsNext};
ghost use Rattle.cr_sema.specs.Sema.{source_of, HasCome, MayCome, IsNoAsk, Acts, Replies};
ghost use Rattle.cr_sema.specs.declared.fault.SemaFault.TheVariants as fault;

use crate::fault::SemaFault;
use crate::walk::Walk;
use cr_acting::Words;
use cr_base::{NameTable, OutOfMemory, PathNo, Place, Tok};
use cr_bound::Bound;
use cr_ll::Event;
use cr_names::BindFault;
use std::alloc::Global;

/// The binding of a unit, as far as its events have come.
#[derive(Drop)]
pub struct Sema {
    pub(crate) walk: Walk,
    // memory was wanted
    pub(crate) spent: bool,
}

const NO_PLACE: Place = Place {
    path: PathNo(0),
    offset: 0,
};

// The place of a token.
fn site_of(tokens: &[Tok], i: u32) -> Place
    ensures { (t : Source) → HasTokens tokens.now t → result ≡ (token_of t i).site }
{
    match tokens.get(i as usize) {
        Some(token) => token.site,
        None => NO_PLACE,
    }
}

impl Sema {
    /// A unit of which no event has come yet.
    pub fn new(alloc: Global) -> Result<Sema, OutOfMemory>
        ensures { IfOk result (λ x. (t : Source) → HasCome t [] x) }
    {
        let walk = Walk::new(alloc)?;
        Ok(Sema { walk, spent: false })
    }

    /// What is bound of the unit so far: its declarations, uses and records.
    pub fn bound(&self) -> &Bound
        ensures { result.now ≡ self.now.walk.binder.binding.bound }
    {
        self.walk.binder.binding().bound()
    }

    /// The next event that the machine of the grammar gives for these tokens, which are those of all calls: a token, an
    /// action, or the end. At the end the unit is well-formed, and its binding is kept.
    ///
    /// `Ill`: the unit is ill-formed, and this is its first fault. After `OutOfMemory` each call answers it.
    pub fn act(&mut self, tokens: &[Tok], names: &NameTable, event: Event) -> Result<(), SemaFault>
        requires short { length tokens.now ≤ 2 ^ 25 }
        requires no_ask { IsNoAsk event }
        requires may { MayCome (source_of names.now tokens.now) event self.old }
        ensures acts { let t = source_of names.now tokens.now in (es : List Item)
            → HasCome t es self.old → IsNext t es event → Acts t es event self.new result }
        ensures spent { self.old.spent ≡ true
            → (result ≡ Err fault.OutOfMemory) × (self.new.spent ≡ true) }
    {
        if self.spent {
            return Err(SemaFault::OutOfMemory);
        }
        match self.walk.take(event, Words { tokens, names }) {
            Ok(()) => Ok(()),
            Err(BindFault::Ill(cause, i)) => Err(SemaFault::Ill(cause, site_of(tokens, i))),
            Err(BindFault::OutOfMemory) => {
                self.spent = true;
                Err(SemaFault::OutOfMemory)
            }
        }
    }

    /// Answers the next event, an ask: whether a token names a type there (C11 6.7.8p3). The tokens are those of all calls.
    ///
    /// After `OutOfMemory` each call answers it.
    pub fn ask(
        &mut self,
        tokens: &[Tok],
        names: &NameTable,
        token: u32,
    ) -> Result<bool, OutOfMemory>
        requires short { length tokens.now ≤ 2 ^ 25 }
        requires may { MayCome (source_of names.now tokens.now) (Event.Ask token) self.old }
        ensures replies { let t = source_of names.now tokens.now in (es : List Item)
            → HasCome t es self.old → IsNext t es (Event.Ask token)
            → IfOk result (Replies t es token self.new) }
        ensures err { OnErr result (self.new.spent ≡ true) }
        ensures spent { self.old.spent ≡ true → IsErr result }
    {
        if self.spent {
            return Err(OutOfMemory);
        }
        match self.walk.ask(token, Words { tokens, names }) {
            Ok(answer) => Ok(answer),
            Err(fault) => {
                self.spent = true;
                Err(fault)
            }
        }
    }
}
