//! What is bound of a unit, with its operands and its types.
ghost use Rattle.std.specs.Prelude.{◌≡◌, ◌<◌, ◌+◌, ◌^◌, [], ℕ, IfOk, IfErr, Ok, Err};
ghost use Rattle.cr_binding.specs.Source.{Source};
ghost use Rattle.cr_binding.specs.State.{State, start};
ghost use Rattle.cr_binding.specs.WellFormed.{is_typedef_name};
ghost use Rattle.cr_acting.specs.Binding.{source_by, state_of, IsReady, Becomes, Does};
ghost use Rattle.cr_acting.specs.Acting.{passing, acting_on, asking, first_by, IsAnswered};

use crate::acting::Spot;
use crate::words::Words;
use cr_base::{IllCause, OutOfMemory};
use cr_bound::Bound;
use cr_grammar::{Action, NonTerm};
use cr_names::BindFault;
use cr_operands::{Operands, operands_stay};
use cr_types::Types;
use std::alloc::Global;

/// What is bound of a unit so far.
#[derive(Drop)]
pub struct Binding {
    pub(crate) types: Types,
    pub(crate) bound: Bound,
    pub(crate) operands: Operands,
}

impl Binding {
    /// A unit of which nothing is bound yet.
    pub fn new(alloc: Global) -> Result<Binding, OutOfMemory>
        ensures none { IfOk result (λ b. state_of b ≡ start) }
        ensures ready { IfOk result (λ b. (source : Source) → IsReady source b) }
    {
        operands_stay();
        let mut types = Types::new(alloc);
        let bound = Bound::new(alloc, &mut types)?;
        let operands = Operands::new(alloc, &mut types)?;
        bound.stay();
        Ok(Binding {
            types,
            bound,
            operands,
        })
    }

    /// The types of the unit, by their numbers.
    pub fn types(&self) -> &Types
        ensures { result.now ≡ self.now.types }
    {
        &self.types
    }

    /// The declarations, uses and records.
    pub fn bound(&self) -> &Bound
        ensures { result.now ≡ self.now.bound }
    {
        &self.bound
    }

    // The first token of a node, where it was met, or else the last token.
    pub(crate) fn first(&self, first: Option<u32>) -> u32
        ensures { result ≡ first_by first (state_of self.now) }
    {
        first.unwrap_or(self.bound.last())
    }

    // The number of the next token. There is no room for 2^32 tokens.
    pub(crate) fn next(&self) -> Result<u32, OutOfMemory>
        ensures { IfOk result (λ i. i ≡ (state_of self.now).last + 1) }
    {
        match self.bound.last().checked_add(1) {
            Some(next) => Ok(next),
            None => Err(OutOfMemory),
        }
    }

    /// Token number i of a node.
    ///
    /// `BadSpecifiers`: among specifiers no permitted list goes on with it, or the list that ended isn't permitted, of which
    /// the fault is at its last word that names a basic type (C11 6.7.2p2).
    pub fn pass(&mut self, node: NonTerm, i: u32, words: Words) -> Result<(), BindFault>
        requires { IsReady (source_by words) self.old }
        ensures { Does (source_by words.entry) self.old (passing node i) self.new result }
    {
        operands_stay();
        match self.bound.refused() {
            Some(at) => Err(BindFault::Ill(IllCause::BadSpecifiers, at)),
            None => {
                self.bound.pass(node, i, words.text_at(i))?;
                Ok(())
            }
        }
    }

    /// An action of a node.
    ///
    /// `Ill`: the fault that the action is, at its token; or that of `pass` where a list of words that isn't permitted ended.
    pub fn act(&mut self, action: Action, spot: Spot) -> Result<(), BindFault>
        requires { IsReady (source_by spot.words) self.old }
        ensures { let t = source_by spot.entry.words in
            Does t self.old (acting_on action spot.entry) self.new result }
    {
        match self.bound.refused() {
            Some(at) => Err(BindFault::Ill(IllCause::BadSpecifiers, at)),
            None => {
                self.do_action(action, spot)?;
                Ok(())
            }
        }
    }

    /// Answers whether a token names a type here (C11 6.7.8p3), and notes that it was asked.
    pub fn ask(&mut self, token: u32, words: Words) -> Result<bool, OutOfMemory>
        requires { IsReady (source_by words) self.old }
        ensures answer { IfOk result (λ b. IsAnswered (source_by words.entry) self.old token b) }
        ensures asked { IfOk result (λ b.
            Becomes (source_by words.entry) self.old (asking token b) self.new) }
    {
        operands_stay();
        let answer = self.bound.ask(token, words.name_at(token))?;
        Ok(answer)
    }
}
