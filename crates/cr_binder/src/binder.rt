//! What is kept of a unit while it is bound.
ghost use Rattle.std.specs.Prelude.{◌≡◌, OnOk, IfOk};
ghost use Rattle.cr_binding.specs.Source.{Source};
ghost use Rattle.cr_known.specs.Known.{known_first, known_open, known_close, known_pass, known_act, known_ask};
ghost use Rattle.cr_acting.specs.Binding.{source_by, state_of};
ghost use Rattle.cr_binder.specs.Binder.{known_of, IsSound, IsOf, Keeps, Goes, Does, acted_alone, IsAnswer};

use crate::frames::{Frames, frames_stay};
use cr_acting::{Binding, Spot, Words};
use cr_base::OutOfMemory;
use cr_grammar::{Action, NonTerm};
use cr_known::Nest;
use cr_names::BindFault;
use std::alloc::Global;

/// The binding of a unit so far, with its open nodes.
#[derive(Drop)]
pub struct Binder {
    pub(crate) nest: Nest,
    pub(crate) frames: Frames,
    pub(crate) binding: Binding,
}

impl Binder {
    /// A unit of which nothing is bound yet.
    pub fn new(alloc: Global) -> Result<Binder, OutOfMemory>
        ensures { IfOk result (λ b. (t : Source) → Keeps t known_first b) }
    {
        let binding = Binding::new(alloc)?;
        Ok(Binder {
            nest: Nest::new(alloc),
            frames: Frames::new(alloc),
            binding,
        })
    }

    /// What is bound so far.
    pub fn binding(&self) -> &Binding
        ensures { result.now ≡ self.now.binding }
    {
        &self.binding
    }

    /// A node is opened below the innermost one.
    pub fn open(&mut self, node: NonTerm) -> Result<(), OutOfMemory>
        requires { IsSound self.old }
        ensures { OnOk result (Goes self.old (known_open node) self.new) }
    {
        let kept = self.binding.keep(node);
        self.frames.push(kept)?;
        self.nest.open(node)?;
        Ok(())
    }

    /// The innermost node is closed. The outermost one stays.
    pub fn close(&mut self) -> Result<(), OutOfMemory>
        requires { IsSound self.old }
        ensures { OnOk result (Goes self.old known_close self.new) }
    {
        frames_stay();
        let Some(kept) = self.frames.pop() else {
            return Ok(());
        };
        let node = self.nest.node();
        let childless = self.nest.is_childless();
        self.nest.close()?;
        self.binding.end(self.nest.node(), node, childless, kept)?;
        Ok(())
    }

    /// A token of the innermost node, by its number.
    ///
    /// `Ill`: the fault that it is, at its token (C11 6.7.2p2).
    pub fn pass(&mut self, i: u32, words: Words) -> Result<(), BindFault>
        requires { IsOf (source_by words) self.old }
        ensures { let t = source_by words.entry in
            Does t (known_pass t i (known_of self.old)) self.new result }
    {
        frames_stay();
        self.binding.pass(self.nest.node(), i, words)?;
        self.nest.pass(i);
        Ok(())
    }

    fn bind(&mut self, action: Action, words: Words) -> Result<(), BindFault>
        requires { IsOf (source_by words) self.old }
        ensures { let t = source_by words.entry in
            Does t (acted_alone t action (known_of self.old)) self.new result }
    {
        frames_stay();
        let spot = Spot {
            node: self.nest.node(),
            first: self.nest.first(),
            parts: self.nest.closed_parts(),
            leaves: self.nest.closed_leaves(),
            words,
        };
        self.binding.act(action, spot)?;
        Ok(())
    }

    /// An action of the innermost node.
    ///
    /// `Ill`: the fault that it is, at its token.
    pub fn act(&mut self, action: Action, words: Words) -> Result<(), BindFault>
        requires { IsOf (source_by words) self.old }
        ensures { let t = source_by words.entry in
            Does t (known_act t action (known_of self.old)) self.new result }
    {
        self.bind(action, words)?;
        self.nest.act(action)?;
        Ok(())
    }

    /// Answers whether a token names a type here (C11 6.7.8p3), and notes that it was asked.
    pub fn ask(&mut self, token: u32, words: Words) -> Result<bool, OutOfMemory>
        requires { IsOf (source_by words) self.old }
        ensures answer { IfOk result (IsAnswer (source_by words.entry) self.old token) }
        ensures asked { let t = source_by words.entry in
            IfOk result (λ b. Keeps t (known_ask token b (known_of self.old)) self.new) }
    {
        frames_stay();
        let answer = self.binding.ask(token, words)?;
        Ok(answer)
    }
}
