//! The machine, seen as its state.
ghost use Rattle.std.specs.Prelude.{◌≡◌, ◌≤◌, ◌^◌, IfOk, None, length};
ghost use Rattle.cr_ll.specs.Guards.{terminals};
ghost use Rattle.cr_ll.specs.Running.{IsFresh, IsAsking, IsStuck, IsReady, Steps, Replies};

use crate::state::{Event, MachineFault, State, reply, start, step};
use cr_base::{NameTable, OutOfMemory, Tok};
use std::alloc::Global;
use std::marker::Model;

/// A machine that reads the tokens of one translation unit from left to right, and gives the events
/// of the one tree that they have by the guarded table (C11 6.5 to 6.9).
#[derive(Drop)]
pub struct Machine {
    state: State,
}

impl Model for Machine {
    ghost use Rattle.cr_ll.specs.declared.state.State.{State};

    ghost Value = { State };

    ghost view = { λ m. m.state };
}

impl Machine {
    /// A machine before the first token. It takes all the memory that it needs.
    pub fn new(alloc: Global) -> Result<Machine, OutOfMemory>
        ensures { IfOk result IsFresh }
    {
        let state = start(alloc)?;
        Ok(Machine { state })
    }

    /// The next event: a token is passed, an action is due, an identifier is asked for, or the end.
    ///
    /// `Syntax` is at the token at which no guard holds or another token is expected; `LimitDepth`
    /// comes where the stack would hold a 4,097th symbol. After a fault each step answers the same.
    pub fn step(&mut self, tokens: &[Tok], names: &NameTable) -> Result<Event, MachineFault>
        requires idle { self.old.waits ≡ None }
        requires placed { self.old.place ≤ length tokens.now }
        requires short { length tokens.now ≤ 2 ^ 25 }
        ensures steps { Steps (terminals names.now tokens.now) self.old result self.new }
        ensures placed { self.new.place ≤ length tokens.now }
        ensures stuck { IsStuck self.old result self.new }
        ensures ready { IsReady result self.new }
    {
        step(&mut self.state, names, tokens)
    }

    /// Answers the last event, an ask: whether the identifier is a typedef name there (C11 6.7.8).
    pub fn reply(&mut self, typedef_name: bool)
        requires { IsAsking self.old }
        ensures replies { Replies self.old typedef_name self.new }
        ensures idle { self.new.waits ≡ None }
        ensures placed { self.new.place ≡ self.old.place }
    {
        reply(&mut self.state, typedef_name)
    }
}
