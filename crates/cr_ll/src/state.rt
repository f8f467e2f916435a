//! The moves of the machine.
ghost use Rattle.std.specs.Prelude.{◌≡◌, ◌+◌, ◌-◌, ◌≤◌, ◌<◌, ◌^◌, ◌∷◌, [], None, Some, IfOk, IfSome, length};
ghost use Rattle.cr_ll.specs.Running.{IsFresh, OpensTo, Advances, Steps, waiting_at, IsWaiting, GoesOn, IsStuck};
ghost use Rattle.cr_grammar.specs.Grammar.{rule};
ghost use Rattle.cr_ll.specs.Machine.{top_of};
ghost use Rattle.cr_ll.specs.Guards.{terminals};

use crate::guards::{Choice, ask_at, choose, lexeme_at, meets_at};
use crate::stack::Stack;
use cr_base::{NameTable, OutOfMemory, Tok};
use cr_grammar::{Action, NonTerm, Symbol, alternatives};
use std::alloc::Global;

#[derive(Clone, Copy, Debug, PartialEq, Eq)]
pub enum Event {
    Token(u32),
    Act(Action),
    Ask(u32),
    Done,
}

#[derive(Clone, Copy, Debug, PartialEq, Eq)]
pub enum MachineFault {
    Syntax(u32),
    LimitDepth,
}

// What one move gave.
#[derive(Clone, Copy, Debug, PartialEq, Eq)]
pub enum Moved {
    Gave(Event),
    Opened,
    Failed(MachineFault),
}

#[derive(Drop)]
pub struct State {
    pub stack: Stack,
    pub place: u32,
    pub refused: usize,
    pub waits: Option<usize>,
    pub fault: Option<MachineFault>,
}

pub fn start(alloc: Global) -> Result<State, OutOfMemory>
    ensures { IfOk result IsFresh }
{
    let stack = Stack::new(alloc, Symbol::Non(NonTerm::Unit))?;
    Ok(State {
        stack,
        place: 0,
        refused: 0,
        waits: None,
        fault: None,
    })
}

fn open_by(m: &mut State, n: NonTerm, k: usize) -> Moved
    requires top { top_of m.old.stack ≡ Some (Symbol.Non n) }
    requires within { k < length (rule n) }
    ensures { OpensTo m.old n k result m.new }
{
    let body = alternatives(n)[k].body;
    if m.stack.room() + 1 < body.len() {
        return Moved::Failed(MachineFault::LimitDepth);
    }
    m.stack.pop();
    m.stack.put(body);
    m.refused = 0;
    Moved::Opened
}

fn advance(m: &mut State, names: &NameTable, tokens: &[Tok]) -> Moved
    requires idle { m.old.waits ≡ None }
    requires placed { m.old.place ≤ length tokens.now }
    requires short { length tokens.now ≤ 2 ^ 25 }
    ensures moves { Advances (terminals names.now tokens.now) m.old result m.new }
    ensures placed { m.new.place ≤ length tokens.now }
{
    match m.stack.top() {
        None => Moved::Gave(Event::Done),
        Some(Symbol::Term(t)) => {
            if meets_at(names, tokens, m.place as usize, t) {
                let i = m.place;
                m.stack.pop();
                m.place += 1;
                m.refused = 0;
                Moved::Gave(Event::Token(i))
            } else {
                Moved::Failed(MachineFault::Syntax(m.place))
            }
        }
        Some(Symbol::Act(a)) => {
            m.stack.pop();
            m.refused = 0;
            Moved::Gave(Event::Act(a))
        }
        Some(Symbol::Non(n)) => {
            match choose(
                n,
                m.refused,
                lexeme_at(names, tokens, m.place as usize),
                lexeme_at(names, tokens, m.place as usize + 1),
            ) {
                Choice::Nothing => Moved::Failed(MachineFault::Syntax(m.place)),
                Choice::Takes(k) => open_by(m, n, k),
                Choice::Waits(k, ahead) => {
                    m.waits = Some(k);
                    Moved::Gave(Event::Ask(ask_at(m.place, ahead)))
                }
            }
        }
    }
}

// Moves up to the next event, the end, an ask or a fault.
fn run(m: &mut State, names: &NameTable, tokens: &[Tok]) -> Result<Event, MachineFault>
    requires idle { m.old.waits ≡ None }
    requires placed { m.old.place ≤ length tokens.now }
    requires short { length tokens.now ≤ 2 ^ 25 }
    ensures steps { Steps (terminals names.now tokens.now) m.old result m.new }
    ensures placed { m.new.place ≤ length tokens.now }
{
    'moves: loop {
        match advance(m, names, tokens) {
            Moved::Gave(e) => return Ok(e),
            Moved::Opened => {}
            Moved::Failed(fault) => {
                m.fault = Some(fault);
                return Err(fault);
            }
        }
    }
}

// The next event, the end, an ask or a fault.
pub fn step(m: &mut State, names: &NameTable, tokens: &[Tok]) -> Result<Event, MachineFault>
    requires idle { m.old.waits ≡ None }
    requires placed { m.old.place ≤ length tokens.now }
    requires short { length tokens.now ≤ 2 ^ 25 }
    ensures steps { Steps (terminals names.now tokens.now) m.old result m.new }
    ensures placed { m.new.place ≤ length tokens.now }
    ensures stuck { IsStuck m.old result m.new }
{
    match m.fault {
        Some(fault) => Err(fault),
        None => run(m, names, tokens),
    }
}

// The topmost symbol and the alternative of it that waits for a reply.
fn waiting(m: &State) -> Option<(NonTerm, usize)>
    ensures value { result ≡ waiting_at m.now }
    ensures top { IfSome result (λ p. top_of m.now.stack ≡ Some (Symbol.Non p.0)) }
{
    match m.waits {
        None => None,
        Some(k) => match m.stack.top() {
            Some(Symbol::Non(n)) => Some((n, k)),
            _ => None,
        },
    }
}

// The alternative after number k.
fn after(n: NonTerm, k: usize) -> usize
    requires { k < length (rule n) }
    ensures { result ≡ k + 1 }
{
    if k < alternatives(n).len() { k + 1 } else { 0 }
}

// Answers the ask: whether the identifier is a typedef name.
pub fn reply(m: &mut State, typedef_name: bool)
    requires { IsWaiting m.old }
    ensures { GoesOn m.old typedef_name m.new }
{
    if let Some((n, k)) = waiting(m) {
        m.waits = None;
        if typedef_name {
            if let Moved::Failed(fault) = open_by(m, n, k) {
                m.fault = Some(fault);
            }
        } else {
            m.refused = after(n, k);
        }
    }
}
