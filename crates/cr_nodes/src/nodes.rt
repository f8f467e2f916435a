//! The open nodes, which are led on by the events of the grammar's machine.
ghost use Rattle.std.specs.Prelude.{◌≡◌, ◌+◌, ◌-◌, ◌≤◌, ◌<◌, ◌^◌, ◌∷◌, ◌↔◌, IsTrue, false, Some, drop, length};
ghost use Rattle.cr_grammar.specs.Grammar.{rule};
ghost use Rattle.cr_ll.specs.declared.state.Event.{Event};
ghost use Rattle.cr_ll.specs.Guards.{terminals, token_at, meets, choice};
ghost use Rattle.cr_ll.specs.Guards as spec;
ghost use Rattle.cr_nodes.specs.Moves.{at, at_start, row, body_of, PassesTo, ActsTo, AsksAt, opens_by, by_choice, by_pending, passes_by, closes_by, move, replied};
ghost use Rattle.cr_nodes.specs.Advancing.{Advances};
ghost use Rattle.cr_nodes.specs.Falling.{Falls};

use crate::pending::Pending;
use crate::rows::{OpenRow, Rows, body_at};
use cr_base::{NameTable, Tok};
use cr_grammar::{Action, NonTerm, Symbol, Term};
use cr_ll::{Choice, Event, choose_at, meets_at};
use std::alloc::Global;
use std::marker::Model;

/// What comes before an event.
#[derive(Clone, Copy, Debug, PartialEq, Eq)]
pub enum Before {
    /// This node is opened below the innermost open one.
    Opens(NonTerm),
    /// The innermost open node is closed.
    Closes,
    /// Nothing: the event itself is next.
    Nothing,
}

/// Why a call wasn't made.
#[derive(Clone, Copy, Debug, PartialEq, Eq)]
pub enum NodesFault {
    /// Another event is next, or none is.
    Unfit,
    /// There is no memory for a further open node.
    OutOfMemory,
}

/// The nodes of a unit's tree that are open at a place among its events, the innermost last.
#[derive(Drop)]
pub struct Nodes {
    place: u32,
    pending: Pending,
    childless: bool,
    inner: OpenRow,
    above: Rows,
}

impl Model for Nodes {
    ghost use Rattle.cr_nodes.specs.Moves.{OpenNodes, at};
    ghost use Rattle.cr_nodes.specs.Advancing.{IsShort};
    ghost use Rattle.cr_nodes.specs.Seen.{seen_row};

    ghost Value = { OpenNodes };

    ghost view = { λ m. at m.place m.pending m.childless (seen_row m.inner) m.above };

    ghost invariant = { λ m. IsShort m.pending };
}

const UNIT: &[Symbol] = &[Symbol::Non(NonTerm::Unit)];

fn is_token(event: Event, i: u32) -> bool
    ensures { IsTrue result ↔ (event ≡ Event.Token i) }
{
    match event {
        Event::Token(k) => k == i,
        _ => false,
    }
}

fn is_act(event: Event, action: Action) -> bool
    ensures { IsTrue result ↔ (event ≡ Event.Act action) }
{
    match event {
        Event::Act(other) => other == action,
        _ => false,
    }
}

fn is_ask(event: Event, i: usize) -> bool
    ensures { IsTrue result ↔ (event ≡ Event.Ask i) }
{
    match event {
        Event::Ask(k) => k as usize == i,
        _ => false,
    }
}

fn is_done(event: Event) -> bool
    ensures { IsTrue result ↔ (event ≡ Event.Done) }
{
    match event {
        Event::Done => true,
        _ => false,
    }
}

// The place of the token that is asked for.
fn ask_at(i: usize, ahead: usize) -> usize
    requires { i < 2 ^ 32 }
    ensures { result ≡ spec.ask_at i ahead }
{
    if ahead == 0 { i } else { i + 1 }
}

impl Nodes {
    /// No node of the unit is open yet.
    pub fn new(alloc: Global) -> Nodes
        ensures { result ≡ at_start }
    {
        Nodes {
            place: 0,
            pending: Pending::From(0),
            childless: true,
            inner: OpenRow {
                node: NonTerm::Unit,
                rest: UNIT,
            },
            above: Rows::new(alloc),
        }
    }

    /// The innermost open node.
    pub fn innermost(&self) -> NonTerm
        ensures { result ≡ self.now.inner.node }
    {
        self.inner.node
    }

    /// Whether nothing stands in the innermost open node yet: no token, no action, and no node.
    pub fn is_childless(&self) -> bool
        ensures { result ≡ self.now.childless }
    {
        self.childless
    }

    /// Answers the last event, an ask: whether the identifier is a typedef name there (C11 6.7.8).
    pub fn reply(&mut self, typedef_name: bool)
        ensures { self.new ≡ replied typedef_name self.old }
    {
        if let Pending::Waits(k) = self.pending {
            self.pending = if typedef_name {
                Pending::Takes(k)
            } else {
                Pending::From(k + 1)
            };
        }
    }

    // Closes the innermost node, or the unit is at its end.
    fn close(&mut self, event: Event) -> Result<Before, NodesFault>
        ensures { Advances (closes_by self.old.place self.old.above) self.old event result self.new }
    {
        match self.above.pop() {
            Some(upper) => {
                self.inner = upper;
                self.pending = Pending::From(0);
                self.childless = false;
                Ok(Before::Closes)
            }
            None if is_done(event) => Ok(Before::Nothing),
            None => Err(NodesFault::Unfit),
        }
    }

    // Takes a token, where it is the next event.
    fn pass(
        &mut self,
        term: Term,
        rest: &'static [Symbol],
        event: Event,
        tokens: &[Tok],
        names: &NameTable,
    ) -> Result<Before, NodesFault>
        requires short { length tokens.now ≤ 2 ^ 25 }
        ensures { let next = token_at (terminals names.now tokens.now) self.old.place in
            let inner = row self.old.inner.node rest.now in
            Advances (passes_by self.old.place inner self.old.above (meets term next))
            self.old event result self.new }
    {
        let i = self.place;
        if !is_token(event, i) {
            return Err(NodesFault::Unfit);
        }
        if !meets_at(names, tokens, i as usize, term) {
            return Err(NodesFault::Unfit);
        }
        self.place = i + 1;
        self.pending = Pending::From(0);
        self.childless = false;
        self.inner.rest = rest;
        Ok(Before::Nothing)
    }

    // Takes an action, where it is the next event.
    fn act(
        &mut self,
        action: Action,
        rest: &'static [Symbol],
        event: Event,
    ) -> Result<Before, NodesFault>
        ensures { let inner = row self.old.inner.node rest.now in
            Advances (ActsTo action (at self.old.place (Pending.From 0) false inner self.old.above))
            self.old event result self.new }
    {
        if !is_act(event, action) {
            return Err(NodesFault::Unfit);
        }
        self.pending = Pending::From(0);
        self.childless = false;
        self.inner.rest = rest;
        Ok(Before::Nothing)
    }

    // Takes an ask, where it is the next event.
    fn ask(&mut self, k: usize, i: usize, event: Event) -> Result<Before, NodesFault>
        requires { k < 2 ^ 64 - 1 }
        ensures { Advances (AsksAt i (record self.old { pending = Pending.Waits k }))
            self.old event result self.new }
    {
        if !is_ask(event, i) {
            return Err(NodesFault::Unfit);
        }
        self.pending = Pending::Waits(k);
        Ok(Before::Nothing)
    }

    // Opens a node by its alternative number k.
    fn open(
        &mut self,
        node: NonTerm,
        k: usize,
        rest: &'static [Symbol],
    ) -> Result<Before, NodesFault>
        ensures { let upper = row self.old.inner.node rest.now in
            (x : Event)
            → Advances (opens_by node self.old.place upper self.old.above (body_of node k))
            self.old x result self.new }
    {
        let upper = OpenRow {
            node: self.inner.node,
            rest,
        };
        match body_at(node, k) {
            None => Err(NodesFault::Unfit),
            Some(body) => {
                if self.above.push(upper).is_err() {
                    return Err(NodesFault::OutOfMemory);
                }
                self.pending = Pending::From(0);
                self.childless = true;
                self.inner = OpenRow { node, rest: body };
                Ok(Before::Opens(node))
            }
        }
    }

    // Opens a node by the first alternative from number k on whose guard doesn't fail.
    fn open_from(
        &mut self,
        node: NonTerm,
        k: usize,
        rest: &'static [Symbol],
        event: Event,
        tokens: &[Tok],
        names: &NameTable,
    ) -> Result<Before, NodesFault>
        requires { self.old.inner.rest ≡ Symbol.Non node ∷ rest.now }
        ensures { let next = token_at (terminals names.now tokens.now) self.old.place in
            let second = token_at (terminals names.now tokens.now) (self.old.place + 1) in
            let upper = row self.old.inner.node rest.now in
            Advances
            (by_choice node self.old.place self.old.childless upper self.old.above
            (choice k (drop k (rule node)) next second))
            self.old event result self.new }
    {
        let i = self.place as usize;
        match choose_at(names, tokens, i, node, k) {
            Choice::Nothing => Err(NodesFault::Unfit),
            Choice::Takes(k) => self.open(node, k, rest),
            Choice::Waits(k, ahead) => self.ask(k, ask_at(i, ahead), event),
        }
    }

    // Opens a node, by what is known of its alternatives.
    fn open_next(
        &mut self,
        node: NonTerm,
        rest: &'static [Symbol],
        event: Event,
        tokens: &[Tok],
        names: &NameTable,
    ) -> Result<Before, NodesFault>
        requires { self.old.inner.rest ≡ Symbol.Non node ∷ rest.now }
        ensures { let upper = row self.old.inner.node rest.now in
            Advances
            (by_pending (terminals names.now tokens.now) node self.old.place
            self.old.childless upper self.old.above self.old.pending)
            self.old event result self.new }
    {
        match self.pending {
            Pending::From(k) => self.open_from(node, k, rest, event, tokens, names),
            Pending::Waits(_) => Err(NodesFault::Unfit),
            Pending::Takes(k) => self.open(node, k, rest),
        }
    }

    /// Does what comes before an event of the unit's tree, and answers it; where nothing does, the
    /// event is taken. So it is called with an event until it answers `Nothing`. An ask is taken
    /// before its node is opened, and then wants a reply.
    ///
    /// `Unfit` comes where no node can be opened or closed and this event isn't the next one, as
    /// between an ask and its reply; `OutOfMemory` where there is no memory for a node to open. All
    /// is then as it was.
    pub fn advance(
        &mut self,
        event: Event,
        tokens: &[Tok],
        names: &NameTable,
    ) -> Result<Before, NodesFault>
        requires short { length tokens.now ≤ 2 ^ 25 }
        ensures advances { Advances (move (terminals names.now tokens.now) self.old) self.old event result self.new }
        ensures falls { Falls self.old result self.new }
    {
        match self.inner.rest {
            [] => self.close(event),
            [Symbol::Term(term), rest @ ..] => self.pass(*term, rest, event, tokens, names),
            [Symbol::Act(action), rest @ ..] => self.act(*action, rest, event),
            [Symbol::Non(node), rest @ ..] => self.open_next(*node, rest, event, tokens, names),
        }
    }
}
