//! The open nodes of a unit.
ghost use Rattle.std.specs.Prelude.{◌≡◌, ◌≢◌, ◌∷◌, ◌++◌, [], OnOk, OnErr};
ghost use Rattle.cr_binding.specs.Specifying.{is_declarator};
ghost use Rattle.cr_known.specs.Shapes.{behind};
ghost use Rattle.cr_known.specs.Nested.{nest_first, nest_opened, nest_passed, nest_acted, nest_closed};

use crate::parts::Parts;
use cr_base::OutOfMemory;
use cr_grammar::{Action, NonTerm};
use cr_types::Part;
use std::alloc::Global;
use std::marker::Model;

/// How many tokens stand in a node, and which where it is one.
#[derive(Clone, Copy, Debug, PartialEq, Eq)]
pub enum Leaves {
    NoToken,
    OneToken(u32),
    Tokens,
}

// A node above another: its derivations begin at a place among all.
#[derive(Clone, Copy)]
struct FrameRow {
    node: NonTerm,
    first: Option<u32>,
    start: usize,
    leaves: Leaves,
}

/// The open nodes of a unit's tree, with their first tokens and the shapes of what stands in them so far, and the shape of
/// the node that closed last.
#[derive(Drop)]
pub struct Nest {
    inner: FrameRow,
    childless: bool,
    above: Vec<FrameRow>,
    parts: Parts,
    closed: Leaves,
}

impl Model for Nest {
    ghost use Rattle.std.specs.Prelude.{◌≤◌, length, drop, reverse};
    ghost use Rattle.cr_known.specs.Nested.{Nested};

    ghost Value = { Nested };

    ghost use Rattle.cr_known.specs.Kept.{framed, AreStacked};

    ghost view = { λ a. record {
      node = a.inner.node;
      first = a.inner.first;
      shape = record { parts = drop a.inner.start a.parts.open_parts; leaves = a.inner.leaves };
      childless = a.childless;
      above = framed (reverse a.above.items) a.inner.start a.parts.open_parts;
      closed = record { parts = a.parts.closed; leaves = a.closed };
    } };

    ghost invariant = { λ a. (a.inner.start ≤ length a.parts.open_parts) × AreStacked (reverse a.above.items) a.inner.start };
}

fn behind(leaves: Leaves, more: Leaves) -> Leaves
    ensures { result ≡ behind leaves more }
{
    match (leaves, more) {
        (Leaves::NoToken, _) => more,
        (Leaves::OneToken(_), Leaves::NoToken) => leaves,
        _ => Leaves::Tokens,
    }
}

fn is_declarator(node: NonTerm) -> bool
    ensures { result ≡ is_declarator node }
{
    matches!(
        node,
        NonTerm::Dtor | NonTerm::PDtor | NonTerm::ADtor | NonTerm::Sufs
    )
}

// Takes the last of rows of which there are some.
fn pop_row(rows: &mut Vec<FrameRow>) -> FrameRow
    requires { rows.old.items ≢ [] }
    ensures { rows.old.items ≡ rows.new.items ++ result ∷ [] }
{
    match rows.pop() {
        Some(row) => row,
        None => unreachable!(),
    }
}

impl Nest {
    /// A unit's first node.
    pub fn new(alloc: Global) -> Nest
        ensures { result ≡ nest_first }
    {
        Nest {
            inner: FrameRow {
                node: NonTerm::Unit,
                first: None,
                start: 0,
                leaves: Leaves::NoToken,
            },
            childless: true,
            above: Vec::new(alloc),
            parts: Parts::new(alloc),
            closed: Leaves::NoToken,
        }
    }

    /// The innermost open node.
    pub fn node(&self) -> NonTerm
        ensures { result ≡ self.now.node }
    {
        self.inner.node
    }

    /// Its first token, where it was met.
    pub fn first(&self) -> Option<u32>
        ensures { result ≡ self.now.first }
    {
        self.inner.first
    }

    /// Whether nothing stands in it.
    pub fn is_childless(&self) -> bool
        ensures { result ≡ self.now.childless }
    {
        self.childless
    }

    /// The derivations in the node that closed last, the outermost first (C11 6.7.6).
    pub fn closed_parts(&self) -> &[Part]
        ensures { result.now ≡ self.now.closed.parts }
    {
        self.parts.closed()
    }

    /// How many tokens stand in it.
    pub fn closed_leaves(&self) -> Leaves
        ensures { result ≡ self.now.closed.leaves }
    {
        self.closed
    }

    /// A node is opened below the innermost one.
    pub fn open(&mut self, node: NonTerm) -> Result<(), OutOfMemory>
        ensures ok { OnOk result (self.new ≡ nest_opened node self.old) }
        ensures err { OnErr result (self.new ≡ self.old) }
    {
        self.above.push(self.inner)?;
        self.inner = FrameRow {
            node,
            first: None,
            start: self.parts.len(),
            leaves: Leaves::NoToken,
        };
        self.childless = true;
        Ok(())
    }

    /// A token of the innermost node, by its number.
    pub fn pass(&mut self, i: u32)
        ensures { self.new ≡ nest_passed i self.old }
    {
        self.inner.first = Some(self.inner.first.unwrap_or(i));
        self.inner.leaves = behind(self.inner.leaves, Leaves::OneToken(i));
        self.childless = false;
    }

    /// An action of the innermost node.
    pub fn act(&mut self, action: Action) -> Result<(), OutOfMemory>
        ensures ok { OnOk result (self.new ≡ nest_acted action self.old) }
        ensures err { OnErr result (self.new ≡ self.old) }
    {
        self.parts.act(action)?;
        self.childless = false;
        Ok(())
    }

    /// The innermost node is closed. The outermost one stays.
    pub fn close(&mut self) -> Result<(), OutOfMemory>
        ensures ok { OnOk result (self.new ≡ nest_closed self.old) }
        ensures err { OnErr result (self.new ≡ self.old) }
    {
        if self.above.is_empty() {
            return Ok(());
        }
        let inner = self.inner;
        self.parts.end(is_declarator(inner.node), inner.start)?;
        let upper = pop_row(&mut self.above);
        self.inner = FrameRow {
            node: upper.node,
            first: upper.first,
            start: upper.start,
            leaves: behind(upper.leaves, inner.leaves),
        };
        self.closed = inner.leaves;
        self.childless = false;
        Ok(())
    }
}
