//! The rows of open nodes, the innermost first.
ghost use Rattle.std.specs.Prelude.{◌≡◌, [], ◌∷◌, OnOk, OnErr, MatchOption};
ghost use Rattle.cr_nodes.specs.Moves.{body_of};
ghost use Rattle.cr_nodes.specs.Seen.{seen_row, seen_body};

use cr_base::OutOfMemory;
use cr_grammar::{NonTerm, Symbol, alternatives};
use std::alloc::Global;
use std::marker::Model;

// An open node, and the symbols of its alternative that are left.
#[derive(Clone, Copy)]
pub struct OpenRow {
    pub node: NonTerm,
    pub rest: &'static [Symbol],
}

// The symbols of a node's alternative number k.
pub fn body_at(n: NonTerm, k: usize) -> Option<&'static [Symbol]>
    ensures { seen_body result ≡ body_of n k }
{
    let rows = alternatives(n);
    if k < rows.len() {
        Some(rows[k].body)
    } else {
        None
    }
}

#[derive(Drop)]
pub struct Rows {
    rows: Vec<OpenRow>,
}

impl Model for Rows {
    ghost use Rattle.std.specs.Prelude.{List, map, reverse};
    ghost use Rattle.cr_nodes.specs.Moves.{Row};
    ghost use Rattle.cr_nodes.specs.Seen.{seen_row};

    ghost Value = { List Row };

    ghost view = { λ s. reverse (map seen_row s.rows.items) };
}

impl Rows {
    pub fn new(alloc: Global) -> Rows
        ensures { result ≡ [] }
    {
        Rows {
            rows: Vec::new(alloc),
        }
    }

    pub fn push(&mut self, row: OpenRow) -> Result<(), OutOfMemory>
        ensures ok { OnOk result (self.new ≡ seen_row row ∷ self.old) }
        ensures err { OnErr result (self.new ≡ self.old) }
    {
        self.rows.push(row)?;
        Ok(())
    }

    pub fn pop(&mut self) -> Option<OpenRow>
        ensures { MatchOption result ((self.old ≡ []) × (self.new ≡ [])) (λ r. self.old ≡ seen_row r ∷ self.new) }
    {
        self.rows.pop()
    }
}
