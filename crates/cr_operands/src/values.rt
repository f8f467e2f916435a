//! The operands that wait for an operator.
ghost use Rattle.std.specs.Prelude.{◌≡◌, ◌∷◌, OnOk, OnErr};
ghost use Rattle.cr_operands.specs.Kept.{no_values, IsMarkOf, chain, IsBelow, with_row};

use cr_base::OutOfMemory;
use cr_types::TypeNo;
use std::alloc::Global;
use std::marker::Model;

// An operand, and the mark of those below it.
#[derive(Clone, Copy)]
pub struct Row {
    pub ty: TypeNo,
    pub rest: usize,
}

// Operands by marks: mark n is that of the operand in row n - 1 and of those below it, and mark 0 that of none. A row
// never changes, so that a mark that was given keeps its operands.
#[derive(Drop)]
pub struct Values {
    rows: Vec<Row>,
    top: usize,
}

impl Model for Values {
    ghost use Rattle.std.specs.Prelude.{◌≤◌, length, reverse};
    ghost use Rattle.cr_operands.specs.Kept.{Marked, AreBelow};

    ghost Value = { Marked };

    ghost view = { λ a. record { rows = reverse a.rows.items; top = a.top } };

    ghost invariant = { λ a. AreBelow (reverse a.rows.items) × (a.top ≤ length a.rows.items) };
}

impl Values {
    pub fn new(alloc: Global) -> Values
        ensures { result ≡ no_values }
    {
        Values {
            rows: Vec::new(alloc),
            top: 0,
        }
    }

    // The mark of all operands.
    pub fn top(&self) -> usize
        ensures top { result ≡ self.now.top }
        ensures mark { IsMarkOf self.now result }
    {
        self.top
    }

    // The operands of a mark alone.
    pub fn cut(&mut self, top: usize)
        requires { IsMarkOf self.old top }
        ensures { self.new ≡ record { rows = self.old.rows; top = top } }
    {
        self.top = top;
    }

    // The last operand of a mark.
    pub fn row(&self, mark: usize) -> Option<Row>
        requires { IsMarkOf self.now mark }
        ensures { IsBelow self.now mark result }
    {
        if mark == 0 {
            None
        } else {
            Some(self.rows[mark - 1])
        }
    }

    // An operand above those of a mark.
    pub fn put(&mut self, row: Row) -> Result<(), OutOfMemory>
        requires { IsMarkOf self.old row.rest }
        ensures ok { OnOk result (self.new ≡ with_row row self.old) }
        ensures err { OnErr result (self.new ≡ self.old) }
    {
        self.rows.push(row)?;
        self.top = self.rows.len();
        Ok(())
    }
}
