//! The stack of symbols, which takes all its memory at first.
ghost use Rattle.std.specs.Prelude.{◌≡◌, ◌+◌, ◌-◌, ◌≤◌, ◌<◌, ◌++◌, ◌∷◌, [], List, drop, length, IfOk};
ghost use Rattle.cr_ll.specs.Machine.{top_of};

use cr_base::OutOfMemory;
use cr_grammar::Symbol;
use std::alloc::Global;
use std::marker::Model;

pub const LIMIT: usize = 4096;

// A stack of at most LIMIT symbols. Its first is the topmost.
#[derive(Drop)]
pub struct Stack {
    slots: Vec<Symbol>,
    top: usize,
}

impl Model for Stack {
    ghost use Rattle.std.specs.Prelude.{◌≡◌, ◌≤◌, List, drop, length};
    ghost use Rattle.cr_grammar.specs.declared.symbols.Symbol.{Symbol};
    ghost use Rattle.cr_ll.specs.declared.stack.TheConstants.{LIMIT};

    ghost Value = { List Symbol };

    ghost view = { λ s. drop s.top s.slots.items };

    ghost invariant = { λ s. (length s.slots.items ≡ LIMIT) × (s.top ≤ LIMIT) };
}

// Writes the body above the top.
fn put_above(slots: &mut [Symbol], top: usize, body: &[Symbol])
    requires room { length body.now ≤ top }
    requires within { top ≤ length slots.old }
    ensures { drop (top - length body.now) slots.new ≡ body.now ++ drop top slots.old }
{
    slots[top - body.len()..top].copy_from_slice(body);
}

impl Stack {
    pub fn new(alloc: Global, first: Symbol) -> Result<Stack, OutOfMemory>
        ensures { IfOk result (λ s. s ≡ first ∷ []) }
    {
        let slots = vec![in alloc; first; LIMIT]?;
        Ok(Stack {
            slots,
            top: LIMIT - 1,
        })
    }

    pub fn top(&self) -> Option<Symbol>
        ensures { result ≡ top_of self.now }
    {
        if self.top < LIMIT {
            Some(self.slots[self.top])
        } else {
            None
        }
    }

    pub fn room(&self) -> usize
        ensures { result + length self.now ≡ LIMIT }
    {
        self.top
    }

    pub fn pop(&mut self)
        requires { 0 < length self.old }
        ensures { self.new ≡ drop 1 self.old }
    {
        self.top += 1;
    }

    pub fn put(&mut self, body: &[Symbol])
        requires { length self.old + length body.now ≤ LIMIT }
        ensures { self.new ≡ body.now ++ self.old }
    {
        put_above(&mut self.slots, self.top, body);
        self.top -= body.len();
    }
}
