//! The derivations in the open nodes, and in the node that closed last.
ghost use Rattle.std.specs.Prelude.{◌≡◌, ◌≤◌, ◌++◌, ◌∷◌, [], length, OnOk, OnErr};
ghost use Rattle.cr_known.specs.Nested.{part_by};
ghost use Rattle.cr_known.specs.Kept.{parts_acted, parts_ended};

use cr_base::OutOfMemory;
use cr_grammar::Action;
use cr_types::Part;
use std::alloc::Global;
use std::marker::Model;

// The derivations of the open nodes in order, and those of the node that closed last: these may stand among the others.
#[derive(Drop)]
pub struct Parts {
    parts: Vec<Part>,
    own: Vec<Part>,
    closed_at: Option<(usize, usize)>,
}

impl Model for Parts {
    ghost use Rattle.cr_known.specs.Kept as spec;

    ghost Value = { spec.Parts };

    ghost view = { λ a. record { open_parts = a.parts.items; closed = spec.parts_at a.parts.items a.own.items a.closed_at } };

    ghost invariant = { λ a. spec.IsRange a.parts.items a.closed_at };
}

// What an action derives.
fn part_by(action: Action) -> Option<Part>
    ensures { result ≡ part_by action }
{
    match action {
        Action::Pointer => Some(Part::Pointer),
        Action::Array => Some(Part::Array),
        Action::Leave => Some(Part::Function),
        _ => None,
    }
}

impl Parts {
    pub fn new(alloc: Global) -> Parts
        ensures open { result.open_parts ≡ [] }
        ensures closed { result.closed ≡ [] }
    {
        Parts {
            parts: Vec::new(alloc),
            own: Vec::new(alloc),
            closed_at: None,
        }
    }

    pub fn len(&self) -> usize
        ensures { result ≡ length self.now.open_parts }
    {
        self.parts.len()
    }

    // What an action derives in the innermost node.
    pub fn act(&mut self, action: Action) -> Result<(), OutOfMemory>
        ensures ok { OnOk result (self.new ≡ parts_acted action self.old) }
        ensures err { OnErr result (self.new ≡ self.old) }
    {
        match part_by(action) {
            Some(part) => self.push(part),
            None => Ok(()),
        }
    }

    fn push(&mut self, part: Part) -> Result<(), OutOfMemory>
        ensures ok { OnOk result (self.new ≡ record { open_parts = self.old.open_parts ++ part ∷ []; closed = self.old.closed }) }
        ensures err { OnErr result (self.new ≡ self.old) }
    {
        self.parts.push(part)?;
        Ok(())
    }

    // A node closes whose derivations begin at a place. Those of a declarator stay among those of the node above.
    pub fn end(&mut self, declarator: bool, start: usize) -> Result<(), OutOfMemory>
        requires { start ≤ length self.old.open_parts }
        ensures ok { OnOk result (self.new ≡ parts_ended declarator start self.old) }
        ensures err { OnErr result (self.new ≡ self.old) }
    {
        if declarator {
            self.closed_at = Some((start, self.parts.len()));
        } else {
            self.own = self.parts.split_off(start)?;
            self.closed_at = None;
        }
        Ok(())
    }

    // The derivations of the node that closed last.
    pub fn closed(&self) -> &[Part]
        ensures { result.now ≡ self.now.closed }
    {
        match self.closed_at {
            Some((from, to)) => &self.parts[from..to],
            None => &self.own,
        }
    }
}
