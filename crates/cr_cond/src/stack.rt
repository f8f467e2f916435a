//! The stack of what is open.
ghost use Rattle.std.specs.Prelude.{◌≡◌, ◌∷◌, [], OnOk, MatchOption, nat_le, true, false};
ghost use Rattle.cr_cond.specs.Machine.{IsShut};
ghost use Rattle.cr_cond.specs.Machine as spec;

use crate::machine::{Frame, Part, level};
use cr_base::OutOfMemory;
use std::alloc::Global;
use std::marker::Model;

// Seen as its frames, topmost first.
#[derive(Drop)]
pub struct Stack {
    frames: Vec<Frame<Part>>,
}

impl Model for Stack {
    ghost use Rattle.std.specs.Prelude.{List, reverse};
    ghost use Rattle.cr_cond.specs.declared.machine.Frame.{Frame};
    ghost use Rattle.cr_cond.specs.declared.machine.Part.{Part};

    ghost Value = { List (Frame Part) };

    ghost view = { λ s. reverse s.frames.items };
}

impl Stack {
    pub fn new(alloc: Global) -> Stack
        ensures { result ≡ [] }
    {
        Stack {
            frames: Vec::new(alloc),
        }
    }

    pub fn push(&mut self, frame: Frame<Part>) -> Result<(), OutOfMemory>
        ensures { OnOk result (self.new ≡ frame ∷ self.old) }
    {
        self.frames.push(frame)?;
        Ok(())
    }

    pub fn pop(&mut self) -> Option<Frame<Part>>
        ensures { MatchOption result ((self.old ≡ []) × (self.new ≡ [])) (λ x. self.old ≡ x ∷ self.new) }
    {
        self.frames.pop()
    }

    // Takes the topmost frame, where it binds at most so loosely.
    pub fn pop_shut(&mut self, limit: usize) -> Option<Frame<Part>>
        ensures { MatchOption result (IsShut limit self.old false × (self.new ≡ self.old)) (λ x. (nat_le (spec.level x) limit ≡ true) × (self.old ≡ x ∷ self.new)) }
    {
        match self.frames.last() {
            None => None,
            Some(frame) => {
                if level(*frame) <= limit {
                    self.frames.pop()
                } else {
                    None
                }
            }
        }
    }

    pub fn is_empty(&self) -> bool
        ensures { result ≡ spec.is_bottom self.now }
    {
        self.frames.is_empty()
    }
}
