//! What is kept of the open nodes above the innermost one.
ghost use Rattle.std.specs.Prelude.{◌≡◌, [], ◌∷◌, OnOk, MatchOption};
ghost use Rattle.cr_binder.specs.Frames.{AllFramesStay};

use cr_acting::{Kept, kept_stays};
use cr_base::OutOfMemory;
use std::alloc::Global;
use std::marker::Model;

#[derive(Drop)]
pub struct Frames {
    rows: Vec<Kept>,
}

impl Model for Frames {
    ghost use Rattle.std.specs.Prelude.{List, reverse};
    ghost use Rattle.cr_acting.specs.declared.ends.Kept.{Kept};

    ghost Value = { List Kept };

    ghost view = { λ s. reverse s.rows.items };
}

impl Frames {
    pub fn new(alloc: Global) -> Frames
        ensures { result ≡ [] }
    {
        Frames {
            rows: Vec::new(alloc),
        }
    }

    pub fn push(&mut self, kept: Kept) -> Result<(), OutOfMemory>
        ensures { OnOk result (self.new ≡ kept ∷ self.old) }
    {
        self.rows.push(kept)?;
        Ok(())
    }

    pub fn pop(&mut self) -> Option<Kept>
        ensures { MatchOption result ((self.old ≡ []) × (self.new ≡ []))
            (λ k. self.old ≡ k ∷ self.new) }
    {
        self.rows.pop()
    }
}

// As types and operands are added, the open nodes are the same.
pub(crate) fn frames_stay()
    ensures { AllFramesStay }
{
    kept_stays();
}
