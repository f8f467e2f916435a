//! The way from the empty hide set to one that was looked into lately.
ghost use Rattle.std.specs.Prelude.{◌≡◌, [], IfSome};
ghost use Rattle.cr_macros.specs.Definition.{has_name};
ghost use Rattle.cr_expand.specs.HideSets.{Sets, set_at};
ghost use Rattle.cr_expand.specs.HidePaths.{IsStep, IsPath, IsFront, end_from};

use crate::hide_sets::HideSet;
use cr_base::{Name, OutOfMemory};
use indexmap::IndexMap;
use std::alloc::Global;

/// The names of a hide set, the first that was put first, each with the set that it made.
#[derive(Drop)]
pub struct HidePath {
    pub steps: IndexMap<Name, HideSet>,
}

impl HidePath {
    /// The way to the empty set.
    pub fn new(alloc: Global) -> HidePath
        ensures { result.steps.entries ≡ [] }
    {
        HidePath {
            steps: IndexMap::new(alloc),
        }
    }

    /// Whether a name is in a set, if the way leads through that; `last` is the name that made it.
    pub fn has(&self, set: HideSet, last: Name, name: Name) -> Option<bool>
        ensures { (sets : Sets) → IsPath sets self.now.steps.entries → IfSome result (λ found. found ≡ has_name (set_at sets set.0) name) }
    {
        if *self.steps.get(&last)? != set {
            return None;
        }
        match self.steps.get(&name) {
            None => Some(false),
            Some(made) => Some(made.0 <= set.0),
        }
    }

    // The set that the way leads to.
    fn end(&self) -> HideSet
        ensures { result.0 ≡ end_from 0 self.now.steps.entries }
    {
        match self.steps.last() {
            None => HideSet(0),
            Some((_, made)) => *made,
        }
    }

    // Goes back to a set that is no later than this one.
    fn go_back(&mut self, set: HideSet)
        ensures { IsFront self.old.steps.entries self.new.steps.entries }
    {
        while let Some((_, made)) = self.steps.last() {
            if made.0 <= set.0 {
                return;
            }
            let _ = self.steps.pop();
        }
    }

    /// Goes back to a set, and from there on to the one that a name makes of it. Where the way
    /// doesn't lead through the former, it ends before it.
    pub fn go(&mut self, from: HideSet, name: Name, made: HideSet) -> Result<(), OutOfMemory>
        ensures { (sets : Sets) → IsPath sets self.old.steps.entries → IsStep sets from.0 (name, made) → IsPath sets self.new.steps.entries }
    {
        self.go_back(from);
        if self.end() != from {
            return Ok(());
        }
        if self.steps.contains_key(&name) {
            return Ok(());
        }
        let _ = self.steps.insert(name, made)?;
        Ok(())
    }
}
