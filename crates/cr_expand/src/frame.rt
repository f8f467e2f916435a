//! Calls that wait for their arguments.
ghost use Rattle.std.specs.Prelude.{◌≡◌, ◌+◌, ◌-◌, ◌<◌, ◌++◌, ◌∷◌, [], IfOk, OnOk, length, map, slice_index_or, false, nat_lt};
ghost use Rattle.cr_expand.specs.Frames.{Call};

use crate::held::Held;
use crate::hide_sets::HideSet;
use cr_base::OutOfMemory;
use std::alloc::Global;
use std::marker::Model;

/// A call that waits for its arguments. Contracts see it as a `Call`.
#[derive(Drop)]
pub struct Frame {
    name: Held,
    hide: HideSet,
    raw: Vec<Vec<Held>>,
    done: Vec<Vec<Held>>,
    out: Vec<Held>,
    more: usize,
    wanted: Vec<bool>,
}

impl Model for Frame {
    ghost use Rattle.std.specs.Prelude.{map};
    ghost use Rattle.cr_expand.specs.Frames.{Call};

    ghost Value = { Call };

    ghost view = { λ f. record { name = f.name; hide = f.hide.0; raw = map (λ v. v.items) f.raw.items; done = map (λ v. v.items) f.done.items; out = f.out.items; more = f.more; wanted = f.wanted.items } };
}

impl Frame {
    /// A call of which no argument is expanded yet, and how many come behind the first.
    pub fn new(
        alloc: Global,
        name: Held,
        hide: HideSet,
        raw: Vec<Vec<Held>>,
        more: usize,
        wanted: Vec<bool>,
    ) -> Frame
        ensures { result ≡ record { name = name; hide = hide.0; raw = map (λ v. v.items) raw.items; done = []; out = []; more = more; wanted = wanted.items } }
    {
        Frame {
            name,
            hide,
            raw,
            done: Vec::new(alloc),
            out: Vec::new(alloc),
            more,
            wanted,
        }
    }

    /// The macro's name.
    pub fn name(&self) -> Held
        ensures { result ≡ self.now.name }
    {
        self.name
    }

    /// The names that are hidden from what is put in.
    pub fn hide(&self) -> HideSet
        ensures { result.0 ≡ self.now.hide }
    {
        self.hide
    }

    /// The arguments as they are.
    pub fn raw(&self) -> &[Vec<Held>]
        ensures { map (λ v. v.items) result.now ≡ self.now.raw }
    {
        &self.raw
    }

    /// The arguments that are expanded.
    pub fn done(&self) -> &[Vec<Held>]
        ensures { map (λ v. v.items) result.now ≡ self.now.done }
    {
        &self.done
    }

    /// A token of the argument's expansion.
    pub fn put(&mut self, h: Held) -> Result<(), OutOfMemory>
        ensures { OnOk result (self.new ≡ record self.old { out = self.old.out ++ h ∷ [] }) }
    {
        self.out.push(h)?;
        Ok(())
    }

    /// The argument is expanded.
    pub fn finish_argument(&mut self, alloc: Global) -> Result<(), OutOfMemory>
        ensures { OnOk result (self.new ≡ record self.old { done = self.old.done ++ self.old.out ∷ []; out = [] }) }
    {
        let out = std::mem::replace(&mut self.out, Vec::new(alloc));
        self.done.push(out)?;
        Ok(())
    }

    /// Whether another argument comes.
    pub fn has_more(&self) -> bool
        ensures { result ≡ nat_lt 0 self.now.more }
    {
        0 < self.more
    }

    /// The next argument is begun.
    pub fn begin_next(&mut self)
        requires { 0 < self.old.more }
        ensures { self.new ≡ record self.old { more = self.old.more - 1 } }
    {
        self.more -= 1;
    }

    /// Whether the argument that is begun is wanted expanded.
    pub fn is_wanted(&self) -> bool
        ensures { result ≡ slice_index_or self.now.wanted (length self.now.done) false }
    {
        let current = self.done.len();
        current < self.wanted.len() && self.wanted[current]
    }
}
