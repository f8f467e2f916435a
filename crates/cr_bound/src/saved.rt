//! What the end of a node puts back.
ghost use Rattle.std.specs.Prelude.{◌≡◌};
ghost use Rattle.cr_types.specs.Types.{Table};
ghost use Rattle.cr_binding.specs.State.{State};
ghost use Rattle.cr_known.specs.Known.{saved_for, put_back};
ghost use Rattle.cr_bound.specs.Kept.{with_bound, IsTyped};
ghost use Rattle.cr_bound.specs.Bound.{Any, Does};
ghost use Rattle.cr_bound.specs.Saving.{saved_by, unaimed, IsTypedSaved, SavedStay};

use crate::bound::Bound;
use crate::pending::Pending;
use cr_grammar::NonTerm;
use cr_types::RecNo;

/// What of a declaration the end of a node puts back: what was gathered, or the record whose members were read.
#[derive(Drop)]
pub enum Saved {
    Nothing,
    Gathering(Pending),
    Filling(Option<RecNo>),
}

/// As types are added, what was saved is the same. It does nothing: its contract is the law.
pub fn saved_stay()
    ensures { SavedStay }
{}

impl Bound {
    /// What the end of a node that begins here puts back, but for the object of an initialiser.
    pub fn save(&self, node: NonTerm) -> Saved
        ensures saved { (t : Table) (s : State) → saved_by t result ≡ unaimed (saved_for node (with_bound t self.now s)) }
        ensures typed { (t : Table) → IsTyped t self.now → IsTypedSaved t result }
    {
        match node {
            NonTerm::Members | NonTerm::Param | NonTerm::TypeName => {
                Saved::Gathering(self.pending.copy())
            }
            NonTerm::RecTail | NonTerm::EnumTail => Saved::Filling(self.place.filled),
            _ => Saved::Nothing,
        }
    }

    /// The end of a node puts back what was saved.
    pub fn restore(&mut self, saved: Saved)
        ensures ok { (t : Table) → Does Any t self.old (λ _. put_back (saved_by t saved)) t self.new }
        ensures typed { (t : Table) → IsTyped t self.old → IsTypedSaved t saved → IsTyped t self.new }
    {
        match saved {
            Saved::Nothing => {}
            Saved::Gathering(pending) => self.pending = pending,
            Saved::Filling(filled) => self.place.filled = filled,
        }
    }
}
