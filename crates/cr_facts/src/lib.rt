//! Facts of translation units, and their sets.
#![tactic(auto)]

ghost use Rattle.std.specs.Prelude.{◌≡◌};
ghost use Rattle.std.specs.Option.{option_copied};
ghost use Rattle.cr_facts.specs.FactOrder.{FactsAreOrdered};

mod fact;
mod fact_set;
#[cfg(test)]
mod tests;

pub use fact::Fact;
pub use fact_set::{FactIter, FactSet};

/// A law over facts: their derived order is total, and only equal facts tie in it, so that the
/// lemmas on finite sets hold of sets of facts. It does no work.
pub fn facts_are_ordered()
    ensures { FactsAreOrdered }
{}

/// What may end in a set of facts.
pub trait Ends {
    ghost use Rattle.std.specs.Prelude.{Option, option_map};
    ghost use Rattle.cr_facts.specs.FactOrder.{Facts};

    ghost facts: { Self → Option Facts };

    /// The facts of an end that has them.
    fn facts(&self) -> Option<&FactSet>
        ensures { option_copied result ≡ facts self.now };
}
