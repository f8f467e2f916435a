//! The values of `#if` lines.
#![tactic(auto)]

ghost use Rattle.std.specs.Prelude.{◌≡◌};
ghost use Rattle.cr_cond.specs.Grammar.{ReadsTheGrammar};

mod arithmetic;
mod constant;
mod machine;
mod part;
mod reading;
mod stack;
mod symbol;

use cr_base::OutOfMemory;
pub use reading::value;

/// Why an `#if` list has no value, or want of memory.
#[derive(Clone, Copy, Debug, PartialEq, Eq)]
pub enum CondFault {
    /// The list is no constant expression of C11 6.10.1p1, without assignment, comma and cast.
    Syntax,
    /// An operand that is evaluated divides by 0, with `/` or `%` (C11 6.5.5p5).
    DivideByZero,
    /// A signed result has no place in 64 bits, or a shift is not of 0 to 63, or of a negative number
    /// to the left (C11 6.5p5, 6.5.7p3 and p4).
    Overflow,
    /// A constant is no integer of 64 bits and no character of one byte below 128.
    Constant,
    /// An identifier `defined` is left in the list (C11 6.10.1p4).
    MadeDefined,
    /// No memory was found.
    OutOfMemory,
}

impl From<OutOfMemory> for CondFault {
    ghost use Rattle.cr_cond.specs.declared.CondFault.TheVariants as fault;

    ghost from_gives = { λ _ e. e ≡ fault.OutOfMemory };

    fn from(_: OutOfMemory) -> Self {
        CondFault::OutOfMemory
    }
}

/// The law that the tree that is read from a list of symbols is the one that the grammar of conditional
/// expressions has for it (C11 6.5.3.3 to 6.5.15), and that none is read where it has none. It does no work.
pub fn reading_is_the_grammar()
    ensures { ReadsTheGrammar }
{}

#[cfg(test)]
mod tests;
