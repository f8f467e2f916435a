//! Whether the list of an `#if` is true (C11 6.10.1p4).
ghost use Rattle.std.specs.Prelude.{◌≡◌, Ok, Err, IfOk, IfErr, not, map};
ghost use Rattle.cr_macros.specs.Tokens.{tokens_of};
ghost use Rattle.cr_phase4.specs.Conditionals as spec;
ghost use Rattle.cr_preproc.specs.Truths.{IsTruth, truth_of};
ghost use Rattle.cr_cond.specs.Value.{is_zero_int};

use cr_base::{IllCause, NameTable, PpTok};
use cr_cond::{CondFault, value};
use std::alloc::Global;

// The cause of a list without a value; none is that of want of memory.
pub fn cause_of(fault: CondFault) -> IllCause
    ensures { result ≡ spec.cause_of fault }
{
    match fault {
        CondFault::Syntax | CondFault::OutOfMemory => IllCause::CondSyntax,
        CondFault::DivideByZero => IllCause::DivideByZero,
        CondFault::Overflow => IllCause::Overflow,
        CondFault::Constant => IllCause::CondConstant,
        CondFault::MadeDefined => IllCause::MadeDefined,
    }
}

fn is_nonzero(number: i128) -> bool
    ensures { result ≡ not (is_zero_int number) }
{
    number != 0
}

fn truth(number: Result<i128, CondFault>) -> Result<bool, CondFault>
    ensures { result ≡ truth_of number }
{
    match number {
        Ok(number) => Ok(is_nonzero(number)),
        Err(fault) => Err(fault),
    }
}

// Whether a list in which macros were expanded and `defined` was answered is true.
pub fn is_true(alloc: Global, names: &NameTable, tokens: &[PpTok]) -> Result<bool, CondFault>
    ensures { IsTruth (spec.list_value (tokens_of names.now tokens.now)) result }
{
    truth(value(alloc, names, tokens))
}
