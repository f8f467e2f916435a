//! Lists that are expanded, use by use.
ghost use Rattle.std.specs.Prelude.{◌≡◌, ◌≤◌, ◌<◌, ◌-◌, ◌^◌, ◌++◌, ◌∷◌, [], IfOk, OnOk, length, drop};
ghost use Rattle.cr_macros.specs.Definition.{text_of};
ghost use Rattle.cr_macros.specs.Expansion.{expand};
ghost use Rattle.cr_macros.specs.MacroTables.{table_of};
ghost use Rattle.cr_macros.specs.Tokens.{tokens_of};
ghost use Rattle.cr_expand.specs.Ahead.{next_token};
ghost use Rattle.cr_expand.specs.Held.{IsNamed as IsNameKnown};
ghost use Rattle.cr_expand.specs.declared.machine.TheConstants.{LIMIT};
ghost use Rattle.cr_preproc.specs.Expanding.{IsExpanding, still_in, ahead_in, IsUsed, IsFaultOf, IsKept};
ghost use Rattle.cr_preproc.specs.Progressing.{IsProgress};
ghost use Rattle.cr_preproc.specs.Seen.{AreNamed};
ghost use Rattle.cr_phase4.specs.Traces.{opaque_place};

use crate::progress::Progress;
use crate::trace::Trace;
use cr_base::{IllCause, Name, OutOfMemory, Place, PpTok, Role};
use cr_expand::{ExpStep, ExpandFault, Expander, defined_macros_are_known};
use cr_macros::Seen;
use std::alloc::Global;

/// Why a unit isn't preprocessed whole, and where.
#[derive(Clone, Copy, Debug, PartialEq, Eq)]
pub struct Fault {
    pub cause: IllCause,
    pub place: Place,
}

// What a step of an expansion was.
#[derive(Clone, Copy, Debug)]
pub enum Use {
    // A rule was used, which gave this token of the result, or none.
    Gives(PpTok),
    Goes,
    // All is expanded.
    Ends,
    // The unit ends here.
    Fails(Fault),
}

// The expansion of a list; a limit is told at the place.
#[derive(Drop)]
pub struct Expansion {
    pub expander: Expander,
    pub place: Place,
}

// The fault of a unit; a limit is told at the place.
fn fault_at(place: Place, fault: ExpandFault) -> Result<Fault, OutOfMemory>
    ensures { IfOk result (λ f. IsFaultOf fault f) }
{
    match fault {
        ExpandFault::BadDefine(place) => Ok(Fault {
            cause: IllCause::BadDefine,
            place,
        }),
        ExpandFault::ArgCount(place) => Ok(Fault {
            cause: IllCause::ArgCount,
            place,
        }),
        ExpandFault::OpenCall(place) => Ok(Fault {
            cause: IllCause::OpenCall,
            place,
        }),
        ExpandFault::BadPaste(place) => Ok(Fault {
            cause: IllCause::BadPaste,
            place,
        }),
        ExpandFault::LimitMacros => Ok(Fault {
            cause: IllCause::LimitMacros,
            place,
        }),
        ExpandFault::OutOfMemory => Err(OutOfMemory),
    }
}

// Keeps for what a place was taken.
fn keep_one(trace: &mut Trace, seen: Seen) -> Result<(), OutOfMemory>
    ensures seen { OnOk result (trace.new.seen.items ≡ trace.old.seen.items ++ seen ∷ []) }
    ensures opaque { OnOk result (trace.new.opaque.items ≡ trace.old.opaque.items ++ opaque_place seen seen.role) }
    ensures others { (trace.new.new_macros ≡ trace.old.new_macros) × (trace.new.body_params ≡ trace.old.body_params) }
{
    trace.seen.push(seen)?;
    if matches!(seen.role, Role::Opaque) {
        trace.opaque.push(seen.place)?;
    }
    Ok(())
}

// Keeps for what places were taken, behind the first ones.
fn keep(trace: &mut Trace, seen: &[Seen], before: usize) -> Result<(), OutOfMemory>
    requires { before ≤ length seen.now }
    ensures { OnOk result (IsKept trace.old trace.new (drop before seen.now)) }
{
    for i in before..seen.len() {
        keep_one(trace, seen[i])?;
    }
    Ok(())
}

impl Expansion {
    // The expansion of a list, which is still to be done; in a box, so that it stays where it is.
    pub fn boxed(
        alloc: Global,
        progress: &Progress,
        literal: Name,
        place: Place,
        tokens: &[PpTok],
    ) -> Result<Box<Expansion>, OutOfMemory>
        requires good { IsProgress progress.now }
        requires literal { IsNameKnown progress.now.names literal }
        requires tokens { AreNamed progress.now.names tokens.now }
        ensures expanding { IfOk result (λ e. IsExpanding progress.now e.value) }
        ensures ahead { IfOk result (λ e. ahead_in progress.now e.value ≡ next_token (table_of progress.now.names progress.now.macros (text_of progress.now.names literal)) (tokens_of progress.now.names tokens.now) (LIMIT - progress.now.used)) }
        ensures still { IfOk result (λ e. still_in progress.now e.value ≡ expand (table_of progress.now.names progress.now.macros (text_of progress.now.names literal)) (tokens_of progress.now.names tokens.now) (LIMIT - progress.now.used)) }
        ensures literal { IfOk result (λ e. e.value.expander.machine.file ≡ literal) }
    {
        let renaming = progress.renaming;
        let mut expander = Expander::new(alloc, renaming.old, renaming.new, literal, progress.used);
        expander.feed(tokens)?;
        expander.finish();
        Ok(Box::new(alloc, Expansion { expander, place })?)
    }

    // The next use of a rule, with its roles noted.
    pub fn step(&mut self, progress: &mut Progress) -> Result<Use, OutOfMemory>
        requires good { IsProgress progress.old }
        requires room { length progress.old.names < 2 ^ 31 }
        requires expanding { IsExpanding progress.old self.old }
        ensures used { IfOk result (λ u. IsUsed progress.old progress.new self.old self.new u) }
        ensures good { OnOk result (IsProgress progress.new) }
    {
        defined_macros_are_known();
        let before = self.expander.seen().len();
        match self.expander.step(&progress.macros, &mut progress.names) {
            Ok(ExpStep::Out(t)) => {
                keep(&mut progress.trace, self.expander.seen(), before)?;
                Ok(Use::Gives(t))
            }
            Ok(ExpStep::More) => {
                keep(&mut progress.trace, self.expander.seen(), before)?;
                Ok(Use::Goes)
            }
            Ok(ExpStep::End) => Ok(Use::Ends),
            Ok(ExpStep::Hungry) => unreachable!(),
            Err(fault) => {
                // The table of names has each text once.
                let _ = progress.names.text(progress.renaming.old);
                let fault = fault_at(self.place, fault)?;
                Ok(Use::Fails(fault))
            }
        }
    }

    // The macro work that is used.
    pub fn used(&self) -> u32
        ensures { result ≡ self.now.expander.machine.used }
    {
        self.expander.work()
    }
}
