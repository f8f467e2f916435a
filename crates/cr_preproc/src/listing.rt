//! The lists of directives, which are expanded use by use.
ghost use Rattle.std.specs.Prelude.{◌≡◌, ◌≤◌, ◌<◌, ◌-◌, ◌^◌, [], IfOk, OnOk, length};
ghost use Rattle.cr_macros.specs.Definition.{text_of};
ghost use Rattle.cr_macros.specs.Expansion.{expand};
ghost use Rattle.cr_macros.specs.MacroTables.{table_of};
ghost use Rattle.cr_macros.specs.Tokens.{tokens_of};
ghost use Rattle.cr_phase4.specs.Tasks.{moved};
ghost use Rattle.cr_expand.specs.Held.{IsNamed as IsNameKnown};
ghost use Rattle.cr_expand.specs.declared.machine.TheConstants.{LIMIT};
ghost use Rattle.cr_preproc.specs.Expanding.{still_in, end_by};
ghost use Rattle.cr_preproc.specs.Listings.{IsListing, IsListed};
ghost use Rattle.cr_preproc.specs.Progressing.{IsProgress};
ghost use Rattle.cr_preproc.specs.Seen.{AreNamed};

use crate::expansion::{Expansion, Fault, Use};
use crate::progress::Progress;
use cr_base::{Name, OutOfMemory, Place, PpTok};
use std::alloc::Global;

// The list of the directive with this `#`: its expansion, and the tokens that it gave so far.
#[derive(Drop)]
pub struct Listing {
    pub expansion: Box<Expansion>,
    pub given: Vec<PpTok>,
    pub hash: Place,
}

// What a step of a list's expansion was.
#[derive(Clone, Copy, Debug)]
pub enum Listed {
    // A rule was used.
    Goes,
    // All is expanded.
    Ends,
    // The unit ends here.
    Fails(Fault),
}

// The fault of a list, which stands at the `#` of its directive.
fn at(hash: Place, fault: Fault) -> Fault
    ensures { end_by result ≡ moved hash (end_by fault) }
{
    Fault {
        cause: fault.cause,
        place: hash,
    }
}

impl Listing {
    // A list that is still to be expanded.
    pub fn new(
        alloc: Global,
        progress: &Progress,
        literal: Name,
        hash: Place,
        tokens: &[PpTok],
    ) -> Result<Listing, OutOfMemory>
        requires good { IsProgress progress.now }
        requires literal { IsNameKnown progress.now.names literal }
        requires tokens { AreNamed progress.now.names tokens.now }
        ensures listing { IfOk result (λ l. IsListing progress.now l) }
        ensures still { IfOk result (λ l. still_in progress.now l.expansion.value ≡ expand (table_of progress.now.names progress.now.macros (text_of progress.now.names literal)) (tokens_of progress.now.names tokens.now) (LIMIT - progress.now.used)) }
        ensures literal { IfOk result (λ l. l.expansion.value.expander.machine.file ≡ literal) }
        ensures given { IfOk result (λ l. l.given.items ≡ []) }
        ensures hash { IfOk result (λ l. l.hash ≡ hash) }
    {
        Ok(Listing {
            expansion: Expansion::boxed(alloc, progress, literal, hash, tokens)?,
            given: Vec::new(alloc),
            hash,
        })
    }

    // The next use of a rule. A token that it gives is kept.
    pub fn step(&mut self, progress: &mut Progress) -> Result<Listed, OutOfMemory>
        requires good { IsProgress progress.old }
        requires room { length progress.old.names < 2 ^ 31 }
        requires listing { IsListing progress.old self.old }
        ensures listed { IfOk result (λ l. IsListed progress.old progress.new self.old self.new l) }
        ensures good { OnOk result (IsProgress progress.new) }
    {
        match self.expansion.step(progress)? {
            Use::Goes => Ok(Listed::Goes),
            Use::Gives(t) => {
                self.given.push(t)?;
                Ok(Listed::Goes)
            }
            Use::Ends => Ok(Listed::Ends),
            Use::Fails(fault) => Ok(Listed::Fails(at(self.hash, fault))),
        }
    }

    // The macro work that is used.
    pub fn used(&self) -> u32
        ensures { result ≡ self.now.expansion.value.expander.machine.used }
    {
        self.expansion.used()
    }
}
