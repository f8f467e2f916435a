//! Declarations (C11 6.7, 6.9).
ghost use Rattle.std.specs.Prelude.{◌≡◌};
ghost use Rattle.cr_acting.specs.Binding.{source_by, IsReady, Does};
ghost use Rattle.cr_bound.specs.Bound.{beginning, naming, declaring, declaring_parameter};
ghost use Rattle.cr_acting.specs.Acting.{enumerating_first};

use crate::acting::Spot;
use crate::binding::Binding;
use cr_names::BindFault;
use cr_operands::operands_stay;

impl Binding {
    // A declaration begins.
    pub(crate) fn begin(&mut self, spot: Spot) -> Result<(), BindFault>
        requires { IsReady (source_by spot.words) self.old }
        ensures { Does (source_by spot.entry.words) self.old (λ t. beginning) self.new result }
    {
        operands_stay();
        self.bound.begin();
        Ok(())
    }

    // Its declarator is named by the last token.
    pub(crate) fn name(&mut self, spot: Spot) -> Result<(), BindFault>
        requires { IsReady (source_by spot.words) self.old }
        ensures { Does (source_by spot.entry.words) self.old (λ t. naming) self.new result }
    {
        operands_stay();
        self.bound.name();
        Ok(())
    }

    // A declarator ends.
    pub(crate) fn declare(&mut self, spot: Spot) -> Result<(), BindFault>
        requires { IsReady (source_by spot.words) self.old }
        ensures { let t = source_by spot.entry.words in
            Does t self.old (declaring spot.entry.parts.now) self.new result }
    {
        operands_stay();
        self.bound
            .declare(&mut self.types, spot.parts, spot.words.tokens)?;
        Ok(())
    }

    // A parameter ends.
    pub(crate) fn declare_parameter(&mut self, spot: Spot) -> Result<(), BindFault>
        requires { IsReady (source_by spot.words) self.old }
        ensures { let t = source_by spot.entry.words in
            Does t self.old (declaring_parameter spot.entry.parts.now) self.new result }
    {
        operands_stay();
        self.bound
            .declare_parameter(&mut self.types, spot.parts, spot.words.tokens)?;
        Ok(())
    }

    // An enumerator, of which the first token of the node is the name.
    pub(crate) fn declare_enumerator(&mut self, spot: Spot) -> Result<(), BindFault>
        requires { IsReady (source_by spot.words) self.old }
        ensures { let t = source_by spot.entry.words in
            Does t self.old (enumerating_first spot.entry.first) self.new result }
    {
        operands_stay();
        let token = self.first(spot.first);
        self.bound.declare_enumerator(token, spot.words.tokens)?;
        Ok(())
    }
}
