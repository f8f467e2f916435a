//! Scopes, function bodies and labels (C11 6.2.1, 6.8.1, 6.8.6.1).
ghost use Rattle.std.specs.Prelude.{◌≡◌};
ghost use Rattle.cr_acting.specs.Binding.{source_by, IsReady, Does};
ghost use Rattle.cr_binding.specs.Scoping.{entered_in, left, body_ended};
ghost use Rattle.cr_bound.specs.Scoping.{entering_body, labelling, jumping, hiding_last};

use crate::acting::Spot;
use crate::binding::Binding;
use cr_names::BindFault;
use cr_operands::operands_stay;

impl Binding {
    // A scope begins.
    pub(crate) fn enter(&mut self, spot: Spot) -> Result<(), BindFault>
        requires { IsReady (source_by spot.words) self.old }
        ensures { let t = source_by spot.entry.words in
            Does t self.old (λ t. entered_in spot.entry.node) self.new result }
    {
        operands_stay();
        self.bound.enter(spot.node)?;
        Ok(())
    }

    // A scope ends.
    pub(crate) fn leave(&mut self, spot: Spot) -> Result<(), BindFault>
        requires { IsReady (source_by spot.words) self.old }
        ensures { Does (source_by spot.entry.words) self.old (λ t. left) self.new result }
    {
        operands_stay();
        self.bound.leave();
        Ok(())
    }

    // The body of a function begins.
    pub(crate) fn enter_body(&mut self, spot: Spot) -> Result<(), BindFault>
        requires { IsReady (source_by spot.words) self.old }
        ensures { Does (source_by spot.entry.words) self.old (λ t. entering_body) self.new result }
    {
        operands_stay();
        let _ = self.next()?;
        self.bound.enter_body()?;
        Ok(())
    }

    // The body of a function ends.
    pub(crate) fn end_body(&mut self, spot: Spot) -> Result<(), BindFault>
        requires { IsReady (source_by spot.words) self.old }
        ensures { Does (source_by spot.entry.words) self.old body_ended self.new result }
    {
        operands_stay();
        self.bound.end_body(spot.words.tokens)?;
        Ok(())
    }

    // The last token names a label.
    pub(crate) fn label(&mut self, spot: Spot) -> Result<(), BindFault>
        requires { IsReady (source_by spot.words) self.old }
        ensures { Does (source_by spot.entry.words) self.old labelling self.new result }
    {
        operands_stay();
        self.bound.label(spot.words.tokens)?;
        Ok(())
    }

    // The last token names the label of a jump.
    pub(crate) fn go_to(&mut self, spot: Spot) -> Result<(), BindFault>
        requires { IsReady (source_by spot.words) self.old }
        ensures { Does (source_by spot.entry.words) self.old (λ t. jumping) self.new result }
    {
        operands_stay();
        self.bound.go_to()?;
        Ok(())
    }

    // The last token stands in the brackets of an attribute.
    pub(crate) fn hide(&mut self, spot: Spot) -> Result<(), BindFault>
        requires { IsReady (source_by spot.words) self.old }
        ensures { Does (source_by spot.entry.words) self.old (λ t. hiding_last) self.new result }
    {
        operands_stay();
        self.bound.hide()?;
        Ok(())
    }
}
