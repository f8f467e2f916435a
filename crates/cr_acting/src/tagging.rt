//! Tags and members (C11 6.7.2.1 to 6.7.2.3).
ghost use Rattle.std.specs.Prelude.{◌≡◌};
ghost use Rattle.cr_acting.specs.Binding.{source_by, IsReady, Does};
ghost use Rattle.cr_bound.specs.Bound.{adding, ending, splicing};
ghost use Rattle.cr_bound.specs.Tags.{tag_alone_here, tag_completed, tag_used};
ghost use Rattle.cr_acting.specs.Acting.{untagged_next};

use crate::acting::Spot;
use crate::binding::Binding;
use cr_names::BindFault;
use cr_operands::operands_stay;

impl Binding {
    // A tag is completed.
    pub(crate) fn tag_definition(&mut self, spot: Spot) -> Result<(), BindFault>
        requires { IsReady (source_by spot.words) self.old }
        ensures { Does (source_by spot.entry.words) self.old tag_completed self.new result }
    {
        operands_stay();
        self.bound
            .tag_definition(&mut self.types, spot.words.tokens)?;
        Ok(())
    }

    // A tag is declared alone.
    pub(crate) fn tag_alone(&mut self, spot: Spot) -> Result<(), BindFault>
        requires { IsReady (source_by spot.words) self.old }
        ensures { Does (source_by spot.entry.words) self.old tag_alone_here self.new result }
    {
        operands_stay();
        self.bound.tag_alone(&mut self.types, spot.words.tokens)?;
        Ok(())
    }

    // A tag is used.
    pub(crate) fn tag_use(&mut self, spot: Spot) -> Result<(), BindFault>
        requires { IsReady (source_by spot.words) self.old }
        ensures { Does (source_by spot.entry.words) self.old tag_used self.new result }
    {
        operands_stay();
        self.bound.tag_use(&mut self.types, spot.words.tokens)?;
        Ok(())
    }

    // The next token is a brace in the place of a tag.
    pub(crate) fn untagged(&mut self, spot: Spot) -> Result<(), BindFault>
        requires { IsReady (source_by spot.words) self.old }
        ensures { Does (source_by spot.entry.words) self.old untagged_next self.new result }
    {
        operands_stay();
        let brace = self.next()?;
        self.bound.untagged(&mut self.types, brace)?;
        Ok(())
    }

    // The members of a record end.
    pub(crate) fn end_record(&mut self, spot: Spot) -> Result<(), BindFault>
        requires { IsReady (source_by spot.words) self.old }
        ensures { Does (source_by spot.entry.words) self.old (λ t. ending) self.new result }
    {
        operands_stay();
        self.bound.end_record()?;
        Ok(())
    }

    // A member ends.
    pub(crate) fn add_member(&mut self, spot: Spot) -> Result<(), BindFault>
        requires { IsReady (source_by spot.words) self.old }
        ensures { let t = source_by spot.entry.words in
            Does t self.old (adding spot.entry.parts.now) self.new result }
    {
        operands_stay();
        self.bound
            .add_member(&mut self.types, spot.parts, spot.words.tokens)?;
        Ok(())
    }

    // A declaration of members ends without a declarator.
    pub(crate) fn splice(&mut self, spot: Spot) -> Result<(), BindFault>
        requires { IsReady (source_by spot.words) self.old }
        ensures { Does (source_by spot.entry.words) self.old splicing self.new result }
    {
        operands_stay();
        self.bound.splice(&mut self.types)?;
        Ok(())
    }
}
