//! Expressions (C11 6.5).
ghost use Rattle.std.specs.Prelude.{◌≡◌};
ghost use Rattle.cr_acting.specs.Binding.{source_by, IsReady, Does};
ghost use Rattle.cr_bound.specs.Mentions.{identifying};
ghost use Rattle.cr_acting.specs.Acting.{pushing_type, pushing_value, operating, selecting_last, selecting_by, offset_index};

use crate::acting::Spot;
use crate::binding::Binding;
use cr_names::BindFault;
use cr_operands::{OperandFault, growths_follow, is_arrow, operands_stay};

impl Binding {
    // A type name ends: its type is an operand.
    pub(crate) fn push_type(&mut self, spot: Spot) -> Result<(), BindFault>
        requires { IsReady (source_by spot.words) self.old }
        ensures { let t = source_by spot.entry.words in
            Does t self.old (pushing_type spot.entry.parts.now) self.new result }
    {
        operands_stay();
        growths_follow();
        let ty = self.bound.declared_type(&mut self.types, spot.parts)?;
        self.operands.push(ty)?;
        Ok(())
    }

    // The last token is an identifier, which is called or isn't.
    pub(crate) fn identifier(&mut self, spot: Spot, called: bool) -> Result<(), BindFault>
        requires { IsReady (source_by spot.words) self.old }
        ensures { Does (source_by spot.entry.words) self.old (identifying called) self.new result }
    {
        operands_stay();
        let token = self.bound.last();
        let name = spot.words.name_at(token);
        let text = spot.words.text_at(token);
        let ty = self.bound.identifier(called, name, text)?;
        self.operands.push(ty)?;
        Ok(())
    }

    // The last token is a constant or a string literal.
    pub(crate) fn push_value(&mut self, spot: Spot) -> Result<(), BindFault>
        requires { IsReady (source_by spot.words) self.old }
        ensures { Does (source_by spot.entry.words) self.old pushing_value self.new result }
    {
        operands_stay();
        let kind = spot.words.kind_at(self.bound.last());
        self.operands.push_value(kind)?;
        Ok(())
    }

    // An operator has its operands.
    pub(crate) fn operate(&mut self, spot: Spot) -> Result<(), BindFault>
        requires { IsReady (source_by spot.words) self.old }
        ensures { let t = source_by spot.entry.words in
            Does t self.old (operating spot.entry.node spot.entry.first) self.new result }
    {
        operands_stay();
        self.bound.stay();
        let text = spot.words.text_at(self.first(spot.first));
        self.operands
            .operate(&mut self.types, self.bound.records(), spot.node, text)?;
        Ok(())
    }

    // The last token selects a member.
    pub(crate) fn select(&mut self, spot: Spot) -> Result<(), BindFault>
        requires { IsReady (source_by spot.words) self.old }
        ensures { let t = source_by spot.entry.words in
            Does t self.old (selecting_last spot.entry.first) self.new result }
    {
        operands_stay();
        let arrow = is_arrow(spot.words.text_at(self.first(spot.first)));
        self.select_by(spot, arrow)
    }

    // The same by an arrow or a dot.
    pub(crate) fn select_by(&mut self, spot: Spot, arrow: bool) -> Result<(), BindFault>
        requires { IsReady (source_by spot.words) self.old }
        ensures { Does (source_by spot.entry.words) self.old (selecting_by arrow) self.new result }
    {
        operands_stay();
        let token = self.bound.last();
        let name = spot.words.name_at(token);
        match self
            .operands
            .select(&self.types, self.bound.records(), arrow, name)
        {
            Ok(member) => {
                self.bound.select(token, member)?;
                Ok(())
            }
            Err(OperandFault::Ill(cause)) => Err(BindFault::Ill(cause, token)),
            Err(OperandFault::OutOfMemory) => Err(BindFault::OutOfMemory),
        }
    }

    // An element is named in an offset.
    pub(crate) fn offset_index(&mut self, spot: Spot) -> Result<(), BindFault>
        requires { IsReady (source_by spot.words) self.old }
        ensures { Does (source_by spot.entry.words) self.old offset_index self.new result }
    {
        operands_stay();
        self.bound.stay();
        self.operands
            .index_offset(&mut self.types, self.bound.records())?;
        Ok(())
    }
}
