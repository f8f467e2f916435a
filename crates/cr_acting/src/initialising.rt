//! Initialisers (C11 6.7.9).
ghost use Rattle.std.specs.Prelude.{◌≡◌, IfOk, OnOk};
ghost use Rattle.cr_types.specs.Types.{IsTypeNo, type_at};
ghost use Rattle.cr_acting.specs.Binding.{source_by, state_of, IsWhole, IsReady, Leads, Does};
ghost use Rattle.cr_binding.specs.Initialising.{list_opened, index_designator};
ghost use Rattle.cr_acting.specs.Acting.{staying, initialising, aiming, aiming_at_last, aiming_at_operand, ending_item, designating_last};
ghost use Rattle.cr_operands.specs.Operands.{may_select};
ghost use Rattle.cr_ll.specs.Guards.{is_string};
ghost use Rattle.cr_known.specs.Shapes.{is_one_string};
ghost use Rattle.cr_binding.specs.State.{State};
ghost use Rattle.cr_binding.specs.Initialising.{initialiser, last_type};

use crate::acting::Spot;
use crate::binding::Binding;
use crate::words::Words;
use cr_base::{OutOfMemory, TokKind};
use cr_grammar::NonTerm;
use cr_known::Leaves;
use cr_names::BindFault;
use cr_operands::{OperandFault, growths_follow, operands_stay};
use cr_types::{Ty, TypeNo};

// Whether what a node initialises is the object of a declarator, and not a compound literal.
fn is_of_declarator(node: NonTerm) -> bool
    ensures { (s : State) → initialiser node s ≡ aiming result s }
{
    matches!(node, NonTerm::InitOpt)
}

fn is_string(kind: TokKind) -> bool
    ensures { result ≡ is_string kind }
{
    matches!(kind, TokKind::Str)
}

// Whether an expression of these tokens is one string literal.
fn is_one_string(leaves: Leaves, words: Words) -> bool
    ensures { result ≡ is_one_string (source_by words.entry) leaves }
{
    match leaves {
        Leaves::OneToken(i) => is_string(words.kind_at(i)),
        _ => false,
    }
}

impl Binding {
    // An initialiser begins.
    pub(crate) fn initialise(&mut self, spot: Spot) -> Result<(), BindFault>
        requires { IsReady (source_by spot.words) self.old }
        ensures { let t = source_by spot.entry.words in
            Does t self.old (initialising spot.entry.node) self.new result }
    {
        operands_stay();
        if is_of_declarator(spot.node) {
            self.aim_at_last(spot)
        } else {
            self.aim_at_operand(spot)
        }
    }

    // The type of what was declared last, or else void.
    fn last_type(&mut self) -> Result<TypeNo, OutOfMemory>
        requires { IsWhole self.old }
        ensures given { IfOk result (IsTypeNo self.new.types) }
        ensures meant { IfOk result (λ n.
            type_at self.new.types n ≡ last_type (state_of self.old).declarations) }
        ensures same { OnOk result (Leads self.old staying self.new) }
    {
        operands_stay();
        self.bound.stay();
        match self.bound.names().last_type() {
            Some(ty) => Ok(ty),
            None => {
                let ty = self.types.make(Ty::Void)?;
                Ok(ty)
            }
        }
    }

    // An initialiser is for the object that was declared last.
    pub(crate) fn aim_at_last(&mut self, spot: Spot) -> Result<(), BindFault>
        requires { IsReady (source_by spot.words) self.old }
        ensures { let t = source_by spot.entry.words in
            Does t self.old (λ t. aiming_at_last) self.new result }
    {
        growths_follow();
        let ty = self.last_type()?;
        self.operands.aim(ty);
        Ok(())
    }

    // An initialiser is for a compound literal of the last operand's type.
    pub(crate) fn aim_at_operand(&mut self, spot: Spot) -> Result<(), BindFault>
        requires { IsReady (source_by spot.words) self.old }
        ensures { let t = source_by spot.entry.words in
            Does t self.old (λ t. aiming_at_operand) self.new result }
    {
        operands_stay();
        self.operands.aim_at_operand();
        Ok(())
    }

    // A list in braces begins.
    pub(crate) fn open_list(&mut self, spot: Spot) -> Result<(), BindFault>
        requires { IsReady (source_by spot.words) self.old }
        ensures { Does (source_by spot.entry.words) self.old (λ t. list_opened) self.new result }
    {
        operands_stay();
        self.operands.open_list(&self.types, self.bound.records());
        Ok(())
    }

    // An item of a list ends that is an expression.
    pub(crate) fn end_item(&mut self, spot: Spot) -> Result<(), BindFault>
        requires { IsReady (source_by spot.words) self.old }
        ensures { let t = source_by spot.entry.words in
            Does t self.old (ending_item spot.entry.leaves) self.new result }
    {
        operands_stay();
        let is_string = is_one_string(spot.leaves, spot.words);
        self.operands
            .end_item(&self.types, self.bound.records(), is_string);
        Ok(())
    }

    // An element is designated by the last operand.
    pub(crate) fn designate_element(&mut self, spot: Spot) -> Result<(), BindFault>
        requires { IsReady (source_by spot.words) self.old }
        ensures { let t = source_by spot.entry.words in
            Does t self.old (λ t. index_designator) self.new result }
    {
        operands_stay();
        self.operands
            .designate_element(&self.types, self.bound.records());
        Ok(())
    }

    // A token designates this member, if it does one.
    pub(crate) fn note_designated(
        &mut self,
        spot: Spot,
        token: u32,
        member: Option<u32>,
    ) -> Result<(), BindFault>
        requires { IsReady (source_by spot.words) self.old }
        ensures { let t = source_by spot.entry.words in
            Does t self.old (λ t. may_select member token) self.new result }
    {
        operands_stay();
        match member {
            Some(member) => {
                self.bound.select(token, member)?;
                Ok(())
            }
            None => Ok(()),
        }
    }

    // The last token designates a member.
    pub(crate) fn designate(&mut self, spot: Spot) -> Result<(), BindFault>
        requires { IsReady (source_by spot.words) self.old }
        ensures { Does (source_by spot.entry.words) self.old designating_last self.new result }
    {
        operands_stay();
        growths_follow();
        let token = self.bound.last();
        let name = spot.words.name_at(token);
        match self
            .operands
            .designate(&self.types, self.bound.records(), name)
        {
            Ok(member) => self.note_designated(spot, token, member),
            Err(OperandFault::Ill(cause)) => Err(BindFault::Ill(cause, token)),
            Err(OperandFault::OutOfMemory) => Err(BindFault::OutOfMemory),
        }
    }
}
