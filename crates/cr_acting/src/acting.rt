//! What each action does.
ghost use Rattle.cr_acting.specs.Binding.{source_by, IsReady, Does};
ghost use Rattle.cr_acting.specs.Acting.{acting, staying};

use crate::binding::Binding;
use crate::words::Words;
use cr_grammar::{Action, NonTerm};
use cr_known::Leaves;
use cr_names::BindFault;
use cr_operands::operands_stay;
use cr_types::Part;

/// Where an action stands: its node, the first token of that, where it was met, and the derivations and tokens in the node
/// that ended last.
#[derive(Clone, Copy)]
pub struct Spot<'a> {
    pub node: NonTerm,
    pub first: Option<u32>,
    pub parts: &'a [Part],
    pub leaves: Leaves,
    pub words: Words<'a>,
}

impl Binding {
    // An action, where no list of words is refused.
    pub(crate) fn do_action(&mut self, action: Action, spot: Spot) -> Result<(), BindFault>
        requires { IsReady (source_by spot.words) self.old }
        ensures { let t = source_by spot.entry.words in
            Does t self.old (acting action spot.entry) self.new result }
    {
        match action {
            Action::Decl => self.begin(spot),
            Action::Spec => self.specify(spot),
            Action::Name => self.name(spot),
            Action::Declare => self.declare(spot),
            Action::Param => self.declare_parameter(spot),
            Action::TypeName => self.push_type(spot),
            Action::Enumerator => self.declare_enumerator(spot),
            Action::TagDef => self.tag_definition(spot),
            Action::TagAlone => self.tag_alone(spot),
            Action::TagUse => self.tag_use(spot),
            Action::Anon => self.untagged(spot),
            Action::EndRec => self.end_record(spot),
            Action::Member => self.add_member(spot),
            Action::Splice => self.splice(spot),
            Action::Enter => self.enter(spot),
            Action::Leave => self.leave(spot),
            Action::Body => self.enter_body(spot),
            Action::EndBody => self.end_body(spot),
            Action::Label => self.label(spot),
            Action::Goto => self.go_to(spot),
            Action::Callee => self.identifier(spot, true),
            Action::Mention => self.identifier(spot, false),
            Action::Value => self.push_value(spot),
            Action::Op => self.operate(spot),
            Action::Select => self.select(spot),
            Action::OffMember => self.select_by(spot, false),
            Action::OffIndex => self.offset_index(spot),
            Action::InitOf => self.initialise(spot),
            Action::ListOpen => self.open_list(spot),
            Action::Item => self.end_item(spot),
            Action::Index => self.designate_element(spot),
            Action::Desig => self.designate(spot),
            Action::Hidden => self.hide(spot),
            Action::Bare | Action::InitEnd | Action::Pointer | Action::Array | Action::ListEnd =>
                self.stay(spot),
        }
    }

    // What derives a type, and where declarations and lists end, is read elsewhere.
    fn stay(&mut self, spot: Spot) -> Result<(), BindFault>
        requires { IsReady (source_by spot.words) self.old }
        ensures { Does (source_by spot.entry.words) self.old staying self.new result }
    {
        operands_stay();
        Ok(())
    }
}
