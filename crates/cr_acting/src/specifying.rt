//! Type specifiers (C11 6.7.2).
ghost use Rattle.std.specs.Prelude.{◌≡◌};
ghost use Rattle.cr_acting.specs.Binding.{source_by, IsReady, Does};
ghost use Rattle.cr_binding.specs.State.{State};
ghost use Rattle.cr_binding.specs.Specifying.{specified_by};
ghost use Rattle.cr_bound.specs.Specifying.{naming_type};
ghost use Rattle.cr_acting.specs.Acting.{specifying, specifying_if, specifying_operand, specifying_by};

use crate::acting::Spot;
use crate::binding::Binding;
use cr_bound::specifier;
use cr_decl::SpecWord;
use cr_names::BindFault;
use cr_operands::operands_stay;

// Whether a word is `_Atomic`.
fn is_atomic(word: Option<SpecWord>) -> bool
    ensures { (s : State) → specified_by word s ≡ specifying_if result s }
{
    matches!(word, Some(SpecWord::Atomic))
}

impl Binding {
    // A type specifier: a typedef name, or a keyword.
    pub(crate) fn specify(&mut self, spot: Spot) -> Result<(), BindFault>
        requires { IsReady (source_by spot.words) self.old }
        ensures { let t = source_by spot.entry.words in
            Does t self.old (specifying spot.entry.first) self.new result }
    {
        operands_stay();
        let token = self.first(spot.first);
        if spot.words.is_identifier(token) {
            self.specify_name(spot, token)
        } else {
            self.specify_by(spot, specifier(spot.words.text_at(token)))
        }
    }

    // A typedef name.
    pub(crate) fn specify_name(&mut self, spot: Spot, token: u32) -> Result<(), BindFault>
        requires { IsReady (source_by spot.words) self.old }
        ensures { Does (source_by spot.entry.words) self.old (naming_type token) self.new result }
    {
        operands_stay();
        self.bound.typedef_name(token, spot.words.name_at(token))?;
        Ok(())
    }

    // What a word specifies besides what it says among the others.
    pub(crate) fn specify_by(&mut self, spot: Spot, word: Option<SpecWord>) -> Result<(), BindFault>
        requires { IsReady (source_by spot.words) self.old }
        ensures { Does (source_by spot.entry.words) self.old (specifying_by word) self.new result }
    {
        operands_stay();
        if is_atomic(word) {
            self.specify_operand(spot)
        } else {
            Ok(())
        }
    }

    // `_Atomic ( )` with the type that its type name left (C11 6.7.2.4).
    pub(crate) fn specify_operand(&mut self, spot: Spot) -> Result<(), BindFault>
        requires { IsReady (source_by spot.words) self.old }
        ensures { let t = source_by spot.entry.words in
            Does t self.old (λ t. specifying_operand) self.new result }
    {
        operands_stay();
        let ty = self.operands.operand();
        self.bound.specify(ty);
        self.operands.drop_last();
        Ok(())
    }
}
