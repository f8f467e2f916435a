//! Scopes, function bodies and labels (C11 6.2.1, 6.8.1, 6.8.6.1).
ghost use Rattle.std.specs.Prelude.{◌≡◌, ◌+◌, ◌<◌, ◌^◌, IfOk, IfErr, OnOk, ◌++◌, ◌∷◌, []};
ghost use Rattle.cr_types.specs.Types.{Table};
ghost use Rattle.cr_binding.specs.State.{State};
ghost use Rattle.cr_binding.specs.Scoping.{entered, entered_in, left, body_within, body_ended, declare_label};
ghost use Rattle.cr_names.specs.Names.{HasTokens, Refuses, hiding};
ghost use Rattle.cr_bound.specs.Kept.{with_bound};
ghost use Rattle.cr_bound.specs.Bound.{Any, DoesAny, Does, Moves, StaysTyped, FailsAny};
ghost use Rattle.cr_bound.specs.Scoping.{entering, entering_body, jumping, labelling, hiding_last, HasNext};

use crate::bound::Bound;
use cr_base::{IllCause, Kind, OutOfMemory, Tok};
use cr_grammar::NonTerm;
use cr_names::{BindFault, name_at};
use cr_scope::{Decl, Linkage, Space};

// Whether what a node enters is the scope of a function suffix.
fn is_suffix(node: NonTerm) -> bool
    ensures { (s : State) → entered_in node s ≡ entering result s }
{
    matches!(node, NonTerm::Sufs)
}

impl Bound {
    /// A scope is entered in a node: that of a function suffix, or of a block (action `Enter`).
    pub fn enter(&mut self, node: NonTerm) -> Result<(), OutOfMemory>
        ensures ok { OnOk result (Moves self.old (entered_in node) self.new) }
        ensures typed { StaysTyped self.old self.new }
    {
        self.names.enter()?;
        if is_suffix(node) {
            let scope = self.names.scopes();
            self.pending.parameters = Some(self.pending.parameters.unwrap_or(scope));
        }
        Ok(())
    }

    /// The present scope is left (action `Leave`).
    pub fn leave(&mut self)
        ensures ok { Moves self.old left self.new }
        ensures typed { StaysTyped self.old self.new }
    {
        self.names.leave();
    }

    /// The body of a function begins, in the scope of its parameters (action `Body`).
    ///
    /// `Syntax`: what was declared has none. The token is the next one.
    pub fn enter_body(&mut self) -> Result<(), BindFault>
        requires { HasNext self.old }
        ensures ok { OnOk result (Moves self.old entering_body self.new) }
        ensures ill { IfErr result (λ f. Refuses f (FailsAny Any self.old (λ t. entering_body))) }
        ensures typed { StaysTyped self.old self.new }
    {
        let Some(scope) = self.pending.parameters else {
            return Err(BindFault::Ill(IllCause::Syntax, self.place.last + 1));
        };
        self.names.enter_again(scope)?;
        self.place.in_body = true;
        self.place.jumps.clear();
        Ok(())
    }

    /// The body of a function ends: its jumps go to its labels (action `EndBody`).
    ///
    /// `Unresolved`: the first jump that has no label.
    pub fn end_body(&mut self, tokens: &[Tok]) -> Result<(), BindFault>
        ensures ok { OnOk result (DoesAny (HasTokens tokens.now) self.old body_ended self.new) }
        ensures ill { IfErr result (λ f. Refuses f (FailsAny (HasTokens tokens.now) self.old body_ended)) }
        ensures typed { StaysTyped self.old self.new }
    {
        self.names.all_jumps(&self.place.jumps, tokens)?;
        self.names.leave();
        self.place.in_body = false;
        self.place.jumps.clear();
        Ok(())
    }

    /// The last token names a label (action `Label`).
    ///
    /// `Redeclared`: the function has a label of that name.
    pub fn label(&mut self, tokens: &[Tok]) -> Result<(), BindFault>
        ensures ok { OnOk result (DoesAny (HasTokens tokens.now) self.old labelling self.new) }
        ensures ill { IfErr result (λ f. Refuses f (FailsAny (HasTokens tokens.now) self.old labelling)) }
        ensures typed { StaysTyped self.old self.new }
    {
        let token = self.place.last;
        let label = Decl {
            space: Space::Label,
            name: name_at(tokens, token),
            token,
            kind: Kind::Label,
            linkage: Linkage::None,
            note: 0,
        };
        self.names.declare(label, self.basics.void)?;
        Ok(())
    }

    /// The last token names the label of a jump (action `Goto`).
    pub fn go_to(&mut self) -> Result<(), OutOfMemory>
        ensures ok { OnOk result (Moves self.old jumping self.new) }
        ensures typed { StaysTyped self.old self.new }
    {
        self.place.jumps.push(self.place.last)?;
        Ok(())
    }

    /// The last token stands in the brackets of an attribute (action `Hidden`).
    pub fn hide(&mut self) -> Result<(), OutOfMemory>
        ensures ok { OnOk result (Moves self.old hiding_last self.new) }
        ensures typed { StaysTyped self.old self.new }
    {
        self.names.hide(self.place.last)?;
        Ok(())
    }
}
