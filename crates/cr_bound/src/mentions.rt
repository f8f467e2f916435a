//! Identifiers in expressions (C11 6.5.1p2, 6.5.2.2).
ghost use Rattle.std.specs.Prelude.{◌≡◌, ◌&&◌, ℕ, Option, IfOk, IfErr, OnOk};
ghost use Rattle.cr_types.specs.Types.{Table, IsTypeNo, type_at};
ghost use Rattle.cr_binding.specs.Source.{Source};
ghost use Rattle.cr_binding.specs.State.{State, Selects};
ghost use Rattle.cr_binding.specs.Declaring.{used};
ghost use Rattle.cr_binding.specs.Expressions.{push, is_value, identifier};
ghost use Rattle.cr_names.specs.Names.{Refuses};
ghost use Rattle.cr_bound.specs.Kept.{with_bound, IsTyped};
ghost use Rattle.cr_bound.specs.Bound.{Leaves, Moves, StaysTyped, FailsAny, IsWord};
ghost use Rattle.cr_bound.specs.Mentions.{IsMentioned, identifying};

use crate::bound::Bound;
use crate::words::{is_built_in, is_function_name};
use cr_base::{IllCause, Kind, Name, OutOfMemory, Tok};
use cr_names::BindFault;
use cr_scope::Space;
use cr_types::TypeNo;

// What an identifier in an expression is: what the compiler supplies, a declaration with its type, or nothing.
#[derive(Clone, Copy)]
pub(crate) enum Mentioned {
    Supplied,
    Denotes(Option<usize>, TypeNo),
    Nothing,
}

// What an expression can name.
fn is_value(kind: Kind) -> bool
    ensures { result ≡ is_value kind }
{
    matches!(kind, Kind::Object | Kind::Function | Kind::Enumerator)
}

fn holds(a: bool, b: bool) -> bool
    ensures { result ≡ (a && b) }
{
    a && b
}

impl Bound {
    // What the last token is as an identifier, which is called or isn't.
    fn mentioned(&self, called: bool, name: Name, text: &[u8]) -> Mentioned
        ensures { IsMentioned self.now called name text.now result }
    {
        let is_function = holds(self.place.in_body, is_function_name(text));
        if is_function {
            return Mentioned::Supplied;
        }
        let denoted = self.names.meaning(Space::Ordinary, name);
        match self.names.get(denoted) {
            Some(found) => {
                if is_value(found.row.decl.kind) {
                    Mentioned::Denotes(denoted, found.ty)
                } else {
                    Mentioned::Nothing
                }
            }
            None => {
                let is_supplied = holds(called, is_built_in(text));
                if is_supplied {
                    Mentioned::Supplied
                } else {
                    Mentioned::Nothing
                }
            }
        }
    }

    /// The last token, with this name and text, is an identifier in an expression, which is called or isn't (actions
    /// `Callee` and `Mention`). The answer is the type of the operand.
    ///
    /// `Unresolved`: it denotes nothing that an expression can name.
    pub fn identifier(&mut self, called: bool, name: Name, text: &[u8]) -> Result<TypeNo, BindFault>
        ensures ok { IfOk result (λ n. (t : Table) → IsTyped t self.old → Leaves (IsWord self.old.place.last name text.now) t self.old (identifying called) t self.new (push (type_at t n))) }
        ensures given { IfOk result (λ n. (t : Table) → IsTyped t self.old → IsTypeNo t n) }
        ensures ill { IfErr result (λ f. Refuses f (FailsAny (IsWord self.old.place.last name text.now) self.old (identifying called))) }
        ensures typed { StaysTyped self.old self.new }
    {
        let token = self.place.last;
        match self.mentioned(called, name, text) {
            Mentioned::Supplied => {
                self.names.use_built_in(token)?;
                Ok(self.basics.supplied)
            }
            Mentioned::Denotes(denoted, ty) => {
                self.names.look_up(Space::Ordinary, token, denoted)?;
                Ok(ty)
            }
            Mentioned::Nothing => Err(BindFault::Ill(IllCause::Unresolved, token)),
        }
    }

    /// The name of a token selects the member that is declared at another (C11 6.5.2.3, 6.7.9p7).
    pub fn select(&mut self, token: u32, member: u32) -> Result<(), OutOfMemory>
        ensures ok { OnOk result (Moves self.old (used (Selects token member)) self.new) }
        ensures typed { StaysTyped self.old self.new }
    {
        self.names.select(token, member)?;
        Ok(())
    }
}
