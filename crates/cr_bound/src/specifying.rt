//! Types that are specified otherwise than by keywords (C11 6.7.2.4, 6.7.8).
ghost use Rattle.std.specs.Prelude.{◌≡◌, IfErr, OnOk};
ghost use Rattle.cr_types.specs.Types.{Table, IsTypeNo, type_at};
ghost use Rattle.cr_binding.specs.Source.{Source};
ghost use Rattle.cr_binding.specs.State.{State};
ghost use Rattle.cr_binding.specs.Specifying.{based};
ghost use Rattle.cr_names.specs.Names.{IsNamed, Refuses};
ghost use Rattle.cr_bound.specs.Kept.{with_bound, IsTyped};
ghost use Rattle.cr_bound.specs.Bound.{Any, DoesAny, DoesWith, FailsAny, StaysTyped, StaysWith};
ghost use Rattle.cr_bound.specs.Specifying.{naming_type};

use crate::bound::Bound;
use cr_base::{IllCause, Name};
use cr_names::BindFault;
use cr_scope::Space;
use cr_types::TypeNo;

impl Bound {
    /// A type of the table is specified, as that in `_Atomic ( )` (C11 6.7.2.4).
    pub fn specify(&mut self, ty: TypeNo)
        ensures ok { DoesWith ty Any self.old (λ c _. based c) self.new }
        ensures typed { StaysWith ty self.old self.new }
    {
        self.pending.base = Some(ty);
        self.pending.is_untagged = false;
    }

    /// The token with this name, which the grammar took for a typedef name, specifies the type that it denotes (C11 6.7.8).
    ///
    /// `Unresolved`: it denotes nothing.
    pub fn typedef_name(&mut self, token: u32, name: Name) -> Result<(), BindFault>
        ensures ok { OnOk result
            (DoesAny (IsNamed token name) self.old (naming_type token) self.new) }
        ensures ill { IfErr result (λ f.
            Refuses f (FailsAny (IsNamed token name) self.old (naming_type token))) }
        ensures typed { StaysTyped self.old self.new }
    {
        let denoted = self.names.meaning(Space::Ordinary, name);
        match self.names.get(denoted) {
            Some(found) => {
                self.names.look_up(Space::Ordinary, token, denoted)?;
                self.specify(found.ty);
                Ok(())
            }
            None => Err(BindFault::Ill(IllCause::Unresolved, token)),
        }
    }
}
