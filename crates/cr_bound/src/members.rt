//! The members of structures and unions (C11 6.7.2.1).
ghost use Rattle.std.specs.Prelude.{◌≡◌, IfOk, IfErr, OnOk};
ghost use Rattle.cr_types.specs.Types.{IsTypeNo, Keeps, type_at};
ghost use Rattle.cr_binding.specs.State.{State};
ghost use Rattle.cr_binding.specs.Specifying.{specified_type};
ghost use Rattle.cr_names.specs.Names.{HasTokens, Refuses};
ghost use Rattle.cr_bound.specs.Kept.{with_bound, IsTyped};
ghost use Rattle.cr_bound.specs.Bound.{Any, Does, Moves, StaysTyped, Fails, Grows, adding, splicing, ending};
ghost use Rattle.cr_bound.specs.Members.{IsRefusal};

use crate::bound::Bound;
use cr_base::{IllCause, OutOfMemory, Tok};
use cr_names::{BindFault, name_at};
use cr_records::RecordFault;
use cr_types::{Part, TypeNo, Types};

fn refused(fault: RecordFault) -> BindFault
    ensures { IsRefusal fault result }
{
    match fault {
        RecordFault::Redeclared(token) => BindFault::Ill(IllCause::Redeclared, token),
        RecordFault::OutOfMemory => BindFault::OutOfMemory,
    }
}

impl Bound {
    /// The list of members that is read ends (action `EndRec`).
    pub fn end_record(&mut self) -> Result<(), OutOfMemory>
        ensures ok { OnOk result (Moves self.old ending self.new) }
        ensures typed { StaysTyped self.old self.new }
    {
        let Some(r) = self.place.filled else {
            return Ok(());
        };
        self.records.end_record(r)?;
        Ok(())
    }

    /// The end of a member's declarator: a name is added to the record whose members are read, with the type that these
    /// derivations make of the specified one (action `Member`).
    ///
    /// `Redeclared`: the record has a member of that name.
    pub fn add_member(
        &mut self,
        types: &mut Types,
        parts: &[Part],
        tokens: &[Tok],
    ) -> Result<(), BindFault>
        requires { IsTyped types.old self.old }
        ensures ok { OnOk result (Does (HasTokens tokens.now) types.old self.old (adding parts.now) types.new self.new) }
        ensures ill { IfErr result (λ f. Refuses f (Fails (HasTokens tokens.now) types.old self.old (adding parts.now))) }
        ensures typed { IsTyped types.new self.new }
        ensures records { types.new.records ≡ types.old.records }
        ensures keeps { Keeps types.old types.new }
    {
        let Some(r) = self.place.filled else {
            return Ok(());
        };
        let Some(token) = self.pending.name else {
            return Ok(());
        };
        let ty = self.declared_type(types, parts)?;
        let name = name_at(tokens, token);
        match self.records.add_member(types, r, name, ty, token) {
            Ok(()) => Ok(()),
            Err(fault) => Err(refused(fault)),
        }
    }

    // The type that the specifiers name.
    fn specified_type(&self, types: &mut Types) -> Result<TypeNo, OutOfMemory>
        requires { IsTyped types.old self.now }
        ensures given { IfOk result (IsTypeNo types.new) }
        ensures meant { IfOk result (λ n. (s : State) → type_at types.new n ≡ specified_type (with_bound types.old self.now s).pending) }
        ensures grows { Grows types.old types.new self.now }
    {
        self.stay();
        let n = self.pending.specified(types)?;
        Ok(n)
    }

    /// A declaration of members without a declarator: a structure or union without a tag that is specified there is an
    /// anonymous member (action `Splice`; C11 6.7.2.1p13).
    ///
    /// `Redeclared`: the record has a member of one of its names. The token is the least of these.
    pub fn splice(&mut self, types: &mut Types) -> Result<(), BindFault>
        requires { IsTyped types.old self.old }
        ensures ok { OnOk result (Does Any types.old self.old splicing types.new self.new) }
        ensures ill { IfErr result (λ f. Refuses f (Fails Any types.old self.old splicing)) }
        ensures typed { IsTyped types.new self.new }
        ensures records { types.new.records ≡ types.old.records }
        ensures keeps { Keeps types.old types.new }
    {
        if !self.pending.is_untagged {
            return Ok(());
        }
        let Some(r) = self.place.filled else {
            return Ok(());
        };
        let ty = self.specified_type(types)?;
        match self.records.add_anonymous(types, r, ty) {
            Ok(()) => Ok(()),
            Err(fault) => Err(refused(fault)),
        }
    }
}
