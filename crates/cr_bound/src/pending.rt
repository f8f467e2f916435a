//! What a declaration gathers.
ghost use Rattle.std.specs.Prelude.{◌≡◌, IfOk, IfErr, IfSome, OnOk, OnErr, OnSome};
ghost use Rattle.std.specs.List.{list_any};
ghost use Rattle.cr_types.specs.Types.{Table, IsTypeNo, Keeps, type_at, derived_by};
ghost use Rattle.cr_decl.specs.Specifiers.{same_word, is_permitted};
ghost use Rattle.cr_binding.specs.State.{State, nothing_pending};
ghost use Rattle.cr_binding.specs.Specifying.{specified, specified_type};
ghost use Rattle.cr_bound.specs.Kept.{pending_by, with_pending};
ghost use Rattle.cr_bound.specs.Pending.{IsRefused};

use crate::words::is_basic;
use cr_base::{IllCause, OutOfMemory};
use cr_decl::{SpecState, SpecWord};
use cr_names::BindFault;
use cr_types::{Part, TypeNo, Types};

/// What a declaration gathers from its specifiers and its declarator (C11 6.7).
#[derive(Drop)]
pub struct Pending {
    pub(crate) specifiers: SpecState,
    // the token of the last word that names a basic type
    pub(crate) last_basic: u32,
    // the type that is specified otherwise, and whether it is a record without a tag
    pub(crate) base: Option<TypeNo>,
    pub(crate) is_untagged: bool,
    // the token of the name, and the scope of the function suffix nearest to it
    pub(crate) name: Option<u32>,
    pub(crate) parameters: Option<usize>,
}

impl Pending {
    pub(crate) fn new() -> Pending
        ensures seen { (t : Table) → pending_by t result ≡ nothing_pending }
        ensures base { result.base ≡ None }
    {
        Pending {
            specifiers: SpecState::new(),
            last_basic: 0,
            base: None,
            is_untagged: false,
            name: None,
            parameters: None,
        }
    }

    pub(crate) fn copy(&self) -> Pending
        ensures { result ≡ self.now }
    {
        Pending {
            specifiers: self.specifiers.copy(),
            last_basic: self.last_basic,
            base: self.base,
            is_untagged: self.is_untagged,
            name: self.name,
            parameters: self.parameters,
        }
    }

    // A specifier joins the others, if the token is one and some permitted list goes on with it.
    pub(crate) fn read(&mut self, word: Option<SpecWord>, i: u32) -> Result<(), BindFault>
        ensures ok { OnOk result ((t : Table) (s : State) → with_pending t self.new s ≡ specified word i (with_pending t self.old s)) }
        ensures ill { IfErr result (IsRefused word i self.old) }
        ensures base { self.new.base ≡ self.old.base }
    {
        let Some(word) = word else {
            return Ok(());
        };
        if self.specifiers.word(word).is_err() {
            return Err(BindFault::Ill(IllCause::BadSpecifiers, i));
        }
        if is_basic(word) {
            self.last_basic = i;
        }
        Ok(())
    }

    // The type that the specifiers name.
    pub(crate) fn specified(&self, types: &mut Types) -> Result<TypeNo, OutOfMemory>
        requires { IfSome self.now.base (IsTypeNo types.old) }
        ensures given { IfOk result (IsTypeNo types.new) }
        ensures meant { IfOk result (λ n. type_at types.new n ≡ specified_type (pending_by types.old self.now)) }
        ensures records { types.new.records ≡ types.old.records }
        ensures keeps { Keeps types.old types.new }
    {
        match self.base {
            Some(ty) => Ok(ty),
            None => self.specifiers.base(types),
        }
    }

    // The type that a declarator with these derivations makes of it.
    pub(crate) fn declared_type(
        &self,
        types: &mut Types,
        parts: &[Part],
    ) -> Result<TypeNo, OutOfMemory>
        requires { IfSome self.now.base (IsTypeNo types.old) }
        ensures given { IfOk result (IsTypeNo types.new) }
        ensures meant { IfOk result (λ n. type_at types.new n ≡ derived_by parts.now (specified_type (pending_by types.old self.now))) }
        ensures records { types.new.records ≡ types.old.records }
        ensures keeps { Keeps types.old types.new }
    {
        let base = self.specified(types)?;
        let n = types.derive(base, parts)?;
        Ok(n)
    }
}
