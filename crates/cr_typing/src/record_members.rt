//! The members of one record.
ghost use Rattle.std.specs.Prelude.{◌≡◌, ◌+◌, ◌<◌, ◌≤◌, ◌++◌, ◌∷◌, [], None, IfOk, OnOk, OnErr, is_some, length, vec_len};
ghost use Rattle.indexmap.specs.IndexMap.{spare};
ghost use Rattle.cr_typing.specs.Members.{nothing_listed, find, member_in, redeclared, lesser, with_member, ended};
ghost use Rattle.cr_typing.specs.Kept.{AreNew};

use crate::fault::TypeFault;
use crate::members::{MemberNo, Named};
use cr_base::{Name, OutOfMemory};
use indexmap::IndexMap;
use std::alloc::Global;
use std::marker::Model;

/// The members of one record, in order and by name.
#[derive(Drop)]
pub struct RecordMembers {
    declared: Vec<MemberNo>,
    named: IndexMap<Name, Named>,
    ended: bool,
}

impl Model for RecordMembers {
    ghost use Rattle.cr_typing.specs.Members.{Listed};

    ghost Value = { Listed };

    ghost use Rattle.std.specs.Prelude.{[]};
    ghost use Rattle.cr_typing.specs.Kept.{AreNew};

    ghost view = { λ a. record { declared = a.declared.items; named = a.named.entries; ended = a.ended } };

    ghost invariant = { λ a. AreNew [] a.named.entries };
}

// Puts a name that isn't there at the end, where there is room for it.
fn put_name(names: &mut IndexMap<Name, Named>, name: Name, named: Named)
    requires room { 0 < spare names.old }
    requires absent { find name names.old.entries ≡ None }
    ensures entries { names.new.entries ≡ names.old.entries ++ (name, named) ∷ [] }
    ensures room { spare names.old ≤ spare names.new + 1 }
{
    match names.insert(name, named) {
        Ok(_) => {}
        Err(_) => unreachable!(),
    }
}

// Puts names that aren't there at the end, where there is room for them.
fn put_names(names: &mut IndexMap<Name, Named>, more: &[(Name, Named)])
    requires room { length more.now ≤ spare names.old }
    requires absent { AreNew names.old.entries more.now }
    ensures { names.new.entries ≡ names.old.entries ++ more.now }
{
    for i in 0..more.len() {
        put_name(names, more[i].0, more[i].1);
    }
}

impl RecordMembers {
    /// No members.
    pub fn new(alloc: Global) -> RecordMembers
        ensures { result ≡ nothing_listed }
    {
        RecordMembers {
            declared: Vec::new(alloc),
            named: IndexMap::new(alloc),
            ended: false,
        }
    }

    /// The members that are declared in the record, in order.
    pub fn declared(&self) -> &[MemberNo]
        ensures { result.now ≡ self.now.declared }
    {
        &self.declared
    }

    /// Whether the list of members has ended.
    pub fn has_ended(&self) -> bool
        ensures { result ≡ self.now.ended }
    {
        self.ended
    }

    /// The member with a name, once the list has ended.
    pub fn member(&self, name: Name) -> Result<MemberNo, TypeFault>
        ensures { result ≡ member_in self.now name }
    {
        if !self.ended {
            return Err(TypeFault::NoMember);
        }
        match self.named.get(&name) {
            Some(named) => Ok(named.member),
            None => Err(TypeFault::NoMember),
        }
    }

    fn has(&self, name: Name) -> bool
        ensures { result ≡ is_some (find name self.now.named) }
    {
        self.named.contains_key(&name)
    }

    /// The least token among those of the names that are there already.
    pub fn redeclared(&self, more: &[(Name, Named)]) -> Option<u32>
        ensures { result ≡ redeclared self.now more.now }
    {
        let mut least = None;
        for i in (0..more.len()).rev() {
            if self.has(more[i].0) {
                least = Some(lesser(more[i].1.token, least));
            }
        }
        least
    }

    /// What names select, in order.
    pub fn named(&self, alloc: Global) -> Result<Vec<(Name, Named)>, OutOfMemory>
        ensures all { IfOk result (λ named. named.items ≡ self.now.named) }
        ensures apart { AreNew [] self.now.named }
    {
        let mut named = Vec::new(alloc);
        for (name, found) in &self.named {
            named.push((*name, *found))?;
        }
        Ok(named)
    }

    /// One more member, with what names select by it.
    pub fn add(&mut self, member: MemberNo, more: &[(Name, Named)]) -> Result<(), OutOfMemory>
        requires { AreNew self.old.named more.now }
        ensures ok { OnOk result (self.new ≡ with_member self.old member more.now) }
        ensures err { OnErr result (self.new ≡ self.old) }
    {
        self.named.reserve(more.len())?;
        self.declared.push(member)?;
        put_names(&mut self.named, more);
        Ok(())
    }

    /// The list of members ends. One without members stays as it is.
    pub fn end(&mut self)
        ensures { self.new ≡ ended self.old }
    {
        self.ended = !self.declared.is_empty();
    }
}

fn lesser(n: u32, other: Option<u32>) -> u32
    ensures { result ≡ lesser n other }
{
    match other {
        Some(k) if k < n => k,
        _ => n,
    }
}
