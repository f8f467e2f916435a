//! The members of all records, and what is said of types by them.
ghost use Rattle.std.specs.Prelude.{◌≡◌, ◌≢◌, ◌+◌, ◌<◌, ◌≤◌, ◌++◌, ◌∷◌, ℕ, [], None, Some, true, IfOk, IfErr, OnOk, OnErr, false, length, slice_get, vec_len, vec_capacity};
ghost use Rattle.cr_types.specs.Types.{Table, IsTypeNo, IsRecNo, Keeps, type_at};
ghost use Rattle.cr_typing.specs.ExpressionTypes.{decayed, binary_type, unary_type, is_binary, is_unary};
ghost use Rattle.cr_typing.specs.Members.{no_members, listed_in, listed, IsMemberNo, data_at, place_at, AreOfTable, member_in, selected, selected_through, select, brought_in, redeclared, clash, RefusesNames, IsRefused, next_member, with_member, placed, Puts, Adds, ended, Ends};
ghost use Rattle.cr_typing.specs.declared.members.MemberNo.{MemberNo as TheMemberNo};
ghost use Rattle.cr_typing.specs.Initialisers.{complete};
ghost use Rattle.cr_typing.specs.Kept.{AreNew, AreNamedBelow, AreListed};
ghost use Rattle.cr_typing.specs.Splicing.{AreSpliced, IsAnonymous};

use crate::expressions::{Op, binary_ty, unary_ty};
use crate::fault::TypeFault;
use crate::members::{MemberData, MemberNo, Named, Placed};
use crate::record_members::RecordMembers;
use cr_base::{Name, OutOfMemory};
use cr_types::{RecNo, Ty, TypeNo, Types};
use indexmap::IndexMap;
use std::alloc::Global;
use std::marker::Model;

/// The members of the structures and unions of a unit.
#[derive(Drop)]
pub struct Typing {
    alloc: Global,
    all: Vec<Placed>,
    records: IndexMap<RecNo, RecordMembers>,
}

impl Model for Typing {
    ghost use Rattle.cr_typing.specs.Members.{Members};

    ghost Value = { Members };

    ghost use Rattle.cr_typing.specs.Kept.{AreListed};

    ghost view = { λ a. record { all = a.all.items; records = a.records.entries } };

    ghost invariant = { λ a. AreListed (record { all = a.all.items; records = a.records.entries }) };
}

// Puts a member at the end, where there is room for it.
fn push_placed(all: &mut Vec<Placed>, placed: Placed)
    requires { vec_len all.old < vec_capacity all.old }
    ensures { all.new.items ≡ all.old.items ++ placed ∷ [] }
{
    match all.push(placed) {
        Ok(()) => {}
        Err(_) => unreachable!(),
    }
}

// One more member of a record, with what names select by it.
fn put_in(
    records: &mut IndexMap<RecNo, RecordMembers>,
    alloc: Global,
    r: RecNo,
    member: MemberNo,
    more: &[(Name, Named)],
) -> Result<(), OutOfMemory>
    requires { AreNew (listed_in records.old.entries r.0).named more.now }
    ensures this { OnOk result (listed_in records.new.entries r.0 ≡ with_member (listed_in records.old.entries r.0) member more.now) }
    ensures others { OnOk result ((q : ℕ) → q ≢ r.0 → listed_in records.new.entries q ≡ listed_in records.old.entries q) }
    ensures err { OnErr result (records.new.entries ≡ records.old.entries) }
{
    match records.get_mut(&r) {
        Some(record) => {
            record.add(member, more)?;
        }
        None => {
            let mut record = RecordMembers::new(alloc);
            record.add(member, more)?;
            let _ = records.insert(r, record)?;
        }
    }
    Ok(())
}

// The list of a record's members ends.
fn end_in(records: &mut IndexMap<RecNo, RecordMembers>, r: RecNo)
    ensures this { listed_in records.new.entries r.0 ≡ ended (listed_in records.old.entries r.0) }
    ensures others { (q : ℕ) → q ≢ r.0 → listed_in records.new.entries q ≡ listed_in records.old.entries q }
{
    if let Some(record) = records.get_mut(&r) {
        record.end();
    }
}

impl Typing {
    /// No members.
    pub fn new(alloc: Global) -> Typing
        ensures none { result ≡ no_members }
        ensures held { (t : Table) → AreOfTable t result }
        ensures spliced { (t : Table) → AreSpliced t result }
    {
        Typing {
            alloc,
            all: Vec::new(alloc),
            records: IndexMap::new(alloc),
        }
    }

    /// The list of a record's members ends, so that it is complete (C11 6.7.2.1p8). A record without members is never
    /// told from one that is incomplete.
    pub fn finish(&mut self, r: RecNo)
        ensures ends { Ends self.old r self.new }
        ensures held { (t : Table) → AreOfTable t self.old → AreOfTable t self.new }
        ensures spliced { (t : Table) → AreSpliced t self.old → AreSpliced t self.new }
    {
        end_in(&mut self.records, r);
    }

    /// A member as it was added.
    pub fn member(&self, m: MemberNo) -> &MemberData
        requires { IsMemberNo self.now m }
        ensures { data_at self.now m ≡ Some result.now }
    {
        &self.all[m.0].member
    }

    /// The number of a member among those that are declared in its record.
    pub fn place(&self, m: MemberNo) -> usize
        requires { IsMemberNo self.now m }
        ensures { place_at self.now m ≡ Some result }
    {
        self.all[m.0].place
    }

    // A member with its number in its record.
    pub(crate) fn placed(&self, m: MemberNo) -> &Placed
        requires { IsMemberNo self.now m }
        ensures { slice_get self.now.all m.0 ≡ Some result.now }
    {
        &self.all[m.0]
    }

    // The members that are declared in a record, in order; none in one that is incomplete.
    pub(crate) fn complete(&self, r: RecNo) -> &[MemberNo]
        ensures members { result.now ≡ complete (listed self.now r.0) }
        ensures given { (i : ℕ) (k : TheMemberNo) → slice_get result.now i ≡ Some k → IsMemberNo self.now k }
    {
        match self.records.get(&r) {
            Some(record) if record.has_ended() => record.declared(),
            _ => &[],
        }
    }

    // The member of a record with a name.
    pub(crate) fn member_of(&self, r: RecNo, name: Name) -> Result<MemberNo, TypeFault>
        ensures found { result ≡ member_in (listed self.now r.0) name }
        ensures given { IfOk result (λ m. IsMemberNo self.now m) }
    {
        match self.records.get(&r) {
            Some(record) => record.member(name),
            None => Err(TypeFault::NoMember),
        }
    }

    // `.name`
    fn selected(&self, types: &Types, of: TypeNo, name: Name) -> Result<MemberNo, TypeFault>
        requires { IsTypeNo types.now of }
        ensures found { result ≡ selected self.now name (type_at types.now of) }
        ensures given { IfOk result (λ m. IsMemberNo self.now m) }
    {
        match types.get(of) {
            Ty::Rec(r) => self.member_of(r, name),
            Ty::Mixed => Err(TypeFault::GenericType),
            _ => Err(TypeFault::NotRecord),
        }
    }

    // `->name`
    fn selected_through(&self, types: &Types, of: TypeNo, name: Name) -> Result<MemberNo, TypeFault>
        requires { IsTypeNo types.now of }
        ensures found { result ≡ selected_through self.now name (decayed (type_at types.now of)) }
        ensures given { IfOk result (λ m. IsMemberNo self.now m) }
    {
        match types.get(of) {
            Ty::Ptr(to) | Ty::Arr(to) => self.selected(types, to, name),
            Ty::Mixed => Err(TypeFault::GenericType),
            _ => Err(TypeFault::NotRecord),
        }
    }

    // How many members are declared in a record.
    fn declared_len(&self, r: RecNo) -> usize
        ensures { result ≡ length (listed self.now r.0).declared }
    {
        match self.records.get(&r) {
            Some(record) => record.declared().len(),
            None => 0,
        }
    }

    // The least token of names that a record has already.
    fn redeclared(&self, r: RecNo, more: &[(Name, Named)]) -> Option<u32>
        ensures { result ≡ redeclared (listed self.now r.0) more.now }
    {
        match self.records.get(&r) {
            Some(record) => record.redeclared(more),
            None => None,
        }
    }

    /// What names select in a record, in order.
    pub fn names_of(&self, r: RecNo) -> Result<Vec<(Name, Named)>, OutOfMemory>
        ensures all { IfOk result (λ names. names.items ≡ (listed self.now r.0).named) }
        ensures apart { AreNew [] (listed self.now r.0).named }
        ensures members { AreNamedBelow (length self.now.all) (listed self.now r.0).named }
    {
        match self.records.get(&r) {
            Some(record) => {
                let names = record.named(self.alloc)?;
                Ok(names)
            }
            None => Ok(Vec::new(self.alloc)),
        }
    }

    // What names an anonymous record brings in.
    fn brought_in(&self, types: &Types, ty: TypeNo) -> Result<Vec<(Name, Named)>, OutOfMemory>
        requires { IsTypeNo types.now ty }
        ensures all { IfOk result (λ names. names.items ≡ brought_in self.now (type_at types.now ty)) }
        ensures apart { IfOk result (λ names. AreNew [] names.items) }
        ensures members { IfOk result (λ names. AreNamedBelow (length self.now.all) names.items) }
    {
        match types.get(ty) {
            Ty::Rec(r) => {
                let names = self.names_of(r)?;
                Ok(names)
            }
            _ => Ok(Vec::new(self.alloc)),
        }
    }

    // Adds a member to its record, with what names select by it.
    fn put(&mut self, member: MemberData, more: &[(Name, Named)]) -> Result<MemberNo, TypeFault>
        requires apart { AreNew [] more.now }
        requires members { AreNamedBelow (length self.old.all + 1) more.now }
        ensures listed { AreListed self.old }
        ensures number { IfOk result (λ m. m ≡ next_member self.old) }
        ensures ok { OnOk result (Puts self.old member more.now self.new) }
        ensures allowed { OnOk result (redeclared (listed self.old member.rec.0) more.now ≡ None) }
        ensures refused { IfErr result (λ fault. RefusesNames (listed self.old member.rec.0) more.now fault) }
        ensures err { OnErr result (self.new ≡ self.old) }
    {
        match self.redeclared(member.rec, more) {
            Some(token) => return Err(TypeFault::Redeclared(token)),
            None => {}
        }
        let place = self.declared_len(member.rec);
        let no = MemberNo(self.all.len());
        self.all.reserve(1)?;
        put_in(&mut self.records, self.alloc, member.rec, no, more)?;
        push_placed(&mut self.all, Placed { member, place });
        Ok(no)
    }

    /// Adds a member to a record, at the token that declares it. One without a name is an anonymous structure or union:
    /// its members are found by their names in the record too (C11 6.7.2.1p13). Where a name is there already the member
    /// isn't added.
    ///
    /// As long as nothing is added to a record that is an anonymous member already, the names of a record are those of its
    /// members in order (`spliced`).
    pub fn add_member(
        &mut self,
        types: &Types,
        r: RecNo,
        name: Option<Name>,
        ty: TypeNo,
        token: u32,
    ) -> Result<MemberNo, TypeFault>
        requires held { AreOfTable types.now self.old }
        requires rec_given { IsRecNo types.now r }
        requires ty_given { IsTypeNo types.now ty }
        ensures number { IfOk result (λ m. m ≡ next_member self.old) }
        ensures given { IfOk result (λ m. IsMemberNo self.new m) }
        ensures ok { OnOk result (Adds self.old (record { rec = r; name = name; ty = ty; token = token }) (type_at types.now ty) self.new) }
        ensures allowed { OnOk result (clash self.old (record { rec = r; name = name; ty = ty; token = token }) (type_at types.now ty) ≡ None) }
        ensures refused { IfErr result (λ fault. IsRefused self.old (record { rec = r; name = name; ty = ty; token = token }) (type_at types.now ty) fault) }
        ensures spliced { OnOk result ((IsAnonymous types.now self.new r.0 → ⊥) → AreSpliced types.now self.old → AreSpliced types.now self.new) }
        ensures held { AreOfTable types.now self.new }
        ensures err { OnErr result (self.new ≡ self.old) }
    {
        let member = MemberData {
            rec: r,
            name,
            ty,
            token,
        };
        match name {
            Some(name) => {
                let found = Named {
                    member: MemberNo(self.all.len()),
                    token,
                };
                let no = self.put(member, &[(name, found)])?;
                Ok(no)
            }
            None => {
                let more = self.brought_in(types, ty)?;
                let no = self.put(member, &more)?;
                Ok(no)
            }
        }
    }

    /// The member that `.name`, or by an arrow `->name`, selects of an expression of a type (C11 6.5.2.3).
    ///
    /// `GenericType`: the type, or by an arrow what it points to, is that of a generic selection with different results.
    /// `NotRecord`: it is no structure and no union, or by an arrow no pointer. `NoMember`: it lacks the member or is
    /// incomplete.
    pub fn select(
        &self,
        types: &Types,
        of: TypeNo,
        arrow: bool,
        name: Name,
    ) -> Result<MemberNo, TypeFault>
        requires held { AreOfTable types.now self.now }
        requires of_given { IsTypeNo types.now of }
        ensures found { result ≡ select self.now arrow name (type_at types.now of) }
        ensures given { IfOk result (λ m. IsMemberNo self.now m) }
    {
        if arrow {
            self.selected_through(types, of, name)
        } else {
            self.selected(types, of, name)
        }
    }

    /// The type of an operator's result, by the types of its operands (C11 6.5).
    pub fn binary(
        &self,
        types: &mut Types,
        op: Op,
        left: TypeNo,
        right: TypeNo,
    ) -> Result<TypeNo, OutOfMemory>
        requires held { AreOfTable types.old self.now }
        requires op { is_binary op ≡ true }
        requires left_given { IsTypeNo types.old left }
        requires right_given { IsTypeNo types.old right }
        ensures given { IfOk result (λ n. IsTypeNo types.new n) }
        ensures meant { IfOk result (λ n. type_at types.new n ≡ binary_type op (type_at types.old left) (type_at types.old right)) }
        ensures records { types.new.records ≡ types.old.records }
        ensures keeps { Keeps types.old types.new }
        ensures held { AreOfTable types.new self.now }
        ensures err { OnErr result (types.new ≡ types.old) }
    {
        let ty = binary_ty(types, op, left, right);
        let n = types.make(ty)?;
        Ok(n)
    }

    /// The type of an operator's result, by the type of its operand (C11 6.5).
    pub fn unary(&self, types: &mut Types, op: Op, of: TypeNo) -> Result<TypeNo, OutOfMemory>
        requires held { AreOfTable types.old self.now }
        requires op { is_unary op ≡ true }
        requires of_given { IsTypeNo types.old of }
        ensures given { IfOk result (λ n. IsTypeNo types.new n) }
        ensures meant { IfOk result (λ n. type_at types.new n ≡ unary_type op (type_at types.old of)) }
        ensures records { types.new.records ≡ types.old.records }
        ensures keeps { Keeps types.old types.new }
        ensures held { AreOfTable types.new self.now }
        ensures err { OnErr result (types.new ≡ types.old) }
    {
        let ty = unary_ty(types, op, of);
        let n = types.make(ty)?;
        Ok(n)
    }
}
