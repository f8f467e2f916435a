//! The records of a unit.
ghost use Rattle.std.specs.Prelude.{◌≡◌, ◌≢◌, ◌+◌, ◌<◌, ◌≤◌, ◌++◌, ◌∷◌, ℕ, [], None, Some, false, eqb, IfOk, IfErr, OnOk, OnErr, IfSome, length, map, option_map, slice_get, vec_len, vec_capacity};
ghost use Rattle.std.specs.List.{list_any};
ghost use Rattle.cr_base.specs.declared.cause.IllCause.TheVariants as cause;
ghost use Rattle.cr_types.specs.Types.{Table, Arith, Rec, IsTypeNo, IsRecNo, Keeps, type_at};
ghost use Rattle.cr_typing.specs.declared.fault.TypeFault.TheVariants as type_fault;
ghost use Rattle.cr_typing.specs.Members.{AreOfTable, IsMemberNo, IsRefused, clash, added_names, next_member};
ghost use Rattle.cr_binding.specs.Source.{Source, name_at};
ghost use Rattle.cr_binding.specs.State.{State};
ghost use Rattle.cr_binding.specs.Declaring.{failed};
ghost use Rattle.cr_binding.specs.RecordMembers.{select, end_record};
ghost use Rattle.cr_binding.specs.Tags.{record_of as number_of_record, is_record_kind, is_union_kind, with_record, new_type, completing};
ghost use Rattle.cr_records.specs.Kept.{RecordTable, no_records, IsKept, IsOf, is_ended, Writes, selector_for, spelling};
ghost use Rattle.cr_records.specs.Records.{with_records, members_by, member_of, AreSpelled, IsSelected, IsNamed, Always, Does, KeepsSpelling, Repeats, Refuses, adding, splicing, record_of as seen_record, recorded, cause_of};

use crate::fault::RecordFault;
use crate::rows::{Member, RecordRow, Selected, Selector};
use cr_base::{IllCause, Kind, Name, OutOfMemory, RecordKey};
use cr_types::{RecNo, Ty, TypeNo, Types};
use cr_typing::{MemberNo, Named, TypeFault, Typing};
use indexmap::IndexSet;
use std::alloc::Global;
use std::marker::Model;

/// The structures and unions of a unit, and what selects in them.
#[derive(Drop)]
pub struct Records {
    records: Vec<RecordRow>,
    typing: Typing,
    selectors: Vec<Selector>,
    completed: IndexSet<u32>,
    ended: Vec<RecNo>,
    complete: IndexSet<RecNo>,
}

impl Model for Records {
    ghost use Rattle.cr_records.specs.Kept.{RecordTable, IsKept, AreEnded};

    ghost Value = { RecordTable };

    ghost view = { λ a. record { records = a.records.items; typing = a.typing; selectors = a.selectors.items; completed = a.completed.keys; ended = a.ended.items } };

    ghost invariant = { λ a. IsKept (record { records = a.records.items; typing = a.typing; selectors = a.selectors.items; completed = a.completed.keys; ended = a.ended.items }) × AreEnded a.ended.items a.complete.keys };
}

/// The record of a type that these types gave, if it is one.
pub fn record_of(types: &Types, ty: TypeNo) -> Option<RecNo>
    requires { IsTypeNo types.now ty }
    ensures number { option_map (λ r. r.0) result ≡ number_of_record (type_at types.now ty) }
    ensures given { IfSome result (λ r. IsRecNo types.now r) }
{
    match types.get(ty) {
        Ty::Rec(r) => Some(r),
        _ => None,
    }
}

// Whether a keyword announces a structure or union.
fn is_record(keyword: Kind) -> bool
    ensures { result ≡ is_record_kind keyword }
{
    matches!(keyword, Kind::Struct | Kind::Union)
}

fn is_union(keyword: Kind) -> bool
    ensures { result ≡ is_union_kind keyword }
{
    matches!(keyword, Kind::Union)
}

// Why a member isn't added.
fn refused(fault: TypeFault) -> RecordFault
    ensures { (i : ℕ) → result ≡ RecordFault.Redeclared i → fault ≡ type_fault.Redeclared i }
{
    match fault {
        TypeFault::Redeclared(token) => RecordFault::Redeclared(token),
        _ => RecordFault::OutOfMemory,
    }
}

// Why nothing is selected.
fn cause(fault: TypeFault) -> IllCause
    ensures { result ≡ cause_of fault }
{
    match fault {
        TypeFault::NoMember => IllCause::NoMember,
        TypeFault::NotRecord => IllCause::NotRecord,
        TypeFault::GenericType => IllCause::GenericType,
        TypeFault::Elision => IllCause::Elision,
        TypeFault::Redeclared(_) | TypeFault::OutOfMemory => IllCause::Redeclared,
    }
}

fn spelling(name: Option<Name>) -> Name
    ensures { result ≡ spelling name }
{
    match name {
        Some(name) => name,
        None => Name(0),
    }
}

// Puts a member into a record, whose list may have ended.
fn put_member(
    typing: &mut Typing,
    types: &Types,
    whole: bool,
    r: RecNo,
    name: Option<Name>,
    ty: TypeNo,
    token: u32,
) -> Result<MemberNo, TypeFault>
    requires held { AreOfTable types.now typing.old }
    requires rec_given { IsRecNo types.now r }
    requires ty_given { IsTypeNo types.now ty }
    ensures number { IfOk result (λ m. m ≡ next_member typing.old) }
    ensures ok { OnOk result (Writes whole typing.old (record { rec = r; name = name; ty = ty; token = token }) (added_names typing.old (record { rec = r; name = name; ty = ty; token = token }) (type_at types.now ty)) typing.new) }
    ensures allowed { OnOk result (clash typing.old (record { rec = r; name = name; ty = ty; token = token }) (type_at types.now ty) ≡ None) }
    ensures refused { IfErr result (λ f. IsRefused typing.old (record { rec = r; name = name; ty = ty; token = token }) (type_at types.now ty) f) }
    ensures held { AreOfTable types.now typing.new }
    ensures err { OnErr result (typing.new ≡ typing.old) }
{
    let member = typing.add_member(types, r, name, ty, token)?;
    if whole {
        typing.finish(r);
    }
    Ok(member)
}

// Puts a selector at the end, where there is room for it.
fn push_selector(selectors: &mut Vec<Selector>, selector: Selector)
    requires { vec_len selectors.old < vec_capacity selectors.old }
    ensures items { selectors.new.items ≡ selectors.old.items ++ selector ∷ [] }
    ensures room { vec_capacity selectors.old ≤ vec_capacity selectors.new }
{
    match selectors.push(selector) {
        Ok(()) => {}
        Err(_) => unreachable!(),
    }
}

// The names of an anonymous record select in another, where there is room for them.
fn push_selectors(selectors: &mut Vec<Selector>, holder: RecNo, names: &[(Name, Named)])
    requires { vec_len selectors.old + length names.now ≤ vec_capacity selectors.old }
    ensures { selectors.new.items ≡ selectors.old.items ++ map (selector_for holder) names.now }
{
    for (_, named) in names {
        let member = named.member;
        push_selector(selectors, Selector { holder, member });
    }
}

// Puts a record at the end, where there is room for it.
fn push_ended(ended: &mut Vec<RecNo>, r: RecNo)
    requires { vec_len ended.old < vec_capacity ended.old }
    ensures { ended.new.items ≡ ended.old.items ++ r ∷ [] }
{
    match ended.push(r) {
        Ok(()) => {}
        Err(_) => unreachable!(),
    }
}

// Puts a record at the end, where there is room for it.
fn push_record(records: &mut Vec<RecordRow>, row: RecordRow)
    requires { vec_len records.old < vec_capacity records.old }
    ensures { records.new.items ≡ records.old.items ++ row ∷ [] }
{
    match records.push(row) {
        Ok(()) => {}
        Err(_) => unreachable!(),
    }
}

impl Records {
    /// No records.
    pub fn new(alloc: Global) -> Records
        ensures none { result ≡ no_records }
        ensures of { (t : Table) → t.records ≡ [] → IsOf t result }
    {
        Records {
            records: Vec::new(alloc),
            typing: Typing::new(alloc),
            selectors: Vec::new(alloc),
            completed: IndexSet::new(alloc),
            ended: Vec::new(alloc),
            complete: IndexSet::new(alloc),
        }
    }

    /// All members by their numbers, for the types of operators and of initialisers.
    pub fn typing(&self) -> &Typing
        ensures typing { result.now ≡ self.now.typing }
        ensures kept { IsKept self.now }
    {
        &self.typing
    }

    /// Whether a record's list of members ended (C11 6.7.2.1p8).
    pub fn is_complete(&self, r: RecNo) -> bool
        ensures { result ≡ is_ended self.now.ended r.0 }
    {
        self.complete.contains(&r)
    }

    /// Adds a member with a name to a record, at the token that declares it (C11 6.7.2.1p1).
    ///
    /// `Redeclared`: the record has a member of that name. Then nothing is added.
    pub fn add_member(
        &mut self,
        types: &Types,
        r: RecNo,
        name: Name,
        ty: TypeNo,
        token: u32,
    ) -> Result<(), RecordFault>
        requires of { IsOf types.now self.old }
        requires rec_given { IsRecNo types.now r }
        requires ty_given { IsTypeNo types.now ty }
        ensures ok { OnOk result (Does (IsNamed token name) types.now self.old (adding r.0 token (type_at types.now ty)) self.new) }
        ensures ill { IfErr result (λ f. Refuses f (Repeats (IsNamed token name) types.now self.old (adding r.0 token (type_at types.now ty)))) }
        ensures spelled { OnOk result (KeepsSpelling (IsNamed token name) self.old self.new) }
        ensures of { IsOf types.now self.new }
        ensures err { OnErr result (self.new ≡ self.old) }
    {
        self.selectors.reserve(1)?;
        let whole = self.complete.contains(&r);
        match put_member(&mut self.typing, types, whole, r, Some(name), ty, token) {
            Ok(member) => {
                push_selector(&mut self.selectors, Selector { holder: r, member });
                Ok(())
            }
            Err(fault) => Err(refused(fault)),
        }
    }

    // The names of record q, which is an anonymous member of record r, select in r too.
    fn bring_in(&mut self, types: &Types, r: RecNo, q: RecNo, ty: TypeNo) -> Result<(), RecordFault>
        requires of { IsOf types.now self.old }
        requires rec_given { IsRecNo types.now r }
        requires ty_given { IsTypeNo types.now ty }
        requires is { type_at types.now ty ≡ Rec q.0 }
        ensures ok { OnOk result (Does Always types.now self.old (splicing r.0 (type_at types.now ty)) self.new) }
        ensures ill { IfErr result (λ f. Refuses f (Repeats Always types.now self.old (splicing r.0 (type_at types.now ty)))) }
        ensures spelled { OnOk result (KeepsSpelling Always self.old self.new) }
        ensures of { IsOf types.now self.new }
        ensures err { OnErr result (self.new ≡ self.old) }
    {
        let names = self.typing.names_of(q)?;
        self.selectors.reserve(names.len())?;
        let whole = self.complete.contains(&r);
        match put_member(&mut self.typing, types, whole, r, None, ty, 0) {
            Ok(_) => {
                push_selectors(&mut self.selectors, r, &names);
                Ok(())
            }
            Err(fault) => Err(refused(fault)),
        }
    }

    /// Adds an anonymous member to a record: the names of a structure or union select in it too (C11 6.7.2.1p13). Where
    /// the type is none of these, nothing is added.
    ///
    /// `Redeclared`: the record has a member of one of the names. Then nothing is added.
    pub fn add_anonymous(&mut self, types: &Types, r: RecNo, ty: TypeNo) -> Result<(), RecordFault>
        requires of { IsOf types.now self.old }
        requires rec_given { IsRecNo types.now r }
        requires ty_given { IsTypeNo types.now ty }
        ensures ok { OnOk result (Does Always types.now self.old (splicing r.0 (type_at types.now ty)) self.new) }
        ensures ill { IfErr result (λ f. Refuses f (Repeats Always types.now self.old (splicing r.0 (type_at types.now ty)))) }
        ensures spelled { OnOk result (KeepsSpelling Always self.old self.new) }
        ensures of { IsOf types.now self.new }
        ensures err { OnErr result (self.new ≡ self.old) }
    {
        match types.get(ty) {
            Ty::Rec(q) => self.bring_in(types, r, q, ty),
            _ => Ok(()),
        }
    }

    /// The list of a record's members ends, so that it is complete (C11 6.7.2.1p8).
    pub fn end_record(&mut self, r: RecNo) -> Result<(), OutOfMemory>
        ensures ok { OnOk result ((t : Table) (s : State) → with_records t self.new s ≡ end_record (Some r.0) (with_records t self.old s)) }
        ensures spelled { OnOk result (KeepsSpelling Always self.old self.new) }
        ensures of { (t : Table) → IsOf t self.old → IsOf t self.new }
        ensures err { OnErr result (self.new ≡ self.old) }
    {
        self.ended.reserve(1)?;
        let _ = self.complete.insert(r)?;
        self.typing.finish(r);
        push_ended(&mut self.ended, r);
        Ok(())
    }

    /// Whether the tag that is declared first at a token was completed (C11 6.7.2.3p1).
    pub fn is_completed(&self, first: u32) -> bool
        ensures { result ≡ list_any (eqb first) self.now.completed }
    {
        self.completed.contains(&first)
    }

    /// The tag that is declared first at a token, which wasn't completed, is completed.
    pub fn complete(&mut self, first: u32) -> Result<(), OutOfMemory>
        requires fresh { list_any (eqb first) self.old.completed ≡ false }
        ensures ok { OnOk result ((t : Table) (s : State) → with_records t self.new s ≡ completing first (with_records t self.old s)) }
        ensures spelled { KeepsSpelling Always self.old self.new }
        ensures of { (t : Table) → IsOf t self.old → IsOf t self.new }
        ensures err { OnErr result (self.new ≡ self.old) }
    {
        let _ = self.completed.insert(first)?;
        Ok(())
    }

    /// The type that a keyword announces where nothing named it before: a new structure or union, whose first token is
    /// given, or an enumeration (C11 6.7.2.1, 6.7.2.2). Want of memory may leave a record that no type names.
    pub fn announce(
        &mut self,
        types: &mut Types,
        keyword: Kind,
        token: u32,
    ) -> Result<TypeNo, OutOfMemory>
        requires of { IsOf types.old self.old }
        ensures given { IfOk result (λ n. IsTypeNo types.new n) }
        ensures meant { IfOk result (λ n. (s : State) → s.keyword ≡ keyword → type_at types.new n ≡ new_type (with_records types.old self.old s)) }
        ensures ok { OnOk result ((s : State) → s.keyword ≡ keyword → with_records types.new self.new s ≡ with_record token (with_records types.old self.old s)) }
        ensures spelled { KeepsSpelling Always self.old self.new }
        ensures of { IsOf types.new self.new }
        ensures keeps { Keeps types.old types.new }
    {
        if is_record(keyword) {
            let n = self.new_record(types, token, is_union(keyword))?;
            Ok(n)
        } else {
            let n = self.enumeration(types)?;
            Ok(n)
        }
    }

    fn enumeration(&self, types: &mut Types) -> Result<TypeNo, OutOfMemory>
        requires of { IsOf types.old self.now }
        ensures given { IfOk result (λ n. IsTypeNo types.new n) }
        ensures meant { IfOk result (λ n. type_at types.new n ≡ Arith) }
        ensures same { (s : State) → with_records types.new self.now s ≡ with_records types.old self.now s }
        ensures of { IsOf types.new self.now }
        ensures keeps { Keeps types.old types.new }
    {
        let _ = &self.records;
        let n = types.make(Ty::Arith)?;
        Ok(n)
    }

    // One more structure or union. In these types it is told by its first token.
    fn new_record(
        &mut self,
        types: &mut Types,
        token: u32,
        is_union: bool,
    ) -> Result<TypeNo, OutOfMemory>
        requires of { IsOf types.old self.old }
        ensures given { IfOk result (λ n. IsTypeNo types.new n) }
        ensures meant { IfOk result (λ n. type_at types.new n ≡ Rec (length self.old.records)) }
        ensures ok { OnOk result ((s : State) → with_records types.new self.new s ≡ recorded (record { token = token; is_union = is_union }) (with_records types.old self.old s)) }
        ensures spelled { KeepsSpelling Always self.old self.new }
        ensures of { IsOf types.new self.new }
        ensures keeps { Keeps types.old types.new }
    {
        self.records.reserve(1)?;
        let r = types.new_rec(RecordKey::Made(0, token), is_union)?;
        push_record(&mut self.records, RecordRow { token, is_union });
        let n = types.make(Ty::Rec(r))?;
        Ok(n)
    }

    /// The member that `.name`, or by an arrow `->name`, selects of an expression of a type (C11 6.5.2.3).
    ///
    /// `GenericType`: the type, or by an arrow what it points to, is that of a generic selection with different results.
    /// `NotRecord`: it is no structure and no union, or by an arrow no pointer. `NoMember`: it lacks the member or is
    /// incomplete.
    pub fn select(
        &self,
        types: &Types,
        of: TypeNo,
        arrow: bool,
        name: Name,
    ) -> Result<Selected, IllCause>
        requires of { IsOf types.now self.now }
        requires of_given { IsTypeNo types.now of }
        ensures found { (source : Source) (s : State) → AreSpelled source self.now → IsSelected types.now (select source (with_records types.now self.now s) arrow name (type_at types.now of)) result }
        ensures given { IfOk result (λ x. IsTypeNo types.now x.ty) }
    {
        match self.typing.select(types, of, arrow, name) {
            Ok(m) => {
                let member = self.typing.member(m);
                Ok(Selected {
                    token: member.token,
                    ty: member.ty,
                })
            }
            Err(fault) => Err(cause(fault)),
        }
    }

    /// The structures and unions in the order in which they are met.
    pub fn rows(&self) -> &[RecordRow]
        ensures rows { result.now ≡ self.now.records }
        ensures seen { (t : Table) (s : State)
            → (with_records t self.now s).records ≡ map seen_record result.now }
    {
        &self.records
    }

    /// How many names select in records: those of anonymous records stand in each record that has them.
    pub fn len(&self) -> usize
        ensures { result ≡ length self.now.selectors }
    {
        self.selectors.len()
    }

    /// What name number `n` selects.
    pub fn member(&self, n: usize) -> Member
        requires { n < length self.now.selectors }
        ensures member { (t : Table) → slice_get (members_by t self.now) n ≡ Some (member_of t result) }
        ensures name { (source : Source) → AreSpelled source self.now → result.name ≡ name_at source result.token }
    {
        let selector = self.selectors[n];
        let data = self.typing.member(selector.member);
        Member {
            holder: selector.holder,
            own: data.rec,
            place: self.typing.place(selector.member),
            token: data.token,
            ty: data.ty,
            name: spelling(data.name),
        }
    }
}
