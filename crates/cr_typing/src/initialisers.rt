//! The objects that the items of an initialiser in braces take (C11 6.7.9).
ghost use Rattle.std.specs.Prelude.{◌≡◌, Some, IfSome, IfOk, OnOk, OnErr, IsOk, option_map, option_and_then, slice_get};
ghost use Rattle.cr_types.specs.Types.{Table, Rec, IsTypeNo, IsRecNo, type_at};
ghost use Rattle.cr_typing.specs.Members.{AreOfTable, IsMemberNo, listed};
ghost use Rattle.cr_typing.specs.Initialisers.{object_of, taken_of, braces_of, AreHeld, IsKindOf, first_in, first_place, opened, complete, type_of_member, part_at, next_in, next_place, starts_from, reaching, element_of, after_index, indexed, dotted, after_member, designation, designated, taken, is_short, with_item};

use crate::fault::TypeFault;
use crate::members::{MemberNo, Placed};
use crate::typing::Typing;
use cr_base::Name;
use cr_types::{RecNo, Ty, TypeNo, Types};
use std::alloc::Global;

/// A designator (C11 6.7.9p6, p7).
#[derive(Clone, Copy, Debug, PartialEq, Eq)]
pub enum Desig {
    /// `[e]`
    Index,
    /// `.name`
    Dot(Name),
}

/// What an item of a list in braces is.
#[derive(Clone, Copy, Debug, PartialEq, Eq)]
pub enum ItemKind {
    /// A list in braces.
    Braces,
    /// An expression of a type that is no string.
    Value(TypeNo),
    /// A string without parentheses.
    StringValue,
}

// What designators reached, and the place after the item that takes it.
#[derive(Clone, Copy)]
struct Reached {
    object: Option<TypeNo>,
    after: Option<usize>,
}

/// An initialiser in braces: the object that it initialises, and the place of the next item.
#[derive(Drop)]
pub struct InitList {
    object: Option<TypeNo>,
    place: Option<usize>,
    reached: Option<Reached>,
}

// The type of the member number `place` of a record.
fn declared_type(types: &Types, typing: &Typing, r: RecNo, place: usize) -> Option<TypeNo>
    requires held { AreOfTable types.now typing.now }
    ensures given { IfSome result (λ n. IsTypeNo types.now n) }
    ensures meant { option_map (type_at types.now) result ≡ option_and_then (type_of_member types.now typing.now) (slice_get (complete (listed typing.now r.0)) place) }
{
    match typing.complete(r).get(place) {
        Some(m) => Some(typing.member(*m).ty),
        None => None,
    }
}

// The first of so many places.
fn first_in(count: usize) -> Option<usize>
    ensures { result ≡ first_in count }
{
    if count > 0 { Some(0) } else { None }
}

// The place of the first item of a list for an object.
fn first_place(types: &Types, typing: &Typing, of: Option<TypeNo>) -> Option<usize>
    requires object_given { IfSome of (IsTypeNo types.now) }
    ensures meant { result ≡ first_place typing.now (object_of types.now of) }
{
    match of {
        Some(object) => first_of(types, typing, object),
        None => Some(0),
    }
}

fn first_of(types: &Types, typing: &Typing, object: TypeNo) -> Option<usize>
    requires object_given { IsTypeNo types.now object }
    ensures meant { result ≡ first_place typing.now (Some (type_at types.now object)) }
{
    match types.get(object) {
        Ty::Rec(r) => first_in(typing.complete(r).len()),
        _ => Some(0),
    }
}

// What stands at a place of an object.
fn part_at(types: &Types, typing: &Typing, object: TypeNo, place: usize) -> Option<TypeNo>
    requires held { AreOfTable types.now typing.now }
    requires object_given { IsTypeNo types.now object }
    ensures given { IfSome result (λ n. IsTypeNo types.now n) }
    ensures meant { option_map (type_at types.now) result ≡ part_at types.now typing.now place (type_at types.now object) }
{
    match types.get(object) {
        Ty::Rec(r) => declared_type(types, typing, r, place),
        Ty::Arr(element) => Some(element),
        _ => Some(object),
    }
}

// The number behind that of a member, where a member has it.
fn next_in(members: &[MemberNo], place: usize) -> Option<usize>
    ensures { result ≡ next_in members.now place }
{
    let last = members.len().saturating_sub(1);
    if place < last { Some(place + 1) } else { None }
}

// The place behind one of a record.
fn next_member(types: &Types, typing: &Typing, r: RecNo, place: usize) -> Option<usize>
    requires { IsRecNo types.now r }
    ensures { result ≡ next_place types.now typing.now place (Rec r.0) }
{
    if types.is_union(r) {
        return None;
    }
    next_in(typing.complete(r), place)
}

// The place behind one of an object.
fn next_place(types: &Types, typing: &Typing, object: TypeNo, place: usize) -> Option<usize>
    requires { IsTypeNo types.now object }
    ensures { result ≡ next_place types.now typing.now place (type_at types.now object) }
{
    match types.get(object) {
        Ty::Rec(r) => next_member(types, typing, r, place),
        Ty::Arr(_) => Some(0),
        _ => None,
    }
}

// The element of an array.
fn element_of(types: &Types, object: Option<TypeNo>) -> Option<TypeNo>
    requires { IfSome object (λ n. IsTypeNo types.now n) }
    ensures given { IfSome result (λ n. IsTypeNo types.now n) }
    ensures meant { option_map (type_at types.now) result ≡ element_of (option_map (type_at types.now) object) }
{
    match object {
        Some(n) => match types.get(n) {
            Ty::Arr(element) => Some(element),
            _ => None,
        },
        None => None,
    }
}

// The place behind one designator `[e]` of a list for an object.
fn after_index(types: &Types, object: Option<TypeNo>) -> Option<usize>
    requires { IfSome object (λ n. IsTypeNo types.now n) }
    ensures { result ≡ after_index (option_map (type_at types.now) object) }
{
    match element_of(types, object) {
        Some(_) => Some(0),
        None => None,
    }
}

// The member that `.name` names in what was reached.
fn dotted(
    types: &Types,
    typing: &Typing,
    object: Option<TypeNo>,
    name: Name,
) -> Result<MemberNo, TypeFault>
    requires { IfSome object (λ n. IsTypeNo types.now n) }
    ensures found { result ≡ dotted typing.now name (option_map (type_at types.now) object) }
    ensures given { IfOk result (λ m. IsMemberNo typing.now m) }
{
    match object {
        None => Err(TypeFault::Elision),
        Some(n) => match types.get(n) {
            Ty::Rec(r) => {
                let m = typing.member_of(r, name)?;
                Ok(m)
            }
            _ => Err(TypeFault::NotRecord),
        },
    }
}

// The place behind one designator that names a member, in a list for an object.
fn after_member(
    types: &Types,
    typing: &Typing,
    placed: &Placed,
    object: Option<TypeNo>,
) -> Option<usize>
    requires { IfSome object (λ n. IsTypeNo types.now n) }
    ensures { result ≡ after_member types.now typing.now placed.now (option_map (type_at types.now) object) }
{
    match object {
        Some(n) => match types.get(n) {
            Ty::Rec(r) if r == placed.member.rec => next_member(types, typing, r, placed.place),
            _ => None,
        },
        None => None,
    }
}

// Whether an item doesn't fill the object that it takes.
fn is_short(types: &Types, kind: ItemKind, object: Option<TypeNo>) -> bool
    requires object_given { IfSome object (λ n. IsTypeNo types.now n) }
    requires kind_given { IsKindOf types.now kind }
    ensures { result ≡ is_short types.now kind (option_map (type_at types.now) object) }
{
    match object {
        None => false,
        Some(n) => match (types.get(n), kind) {
            (Ty::Rec(_), ItemKind::Value(value)) => value != n,
            (Ty::Rec(_), ItemKind::StringValue) | (Ty::Arr(_), ItemKind::Value(_)) => true,
            _ => false,
        },
    }
}

impl InitList {
    /// A list for an object of a type, or of an unknown one. Its first item stands at the first member of a record, at the
    /// element of an array, or at a scalar; of a record that is incomplete where the list begins, or has no member, it is
    /// unknown where that is.
    pub fn new(types: &Types, typing: &Typing, of: Option<TypeNo>) -> InitList
        requires members_held { AreOfTable types.now typing.now }
        requires object_given { IfSome of (IsTypeNo types.now) }
        ensures opened { braces_of types.now result ≡ opened (object_of types.now of) (first_place typing.now (object_of types.now of)) }
        ensures held { AreHeld types.now result }
    {
        InitList {
            object: of,
            place: first_place(types, typing, of),
            reached: None,
        }
    }

    /// An equal list, so that a list can be put back after one inside it.
    pub fn copy(&self) -> InitList
        ensures { result ≡ self.now }
    {
        InitList {
            object: self.object,
            place: self.place,
            reached: self.reached,
        }
    }

    // The object that the next designator starts from.
    fn starts_from(&self) -> Option<TypeNo>
        ensures meant { (t : Table) → option_map (type_at t) result ≡ starts_from (braces_of t self.now) }
        ensures given { (t : Table) → AreHeld t self.now → IfSome result (IsTypeNo t) }
    {
        match self.reached {
            Some(reached) => reached.object,
            None => self.object,
        }
    }

    // A designator reached an object; where it is the only one, the place after the item is told.
    fn reach(&mut self, object: Option<TypeNo>, after: Option<usize>)
        ensures meant { (t : Table) → braces_of t self.new ≡ reaching (braces_of t self.old) (option_map (type_at t) object) after }
        ensures held { (t : Table) → AreHeld t self.old → IfSome object (IsTypeNo t) → AreHeld t self.new }
    {
        let after = if self.reached.is_some() { None } else { after };
        self.reached = Some(Reached { object, after });
    }

    /// The next designator of an item (C11 6.7.9p6, p7): the member that `.name` names, and nothing for `[e]`.
    ///
    /// `Elision`: what the designators before it reached is unknown, or, for the first one, the list's own object.
    /// `NotRecord`: it is no structure and no union. `NoMember`: it lacks the member or is incomplete. A refused designator
    /// changes nothing.
    pub fn designate(
        &mut self,
        types: &Types,
        typing: &Typing,
        step: Desig,
    ) -> Result<Option<MemberNo>, TypeFault>
        requires members_held { AreOfTable types.now typing.now }
        requires list_held { AreHeld types.now self.old }
        ensures answer { result ≡ designation typing.now (braces_of types.now self.old) step }
        ensures given { IfOk result (λ named. IfSome named (λ m. IsMemberNo typing.now m)) }
        ensures ok { IfOk result (λ named. braces_of types.now self.new ≡ designated types.now typing.now (braces_of types.now self.old) named) }
        ensures held { AreHeld types.now self.new }
        ensures err { OnErr result (self.new ≡ self.old) }
    {
        match step {
            Desig::Index => {
                self.index(types);
                Ok(None)
            }
            Desig::Dot(name) => {
                let m = self.dot(types, typing, name)?;
                Ok(Some(m))
            }
        }
    }

    // `[e]`
    fn index(&mut self, types: &Types)
        requires { AreHeld types.now self.old }
        ensures meant { braces_of types.now self.new ≡ indexed (braces_of types.now self.old) }
        ensures held { AreHeld types.now self.new }
    {
        let element = element_of(types, self.starts_from());
        let after = after_index(types, self.object);
        self.reach(element, after);
    }

    // `.name`
    fn dot(&mut self, types: &Types, typing: &Typing, name: Name) -> Result<MemberNo, TypeFault>
        requires members_held { AreOfTable types.now typing.now }
        requires list_held { AreHeld types.now self.old }
        ensures answer { result ≡ dotted typing.now name (starts_from (braces_of types.now self.old)) }
        ensures given { IfOk result (λ m. IsMemberNo typing.now m) }
        ensures ok { IfOk result (λ m. braces_of types.now self.new ≡ designated types.now typing.now (braces_of types.now self.old) (Some m)) }
        ensures held { AreHeld types.now self.new }
        ensures err { OnErr result (self.new ≡ self.old) }
    {
        let m = dotted(types, typing, self.starts_from(), name)?;
        let placed = typing.placed(m);
        let after = after_member(types, typing, placed, self.object);
        self.reach(Some(placed.member.ty), after);
        Ok(m)
    }

    // What the next item takes, and the place after it.
    fn taken(&self, types: &Types, typing: &Typing) -> Reached
        requires members_held { AreOfTable types.now typing.now }
        requires list_held { AreHeld types.now self.now }
        ensures meant { taken_of types.now result ≡ taken types.now typing.now (braces_of types.now self.now) }
        ensures given { IfSome result.object (λ n. IsTypeNo types.now n) }
    {
        if let Some(reached) = self.reached {
            return reached;
        }
        match (self.object, self.place) {
            (Some(object), Some(place)) => Reached {
                object: part_at(types, typing, object, place),
                after: next_place(types, typing, object, place),
            },
            _ => Reached {
                object: None,
                after: None,
            },
        }
    }

    /// The type of the object that the next item takes, if it is known (C11 6.7.9p17 to p20). A list in braces has this
    /// type. A value that doesn't fill the object leaves the place after it unknown.
    pub fn item(
        &mut self,
        types: &Types,
        typing: &Typing,
        of: ItemKind,
    ) -> Result<Option<TypeNo>, TypeFault>
        requires members_held { AreOfTable types.now typing.now }
        requires list_held { AreHeld types.now self.old }
        requires kind_given { IsKindOf types.now of }
        ensures answer { IfOk result (λ n. option_map (type_at types.now) n ≡ (taken types.now typing.now (braces_of types.now self.old)).object) }
        ensures given { IfOk result (λ n. IfSome n (λ k. IsTypeNo types.now k)) }
        ensures ok { OnOk result (braces_of types.now self.new ≡ with_item types.now typing.now (braces_of types.now self.old) of) }
        ensures held { AreHeld types.now self.new }
        ensures always { IsOk result }
    {
        let taken = self.taken(types, typing);
        self.place = if is_short(types, of, taken.object) {
            None
        } else {
            taken.after
        };
        self.reached = None;
        Ok(taken.object)
    }
}
