//! Types by number: equal types have one number.
#![tactic(auto)]

ghost use Rattle.std.specs.Prelude.{◌≡◌, ◌+◌, ◌<◌, ◌≤◌, Some, IsOk, IfOk, OnOk, OnErr, length, slice_get};
ghost use Rattle.indexmap.specs.IndexSet.{insert_key, spare};
ghost use Rattle.cr_types.specs.Kept.{IsEquality, Puts, derivation, DerivesIn};
ghost use Rattle.cr_types.specs.Types.{no_types, IsTypeNo, IsRecNo, IsOfTable, type_of, type_at, Numbers, Adds, Keeps, derived_by, with_record, key_at, union_at};

use cr_base::{OutOfMemory, RecordKey};
use indexmap::IndexSet;
use std::alloc::Global;
use std::marker::Model;

/// The number of a type in its `Types`.
#[derive(Clone, Copy, Debug, PartialEq, Eq, Hash)]
pub struct TypeNo(usize);

/// The number of a structure or union in its `Types`.
#[derive(Clone, Copy, Debug, PartialEq, Eq, Hash)]
pub struct RecNo(usize);

impl RecNo {
    /// How many structures and unions had a number before it in its `Types`.
    pub fn number(self) -> usize
        ensures { result ≡ self.0 }
    {
        self.0
    }
}

/// A type (C11 6.2.5), as far as the members of records need it.
#[derive(Clone, Copy, Debug, PartialEq, Eq, Hash)]
pub enum Ty {
    Void,
    /// Any arithmetic type, and any enumeration.
    Arith,
    Ptr(TypeNo),
    Arr(TypeNo),
    /// A function, by what it returns.
    Fun(TypeNo),
    Rec(RecNo),
    /// What a generic selection is whose results have different types.
    Mixed,
}

/// A derivation of a type from another (C11 6.2.5p20).
#[derive(Clone, Copy, Debug, PartialEq, Eq)]
pub enum Part {
    Pointer,
    Array,
    Function,
}

/// A structure or union: the key of its tag, or of the place where it is specified, and which of the two it is.
#[derive(Drop)]
pub struct Record {
    pub key: RecordKey,
    pub union: bool,
}

/// The types and records of a unit.
#[derive(Drop)]
pub struct Types {
    types: IndexSet<Ty>,
    records: Vec<Record>,
}

impl Model for Types {
    ghost use Rattle.std.specs.Prelude.{length};
    ghost use Rattle.indexmap.specs.IndexSet.{insert_key, spare};
    ghost use Rattle.cr_types.specs.Kept.{IsEquality, Puts, derivation, DerivesIn};
    ghost use Rattle.cr_types.specs.Types.{Table};
    ghost use Rattle.cr_types.specs.Kept.{IsTable};

    ghost Value = { Table };

    ghost view = { λ a. record { types = a.types.keys; records = a.records.items } };

    ghost invariant = { λ a. IsTable a.types.keys (length a.records.items) };
}

// Puts a type into a set of types; what is equal there is the same type.
fn put(types: &mut IndexSet<Ty>, ty: Ty) -> Result<usize, OutOfMemory>
    ensures equality { IsEquality ⟦<Ty as PartialEq>⟧.eq }
    ensures number { IfOk result (λ n. slice_get types.new.keys n ≡ Some ty) }
    ensures ok { OnOk result (types.new.keys ≡ insert_key ⟦<Ty as PartialEq>⟧.eq types.old.keys ty) }
    ensures err { OnErr result (types.new.keys ≡ types.old.keys) }
    ensures succeeds { 0 < spare types.old → IsOk result }
    ensures room { spare types.old ≤ spare types.new + 1 }
{
    let (n, _) = types.insert_full(ty)?;
    Ok(n)
}

// The number of a type in a list of types, to whose end it goes where it isn't there.
fn number_in(types: &mut IndexSet<Ty>, ty: Ty) -> Result<usize, OutOfMemory>
    ensures number { IfOk result (λ n. slice_get types.new.keys n ≡ Some ty) }
    ensures ok { OnOk result (Puts types.old.keys ty types.new.keys) }
    ensures err { OnErr result (types.new.keys ≡ types.old.keys) }
    ensures succeeds { 0 < spare types.old → IsOk result }
    ensures room { spare types.old ≤ spare types.new + 1 }
{
    let n = put(types, ty)?;
    Ok(n)
}

// The type derived from the one with a number.
fn derivation(part: Part, n: usize) -> Ty
    ensures { result ≡ derivation part n }
{
    match part {
        Part::Pointer => Ty::Ptr(TypeNo(n)),
        Part::Array => Ty::Arr(TypeNo(n)),
        Part::Function => Ty::Fun(TypeNo(n)),
    }
}

// Puts a derived type where there is room for it.
fn derive_one(types: &mut IndexSet<Ty>, part: Part, n: usize) -> usize
    requires { 0 < spare types.old }
    ensures number { slice_get types.new.keys result ≡ Some (derivation part n) }
    ensures puts { Puts types.old.keys (derivation part n) types.new.keys }
    ensures room { spare types.old ≤ spare types.new + 1 }
{
    match number_in(types, derivation(part, n)) {
        Ok(k) => k,
        Err(_) => unreachable!(),
    }
}

// Puts the types derived from one by all parts, the innermost first, where there is room for them.
fn derive_in(types: &mut IndexSet<Ty>, base: usize, parts: &[Part]) -> usize
    requires { length parts.now ≤ spare types.old }
    ensures { DerivesIn types.old.keys base parts.now types.new.keys result }
{
    let mut n = base;
    for i in (0..parts.len()).rev() {
        n = derive_one(types, parts[i], n);
    }
    n
}

impl Types {
    /// No types and no records.
    pub fn new(alloc: Global) -> Types
        ensures { result ≡ no_types }
    {
        Types {
            types: IndexSet::new(alloc),
            records: Vec::new(alloc),
        }
    }

    /// The number of a type, on condition that these types gave the numbers in it.
    pub fn make(&mut self, ty: Ty) -> Result<TypeNo, OutOfMemory>
        requires { IsOfTable self.old ty }
        ensures given { IfOk result (λ n. IsTypeNo self.new n) }
        ensures number { IfOk result (λ n. Numbers self.new ty n) }
        ensures meant { IfOk result (λ n. type_at self.new n ≡ type_of self.old ty) }
        ensures ok { OnOk result (Adds self.old ty self.new) }
        ensures keeps { Keeps self.old self.new }
        ensures err { OnErr result (self.new ≡ self.old) }
    {
        let n = number_in(&mut self.types, ty)?;
        Ok(TypeNo(n))
    }

    /// The type with a number that these types gave.
    pub fn get(&self, n: TypeNo) -> Ty
        requires { IsTypeNo self.now n }
        ensures number { Numbers self.now result n }
        ensures parts { IsOfTable self.now result }
        ensures meant { type_of self.now result ≡ type_at self.now n }
        ensures one { (m : TypeNo) → IsTypeNo self.now m → type_at self.now m ≡ type_at self.now n → m ≡ n }
    {
        match self.types.get_index(n.0) {
            Some(ty) => *ty,
            None => unreachable!(),
        }
    }

    /// The type that a declarator's parts derive from a base, the outermost derivation first. Want of memory makes none
    /// of them.
    pub fn derive(&mut self, base: TypeNo, parts: &[Part]) -> Result<TypeNo, OutOfMemory>
        requires { IsTypeNo self.old base }
        ensures given { IfOk result (λ n. IsTypeNo self.new n) }
        ensures meant { IfOk result (λ n. type_at self.new n ≡ derived_by parts.now (type_at self.old base)) }
        ensures records { self.new.records ≡ self.old.records }
        ensures keeps { Keeps self.old self.new }
        ensures err { OnErr result (self.new ≡ self.old) }
    {
        self.types.reserve(parts.len())?;
        Ok(TypeNo(derive_in(&mut self.types, base.0, parts)))
    }

    /// The number of a new structure or union.
    pub fn new_rec(&mut self, key: RecordKey, union: bool) -> Result<RecNo, OutOfMemory>
        ensures given { IfOk result (λ r. IsRecNo self.new r) }
        ensures number { IfOk result (λ r. r.0 ≡ length self.old.records) }
        ensures ok { OnOk result (self.new ≡ with_record self.old (record { key = key; union = union })) }
        ensures keeps { Keeps self.old self.new }
        ensures err { OnErr result (self.new ≡ self.old) }
    {
        let r = self.records.len();
        self.records.push(Record { key, union })?;
        Ok(RecNo(r))
    }

    /// The key of a record that these types gave.
    pub fn rec_key(&self, r: RecNo) -> &RecordKey
        requires { IsRecNo self.now r }
        ensures { key_at self.now r ≡ Some result.now }
    {
        &self.records[r.0].key
    }

    /// Whether a record that these types gave is a union.
    pub fn is_union(&self, r: RecNo) -> bool
        requires { IsRecNo self.now r }
        ensures { union_at self.now r ≡ Some result }
    {
        self.records[r.0].union
    }
}

#[cfg(test)]
mod tests {
    use super::*;
    use cr_base::{PathNo, Place};
    use std::test::Fail;

    fn moves_between_threads<T: Send + Drop>(_value: T) {}

    #[test]
    fn equal_types_have_one_number(rt: HostRuntime) -> Result<(), Fail> {
        let mut types = Types::new(rt.alloc());
        let place = Place {
            path: PathNo(0),
            offset: 7,
        };
        let record = types.new_rec(RecordKey::At(place), true)?;
        assert!(rt; *types.rec_key(record) == RecordKey::At(place));
        assert!(rt; types.is_union(record));
        let arith = types.make(Ty::Arith)?;
        let pointer = types.make(Ty::Ptr(arith))?;
        assert!(rt; arith != pointer);
        assert_eq!(rt; types.make(Ty::Arith)?, arith);
        assert_eq!(rt; types.get(pointer), Ty::Ptr(arith));
        let derived = types.derive(arith, &[Part::Function, Part::Pointer])?;
        assert_eq!(rt; types.get(derived), Ty::Fun(pointer));
        moves_between_threads(types);
        Ok(())
    }
}
