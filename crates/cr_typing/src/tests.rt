//! Values from C11 6.5, 6.7.2.1 and 6.7.9, never from a run.

ghost use Rattle.std.specs.Prelude.{◌≡◌, IfOk};
ghost use Rattle.cr_types.specs.Types.{Rec, IsTypeNo, IsRecNo, type_at};

use super::*;
use cr_base::{Name, PathNo, Place, RecordKey};
use cr_types::{RecNo, Ty, TypeNo, Types};
use std::alloc::Global;
use std::test::Fail;

const A: Name = Name(1);

const B: Name = Name(2);

const C: Name = Name(3);

fn moves_between_threads<T: Send + Drop>(_value: T) {}

fn key(offset: u32) -> RecordKey {
    RecordKey::At(Place {
        path: PathNo(0),
        offset,
    })
}

#[test]
fn operators_make_types(rt: HostRuntime) -> Result<(), Fail> {
    let mut types = Types::new(rt.alloc());
    let typing = Typing::new(rt.alloc());
    let int = types.make(Ty::Arith)?;
    let array = types.make(Ty::Arr(int))?;
    let pointer = typing.binary(&mut types, Op::Plus, int, array)?;
    assert_eq!(rt; types.get(pointer), Ty::Ptr(int));
    assert_eq!(rt; typing.unary(&mut types, Op::Deref, array)?, int);
    moves_between_threads(typing);
    Ok(())
}

// Two structures whose members aren't added yet.
#[derive(Drop)]
struct Pair {
    types: Types,
    int: TypeNo,
    inner: RecNo,
    outer: RecNo,
    inner_ty: TypeNo,
    outer_ty: TypeNo,
}

fn two_records(alloc: Global) -> Result<Pair, Fail>
    ensures records { IfOk result (λ p. IsRecNo p.types p.inner × IsRecNo p.types p.outer) }
    ensures apart { IfOk result (λ p. (p.inner.0 ≡ 0) × (p.outer.0 ≡ 1)) }
    ensures types { IfOk result (λ p. IsTypeNo p.types p.int × IsTypeNo p.types p.inner_ty × IsTypeNo p.types p.outer_ty) }
    ensures meant { IfOk result (λ p. type_at p.types p.inner_ty ≡ Rec p.inner.0) }
{
    let mut types = Types::new(alloc);
    let inner = types.new_rec(key(0), false)?;
    let outer = types.new_rec(key(1), false)?;
    let int = types.make(Ty::Arith)?;
    let outer_ty = types.make(Ty::Rec(outer))?;
    let inner_ty = types.make(Ty::Rec(inner))?;
    Ok(Pair {
        types,
        int,
        inner,
        outer,
        inner_ty,
        outer_ty,
    })
}

// struct { struct { int a; }; }
#[test]
fn members_are_found_through_anonymous_records(rt: HostRuntime) -> Result<(), Fail> {
    let p = two_records(rt.alloc())?;
    let mut typing = Typing::new(rt.alloc());
    let a = typing.add_member(&p.types, p.inner, Some(A), p.int, 1)?;
    typing.finish(p.inner);
    typing.add_member(&p.types, p.outer, None, p.inner_ty, 2)?;
    typing.finish(p.outer);
    assert_eq!(rt; typing.select(&p.types, p.outer_ty, false, A), Ok(a));
    Ok(())
}

// struct { int a; struct { int a; }; }
#[test]
fn anonymous_records_repeat_no_name(rt: HostRuntime) -> Result<(), Fail> {
    let p = two_records(rt.alloc())?;
    let mut typing = Typing::new(rt.alloc());
    typing.add_member(&p.types, p.outer, Some(A), p.int, 1)?;
    typing.add_member(&p.types, p.inner, Some(A), p.int, 2)?;
    typing.finish(p.inner);
    let twice = typing.add_member(&p.types, p.outer, None, p.inner_ty, 3);
    assert_eq!(rt; twice, Err(TypeFault::Redeclared(2)));
    Ok(())
}

// int v[] = { [1] = 1, 2 };
#[test]
fn an_index_reaches_an_element(rt: HostRuntime) -> Result<(), Fail> {
    let mut types = Types::new(rt.alloc());
    let typing = Typing::new(rt.alloc());
    let int = types.make(Ty::Arith)?;
    let array = types.make(Ty::Arr(int))?;
    let mut list = InitList::new(&types, &typing, Some(array));
    assert_eq!(rt; list.designate(&types, &typing, Desig::Index)?, None);
    let value = ItemKind::Value(int);
    assert_eq!(rt; list.item(&types, &typing, value)?, Some(int));
    assert_eq!(rt; list.item(&types, &typing, value)?, Some(int));
    Ok(())
}

// char v[][4] = { "abc", 'd', 'e' };
#[test]
fn a_string_fills_an_array(rt: HostRuntime) -> Result<(), Fail> {
    let mut types = Types::new(rt.alloc());
    let typing = Typing::new(rt.alloc());
    let char = types.make(Ty::Arith)?;
    let array = types.make(Ty::Arr(char))?;
    let arrays = types.make(Ty::Arr(array))?;
    let mut list = InitList::new(&types, &typing, Some(arrays));
    let string = list.item(&types, &typing, ItemKind::StringValue)?;
    assert_eq!(rt; string, Some(array));
    let value = ItemKind::Value(char);
    assert_eq!(rt; list.item(&types, &typing, value)?, Some(array));
    assert_eq!(rt; list.item(&types, &typing, value)?, None);
    Ok(())
}

// struct p { int a; }; struct s { struct p b; int c; }; struct s v = { 1, { .a = 2 } };
#[test]
fn behind_elided_braces_no_member_is_designated(rt: HostRuntime) -> Result<(), Fail> {
    let p = two_records(rt.alloc())?;
    let mut typing = Typing::new(rt.alloc());
    typing.add_member(&p.types, p.inner, Some(A), p.int, 1)?;
    typing.finish(p.inner);
    typing.add_member(&p.types, p.outer, Some(B), p.inner_ty, 2)?;
    typing.add_member(&p.types, p.outer, Some(C), p.int, 3)?;
    typing.finish(p.outer);
    let mut list = InitList::new(&p.types, &typing, Some(p.outer_ty));
    list.item(&p.types, &typing, ItemKind::Value(p.int))?;
    let object = list.item(&p.types, &typing, ItemKind::Braces)?;
    let mut inner = InitList::new(&p.types, &typing, object);
    let elided = inner.designate(&p.types, &typing, Desig::Dot(A));
    assert_eq!(rt; elided, Err(TypeFault::Elision));
    Ok(())
}

// struct s v = { sizeof(struct s { int b; struct { int a; } c; }), { .a = 1 } };
#[test]
fn a_list_for_a_record_that_ends_within_it_has_no_first_member(
    rt: HostRuntime,
) -> Result<(), Fail> {
    let p = two_records(rt.alloc())?;
    let mut typing = Typing::new(rt.alloc());
    let mut list = InitList::new(&p.types, &typing, Some(p.outer_ty));
    typing.add_member(&p.types, p.inner, Some(A), p.int, 1)?;
    typing.finish(p.inner);
    typing.add_member(&p.types, p.outer, Some(B), p.int, 2)?;
    typing.add_member(&p.types, p.outer, Some(C), p.inner_ty, 3)?;
    typing.finish(p.outer);
    let value = list.item(&p.types, &typing, ItemKind::Value(p.int))?;
    assert_eq!(rt; value, None);
    assert_eq!(rt; list.item(&p.types, &typing, ItemKind::Braces)?, None);
    Ok(())
}
