//! Values from C11 and from worked examples, never from a run.
use super::*;
use std::process::Abort;
use std::test::Fail;

fn moves_between_threads<T: Send + Drop>(_value: T) {}

fn decl(space: Space, name: u32, kind: Kind, linkage: Linkage) -> Decl {
    Decl {
        space,
        name: Name(name),
        token: 0,
        kind,
        linkage,
        note: 0,
    }
}

fn object(name: u32, linkage: Linkage) -> Decl {
    decl(Space::Ordinary, name, Kind::Object, linkage)
}

#[test]
fn linkage_follows_the_visible_declaration(rt: HostRuntime) -> Result<(), Fail> {
    let mut scopes = Scopes::new(rt.alloc())?;
    let x = Name(1);
    // at file scope, where nothing is declared: `static`, `extern`, a function and an object
    assert_eq!(rt; scopes.linkage(x, true, false, false), Linkage::Internal);
    assert_eq!(rt; scopes.linkage(x, false, true, false), Linkage::External);
    assert_eq!(rt; scopes.linkage(x, false, false, true), Linkage::External);
    assert_eq!(rt; scopes.linkage(x, false, false, false), Linkage::External);
    scopes.declare(object(1, Linkage::Internal))?;
    assert_eq!(rt; scopes.linkage(x, false, true, false), Linkage::Internal);
    assert_eq!(rt; scopes.linkage(x, false, false, false), Linkage::External);
    // in a block
    scopes.enter()?;
    assert_eq!(rt; scopes.linkage(x, true, false, false), Linkage::None);
    assert_eq!(rt; scopes.linkage(x, true, false, true), Linkage::None);
    assert_eq!(rt; scopes.linkage(x, false, false, false), Linkage::None);
    assert_eq!(rt; scopes.linkage(x, false, false, true), Linkage::Internal);
    // a local hides the static
    scopes.declare(object(1, Linkage::None))?;
    assert_eq!(rt; scopes.linkage(x, false, true, false), Linkage::External);
    moves_between_threads(scopes);
    Ok(())
}

// Whether the second of two declarations of one name in one scope is refused.
fn is_refused(rt: &impl Abort, alloc: Global, first: Decl, second: Decl) -> Result<bool, Fail> {
    let mut scopes = Scopes::new(alloc)?;
    scopes.declare(first)?;
    match scopes.declare(second) {
        Ok(_) => Ok(false),
        Err(fault) => {
            assert_eq!(rt; fault, ScopeFault::Redeclared);
            Ok(true)
        }
    }
}

#[test]
fn declarations_of_one_name_stand_or_clash(rt: HostRuntime) -> Result<(), Fail> {
    let local = Linkage::None;
    let here = Linkage::Internal;
    let everywhere = Linkage::External;
    let may_stand = [
        (Kind::Function, everywhere, Kind::Function, everywhere),
        (Kind::Object, here, Kind::Object, here),
        (Kind::Typedef, local, Kind::Typedef, local),
    ];
    let clash = [
        (Kind::Function, local, Kind::Function, local),
        (Kind::Object, local, Kind::Object, local),
        (Kind::Object, everywhere, Kind::Object, local),
        (Kind::Object, everywhere, Kind::Function, everywhere),
        (Kind::Typedef, local, Kind::Object, local),
        (Kind::Enumerator, local, Kind::Enumerator, local),
        (Kind::Object, here, Kind::Object, everywhere),
    ];
    for (kinds, refused) in [(may_stand.as_slice(), false), (clash.as_slice(), true)] {
        for &(kind, linkage, other_kind, other_linkage) in kinds {
            let d = decl(Space::Ordinary, 1, kind, linkage);
            let e = decl(Space::Ordinary, 1, other_kind, other_linkage);
            assert_eq!(rt; is_refused(&rt, rt.alloc(), d, e)?, refused);
            assert_eq!(rt; is_refused(&rt, rt.alloc(), e, d)?, refused);
        }
    }
    let tag = decl(Space::Tag, 1, Kind::Struct, local);
    assert_eq!(rt; is_refused(&rt, rt.alloc(), tag, tag)?, false);
    assert_eq!(rt;
        is_refused(&rt, rt.alloc(), tag, decl(Space::Tag, 1, Kind::Enum, local))?,
        true
    );
    assert_eq!(rt; is_refused(&rt, rt.alloc(), tag, object(1, local))?, false);
    let label = decl(Space::Label, 1, Kind::Label, local);
    assert_eq!(rt; is_refused(&rt, rt.alloc(), label, label)?, true);
    Ok(())
}

#[test]
fn the_last_declaration_in_the_deepest_scope_is_meant(rt: HostRuntime) -> Result<(), Fail> {
    let mut scopes = Scopes::new(rt.alloc())?;
    let x = Name(1);
    let outer = scopes.declare(object(1, Linkage::External))?;
    let function = scopes.enter()?;
    let parameter = scopes.declare(object(1, Linkage::None))?;
    scopes.leave();
    let again = scopes.declare(object(1, Linkage::External))?;
    assert_eq!(rt; scopes.lookup(Space::Ordinary, x), Some(again));
    assert_eq!(rt; scopes.linked(x), Some(outer));
    // the body of a function shares its parameters' scope
    scopes.enter_again(function)?;
    assert_eq!(rt; scopes.lookup(Space::Ordinary, x), Some(parameter));
    let mut all = scopes.lookup_all(Space::Ordinary, x);
    for expected in [Some(parameter), Some(again), Some(outer), None] {
        assert_eq!(rt; all.next(), expected);
    }
    Ok(())
}

#[test]
fn labels_belong_to_their_function(rt: HostRuntime) -> Result<(), Fail> {
    let mut scopes = Scopes::new(rt.alloc())?;
    let label = decl(Space::Label, 7, Kind::Label, Linkage::None);
    scopes.enter()?;
    scopes.enter()?;
    let inner = scopes.declare(label)?;
    let object = scopes.declare(object(7, Linkage::None))?;
    assert_eq!(rt; scopes.depth(object), 2);
    assert_eq!(rt; scopes.depth(inner), 1);
    assert_eq!(rt; scopes.get(inner).kind, Kind::Label);
    scopes.leave();
    assert_eq!(rt; scopes.lookup(Space::Label, Name(7)), Some(inner));
    assert_eq!(rt; scopes.lookup(Space::Ordinary, Name(7)), None);
    assert_eq!(rt; scopes.declare(label), Err(ScopeFault::Redeclared));
    Ok(())
}
