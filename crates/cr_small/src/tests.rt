//! Values from C11's rules on scope and linkage, counted by hand.
use crate::{
    EntityKey, SmallText, a_target_has_a_place, a_target_names_its_key, denotations_are_one,
    entities_have_one_name, every_text_is_decided, keys_move, places_rise,
    renaming_keeps_the_meaning,
};
use cr_base::OutOfMemory;
use std::alloc::Global;
use std::test::Fail;

// A text of the small form of at most 1,000 bytes.
fn read(alloc: Global, bytes: &[u8]) -> Result<Option<SmallText>, OutOfMemory> {
    if bytes.len() > 1000 {
        return Ok(None);
    }
    SmallText::read(alloc, bytes)
}

fn is_same(key: EntityKey, wanted: EntityKey) -> bool {
    match (key, wanted) {
        (EntityKey::External(name), EntityKey::External(wanted)) => name == wanted,
        (EntityKey::At(offset), EntityKey::At(wanted)) => offset == wanted,
        _ => false,
    }
}

// What stands at an offset of a text, and where its entity stands.
#[derive(Clone, Copy)]
struct Case<'a> {
    text: &'a [u8],
    offset: usize,
    name: &'a [u8],
    key: EntityKey<'a>,
    at_file_scope: bool,
    places: &'a [usize],
}

fn holds(alloc: Global, case: &Case) -> Result<bool, OutOfMemory> {
    let Some(text) = read(alloc, case.text)? else {
        return Ok(false);
    };
    if text.denotes.items().len() != text.tokens.items().len() {
        return Ok(false);
    }
    let Some(target) = text.target_at(case.offset) else {
        return Ok(false);
    };
    let places = text.places_of(alloc, target.key)?;
    Ok(
        is_same(target.key, case.key)
            && target.name == case.name
            && target.at_file_scope == case.at_file_scope
            && places.as_slice() == case.places,
    )
}

#[test]
fn the_laws_are_called(_rt: HostRuntime) -> Result<(), Fail> {
    places_rise();
    a_target_has_a_place();
    a_target_names_its_key();
    denotations_are_one();
    entities_have_one_name();
    every_text_is_decided();
    renaming_keeps_the_meaning();
    keys_move();
    Ok(())
}

#[test]
fn texts_are_of_the_small_form_or_not(rt: HostRuntime) -> Result<(), Fail> {
    let texts: [(&[u8], bool); 38] = [
        (b"", true),
        (b"int x; int f(void){ return x + 10; }", true),
        (b"int foo;int f(void){int foo;return foo;}", true),
        (b"static int foo;extern int foo;", true),
        (b"static int f(void);int f(void){return 0;}", true),
        (b"static int f(void);extern int f(void);", true),
        (b"int foo;extern int foo;", true),
        (b"extern int foo;int foo;", true),
        (b"extern int f(void);int f(void){return f();}", true),
        (b"static int foo=1;static int foo;", true),
        (b"int", false),
        (b"int x", false),
        (b"int x=;", false),
        (b"int f(void){", false),
        (b"int f(void){int y;int y;}", false),
        (b"int x=y;", false),
        (b"int f;int f(void);", false),
        (b"int _x;", false),
        (b"static int foo;int foo;", false),
        (b"int foo;static int foo;", false),
        (b"extern int foo;static int foo;", false),
        (b"extern int f(void);static int f(void);", false),
        (b"static int foo;static int foo(void);", false),
        (b"static extern int foo;", false),
        (b"static foo;", false),
        (b"int static foo;", false),
        (b"int f(void){static int x;}", false),
        (b"int f(void){extern int x;}", false),
        (b"int/**/foo;// x\nint f(void){return foo/* ; */;}", true),
        (b"in\\\nt fo\\\r\no;/* # */int f(void);", true),
        (b"\x0bint\x0cfoo\r\n;// x", true),
        (b"int foo; /* x", false),
        (b"int foo;??=", false),
        (b"#pragma x\nint foo;", false),
        (b"int foo;\n  # define x", false),
        (b"int foo=1u;", false),
        (b"int foo='1';", false),
        (b"int foo; $", false),
    ];
    for (text, small) in &texts {
        assert_eq!(rt; read(rt.alloc(), text)?.is_some(), *small);
    }
    Ok(())
}

#[test]
fn a_name_is_told_by_its_key_and_stands_at_its_places(rt: HostRuntime) -> Result<(), Fail> {
    let cases = [
        Case {
            text: b"int foo;int f(void){int foo;return foo;}",
            offset: 4,
            name: b"foo",
            key: EntityKey::External(b"foo"),
            at_file_scope: true,
            places: &[4],
        },
        Case {
            text: b"int foo;int f(void){int foo;return foo;}",
            offset: 37,
            name: b"foo",
            key: EntityKey::At(24),
            at_file_scope: false,
            places: &[24, 35],
        },
        Case {
            text: b"static int foo;extern int foo;int f(void){return foo;}",
            offset: 26,
            name: b"foo",
            key: EntityKey::At(11),
            at_file_scope: true,
            places: &[11, 26, 49],
        },
        Case {
            text: b"static int f(void);int f(void){return 0;}",
            offset: 23,
            name: b"f",
            key: EntityKey::At(11),
            at_file_scope: true,
            places: &[11, 23],
        },
        Case {
            text: b"extern int foo;int foo;",
            offset: 19,
            name: b"foo",
            key: EntityKey::External(b"foo"),
            at_file_scope: true,
            places: &[11, 19],
        },
        Case {
            text: b"static int foo;\nint a(void){return foo;}\n",
            offset: 11,
            name: b"foo",
            key: EntityKey::At(11),
            at_file_scope: true,
            places: &[11, 35],
        },
        Case {
            text: b"int foo(void);\nint a(void){return foo();}\n",
            offset: 4,
            name: b"foo",
            key: EntityKey::External(b"foo"),
            at_file_scope: true,
            places: &[4, 34],
        },
        Case {
            text: b"int /* foo */ fo\\\no;int f(void){return foo;}",
            offset: 17,
            name: b"foo",
            key: EntityKey::External(b"foo"),
            at_file_scope: true,
            places: &[14, 39],
        },
    ];
    for case in &cases {
        assert!(rt; holds(rt.alloc(), case)?);
    }
    Ok(())
}

#[test]
fn a_keyword_is_a_text_and_no_target(rt: HostRuntime) -> Result<(), Fail> {
    let alloc = rt.alloc();
    let text = read(alloc, b"static int foo;")?.ok_or("not of the small form")?;
    assert!(rt; text.has_text(b"static"));
    assert!(rt; !text.has_text(b"fo"));
    assert_eq!(rt; text.denotes.items().len(), text.tokens.items().len());
    assert!(rt; text.target_at(0).is_none());
    Ok(())
}

#[test]
fn a_name_over_a_joined_line_is_unspellable(rt: HostRuntime) -> Result<(), Fail> {
    let alloc = rt.alloc();
    let bytes = b"int foo;int f(void){return fo\\\no;}".as_slice();
    assert!(rt; bytes.len() <= 1000);
    let text = SmallText::read(alloc, bytes)?.ok_or("not of the small form")?;
    let foo = text.first_unspellable(bytes, b"bar", EntityKey::External(b"foo"));
    assert_eq!(rt; foo, Some(27));
    let f = text.first_unspellable(bytes, b"bar", EntityKey::External(b"f"));
    assert_eq!(rt; f, None);
    Ok(())
}
