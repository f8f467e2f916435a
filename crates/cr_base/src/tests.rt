use crate::{
    Key, Name, NameTable, PathNo, PathText, Place, RecordKey, TagKind, Text, is_identifier,
    is_keyword, is_reserved,
};
use std::test::Fail;

#[test]
fn paths_take_their_one_form(rt: HostRuntime) -> Result<(), Fail> {
    let alloc = rt.alloc();
    let cases: [(&[u8], &[u8], &[u8]); 9] = [
        (b"", b"a.c", b"a.c"),
        (b"", b"./x/../a.c", b"a.c"),
        (b"/w/build", b"../src//main.c", b"/w/src/main.c"),
        (b"/w", b"/x/./y", b"/x/y"),
        (b"/", b"../..", b"/"),
        (b"a", b"../../b", b"../b"),
        (b"..", b"..", b"../.."),
        (b"", b"", b""),
        (b"w", b"a/", b"w/a"),
    ];
    for (base, text, path) in &cases {
        let base = PathText::normalise(alloc, &PathText::empty(alloc), base)?;
        let made = PathText::normalise(alloc, &base, text)?;
        assert_eq!(rt; made.bytes(), *path);
        assert_eq!(rt; made.copy(alloc)?.bytes(), *path);
    }
    assert_eq!(rt;
        PathText::apart(alloc, b"words/3")?.bytes(),
        b"//words/3".as_slice()
    );
    Ok(())
}

#[test]
fn identifiers_keywords_and_reserved_names_are_told_apart(rt: HostRuntime) -> Result<(), Fail> {
    let cases: [(&[u8], bool, bool, bool); 9] = [
        (b"foo", true, false, false),
        (b"while", true, true, false),
        (b"_Thread_local", true, true, true),
        (b"__x", true, false, true),
        (b"_X", true, false, true),
        (b"_x", true, false, false),
        (b"9a", false, false, false),
        (b"", false, false, false),
        (b"a-b", false, false, false),
    ];
    for (text, identifier, keyword, reserved) in &cases {
        assert_eq!(rt; is_identifier(text), *identifier);
        assert_eq!(rt; is_keyword(text), *keyword);
        assert_eq!(rt; is_reserved(text), *reserved);
    }
    Ok(())
}

#[test]
fn a_text_keeps_its_one_number(rt: HostRuntime) -> Result<(), Fail> {
    let alloc = rt.alloc();
    let mut names = NameTable::new(alloc);
    assert_eq!(rt; names.len(), 0);
    let foo = names.intern(b"foo")?;
    assert_eq!(rt; names.len(), 1);
    let bar = names.intern(b"bar")?;
    assert_eq!(rt; names.len(), 2);
    let again = names.intern(b"foo")?;
    assert_eq!(rt; (foo, bar, again), (Name(0), Name(1), Name(0)));
    names.truncate(1);
    assert_eq!(rt; names.len(), 1);
    let next = names.intern(b"next")?;
    assert_eq!(rt; next, Name(1));
    Ok(())
}

#[test]
fn copies_of_keys_are_equal(rt: HostRuntime) -> Result<(), Fail> {
    let alloc = rt.alloc();
    let place = Place {
        path: PathNo(1),
        offset: 2,
    };
    let keys = [
        Key::Ext(Text::new(alloc, b"foo")?),
        Key::Tag(TagKind::Union, Text::new(alloc, b"u")?),
        Key::Member(
            RecordKey::Tag(TagKind::Struct, Text::new(alloc, b"s")?),
            Text::new(alloc, b"len")?,
        ),
        Key::Member(RecordKey::At(place), Text::new(alloc, b"len")?),
        Key::Member(RecordKey::Made(1, 2), Text::new(alloc, b"len")?),
        Key::At(place),
        Key::Made(3, 4),
    ];
    for key in &keys {
        assert!(rt; key.copy(alloc)? == *key);
    }
    Ok(())
}
