use cr_base::{Key, List, OutOfMemory, PathText, Place, RecordKey, Text, Unit};
use cr_facts::{Fact, FactSet};
use cr_snapshot::{Found, Snapshot};
use cr_unit_end::{UnitEnd, end_of_unit};
use std::alloc::Global;
use std::test::Fail;

fn no_paths(alloc: Global) -> List<PathText> {
    List::of(Vec::new(alloc))
}

// A unit whose main file is `a.c`.
fn the_unit(alloc: Global) -> Result<Unit, OutOfMemory> {
    Ok(Unit {
        number: 3,
        main: PathText::normalise(alloc, &PathText::empty(alloc), b"a.c")?,
        directory: PathText::empty(alloc),
        quote_dirs: no_paths(alloc),
        dirs: no_paths(alloc),
        system_dirs: no_paths(alloc),
        words: Text::new(alloc, b"")?,
    })
}

// Makes a path known of which nothing is known.
fn know(
    snapshot: &mut Snapshot,
    path: PathText,
    found: Option<Vec<u8>>,
) -> Result<(), OutOfMemory> {
    let stands_apart = path.bytes().starts_with(b"//");
    if stands_apart || !matches!(snapshot.get(&path), Found::Unknown) {
        return Ok(());
    }
    match snapshot.know(path, found) {
        Ok(_) => Ok(()),
        Err(_) => Err(OutOfMemory),
    }
}

// A snapshot in which the main file has this text.
fn known(alloc: Global, text: &[u8]) -> Result<Snapshot, OutOfMemory> {
    let mut snapshot = Snapshot::new(alloc)?;
    let words = PathText::apart(alloc, b"words/3")?;
    if matches!(snapshot.get(&words), Found::Unknown) {
        match snapshot.know(words, Some(Vec::new(alloc))) {
            Ok(_) => {}
            Err(_) => return Err(OutOfMemory),
        }
    }
    let unit = the_unit(alloc)?;
    know(&mut snapshot, unit.main, Some(text.to_vec(alloc)?))?;
    Ok(snapshot)
}

// How the unit ends, where no other file is there.
fn ended(alloc: Global, text: &[u8], old: &[u8], new: &[u8]) -> Result<UnitEnd, OutOfMemory> {
    let unit = the_unit(alloc)?;
    let mut snapshot = known(alloc, text)?;
    for _ in 0..8u32 {
        match end_of_unit(alloc, &unit, &snapshot, old, new)? {
            UnitEnd::Wants(paths) => {
                for path in paths {
                    know(&mut snapshot, path, None)?;
                }
            }
            end => return Ok(end),
        }
    }
    Err(OutOfMemory)
}

// The cause and its place, or nothing where the unit is well-formed.
fn cause_of(alloc: Global, text: &[u8]) -> Result<Vec<u8>, OutOfMemory> {
    let mut out = Vec::new(alloc);
    if let UnitEnd::Ill(cause, place) = ended(alloc, text, b"foo", b"bar")? {
        let shown = format!(in alloc; "{:?} {}", cause, place.offset)?;
        out.extend_from_slice(shown.as_bytes())?;
    }
    Ok(out)
}

const CAUSES: &[(&[u8], &[u8])] = &[
    (b"int foo;int foo(void);", b"Redeclared 12"),
    (b"int foo=x;", b"Unresolved 8"),
    (b"int foo=0b1;", b"BadToken 8"),
    (b"int foo=;", b"Syntax 8"),
    (b"int foo;float int y;", b"BadSpecifiers 14"),
    (b"int foo=foo.x;", b"NotRecord 12"),
    (b"int foo;struct s t;int z=t.q;", b"NoMember 27"),
    (
        b"struct p{int x;};struct a{struct p s;int t;};struct a v={1,{.x=2}};\n",
        b"Elision 61",
    ),
    (b"int foo; /* x", b"OpenComment 9"),
    (b"#include \"no.h\"\nint foo;\n", b"MissingFile 9"),
    (b"#if 1/0\n#endif\nint foo;\n", b"DivideByZero 0"),
    (b"#if 0&&1/0\n#endif\nint foo;\n", b""),
    (
        b"int foo(void){return 0;}\nint main(void){return foo();}\n",
        b"",
    ),
    (
        b"typedef struct node node; struct list { node *node; };\n",
        b"",
    ),
    (b"struct bar{int x;};int foo(void);\n", b""),
    (b"typedef int bar;\nint f(int (foo));\n", b""),
];

#[test]
fn a_unit_is_well_formed_or_has_a_first_cause(rt: HostRuntime) -> Result<(), Fail> {
    let alloc = rt.alloc();
    for (text, want) in CAUSES {
        let found = cause_of(alloc, text)?;
        assert!(rt; found.as_slice() == *want, "{text:?} {found:?}");
    }
    Ok(())
}

// The facts of a well-formed unit.
fn facts_of(
    alloc: Global,
    text: &[u8],
    old: &[u8],
    new: &[u8],
) -> Result<Option<FactSet>, OutOfMemory> {
    match ended(alloc, text, old, new)? {
        UnitEnd::Facts(facts) => Ok(Some(facts)),
        _ => Ok(None),
    }
}

// The number of the main file's path.
fn place(alloc: Global, offset: u32) -> Result<Place, OutOfMemory> {
    let snapshot = known(alloc, b"")?;
    let unit = the_unit(alloc)?;
    match snapshot.number(&unit.main) {
        Some(path) => Ok(Place { path, offset }),
        None => Err(OutOfMemory),
    }
}

#[test]
fn a_capture_in_an_inner_scope_is_told(rt: HostRuntime) -> Result<(), Fail> {
    let alloc = rt.alloc();
    let text = b"int bar;\nint f(void){int foo=1;{int foo=2;return bar+foo;}}\n";
    let facts = facts_of(alloc, text, b"foo", b"bar")?;
    let conflict = Fact::Conflict(Key::At(place(alloc, 25)?), place(alloc, 49)?);
    match facts {
        Some(facts) => assert!(rt; facts.contains(&conflict)),
        None => assert!(rt; false),
    }
    Ok(())
}

fn tag(alloc: Global, name: &[u8]) -> Result<RecordKey, OutOfMemory> {
    Ok(RecordKey::Tag(cr_base::TagKind::Struct, Text::new(alloc, name)?))
}

#[test]
fn a_tag_a_typedef_name_and_a_member_of_one_name_are_told_apart(
    rt: HostRuntime,
) -> Result<(), Fail> {
    let alloc = rt.alloc();
    let text = b"typedef struct node node; struct list { node *node; };\n";
    let facts = facts_of(alloc, text, b"node", b"Node")?;
    let name = Text::new(alloc, b"node")?;
    let node = Text::new(alloc, b"node")?;
    let wanted = [
        Fact::Denotes(place(alloc, 15)?, Key::Tag(cr_base::TagKind::Struct, name)),
        Fact::Denotes(place(alloc, 20)?, Key::At(place(alloc, 20)?)),
        Fact::Denotes(place(alloc, 40)?, Key::At(place(alloc, 20)?)),
        Fact::Denotes(place(alloc, 46)?, Key::Member(tag(alloc, b"list")?, node)),
    ];
    match facts {
        Some(facts) => {
            let told = facts
                .iter()
                .filter(|fact| matches!(fact, Fact::Denotes(_, _)))
                .count();
            assert_eq!(rt; told, 4);
            for fact in &wanted {
                assert!(rt; facts.contains(fact));
            }
        }
        None => assert!(rt; false),
    }
    Ok(())
}
