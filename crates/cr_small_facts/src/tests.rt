//! Facts of texts, counted by hand from C11's rules on scope and linkage.
use crate::{
    a_text_tells_its_own_places, a_text_tells_the_places, facts_of, key_over, places_are_one,
    places_by_file,
};
use cr_base::{Key, Kind, OutOfMemory, PathNo, Place, Role};
use cr_facts::{Fact, FactSet};
use cr_small::{EntityKey, SmallText};
use std::alloc::Global;
use std::test::Fail;

const INTERNAL: &[u8] = b"static int foo;\nint a(void){return foo;}\n";

const EXTERNAL: &[u8] = b"int foo(void);\nint b(void){int a=1;return foo()+foo()+a;}\n";

fn at(file: u32, offset: u32) -> Place {
    Place {
        path: PathNo(file),
        offset,
    }
}

// The facts of a text of at most 1,000 bytes about `foo`.
fn told(alloc: Global, file: u32, bytes: &[u8]) -> Result<FactSet, OutOfMemory> {
    if bytes.len() > 1000 {
        return Ok(FactSet::new(alloc));
    }
    let Some(text) = SmallText::read(alloc, bytes)? else {
        return Ok(FactSet::new(alloc));
    };
    if text.denotes.items().len() != text.tokens.items().len() {
        return Ok(FactSet::new(alloc));
    }
    facts_of(alloc, &text, PathNo(file), b"foo")
}

// Whether the fact is one of those that the first text tells: of the object at 11, which stands at 35 too.
fn is_told(fact: &Fact) -> bool {
    match fact {
        Fact::Declares(Key::At(key), place) => key.offset == 11 && place.offset == 11,
        Fact::Denotes(place, Key::At(key)) => key.offset == 11 && is_place(*place),
        Fact::OfKind(Key::At(key), kind) => key.offset == 11 && *kind == Kind::Object,
        Fact::FileScope(Key::At(key)) => key.offset == 11,
        Fact::HasRole(place, role) => is_place(*place) && *role == Role::Final,
        _ => false,
    }
}

fn is_place(place: Place) -> bool {
    place.path == PathNo(3) && (place.offset == 11 || place.offset == 35)
}

// Where an entity stands in a file, of both texts as files 0 and 1. The key is one of file 0.
#[derive(Clone, Copy)]
struct Case<'a> {
    key: EntityKey<'a>,
    file: usize,
    offsets: &'a [usize],
}

const CASES: &[Case] = &[
    Case {
        key: EntityKey::At(11),
        file: 0,
        offsets: &[11, 35],
    },
    Case {
        key: EntityKey::At(11),
        file: 1,
        offsets: &[],
    },
    Case {
        key: EntityKey::External(b"foo"),
        file: 0,
        offsets: &[],
    },
    Case {
        key: EntityKey::External(b"foo"),
        file: 1,
        offsets: &[4, 42, 48],
    },
];

// The facts of both texts.
fn table(alloc: Global) -> Result<FactSet, OutOfMemory> {
    let mut table = told(alloc, 0, INTERNAL)?;
    let more = told(alloc, 1, EXTERNAL)?;
    table.union(&more)?;
    Ok(table)
}

fn holds(alloc: Global, table: &FactSet, case: &Case) -> Result<bool, OutOfMemory> {
    let key = key_over(alloc, PathNo(0), case.key)?;
    let places = places_by_file(alloc, table, &key, 2)?;
    Ok(match places.get(case.file) {
        Some(offsets) => offsets.as_slice() == case.offsets,
        None => false,
    })
}

#[test]
fn the_laws_are_called(_rt: HostRuntime) -> Result<(), Fail> {
    places_are_one();
    a_text_tells_the_places();
    a_text_tells_its_own_places();
    Ok(())
}

#[test]
fn a_text_tells_what_its_names_denote(rt: HostRuntime) -> Result<(), OutOfMemory> {
    let facts = told(rt.alloc(), 3, INTERNAL)?;
    assert!(&rt; facts.iter().count() == 7);
    for fact in facts.iter() {
        assert!(&rt; is_told(fact));
    }
    Ok(())
}

#[test]
fn an_entity_stands_where_the_files_name_it(rt: HostRuntime) -> Result<(), OutOfMemory> {
    let table = table(rt.alloc())?;
    for case in CASES {
        assert!(&rt; holds(rt.alloc(), &table, case)?);
    }
    Ok(())
}
