//! Facts made by hand. The offsets are counted in the texts that stand beside the tables.
ghost use Rattle.std.specs.Prelude.{◌≡◌, ◌<◌, ℕ, IfOk};
ghost use Rattle.cr_class.specs.RenameClass.{IsKnownFact, KnowsAll};

use crate::{ClassFault, Refusal, Target, VerdictFault, class_of, verdict};
use cr_base::{Key, Kind, OutOfMemory, PathNo, PathText, Place, RecordKey, Role, TagKind, Text};
use cr_facts::{Fact, FactSet, facts_are_ordered};
use cr_snapshot::{Found, Snapshot};
use std::alloc::Global;
use std::test::Fail;

// An entity of the name: the one with external linkage; one that is first declared at an offset; the
// tag `struct NAME`; the member of `struct TAG`.
#[derive(Clone, Copy)]
enum Entity {
    External,
    At(u32),
    Tag,
    Member(&'static [u8]),
}

// A fact about the name in one file.
#[derive(Clone, Copy)]
enum Told {
    Is(Entity, Kind),
    Declares(Entity, u32),
    Denotes(u32, Entity),
    FileScope(Entity),
    Taken(u32, Role),
    MadeDenotes(Entity, u32),
    Macro(u32),
    Opaque(u32),
    BodyParam(u32),
    Conflict(Entity, u32),
    New(Entity),
}

fn key_of(alloc: Global, path: PathNo, name: &[u8], entity: Entity) -> Result<Key, OutOfMemory> {
    Ok(match entity {
        Entity::External => Key::Ext(Text::new(alloc, name)?),
        Entity::At(offset) => Key::At(Place { path, offset }),
        Entity::Tag => Key::Tag(TagKind::Struct, Text::new(alloc, name)?),
        Entity::Member(tag) => {
            let record = RecordKey::Tag(TagKind::Struct, Text::new(alloc, tag)?);
            Key::Member(record, Text::new(alloc, name)?)
        }
    })
}

fn fact_of(alloc: Global, path: PathNo, name: &[u8], told: Told) -> Result<Fact, OutOfMemory>
    ensures { IfOk result (λ f. (count : ℕ) → path.0 < count → IsKnownFact count f) }
{
    Ok(match told {
        Told::Is(entity, kind) => Fact::OfKind(key_of(alloc, path, name, entity)?, kind),
        Told::Declares(entity, offset) => {
            Fact::Declares(key_of(alloc, path, name, entity)?, Place { path, offset })
        }
        Told::Denotes(offset, entity) => {
            Fact::Denotes(Place { path, offset }, key_of(alloc, path, name, entity)?)
        }
        Told::FileScope(entity) => Fact::FileScope(key_of(alloc, path, name, entity)?),
        Told::Taken(offset, role) => Fact::HasRole(Place { path, offset }, role),
        Told::MadeDenotes(entity, offset) => {
            Fact::MadeDenotes(key_of(alloc, path, name, entity)?, Place { path, offset })
        }
        Told::Macro(offset) => Fact::NewMacro(Place { path, offset }),
        Told::Opaque(offset) => Fact::OpaqueAt(Place { path, offset }),
        Told::BodyParam(offset) => Fact::BodyParam(Place { path, offset }),
        Told::Conflict(entity, offset) => {
            Fact::Conflict(key_of(alloc, path, name, entity)?, Place { path, offset })
        }
        Told::New(entity) => Fact::NewKey(key_of(alloc, path, b"bar", entity)?),
    })
}

fn facts_of(alloc: Global, path: PathNo, name: &[u8], all: &[Told]) -> Result<FactSet, OutOfMemory>
    ensures { IfOk result (λ facts. (count : ℕ) → path.0 < count → KnowsAll count facts) }
{
    facts_are_ordered();
    let mut facts = FactSet::new(alloc);
    for told in all {
        facts.insert(fact_of(alloc, path, name, *told)?)?;
    }
    Ok(facts)
}

fn offsets_are(places: &[Place], path: PathNo, offsets: &[u32]) -> bool {
    places.len() == offsets.len()
        && places.iter().zip(offsets).all(|(place, offset)| place.path == path
            && place.offset == *offset)
}

// `typedef struct node node; struct list { node *node; };`
const NODES: &[Told] = &[
    Told::Declares(Entity::Tag, 15),
    Told::Denotes(15, Entity::Tag),
    Told::Is(Entity::Tag, Kind::Struct),
    Told::FileScope(Entity::Tag),
    Told::Declares(Entity::At(20), 20),
    Told::Denotes(20, Entity::At(20)),
    Told::Denotes(40, Entity::At(20)),
    Told::Is(Entity::At(20), Kind::Typedef),
    Told::FileScope(Entity::At(20)),
    Told::Declares(Entity::Member(b"list"), 46),
    Told::Denotes(46, Entity::Member(b"list")),
    Told::Is(Entity::Member(b"list"), Kind::Member),
];

// `#define FIELDS int len;`, `struct a{FIELDS};`, `struct b{FIELDS};` and
// `int f(struct a*x,struct b*y){return x->len+y->len;}`, each on a line.
const FIELDS: &[Told] = &[
    Told::Declares(Entity::Member(b"a"), 19),
    Told::Denotes(19, Entity::Member(b"a")),
    Told::Is(Entity::Member(b"a"), Kind::Member),
    Told::Declares(Entity::Member(b"b"), 19),
    Told::Denotes(19, Entity::Member(b"b")),
    Told::Is(Entity::Member(b"b"), Kind::Member),
    Told::Denotes(99, Entity::Member(b"a")),
    Told::Denotes(106, Entity::Member(b"b")),
];

// A label, and an object of file scope without external linkage.
const LABEL: &[Told] = &[
    Told::Declares(Entity::At(30), 30),
    Told::Denotes(30, Entity::At(30)),
    Told::Is(Entity::At(30), Kind::Label),
    Told::Declares(Entity::At(11), 11),
    Told::Denotes(11, Entity::At(11)),
    Told::Is(Entity::At(11), Kind::Object),
    Told::FileScope(Entity::At(11)),
];

// What a class is asked for.
#[derive(Clone, Copy)]
enum Asked {
    At(u32),
    Ordinary,
    Tagged,
    MemberOf(&'static [u8]),
}

fn target_of(alloc: Global, path: PathNo, asked: Asked) -> Result<Target, OutOfMemory> {
    Ok(match asked {
        Asked::At(offset) => Target::At(Place { path, offset }),
        Asked::Ordinary => Target::Ordinary,
        Asked::Tagged => Target::Tagged(TagKind::Struct),
        Asked::MemberOf(tag) => Target::MemberOf(TagKind::Struct, Text::new(alloc, tag)?),
    })
}

// Facts about a name, a target, and the offsets of its class; none where there is no symbol.
#[derive(Clone, Copy)]
struct ClassCase {
    told: &'static [Told],
    name: &'static [u8],
    asked: Asked,
    offsets: &'static [u32],
}

const CLASSES: &[ClassCase] = &[
    ClassCase {
        told: NODES,
        name: b"node",
        asked: Asked::At(20),
        offsets: &[20, 40],
    },
    ClassCase {
        told: NODES,
        name: b"node",
        asked: Asked::Ordinary,
        offsets: &[20, 40],
    },
    ClassCase {
        told: NODES,
        name: b"node",
        asked: Asked::Tagged,
        offsets: &[15],
    },
    ClassCase {
        told: NODES,
        name: b"node",
        asked: Asked::MemberOf(b"list"),
        offsets: &[46],
    },
    ClassCase {
        told: NODES,
        name: b"node",
        asked: Asked::MemberOf(b"node"),
        offsets: &[],
    },
    ClassCase {
        told: NODES,
        name: b"node",
        asked: Asked::At(7),
        offsets: &[],
    },
    ClassCase {
        told: FIELDS,
        name: b"len",
        asked: Asked::At(19),
        offsets: &[19, 99, 106],
    },
    ClassCase {
        told: FIELDS,
        name: b"len",
        asked: Asked::MemberOf(b"b"),
        offsets: &[19, 99, 106],
    },
    ClassCase {
        told: FIELDS,
        name: b"len",
        asked: Asked::Ordinary,
        offsets: &[],
    },
    ClassCase {
        told: LABEL,
        name: b"foo",
        asked: Asked::At(30),
        offsets: &[],
    },
    ClassCase {
        told: LABEL,
        name: b"foo",
        asked: Asked::Ordinary,
        offsets: &[11],
    },
];

fn holds(alloc: Global, case: ClassCase) -> Result<bool, Fail> {
    let mut snapshot = Snapshot::new(alloc)?;
    let file = PathText::normalise(alloc, &PathText::empty(alloc), b"a.c")?;
    let Found::Unknown = snapshot.get(&file) else {
        return Ok(false);
    };
    let path = snapshot.know(file, None)?;
    let facts = facts_of(alloc, path, case.name, case.told)?;
    let target = target_of(alloc, path, case.asked)?;
    Ok(
        match class_of(alloc, &facts, &snapshot, case.name, &target) {
            Ok(class) => offsets_are(class.places.items(), path, case.offsets),
            Err(fault) => fault == ClassFault::NoSymbol && case.offsets.is_empty(),
        },
    )
}

#[test]
fn a_class_has_what_shares_declaring_places(rt: HostRuntime) -> Result<(), Fail> {
    for case in CLASSES {
        assert!(&rt; holds(rt.alloc(), *case)?);
    }
    Ok(())
}

// `struct a{int len;};`, `struct b{int len;};`, `#define GET(p) ((p)->len)` and
// `int f(struct a*x){return GET(x);}`, each on a line.
const GETTER: &[Told] = &[
    Told::Declares(Entity::Member(b"a"), 13),
    Told::Denotes(13, Entity::Member(b"a")),
    Told::Is(Entity::Member(b"a"), Kind::Member),
    Told::Taken(13, Role::Final),
    Told::Declares(Entity::Member(b"b"), 33),
    Told::Denotes(33, Entity::Member(b"b")),
    Told::Is(Entity::Member(b"b"), Kind::Member),
    Told::Taken(33, Role::Final),
    Told::Denotes(61, Entity::Member(b"a")),
    Told::Taken(61, Role::Final),
];

// The same, with `int f(struct a*x,struct b*y){return GET(x)+GET(y);}` as the last line.
const GETTERS: &[Told] = &[
    Told::Declares(Entity::Member(b"a"), 13),
    Told::Denotes(13, Entity::Member(b"a")),
    Told::Is(Entity::Member(b"a"), Kind::Member),
    Told::Taken(13, Role::Final),
    Told::Declares(Entity::Member(b"b"), 33),
    Told::Denotes(33, Entity::Member(b"b")),
    Told::Is(Entity::Member(b"b"), Kind::Member),
    Told::Taken(33, Role::Final),
    Told::Denotes(61, Entity::Member(b"a")),
    Told::Denotes(61, Entity::Member(b"b")),
    Told::Taken(61, Role::Final),
];

const GETTER_TEXT: &[u8] =
    b"struct a{int len;};\nstruct b{int len;};\n#define GET(p) ((p)->len)\nint f(struct a*x){return GET(x);}\n";

// `int foo;` in one unit and `int bar;` in another.
const EXTERNAL: &[Told] = &[
    Told::Declares(Entity::External, 4),
    Told::Denotes(4, Entity::External),
    Told::Is(Entity::External, Kind::Object),
    Told::FileScope(Entity::External),
    Told::Taken(4, Role::Final),
    Told::New(Entity::External),
];

// `int foo;` and `int bar;` in one unit.
const TWO_EXTERNALS: &[Told] = &[
    Told::Declares(Entity::External, 4),
    Told::Denotes(4, Entity::External),
    Told::Is(Entity::External, Kind::Object),
    Told::FileScope(Entity::External),
    Told::Taken(4, Role::Final),
    Told::New(Entity::External),
    Told::Conflict(Entity::External, 13),
];

// `int foo;` alone, after a line `#define bar 1`.
const MACRO: &[Told] = &[
    Told::Declares(Entity::External, 18),
    Told::Denotes(18, Entity::External),
    Told::Is(Entity::External, Kind::Object),
    Told::FileScope(Entity::External),
    Told::Taken(18, Role::Final),
    Told::Macro(8),
];

// `#pragma keep foo` and `int foo;`.
const PRAGMA: &[Told] = &[
    Told::Opaque(13),
    Told::Taken(13, Role::Opaque),
    Told::Declares(Entity::External, 21),
    Told::Denotes(21, Entity::External),
    Told::Is(Entity::External, Kind::Object),
    Told::FileScope(Entity::External),
    Told::Taken(21, Role::Final),
];

// `#define CAT(a,b) a##b`, `int foo(void);` and `int g(void){return CAT(fo,o)();}`.
const PASTED: &[Told] = &[
    Told::Declares(Entity::External, 26),
    Told::Denotes(26, Entity::External),
    Told::Is(Entity::External, Kind::Function),
    Told::FileScope(Entity::External),
    Told::Taken(26, Role::Final),
    Told::MadeDenotes(Entity::External, 56),
];

// `int foo(void);`, `#define F(bar) bar + foo()` and `int g(void){return F(1);}`.
const BODY: &[Told] = &[
    Told::Declares(Entity::External, 4),
    Told::Denotes(4, Entity::External),
    Told::Is(Entity::External, Kind::Function),
    Told::FileScope(Entity::External),
    Told::Taken(4, Role::Final),
    Told::Denotes(36, Entity::External),
    Told::Taken(36, Role::Final),
    Told::BodyParam(36),
];

// The same, where `bar` is a function of another unit too.
const BODY_AND_CLASH: &[Told] = &[
    Told::Declares(Entity::External, 4),
    Told::Denotes(4, Entity::External),
    Told::Is(Entity::External, Kind::Function),
    Told::FileScope(Entity::External),
    Told::Taken(4, Role::Final),
    Told::Denotes(36, Entity::External),
    Told::Taken(36, Role::Final),
    Told::BodyParam(36),
    Told::New(Entity::External),
];

// `int bar;` and `int f(void){int foo=1;{int foo=2;return bar+foo;}}`, with the inner `foo` meant.
const SHADOW: &[Told] = &[
    Told::Declares(Entity::At(25), 25),
    Told::Denotes(25, Entity::At(25)),
    Told::Is(Entity::At(25), Kind::Object),
    Told::Taken(25, Role::Final),
    Told::Conflict(Entity::At(25), 49),
];

// What a verdict answers: the refusal at an offset, or the offsets of the class.
#[derive(Clone, Copy)]
enum Answer {
    Edits(&'static [u32]),
    Reserved,
    NewIsMacro(u32),
    Mixed(u32, Role),
    Made(u32),
    Unwritable(u32),
    Spelling(u32),
    Opaque(u32),
    Capture(u32),
}

fn refusal_of(path: PathNo, answer: Answer) -> Option<Refusal> {
    match answer {
        Answer::Edits(_) => None,
        Answer::Reserved => Some(Refusal::Reserved),
        Answer::NewIsMacro(offset) => Some(Refusal::NewIsMacro(Place { path, offset })),
        Answer::Mixed(offset, role) => Some(Refusal::Mixed(Place { path, offset }, role)),
        Answer::Made(offset) => Some(Refusal::Made(Place { path, offset })),
        Answer::Unwritable(offset) => Some(Refusal::Unwritable(Place { path, offset })),
        Answer::Spelling(offset) => Some(Refusal::Spelling(Place { path, offset })),
        Answer::Opaque(offset) => Some(Refusal::Opaque(Place { path, offset })),
        Answer::Capture(offset) => Some(Refusal::Capture(Place { path, offset })),
    }
}

fn is_answer(path: PathNo, found: Result<Vec<Place>, VerdictFault>, answer: Answer) -> bool {
    match (found, answer) {
        (Ok(places), Answer::Edits(offsets)) => offsets_are(&places, path, offsets),
        (Err(VerdictFault::Refused(refusal)), answer) => refusal_of(path, answer) == Some(refusal),
        _ => false,
    }
}

// The text of `a.c`, the facts about a name in it, what is meant, the new name, the root and the answer.
#[derive(Clone, Copy)]
struct VerdictCase {
    text: &'static [u8],
    told: &'static [Told],
    old: &'static [u8],
    asked: Asked,
    new: &'static [u8],
    root: &'static [u8],
    answer: Answer,
}

const VERDICTS: &[VerdictCase] = &[
    VerdictCase {
        text: GETTER_TEXT,
        told: GETTERS,
        old: b"len",
        asked: Asked::At(13),
        new: b"size",
        root: b"",
        answer: Answer::Mixed(61, Role::Final),
    },
    VerdictCase {
        text: GETTER_TEXT,
        told: GETTER,
        old: b"len",
        asked: Asked::At(13),
        new: b"size",
        root: b"",
        answer: Answer::Edits(&[13, 61]),
    },
    VerdictCase {
        text: GETTER_TEXT,
        told: GETTER,
        old: b"len",
        asked: Asked::At(13),
        new: b"_len",
        root: b"",
        answer: Answer::Edits(&[13, 61]),
    },
    VerdictCase {
        text: b"int foo;\n",
        told: EXTERNAL,
        old: b"foo",
        asked: Asked::At(4),
        new: b"bar",
        root: b"",
        answer: Answer::Capture(4),
    },
    VerdictCase {
        text: b"int foo;\nint bar;\n",
        told: TWO_EXTERNALS,
        old: b"foo",
        asked: Asked::At(4),
        new: b"bar",
        root: b"",
        answer: Answer::Capture(13),
    },
    VerdictCase {
        text: b"int foo(void);\n#define F(bar) bar + foo()\nint g(void){return F(1);}\n",
        told: BODY_AND_CLASH,
        old: b"foo",
        asked: Asked::At(4),
        new: b"bar",
        root: b"",
        answer: Answer::Capture(36),
    },
    VerdictCase {
        text: b"int foo;\n",
        told: EXTERNAL,
        old: b"foo",
        asked: Asked::At(4),
        new: b"_bar",
        root: b"",
        answer: Answer::Reserved,
    },
    VerdictCase {
        text: b"int foo;\n",
        told: EXTERNAL,
        old: b"foo",
        asked: Asked::At(4),
        new: b"bar",
        root: b"b",
        answer: Answer::Unwritable(4),
    },
    VerdictCase {
        text: b"int fo\\\no;\n",
        told: EXTERNAL,
        old: b"foo",
        asked: Asked::At(4),
        new: b"bar",
        root: b"",
        answer: Answer::Spelling(4),
    },
    VerdictCase {
        text: b"#define bar 1\nint foo;\n",
        told: MACRO,
        old: b"foo",
        asked: Asked::At(18),
        new: b"bar",
        root: b"",
        answer: Answer::NewIsMacro(8),
    },
    VerdictCase {
        text: b"#pragma keep foo\nint foo;\n",
        told: PRAGMA,
        old: b"foo",
        asked: Asked::At(21),
        new: b"bar",
        root: b"",
        answer: Answer::Opaque(13),
    },
    VerdictCase {
        text: b"#define CAT(a,b) a##b\nint foo(void);\nint g(void){return CAT(fo,o)();}\n",
        told: PASTED,
        old: b"foo",
        asked: Asked::At(26),
        new: b"bar",
        root: b"",
        answer: Answer::Made(56),
    },
    VerdictCase {
        text: b"int foo(void);\n#define F(bar) bar + foo()\nint g(void){return F(1);}\n",
        told: BODY,
        old: b"foo",
        asked: Asked::At(4),
        new: b"bar",
        root: b"",
        answer: Answer::Capture(36),
    },
    VerdictCase {
        text: b"int bar;\nint f(void){int foo=1;{int foo=2;return bar+foo;}}\n",
        told: SHADOW,
        old: b"foo",
        asked: Asked::At(25),
        new: b"bar",
        root: b"",
        answer: Answer::Capture(49),
    },
];

fn is_judged(alloc: Global, case: VerdictCase) -> Result<bool, Fail> {
    let mut snapshot = Snapshot::new(alloc)?;
    let here = PathText::empty(alloc);
    let file = PathText::normalise(alloc, &here, b"a.c")?;
    let Found::Unknown = snapshot.get(&file) else {
        return Ok(false);
    };
    let path = snapshot.know(file, Some(case.text.to_vec(alloc)?))?;
    let facts = facts_of(alloc, path, case.old, case.told)?;
    let target = target_of(alloc, path, case.asked)?;
    let Ok(class) = class_of(alloc, &facts, &snapshot, case.old, &target) else {
        return Ok(false);
    };
    let root = PathText::normalise(alloc, &here, case.root)?;
    let found = verdict(
        alloc,
        &facts,
        &class,
        &snapshot,
        Some(&root),
        case.old,
        case.new,
    );
    Ok(is_answer(path, found, case.answer))
}

#[test]
fn a_verdict_is_the_first_refusal(rt: HostRuntime) -> Result<(), Fail> {
    for case in VERDICTS {
        assert!(&rt; is_judged(rt.alloc(), *case)?);
    }
    Ok(())
}
