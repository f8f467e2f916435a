ghost use Rattle.cr_preproc.specs.Preprocs.{IsPreproc};

use cr_base::{List, NameTable, OutOfMemory, PathText, Place, PpTok, Text, Unit};
use cr_macros::text;
use cr_preproc::{PreTurn, Preproc, Trace};
use cr_snapshot::{Found, Snapshot};
use itoa::Buffer;
use std::alloc::Global;
use std::test::Fail;

// No unit of these tests takes more steps.
const MOST_STEPS: u32 = 4_194_304;

type Files = &'static [(&'static [u8], &'static [u8])];

fn named_path(alloc: Global, text: &[u8]) -> Result<PathText, OutOfMemory> {
    PathText::normalise(alloc, &PathText::empty(alloc), text)
}

fn directory(alloc: Global, path: &[u8]) -> Result<List<PathText>, OutOfMemory> {
    let mut paths = Vec::new(alloc);
    paths.push(named_path(alloc, path)?)?;
    Ok(List::of(paths))
}

// A unit whose main file is `a.c`, with the directories `inc` and `sys`.
fn the_unit(alloc: Global, words: &[u8]) -> Result<Unit, OutOfMemory> {
    Ok(Unit {
        number: 3,
        main: named_path(alloc, b"a.c")?,
        directory: PathText::empty(alloc),
        quote_dirs: List::of(Vec::new(alloc)),
        dirs: directory(alloc, b"inc")?,
        system_dirs: directory(alloc, b"sys")?,
        words: Text::new(alloc, words)?,
    })
}

// Makes a path known that stands among the files.
fn know(
    snapshot: &mut Snapshot,
    path: PathText,
    found: Option<Vec<u8>>,
) -> Result<(), OutOfMemory> {
    let stands_apart = path.bytes().starts_with(b"//");
    if stands_apart || !matches!(snapshot.get(&path), Found::Unknown) {
        return Ok(());
    }
    match snapshot.know(path, found) {
        Ok(_) => Ok(()),
        Err(_) => Err(OutOfMemory),
    }
}

// A snapshot in which the text of the unit's command words is known.
fn with_words(alloc: Global, words: &[u8]) -> Result<Snapshot, OutOfMemory> {
    let mut snapshot = Snapshot::new(alloc)?;
    let path = PathText::apart(alloc, b"words/3")?;
    let text = words.to_vec(alloc)?;
    if matches!(snapshot.get(&path), Found::Unknown) {
        match snapshot.know(path, Some(text)) {
            Ok(_) => {}
            Err(_) => return Err(OutOfMemory),
        }
    }
    Ok(snapshot)
}

// These files are there, and these others aren't.
fn known(alloc: Global, words: &[u8], files: Files) -> Result<Snapshot, OutOfMemory> {
    let mut snapshot = with_words(alloc, words)?;
    for (path, text) in files {
        let path = named_path(alloc, path)?;
        know(&mut snapshot, path, Some(text.to_vec(alloc)?))?;
    }
    for path in &ABSENT {
        know(&mut snapshot, named_path(alloc, path)?, None)?;
    }
    Ok(snapshot)
}

fn put_at(out: &mut Vec<u8>, text: &[u8], offset: u32) -> Result<(), OutOfMemory> {
    let mut buffer = Buffer::new();
    out.extend_from_slice(text)?;
    out.push(b'@')?;
    out.extend_from_slice(buffer.format(offset).as_bytes())?;
    out.push(b' ')?;
    Ok(())
}

fn put_paths(out: &mut Vec<u8>, paths: &[PathText]) -> Result<(), OutOfMemory> {
    for path in paths {
        out.extend_from_slice(path.bytes())?;
        out.push(b' ')?;
    }
    Ok(())
}

// The tokens with the offsets of their sites.
fn put_tokens(out: &mut Vec<u8>, names: &NameTable, tokens: &[PpTok]) -> Result<(), OutOfMemory> {
    for t in tokens {
        put_at(out, text(names, t.text), t.site.offset)?;
    }
    Ok(())
}

fn put_places(out: &mut Vec<u8>, what: &[u8], places: &[Place]) -> Result<(), OutOfMemory> {
    for place in places {
        put_at(out, what, place.offset)?;
    }
    Ok(())
}

// What each identifier was taken for, and the places that are kept apart.
fn put_trace(alloc: Global, out: &mut Vec<u8>, trace: &Trace) -> Result<(), OutOfMemory> {
    for seen in &trace.seen {
        let role = format!(in alloc; "{:?}", seen.role)?;
        put_at(out, role.as_bytes(), seen.place.offset)?;
    }
    put_places(out, b"defined", &trace.new_macros)?;
    put_places(out, b"captured", &trace.body_params)?;
    put_places(out, b"hidden", &trace.opaque)?;
    Ok(())
}

// How a unit ends: nothing at its whole end.
fn put_end(alloc: Global, out: &mut Vec<u8>, end: &PreTurn) -> Result<(), OutOfMemory> {
    match end {
        PreTurn::More => out.extend_from_slice(b"more ")?,
        PreTurn::Done => {}
        PreTurn::Needs(paths) => {
            out.extend_from_slice(b"needs ")?;
            put_paths(out, paths)?;
        }
        PreTurn::Ill(cause, place) => {
            let cause = format!(in alloc; "{:?}", cause)?;
            put_at(out, cause.as_bytes(), place.offset)?;
        }
    }
    Ok(())
}

// The steps up to the unit's end, and the last of them.
fn run_of(snapshot: &Snapshot, preproc: &mut Preproc) -> Result<PreTurn, OutOfMemory>
    requires { IsPreproc snapshot.now preproc.old }
{
    for _ in 0..MOST_STEPS {
        let turn = preproc.step(snapshot)?;
        if !matches!(turn, PreTurn::More) {
            return Ok(turn);
        }
    }
    Ok(PreTurn::More)
}

// A unit that has come to its end in these files, and how.
fn ended(
    alloc: Global,
    snapshot: &Snapshot,
    words: &[u8],
) -> Result<(Box<Preproc>, Vec<u8>), OutOfMemory> {
    let unit = the_unit(alloc, words)?;
    let mut preproc = Box::new(alloc, Preproc::new(alloc, &unit, b"old", b"new")?)?;
    let end = run_of(snapshot, &mut preproc)?;
    let mut out = Vec::new(alloc);
    put_end(alloc, &mut out, &end)?;
    Ok((preproc, out))
}

// How the unit ends, and its tokens.
fn preprocessed(alloc: Global, words: &[u8], files: Files) -> Result<Vec<u8>, OutOfMemory> {
    let snapshot = known(alloc, words, files)?;
    let (preproc, mut out) = ended(alloc, &snapshot, words)?;
    put_tokens(&mut out, preproc.names(), preproc.tokens())?;
    Ok(out)
}

// The trace of the unit.
fn traced(alloc: Global, files: Files) -> Result<Vec<u8>, OutOfMemory> {
    let snapshot = known(alloc, b"", files)?;
    let (preproc, _) = ended(alloc, &snapshot, b"")?;
    let mut out = Vec::new(alloc);
    put_trace(alloc, &mut out, preproc.trace())?;
    Ok(out)
}

// The path of a file in a chain, of which the first is the main file.
fn link_path(alloc: Global, number: u32) -> Result<PathText, OutOfMemory> {
    if number == 0 {
        return named_path(alloc, b"a.c");
    }
    let path = format!(in alloc; "{}.h", number)?;
    named_path(alloc, path.as_bytes())
}

// The text of a file in a chain of so many includes.
fn link_text(alloc: Global, number: u32, levels: u32) -> Result<Vec<u8>, OutOfMemory> {
    if number < levels {
        let line = format!(in alloc; "#include \"{}.h\"\n", number + 1)?;
        Ok(line.as_bytes().to_vec(alloc)?)
    } else {
        Ok(b"x\n".to_vec(alloc)?)
    }
}

// A chain of files, of which each includes the next one and the last is `x`.
fn chain(alloc: Global, levels: u32) -> Result<Snapshot, OutOfMemory> {
    let mut snapshot = with_words(alloc, b"")?;
    for number in 0..=levels {
        let text = link_text(alloc, number, levels)?;
        know(&mut snapshot, link_path(alloc, number)?, Some(text))?;
    }
    Ok(snapshot)
}

// How a unit with so many levels of includes ends, and its tokens.
fn chained(alloc: Global, levels: u32) -> Result<Vec<u8>, OutOfMemory> {
    let snapshot = chain(alloc, levels)?;
    let (preproc, mut out) = ended(alloc, &snapshot, b"")?;
    let (names, tokens, _) = Box::into_inner(preproc).into_parts();
    put_tokens(&mut out, &names, &tokens)?;
    Ok(out)
}

// How a unit of so many semicolons ends, and how many tokens it has.
fn semicolons(alloc: Global, count: usize) -> Result<(Vec<u8>, usize), OutOfMemory> {
    let mut snapshot = with_words(alloc, b"")?;
    let mut text = Vec::new(alloc);
    text.resize(count, b';')?;
    know(&mut snapshot, named_path(alloc, b"a.c")?, Some(text))?;
    let (preproc, end) = ended(alloc, &snapshot, b"")?;
    Ok((end, preproc.tokens().len()))
}

#[test]
fn a_unit_is_preprocessed_as_defined(rt: HostRuntime) -> Result<(), Fail> {
    let alloc = rt.alloc();
    for cases in &[RUNS, LINES, CONDITIONALS, INCLUDES, HEADERS] {
        for (files, wanted) in *cases {
            let found = preprocessed(alloc, b"", files)?;
            assert!(rt; found.as_slice() == *wanted, "{wanted:?} {found:?}");
        }
    }
    Ok(())
}

#[test]
fn command_words_come_first(rt: HostRuntime) -> Result<(), Fail> {
    let alloc = rt.alloc();
    for (words, files, wanted) in WORDS {
        let found = preprocessed(alloc, words, files)?;
        assert!(rt; found.as_slice() == *wanted, "{wanted:?} {found:?}");
    }
    Ok(())
}

#[test]
fn the_renamed_name_is_traced(rt: HostRuntime) -> Result<(), Fail> {
    let alloc = rt.alloc();
    for (files, wanted) in TRACES {
        let found = traced(alloc, files)?;
        assert!(rt; found.as_slice() == *wanted, "{wanted:?} {found:?}");
    }
    Ok(())
}

#[test]
fn two_hundred_levels_of_includes_are_the_most(rt: HostRuntime) -> Result<(), Fail> {
    let alloc = rt.alloc();
    let last = chained(alloc, 200)?;
    assert_eq!(rt; last.as_slice(), b"x@0 ".as_slice());
    let over = chained(alloc, 201)?;
    assert!(rt; over.starts_with(b"LimitIncludes@"));
    Ok(())
}

#[test]
fn a_unit_has_at_most_1048576_tokens(rt: HostRuntime) -> Result<(), Fail> {
    let alloc = rt.alloc();
    let (end, count) = semicolons(alloc, 1_048_576)?;
    assert_eq!(rt; end.as_slice(), b"".as_slice());
    assert_eq!(rt; count, 1_048_576);
    let (end, count) = semicolons(alloc, 1_048_577)?;
    assert!(rt; end.starts_with(b"LimitTokens@"));
    assert_eq!(rt; count, 1_048_576);
    Ok(())
}

// Where no file is, unless a case has one there.
const ABSENT: [&[u8]; 13] = [
    b"a.c",
    b"h.h",
    b"inc/h.h",
    b"sys/h.h",
    b"no.h",
    b"inc/no.h",
    b"sys/no.h",
    b"inc/stdbool.h",
    b"sys/stdbool.h",
    b"inc/u.h",
    b"old",
    b"inc/old",
    b"sys/old",
];

// Runs of text, how far they go, and what they are expanded before; what a lexical fault ends; and the
// directives that do little.
const RUNS: &[(Files, &[u8])] = &[
    (
        &[(b"a.c", b"#define f(a) <a>\nf(\n#if 1\n1\n#endif\n)\n")],
        b"<@17 1@17 >@17 ",
    ),
    (
        &[(b"a.c", b"#define f(a) <a>\nf\n(1)\n")],
        b"<@17 1@17 >@17 ",
    ),
    (
        &[(b"a.c", b"#define f(a) <a>\nf(\n#line 1\n1)\n")],
        b"OpenCall@17 ",
    ),
    (
        &[
            (b"a.c", b"#define f(a) <a>\nf(\n#include \"h.h\"\n1)\n"),
            (b"h.h", b"y\n"),
        ],
        b"OpenCall@17 ",
    ),
    (
        &[
            (b"a.c", b"#define f(a) <a>\n#include \"h.h\"\n1)\n"),
            (b"h.h", b"f(\n"),
        ],
        b"OpenCall@0 ",
    ),
    (
        &[(b"a.c", b"#define f(a) <a>\nf(\n#if 1 +\n1)\n")],
        b"CondSyntax@20 ",
    ),
    (
        &[(b"a.c", b"#define f(a) <a>\nf(\n#endif\n1)\n")],
        b"StrayElse@20 ",
    ),
    (&[(b"a.c", b"#define f(a) <a>\n#if 1\nf(\n")], b"OpenIf@17 "),
    (
        &[(b"a.c", b"#define C(a) a##/\nC(+)\n#endif\n")],
        b"BadPaste@18 ",
    ),
    (
        &[(b"a.c", b"#define C(a) a##/\nC(+)\n#if 1/0\n")],
        b"BadPaste@18 ",
    ),
    (
        &[(b"a.c", b"#define C(a) a##/\nC(+)\n#error\n")],
        b"BadPaste@18 ",
    ),
    (
        &[(b"a.c", b"#define C(a) a##/\nC(+) /* x")],
        b"BadPaste@18 ",
    ),
    (
        &[(b"a.c", b"#define f(a) <a>\nf(1 /* x")],
        b"OpenComment@21 ",
    ),
    (
        &[(b"a.c", b"x\n#if 0\n??=\n#endif\ny\n")],
        b"Trigraph@8 x@0 ",
    ),
    (&[(b"a.c", b"#error /* x")], b"ErrorDirective@0 "),
    (&[(b"a.c", b"#if 1 /* x")], b"OpenComment@6 "),
    (
        &[(b"a.c", b"#include \"h.h\" /* x"), (b"h.h", b"y\n")],
        b"OpenComment@15 y@0 ",
    ),
    (
        &[(b"a.c", b"#define L __LINE__\n\nL\n#line 9\nL\n")],
        b"3@20 5@30 ",
    ),
    (
        &[
            (b"a.c", b"#include <h.h>\n__FILE__\n"),
            (b"inc/h.h", b"__FILE__\n"),
        ],
        b"\"inc/h.h\"@0 \"a.c\"@15 ",
    ),
    (&[(b"a.c", b"#define x(a,a) 1\n")], b"BadDefine@0 "),
    (&[(b"a.c", b"x\n#undef __FILE__\n")], b"BadDefine@2 x@0 "),
    (&[(b"a.c", b"#define f(a) a\nf(1,2)\n")], b"ArgCount@15 "),
    (
        &[(b"a.c", b"#define X 1\nX\n#define X 2\nX\n#undef X y\nX\n")],
        b"1@12 2@26 X@39 ",
    ),
    (&[(b"a.c", b"x\n# 1\n")], b"BadDirective@2 x@0 "),
    (
        &[(b"a.c", b"#\n#warning x\n#ident \"y\"\n#pragma z\nx\n")],
        b"x@34 ",
    ),
];

// What a line is, by its first two tokens.
const LINES: &[(Files, &[u8])] = &[
    (&[(b"a.c", b"x # if\n")], b"x@0 #@2 if@4 "),
    (&[(b"a.c", b" # elif 1\n")], b"StrayElse@1 "),
    (&[(b"a.c", b"%:ifdef X\n")], b"OpenIf@0 "),
    (&[(b"a.c", b"#ifx\n")], b"BadDirective@0 "),
    (&[(b"a.c", b"#\nx\n")], b"x@2 "),
    (&[(b"a.c", b"# 33 \"x\"\n")], b"BadDirective@0 "),
];

// Which lines conditionals choose, and what is wrong with them.
const CONDITIONALS: &[(Files, &[u8])] = &[
    (
        &[(b"a.c", b"#if 0\n#elif 1\nx\n#else\ny\n#endif\n")],
        b"x@14 ",
    ),
    (
        &[(b"a.c", b"#if 1\nx\n#elif 1/0\ny\n#else\nz\n#endif\nw\n")],
        b"x@6 w@35 ",
    ),
    (
        &[(b"a.c", b"#if 0\n#if 1/0\n#else\n#endif\nx\n#endif\ny\n")],
        b"y@36 ",
    ),
    (&[(b"a.c", b"#if 0\n#foo\n#error\n#endif x\ny\n")], b"y@27 "),
    (
        &[(b"a.c", b"#ifdef X y\nx\n#endif\n#ifndef X\nz\n#endif\n")],
        b"z@30 ",
    ),
    (&[(b"a.c", b"#ifdef __LINE__\nx\n#endif\n")], b"x@16 "),
    (
        &[(
            b"a.c",
            b"#define X\n#if defined X && defined ( X )\nx\n#endif\n",
        )],
        b"x@41 ",
    ),
    (
        &[(b"a.c", b"#define X 1\n#if X\nx\n#else\ny\n#endif\n")],
        b"x@18 ",
    ),
    (
        &[(b"a.c", b"#if 1/0\n#endif\nint foo;\n")],
        b"DivideByZero@0 ",
    ),
    (
        &[(b"a.c", b"#if 0&&1/0\n#endif\nint foo;\n")],
        b"int@18 foo@22 ;@25 ",
    ),
    (&[(b"a.c", b"#if 1 << 64\n#endif\n")], b"Overflow@0 "),
    (
        &[(b"a.c", b"#if 9223372036854775808\n#endif\n")],
        b"CondConstant@0 ",
    ),
    (&[(b"a.c", b"#if\n#endif\n")], b"CondSyntax@0 "),
    (
        &[(b"a.c", b"#define D defined\n#if D X\n#endif\n")],
        b"MadeDefined@18 ",
    ),
    (
        &[(b"a.c", b"#define g() 1\n#if g(2)\n#endif\n")],
        b"ArgCount@14 ",
    ),
    (&[(b"a.c", b"#if 1\n#if 1\n")], b"OpenIf@6 "),
    (&[(b"a.c", b"#if 1\n#error\n")], b"ErrorDirective@6 "),
    (
        &[(b"a.c", b"#if 1\n#else\n#elif 0\n#endif\n")],
        b"StrayElse@12 ",
    ),
    (
        &[(b"a.c", b"#if 0\n#else\n#else\n#endif\n")],
        b"StrayElse@12 ",
    ),
    (&[(b"a.c", b"#ifdef\n#endif\n")], b"BadDirective@0 "),
    (&[(b"a.c", b"#ifndef 1\n#endif\n")], b"BadDirective@0 "),
];

// Where the files of includes are looked for, and how often they are opened.
const INCLUDES: &[(Files, &[u8])] = &[
    (&[], b"MissingFile@0 "),
    (
        &[(b"a.c", b"#include \"no.h\"\nint foo;\n")],
        b"MissingFile@9 ",
    ),
    (
        &[(b"a.c", b"#define H \"no.h\"\n#include H\n")],
        b"MissingFile@26 ",
    ),
    (
        &[
            (b"a.c", b"#define H <h.h>\n#include H\n#include H\n"),
            (b"inc/h.h", b"#pragma once\nh\n"),
        ],
        b"h@13 ",
    ),
    (
        &[
            (b"a.c", b"#include \"h.h\"\n#include \"h.h\"\nx\n"),
            (b"h.h", b"y\n"),
        ],
        b"y@0 y@0 x@30 ",
    ),
    (
        &[
            (b"a.c", b"#include \"h.h\"\n#include \"h.h\"\nx\n"),
            (b"h.h", b"#ifndef H\n#define H\ny\n#endif\n"),
        ],
        b"y@20 x@30 ",
    ),
    (
        &[
            (b"a.c", b"#include <h.h>\n"),
            (b"inc/h.h", b"#include \"k.h\"\n"),
            (b"inc/k.h", b"k\n"),
            (b"k.h", b"no\n"),
        ],
        b"k@0 ",
    ),
    (&[(b"a.c", b"#include <stdbool.h>\nbool\n")], b"_Bool@21 "),
    (
        &[
            (b"a.c", b"#include <stdbool.h>\nbool\n"),
            (b"inc/stdbool.h", b"x\n"),
        ],
        b"x@0 bool@21 ",
    ),
    (&[(b"a.c", b"#include x\n")], b"BadDirective@0 "),
    (&[(b"a.c", b"#include\n")], b"BadDirective@0 "),
    (
        &[(b"a.c", b"#if 0\n#include \"u.h\"\n#endif\ny\n")],
        b"y@28 ",
    ),
    (
        &[(b"a.c", b"#include \"u.h\"\n"), (b"u.h", b"u\n")],
        b"u@0 ",
    ),
    (
        &[(b"a.c", b"x\n#include \"u.h\"\ny\n")],
        b"needs u.h sys/u.h x@0 ",
    ),
    (
        &[(b"a.c", b"#include \"v.h\"\n"), (b"inc/v.h", b"v\n")],
        b"needs v.h ",
    ),
    (&[(b"a.c", b"#include <v.h>\n")], b"needs inc/v.h sys/v.h "),
];

// What names a header, and at which paths it is looked for.
const HEADERS: &[(Files, &[u8])] = &[
    (
        &[(b"a.c", b"#include \"x.h\"\n")],
        b"needs x.h inc/x.h sys/x.h ",
    ),
    (
        &[(b"a.c", b"#include \"a\\b.h\"\n")],
        b"needs a\\b.h inc/a\\b.h sys/a\\b.h ",
    ),
    (
        &[(b"a.c", b"#include <sys/x.h>\n")],
        b"needs inc/sys/x.h sys/sys/x.h ",
    ),
    (
        &[(b"a.c", b"#include < x.h >\n")],
        b"needs inc/ x.h  sys/ x.h  ",
    ),
    (&[(b"a.c", b"#include <>\n")], b"needs inc sys "),
    (&[(b"a.c", b"#include L\"x.h\"\n")], b"BadDirective@0 "),
    (&[(b"a.c", b"#include \"x.h\" y\n")], b"BadDirective@0 "),
    (&[(b"a.c", b"#include <a->\n")], b"BadDirective@0 "),
    (&[(b"a.c", b"#include <a//b>\n")], b"BadDirective@0 "),
];

// Units whose command words are not empty: the text of these comes before the main file.
const WORDS: &[(&[u8], Files, &[u8])] = &[
    (
        b"#define X 2 \n#define Y 1 \n#undef Y \n#include \"p.h\" \n",
        &[(b"a.c", b"X Y\n"), (b"p.h", b"X\n#define Z 5\n")],
        b"2@0 2@0 Y@2 ",
    ),
    (b"#define F(x) x \n", &[(b"a.c", b"F(1)\n")], b"1@0 "),
    (b"#define 1 1 \n", &[(b"a.c", b"x\n")], b"BadDefine@0 "),
    (
        b"#include \"no.h\" \n",
        &[(b"a.c", b"x\n")],
        b"MissingFile@9 ",
    ),
];

// What identifiers that are spelled `old` or `new` are taken for.
const TRACES: &[(Files, &[u8])] = &[
    (&[(b"a.c", b"old x new\n")], b"Final@0 Final@6 "),
    (
        &[(b"a.c", b"#define old 1\nold\n")],
        b"Directive@8 MacroName@14 ",
    ),
    (&[(b"a.c", b"#define f(old) old\n")], b"Param@10 Param@15 "),
    (&[(b"a.c", b"#define D(x) 1\nD(old)\n")], b"Dropped@17 "),
    (&[(b"a.c", b"#define S(x) #x\nS(old)\n")], b"Stringized@18 "),
    (&[(b"a.c", b"#define C(a) a##1\nC(old)\n")], b"Pasted@20 "),
    (&[(b"a.c", b"#define b old\n")], b""),
    (&[(b"a.c", b"#define b old\nb\n")], b"Final@10 "),
    (
        &[(b"a.c", b"#if old\n#elif old\n#endif\n")],
        b"Controlling@4 Controlling@14 ",
    ),
    (&[(b"a.c", b"#if 1\n#elif old\n#endif\n")], b""),
    (&[(b"a.c", b"#if 0\nold\n#define old\n#endif\n")], b""),
    (&[(b"a.c", b"#ifdef old\n#endif\n")], b"Directive@7 "),
    (&[(b"a.c", b"#ifndef old\n#endif\n")], b"Directive@8 "),
    (&[(b"a.c", b"#undef old\n")], b"Directive@7 "),
    (
        &[(b"a.c", b"#if defined old || defined(old)\n#endif\n")],
        b"Directive@12 Directive@27 ",
    ),
    (
        &[(b"a.c", b"#line old\n#warning new\n")],
        b"Directive@6 Directive@19 ",
    ),
    (&[(b"a.c", b"#error old\n")], b"Directive@7 "),
    (&[(b"a.c", b"#old\n")], b"Directive@1 "),
    (&[(b"a.c", b"#include <old>\n")], b"Directive@10 "),
    (
        &[(b"a.c", b"#define H <old>\n#include H\n")],
        b"Directive@11 ",
    ),
    (
        &[
            (b"a.c", b"#define old \"h.h\"\n#include old\n"),
            (b"h.h", b""),
        ],
        b"Directive@8 Directive@27 MacroName@27 ",
    ),
    (&[(b"a.c", b"#pragma keep old\n")], b"Opaque@13 hidden@13 "),
    (
        &[(b"a.c", b"#define new 1\n#undef new\n")],
        b"Directive@8 Directive@21 defined@8 ",
    ),
    (
        &[(b"a.c", b"#define f(new) new + old\n")],
        b"Param@10 Param@15 captured@21 ",
    ),
    (&[(b"a.c", b"#define f(old) new\n")], b"Param@10 "),
];
