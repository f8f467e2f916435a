use crate::{Found, KnowFault, Snapshot};
use cr_base::{List, OutOfMemory, PathNo, PathText, Text, Unit};
use std::alloc::Global;
use std::test::Fail;

fn path(alloc: Global, text: &[u8]) -> Result<PathText, OutOfMemory> {
    PathText::normalise(alloc, &PathText::empty(alloc), text)
}

fn one(alloc: Global, text: &[u8]) -> Result<List<PathText>, OutOfMemory> {
    let mut paths = Vec::new(alloc);
    paths.push(path(alloc, text)?)?;
    Ok(List::of(paths))
}

fn unit(alloc: Global) -> Result<Unit, OutOfMemory> {
    Ok(Unit {
        number: 3,
        main: path(alloc, b"w/m.c")?,
        directory: path(alloc, b"w")?,
        quote_dirs: one(alloc, b"w/q")?,
        dirs: one(alloc, b"w/i")?,
        system_dirs: one(alloc, b"/s")?,
        words: Text::new(alloc, b"")?,
    })
}

fn joined(alloc: Global, paths: &[PathText]) -> Result<Vec<u8>, OutOfMemory> {
    let mut text = Vec::new(alloc);
    for path in paths {
        text.extend_from_slice(path.bytes())?;
        text.push(b' ')?;
    }
    Ok(text)
}

// The candidates of an include in a file that is the first to be made known.
fn looked_for(
    alloc: Global,
    from: PathText,
    angled: bool,
    name: &[u8],
) -> Result<Vec<u8>, KnowFault> {
    let mut snapshot = Snapshot::new(alloc)?;
    let unit = unit(alloc)?;
    let n = match snapshot.get(&from) {
        Found::Unknown => snapshot.know(from, None)?,
        _ => PathNo(8),
    };
    let paths = snapshot.candidates(alloc, &unit, n, angled, name)?;
    Ok(joined(alloc, &paths)?)
}

#[test]
fn an_include_is_looked_for_in_its_places_in_order(rt: HostRuntime) -> Result<(), Fail> {
    let alloc = rt.alloc();
    let cases: [(&[u8], bool, &[u8], &[u8]); 8] = [
        (b"w/m.c", false, b"a.h", b"w/a.h w/q/a.h w/i/a.h /s/a.h "),
        (b"w/m.c", true, b"a.h", b"w/i/a.h /s/a.h "),
        (b"w/x/y.h", false, b"../a.h", b"w/a.h w/a.h w/a.h /a.h "),
        (b"/m.c", false, b"a.h", b"/a.h w/q/a.h w/i/a.h /s/a.h "),
        (
            b"w/m.c",
            true,
            b"stdio.h",
            b"w/i/stdio.h /s/stdio.h //stdio.h ",
        ),
        (
            b"m.c",
            false,
            b"errno.h",
            b"errno.h w/q/errno.h w/i/errno.h /s/errno.h //errno.h ",
        ),
        (b"w/m.c", false, b"/x/./y.h", b"/x/y.h "),
        (b"w/m.c", true, b"//stdio.h", b"/stdio.h "),
    ];
    for (from, angled, name, paths) in &cases {
        let found = looked_for(alloc, path(alloc, from)?, *angled, name)?;
        assert_eq!(rt; found.as_slice(), *paths);
    }
    Ok(())
}

#[test]
fn texts_of_command_words_stand_in_the_units_directory_and_headers_in_none(
    rt: HostRuntime,
) -> Result<(), Fail> {
    let alloc = rt.alloc();
    let cases: [(&[u8], &[u8], &[u8]); 2] = [
        (b"words/3", b"a.h", b"w/a.h w/q/a.h w/i/a.h /s/a.h "),
        (
            b"stdio.h",
            b"stddef.h",
            b"w/q/stddef.h w/i/stddef.h /s/stddef.h //stddef.h ",
        ),
    ];
    for (from, name, paths) in &cases {
        let found = looked_for(alloc, PathText::apart(alloc, from)?, false, name)?;
        assert_eq!(rt; found.as_slice(), *paths);
    }
    Ok(())
}

// What a snapshot says of a path: a letter, and the bytes.
fn said(alloc: Global, snapshot: &Snapshot, path: &PathText) -> Result<Vec<u8>, OutOfMemory> {
    let mut text = Vec::new(alloc);
    match snapshot.get(path) {
        Found::Unknown => text.push(b'?')?,
        Found::Absent => text.push(b'-')?,
        Found::Known(_, bytes) => {
            text.push(b'+')?;
            text.extend_from_slice(bytes)?;
        }
    }
    Ok(text)
}

#[test]
fn built_in_headers_are_known_at_first(rt: HostRuntime) -> Result<(), Fail> {
    let alloc = rt.alloc();
    let snapshot = Snapshot::new(alloc)?;
    let cases: [(&[u8], &[u8]); 4] = [
        (b"errno.h", b"+#pragma once\nextern int errno;\n"),
        (
            b"stdbool.h",
            b"+#pragma once\n#define bool _Bool\n#define true 1\n#define false 0\n",
        ),
        (
            b"assert.h",
            b"+void __crename_fail(void);\n#undef assert\n#ifdef NDEBUG\n#define assert(e) ((void)0)\n#else\n#define assert(e) ((e)?(void)0:__crename_fail())\n#endif\n",
        ),
        (b"math.h", b"?"),
    ];
    for (name, text) in &cases {
        let found = said(alloc, &snapshot, &PathText::apart(alloc, name)?)?;
        assert_eq!(rt; found.as_slice(), *text);
    }
    assert_eq!(rt; snapshot.path(PathNo(9)).bytes(), b"//assert.h".as_slice());
    let last = PathText::apart(alloc, b"assert.h")?;
    assert_eq!(rt; snapshot.number(&last), Some(PathNo(9)));
    assert_eq!(rt; snapshot.number(&path(alloc, b"assert.h")?), None);
    Ok(())
}

fn told(
    alloc: Global,
    text: &[u8],
    found: Option<Vec<u8>>,
) -> Result<(PathNo, Vec<u8>), KnowFault> {
    let mut snapshot = Snapshot::new(alloc)?;
    let known = path(alloc, text)?;
    let n = match snapshot.get(&known) {
        Found::Unknown => snapshot.know(known, found)?,
        _ => PathNo(0),
    };
    Ok((n, said(alloc, &snapshot, &path(alloc, text)?)?))
}

#[test]
fn what_is_made_known_is_answered(rt: HostRuntime) -> Result<(), Fail> {
    let alloc = rt.alloc();
    let (n, text) = told(alloc, b"a.c", Some(b"int x;".to_vec(alloc)?))?;
    assert_eq!(rt; n, PathNo(10));
    assert_eq!(rt; text.as_slice(), b"+int x;".as_slice());
    let (n, text) = told(alloc, b"b.c", None)?;
    assert_eq!(rt; n, PathNo(10));
    assert_eq!(rt; text.as_slice(), b"-".as_slice());
    Ok(())
}

#[test]
fn a_file_of_more_than_16_mebibytes_is_refused(rt: HostRuntime) -> Result<(), Fail> {
    let alloc = rt.alloc();
    let large = vec![in alloc; b';'; 16_777_217]?;
    let refused = matches!(told(alloc, b"a.c", Some(large)), Err(KnowFault::LimitFiles));
    assert!(rt; refused);
    let largest = vec![in alloc; b';'; 16_777_216]?;
    let (_, text) = told(alloc, b"a.c", Some(largest))?;
    assert_eq!(rt; text.len(), 16_777_217);
    Ok(())
}

// Makes an empty file known, and answers whether it fits.
fn fits(alloc: Global, snapshot: &mut Snapshot, path: PathText) -> Result<bool, OutOfMemory> {
    let stands_apart = path.bytes().starts_with(b"//");
    if stands_apart || !matches!(snapshot.get(&path), Found::Unknown) {
        return Err(OutOfMemory);
    }
    match snapshot.know(path, Some(Vec::new(alloc))) {
        Ok(_) => Ok(true),
        Err(KnowFault::LimitFiles) => Ok(false),
        Err(KnowFault::OutOfMemory) => Err(OutOfMemory),
    }
}

// One of 65,536 names of four letters.
fn letters(n: u32) -> [u8; 4] {
    let letter = |shift: u32| b"abcdefghijklmnop"[(n >> shift & 15) as usize];
    [letter(12), letter(8), letter(4), letter(0)]
}

#[test]
fn a_snapshot_holds_65536_files(rt: HostRuntime) -> Result<(), Fail> {
    let alloc = rt.alloc();
    let mut snapshot = Snapshot::new(alloc)?;
    for n in 0..65_536 {
        assert!(rt; fits(alloc, &mut snapshot, path(alloc, &letters(n))?)?);
    }
    assert!(rt; !fits(alloc, &mut snapshot, path(alloc, b"one more")?)?);
    Ok(())
}
