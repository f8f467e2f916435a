use crate::{ExpandFault, MacroTable, one_token};
use cr_base::{Name, NameTable, Origin, OutOfMemory, PathNo, Place, PpKind, PpTok};
use std::alloc::Global;
use std::test::Fail;

fn at(offset: u32) -> Place {
    Place {
        path: PathNo(0),
        offset,
    }
}

// A word as a token; one that begins with `~` has no white space before it.
fn put_word(names: &mut NameTable, line: &mut Vec<PpTok>, word: &[u8]) -> Result<(), OutOfMemory> {
    if names.len() > 100 || line.len() > 100 {
        return Err(OutOfMemory);
    }
    let space = !word.starts_with(b"~");
    let text = if space { word } else { &word[1..] };
    let place = at(line.len() as u32);
    line.push(PpTok {
        kind: one_token(text).unwrap_or(PpKind::Stray),
        text: names.intern(text)?,
        origin: Origin::At(place),
        site: place,
        line: 1,
        end: 0,
        space,
        first: false,
        joined: false,
    })?;
    Ok(())
}

// The tokens of a `define` line, whose further words blanks part, at the places 0, 1, 2 and so on.
fn line_of(alloc: Global, names: &mut NameTable, words: &[u8]) -> Result<Vec<PpTok>, OutOfMemory> {
    let mut line = Vec::new(alloc);
    put_word(names, &mut line, b"#")?;
    put_word(names, &mut line, b"~define")?;
    for word in words.split(|b| *b == b' ') {
        if !word.is_empty() {
            put_word(names, &mut line, word)?;
        }
    }
    Ok(line)
}

// Whether the line defines a macro: none and a fault at its `#` where it doesn't.
fn defines(
    names: &mut NameTable,
    table: &mut MacroTable,
    line: &[PpTok],
) -> Result<bool, OutOfMemory> {
    match line {
        [first, second, ..] => match first.origin {
            Origin::At(_) => is_good(table.define(names, line), second),
            Origin::Made => Err(OutOfMemory),
        },
        _ => Err(OutOfMemory),
    }
}

fn is_good(found: Result<(), ExpandFault>, _: &PpTok) -> Result<bool, OutOfMemory> {
    match found {
        Ok(()) => Ok(true),
        Err(e) => {
            if e == ExpandFault::BadDefine(at(0)) {
                Ok(false)
            } else {
                Err(OutOfMemory)
            }
        }
    }
}

fn defines_words(alloc: Global, words: &[u8]) -> Result<bool, OutOfMemory> {
    let mut names = NameTable::new(alloc);
    let mut table = MacroTable::new(alloc);
    let line = line_of(alloc, &mut names, words)?;
    let good = defines(&mut names, &mut table, &line)?;
    Ok(good)
}

#[test]
fn a_definition_has_its_form(rt: HostRuntime) -> Result<(), Fail> {
    let cases: [(&[u8], bool); 20] = [
        (b"A", true),
        (b"A 1", true),
        (b"A # b", true),
        (b"f ( a ) # b", true),
        (b"f ~( ) 1", true),
        (b"f ~( a , b ) a ## b", true),
        (b"f ~( a ) # a", true),
        (b"f ~( a , ... ) # __VA_ARGS__", true),
        (b"", false),
        (b"1 2", false),
        (b"defined 1", false),
        (b"__LINE__ 1", false),
        (b"__VA_ARGS__ 1", false),
        (b"f ~( a , a ) a", false),
        (b"f ~( ... , a ) a", false),
        (b"f ~( a", false),
        (b"f ~( a ) # b", false),
        (b"A ## b", false),
        (b"f ~( a ) a ##", false),
        (b"f ~( a ) __VA_ARGS__", false),
    ];
    for (words, good) in cases {
        assert!(rt; defines_words(rt.alloc(), words)? == good, "{words:?}");
    }
    Ok(())
}

fn body_length(table: &MacroTable, name: Name) -> Option<usize> {
    match table.lookup(name) {
        Some(found) => Some(found.body.items().len()),
        None => None,
    }
}

#[test]
fn a_definition_replaces_and_goes(rt: HostRuntime) -> Result<(), Fail> {
    let alloc = rt.alloc();
    let mut names = NameTable::new(alloc);
    let mut table = MacroTable::new(alloc);
    let once = line_of(alloc, &mut names, b"A 1")?;
    let again = line_of(alloc, &mut names, b"A 2 3")?;
    assert!(rt; once.len() > 2);
    let name = once[2].text;
    assert!(rt; body_length(&table, name) == None);
    assert!(rt; defines(&mut names, &mut table, &once)?);
    assert!(rt; body_length(&table, name) == Some(1));
    assert!(rt; defines(&mut names, &mut table, &again)?);
    assert!(rt; body_length(&table, name) == Some(2));
    table.undefine(name);
    assert!(rt; body_length(&table, name) == None);
    Ok(())
}
