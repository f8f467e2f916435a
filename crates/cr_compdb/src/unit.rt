//! The translation unit that an entry's directory, file and words make.
ghost use Rattle.std.specs.Prelude.{◌≡◌, ◌<◌, ◌==◌, ◌++◌, IfOk, OnOk, IfSome, length, drop, reverse, find, position, bytes_eq, option_map};
ghost use Rattle.std.specs.List.{flat_map};
ghost use Rattle.cr_compdb.specs.Entries as spec;

use crate::Entry;
use crate::settings::{Setting, settings_of};
use cr_base::{List, OutOfMemory, PathText, Text, Unit};
use std::alloc::Global;

// The entry with this number. The first of the words is the compiler.
pub(crate) fn make_entry(
    alloc: Global,
    number: u32,
    directory: &[u8],
    file: &[u8],
    words: &[Text],
) -> Result<Entry, OutOfMemory>
    ensures { IfOk result (λ entry. entry ≡ spec.made_entry number directory.now file.now words.now) }
{
    let settings = settings_of(alloc, options_of(words))?;
    let home = PathText::normalise(alloc, &PathText::empty(alloc), directory)?;
    entry_at(alloc, number, home, file, &settings)
}

// The words behind the first one.
fn options_of(words: &[Text]) -> &[Text]
    ensures { result.now ≡ drop 1 words.now }
{
    match words {
        [] => words,
        [_, options @ ..] => options,
    }
}

fn entry_at(
    alloc: Global,
    number: u32,
    home: PathText,
    file: &[u8],
    settings: &[Setting],
) -> Result<Entry, OutOfMemory>
    ensures { IfOk result (λ entry. entry ≡ spec.entry_at number home file.now settings.now) }
{
    let main = PathText::normalise(alloc, &home, file)?;
    if !is_c_source(file, settings) {
        return Ok(Entry::Skipped(number, main));
    }
    let quote_dirs = directories(alloc, &home, b"-iquote", settings)?;
    let dirs = directories(alloc, &home, b"-I", settings)?;
    let system_dirs = directories(alloc, &home, b"-isystem", settings)?;
    let words = words_text(alloc, settings)?;
    Ok(Entry::Unit(Unit {
        number,
        main,
        directory: home,
        quote_dirs,
        dirs,
        system_dirs,
        words,
    }))
}

// Whether the last `-x` says `c`, or there is none and the file ends in `.c`.
fn is_c_source(file: &[u8], settings: &[Setting]) -> bool
    ensures { result ≡ spec.is_c_source file.now settings.now }
{
    match last_of(b"-x", settings) {
        Some(language) => language.value.bytes() == b"c".as_slice(),
        None => file.ends_with(b".c"),
    }
}

// The last setting of this option.
fn last_of<'a>(option: &[u8], settings: &'a [Setting]) -> Option<&'a Setting>
    ensures { option_map (λ s. s.now) result ≡ find (λ s. bytes_eq s.option option.now) (reverse settings.now) }
{
    settings.iter().rev().find(|setting| setting.is(option))
}

// The directories that this option names, in order.
fn directories(
    alloc: Global,
    home: &PathText,
    option: &[u8],
    settings: &[Setting],
) -> Result<List<PathText>, OutOfMemory>
    ensures { IfOk result (λ paths. paths ≡ spec.directories home.now option.now settings.now) }
{
    let mut paths = Vec::new(alloc);
    for setting in settings {
        push_directory(alloc, &mut paths, home, option, setting)?;
    }
    Ok(List::of(paths))
}

fn push_directory(
    alloc: Global,
    paths: &mut Vec<PathText>,
    home: &PathText,
    option: &[u8],
    setting: &Setting,
) -> Result<(), OutOfMemory>
    ensures { OnOk result (paths.new.items ≡ paths.old.items ++ spec.directory_in home.now option.now setting.now) }
{
    if setting.is(option) {
        paths.push(PathText::normalise(alloc, home, setting.value.bytes())?)?;
    }
    Ok(())
}

// The text that stands before the unit's main file.
fn words_text(alloc: Global, settings: &[Setting]) -> Result<Text, OutOfMemory>
    ensures { IfOk result (λ text. text ≡ spec.words_text settings.now) }
{
    let mut text = Vec::new(alloc);
    push_macros(alloc, &mut text, settings)?;
    push_includes(&mut text, settings)?;
    Text::new(alloc, &text)
}

fn push_macros(alloc: Global, text: &mut Vec<u8>, settings: &[Setting]) -> Result<(), OutOfMemory>
    ensures { OnOk result (text.new.items ≡ text.old.items ++ flat_map spec.macro_line settings.now) }
{
    for setting in settings {
        push_macro(alloc, text, setting)?;
    }
    Ok(())
}

fn push_includes(text: &mut Vec<u8>, settings: &[Setting]) -> Result<(), OutOfMemory>
    ensures { OnOk result (text.new.items ≡ text.old.items ++ flat_map spec.include_line settings.now) }
{
    for setting in settings {
        push_include(text, setting)?;
    }
    Ok(())
}

// Writes the line of a `-D` or a `-U`.
fn push_macro(alloc: Global, text: &mut Vec<u8>, setting: &Setting) -> Result<(), OutOfMemory>
    ensures { OnOk result (text.new.items ≡ text.old.items ++ spec.macro_line setting.now) }
{
    if setting.is(b"-D") {
        let definition = definition(alloc, setting.value.bytes())?;
        return push_line(text, b"#define ", &definition, b" \n");
    }
    if setting.is(b"-U") {
        return push_line(text, b"#undef ", setting.value.bytes(), b" \n");
    }
    Ok(())
}

// Writes the line of an `-include`.
fn push_include(text: &mut Vec<u8>, setting: &Setting) -> Result<(), OutOfMemory>
    ensures { OnOk result (text.new.items ≡ text.old.items ++ spec.include_line setting.now) }
{
    if setting.is(b"-include") {
        return push_line(text, b"#include \"", setting.value.bytes(), b"\" \n");
    }
    Ok(())
}

// The name and the body that the value of a `-D` defines.
fn definition(alloc: Global, value: &[u8]) -> Result<Vec<u8>, OutOfMemory>
    ensures { IfOk result (λ text. text.items ≡ spec.definition value.now) }
{
    let mut text = value.to_vec(alloc)?;
    match first_equals(value) {
        Some(i) => {
            text[i] = b' ';
            Ok(text)
        }
        None => {
            text.extend_from_slice(b" 1")?;
            Ok(text)
        }
    }
}

// The place of the first `=`.
fn first_equals(value: &[u8]) -> Option<usize>
    ensures value { result ≡ position (λ byte. byte == 61) value.now }
    ensures within { IfSome result (λ i. i < length value.now) }
{
    value.iter().position(|byte| *byte == b'=')
}

// Writes a line whose middle has blanks in the place of its line feeds.
fn push_line(text: &mut Vec<u8>, front: &[u8], middle: &[u8], end: &[u8]) -> Result<(), OutOfMemory>
    ensures { OnOk result (text.new.items ≡ text.old.items ++ (front.now ++ spec.one_line middle.now ++ end.now)) }
{
    text.extend_from_slice(front)?;
    for byte in middle {
        text.push(if *byte == b'\n' { b' ' } else { *byte })?;
    }
    text.extend_from_slice(end)?;
    Ok(())
}
