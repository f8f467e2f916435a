//! The entries of a database.
ghost use Rattle.std.specs.Prelude.{◌≡◌, ◌≢◌, ◌≤◌, ◌<◌, IfOk, IfErr, Ok, Err, map, option_map, Some, None, List, ℕ, codes, length};
ghost use Rattle.cr_compdb.specs.Database as spec;
ghost use Rattle.cr_compdb.specs.Database.{Gives};
ghost use Rattle.serde_json.specs.View.{view, items_view};
ghost use Rattle.serde_json.specs.Find.{get};

use crate::command::command_words;
use crate::unit::make_entry;
use crate::{DbFault, Entry, FieldName};
use cr_base::{OutOfMemory, Text};
use serde_json::Value;
use std::alloc::Global;

// A database lists at most so many entries.
const MAX_ENTRIES: usize = 16_384;

/// Reads a compilation database, in the form of Clang's JSON Compilation Database: an array of objects
/// with the texts `directory` and `file`, and `arguments`, a list of texts, or `command`, a text. It
/// answers the entries in order, or the first fault: that the bytes are no JSON, that the value is no
/// array, that there are too many entries, and then, entry by entry, that it is no object, or lacks its
/// directory, its file or its words, or has an open quote in its `command`. Entries that are skipped are
/// checked too.
pub fn read_db(alloc: Global, bytes: &[u8]) -> Result<Vec<Entry>, DbFault>
    ensures ok { IfOk result (λ entries. spec.database bytes.now ≡ Ok entries.items) }
    ensures fault { IfErr result (λ f. f ≢ DbFault.OutOfMemory → spec.database bytes.now ≡ Err f) }
{
    let value = read_json(alloc, bytes)?;
    units_of(alloc, &value)
}

fn read_json(alloc: Global, bytes: &[u8]) -> Result<Value, DbFault>
    ensures { Gives view (spec.found_or DbFault.NotJson (spec.json_of bytes.now)) result }
{
    match Value::from_slice(alloc, bytes) {
        Ok(value) => Ok(value),
        Err(error) if error.is_memory() => Err(DbFault::OutOfMemory),
        Err(_) => Err(DbFault::NotJson),
    }
}

fn units_of(alloc: Global, value: &Value) -> Result<Vec<Entry>, DbFault>
    ensures { Gives (λ entries. entries.items) (spec.units_of (view value.now)) result }
{
    match value.as_array() {
        Some(items) => units_in(alloc, items),
        None => Err(DbFault::NotArray),
    }
}

fn units_in(alloc: Global, items: &[Value]) -> Result<Vec<Entry>, DbFault>
    ensures { Gives (λ entries. entries.items) (spec.units_in (items_view items.now)) result }
{
    if items.len() > MAX_ENTRIES {
        return Err(DbFault::LimitUnits);
    }
    entries_of(alloc, items)
}

fn entries_of(alloc: Global, items: &[Value]) -> Result<Vec<Entry>, DbFault>
    requires { length items.now ≤ MAX_ENTRIES }
    ensures { Gives (λ entries. entries.items) (spec.entries_from 0 (items_view items.now)) result }
{
    let mut entries = Vec::new(alloc);
    for (i, item) in items.iter().enumerate() {
        entries.push(entry_of(alloc, i as u32, item)?)?;
    }
    Ok(entries)
}

fn entry_of(alloc: Global, number: u32, value: &Value) -> Result<Entry, DbFault>
    ensures { Gives (λ entry. entry) (spec.entry_of number (view value.now)) result }
{
    if !value.is_object() {
        return Err(DbFault::Field(number, FieldName::Object));
    }
    match text_at(value, "directory") {
        Some(directory) => match text_at(value, "file") {
            Some(file) => entry_with(alloc, number, value, directory, file),
            None => Err(DbFault::Field(number, FieldName::File)),
        },
        None => Err(DbFault::Field(number, FieldName::Directory)),
    }
}

fn entry_with(
    alloc: Global,
    number: u32,
    value: &Value,
    directory: &str,
    file: &str,
) -> Result<Entry, DbFault>
    ensures { Gives (λ entry. entry) (spec.entry_with number (view value.now) directory.now file.now) result }
{
    let words = words_of(alloc, number, value)?;
    let entry = make_entry(alloc, number, directory.as_bytes(), file.as_bytes(), &words)?;
    Ok(entry)
}

// The text of a member.
fn text_at<'a>(value: &'a Value, name: &str) -> Option<&'a str>
    ensures { option_map (λ text. text.now) result ≡ spec.text_at name.now (view value.now) }
{
    value.get(name).and_then(Value::as_str)
}

fn words_of(alloc: Global, number: u32, value: &Value) -> Result<Vec<Text>, DbFault>
    ensures { Gives (λ words. words.items) (spec.words_of number (get (codes "command") (view value.now)) (get (codes "arguments") (view value.now))) result }
{
    match value.get("arguments") {
        Some(arguments) => words_of_list(alloc, number, arguments),
        None => words_of_command(alloc, number, value),
    }
}

fn words_of_list(alloc: Global, number: u32, arguments: &Value) -> Result<Vec<Text>, DbFault>
    ensures { Gives (λ words. words.items) (spec.words_of_list number (view arguments.now)) result }
{
    let Some(items) = arguments.as_array() else {
        return Err(DbFault::Field(number, FieldName::Words));
    };
    match texts_of(alloc, items)? {
        Some(texts) => Ok(texts),
        None => Err(DbFault::Field(number, FieldName::Words)),
    }
}

fn texts_of(alloc: Global, items: &[Value]) -> Result<Option<Vec<Text>>, OutOfMemory>
    ensures { IfOk result (λ found. option_map (λ texts. texts.items) found ≡ spec.texts_of (items_view items.now)) }
{
    let mut texts = Vec::new(alloc);
    for item in items {
        let Some(text) = item.as_str() else {
            return Ok(None);
        };
        texts.push(Text::new(alloc, text.as_bytes())?)?;
    }
    Ok(Some(texts))
}

fn words_of_command(alloc: Global, number: u32, value: &Value) -> Result<Vec<Text>, DbFault>
    ensures { Gives (λ words. words.items) (spec.words_of_command number (get (codes "command") (view value.now))) result }
{
    let Some(command) = text_at(value, "command") else {
        return Err(DbFault::Field(number, FieldName::Words));
    };
    match command_words(alloc, command.as_bytes())? {
        Some(words) => Ok(words),
        None => Err(DbFault::Quote(number)),
    }
}
