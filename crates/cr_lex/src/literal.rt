//! Character constants and string literals (C11 6.4.4.4, 6.4.5).
ghost use Rattle.std.specs.Prelude.{◌≡◌, ◌≤◌, ◌+◌, length};
ghost use Rattle.cr_lex.specs.Scanning as scanning;
ghost use Rattle.cr_lex.specs.Scanning.{IsByte, AreMarks, IsReachedAt, IsPartAt};
ghost use Rattle.cr_lex.specs.Joins.{rest};

use crate::cell::{Byte, byte_from};
use crate::part::{Found, Marks, Part};
use crate::scan::closed;
use cr_base::PpKind;

fn starts_with_quote(bytes: &[u8], from: usize) -> bool
    requires { from ≤ length bytes.now }
    ensures { result ≡ scanning.starts_at 39 (rest bytes.now from) }
{
    match byte_from(bytes, from) {
        Some(next) => next.byte == b'\'',
        None => false,
    }
}

// Where a character constant ends that begins with this quote.
fn char_end(bytes: &[u8], quote: Byte, marks: &mut Marks) -> Option<usize>
    requires quote { IsByte bytes.now quote }
    requires single { quote.byte ≡ 39 }
    requires marks { AreMarks bytes.now quote.at marks.old }
    ensures end { IsReachedAt bytes.now (quote.at + 1) (scanning.char_end (quote.at + 1) (rest bytes.now (quote.at + 1))) result }
    ensures marks { AreMarks bytes.now quote.at marks.new }
{
    if quote.at < marks.char || starts_with_quote(bytes, quote.at + 1) {
        return None;
    }
    match closed(bytes, b'\'', quote.at + 1) {
        Ok(end) => Some(end),
        Err(stop) => {
            marks.char = stop;
            None
        }
    }
}

// Where a string literal ends that begins with this quote.
fn string_end(bytes: &[u8], quote: Byte, marks: &mut Marks) -> Option<usize>
    requires quote { IsByte bytes.now quote }
    requires double { quote.byte ≡ 34 }
    requires marks { AreMarks bytes.now quote.at marks.old }
    ensures end { IsReachedAt bytes.now (quote.at + 1) (scanning.string_end (quote.at + 1) (rest bytes.now (quote.at + 1))) result }
    ensures marks { AreMarks bytes.now quote.at marks.new }
{
    if quote.at < marks.string {
        return None;
    }
    match closed(bytes, b'"', quote.at + 1) {
        Ok(end) => Some(end),
        Err(stop) => {
            marks.string = stop;
            None
        }
    }
}

fn string_part(bytes: &[u8], quote: Byte, marks: &mut Marks) -> Option<Part>
    requires quote { IsByte bytes.now quote }
    requires double { quote.byte ≡ 34 }
    requires marks { AreMarks bytes.now quote.at marks.old }
    ensures part { IsPartAt bytes.now (quote.at + 1) (scanning.string_part (quote.at + 1) (rest bytes.now (quote.at + 1))) result }
    ensures marks { AreMarks bytes.now quote.at marks.new }
{
    let end = string_end(bytes, quote, marks)?;
    Some(Part {
        found: Found::Piece(PpKind::Str),
        end,
    })
}

fn char_part(bytes: &[u8], quote: Byte, marks: &mut Marks) -> Option<Part>
    requires quote { IsByte bytes.now quote }
    requires single { quote.byte ≡ 39 }
    requires marks { AreMarks bytes.now quote.at marks.old }
    ensures part { IsPartAt bytes.now (quote.at + 1) (scanning.char_part (quote.at + 1) (rest bytes.now (quote.at + 1))) result }
    ensures marks { AreMarks bytes.now quote.at marks.new }
{
    let end = char_end(bytes, quote, marks)?;
    Some(Part {
        found: Found::Piece(PpKind::Char),
        end,
    })
}

/// The literal that begins with this byte, if it is a quote and the literal is closed on its line.
pub fn literal_part(bytes: &[u8], quote: Byte, marks: &mut Marks) -> Option<Part>
    requires quote { IsByte bytes.now quote }
    requires marks { AreMarks bytes.now quote.at marks.old }
    ensures part { IsPartAt bytes.now (quote.at + 1) (scanning.literal_part quote.byte (quote.at + 1) (rest bytes.now (quote.at + 1))) result }
    ensures marks { AreMarks bytes.now quote.at marks.new }
{
    if quote.byte == b'\'' {
        char_part(bytes, quote, marks)
    } else if quote.byte == b'"' {
        string_part(bytes, quote, marks)
    } else {
        None
    }
}

// The string whose first quote would stand at an offset behind `u8`.
fn u8_part(bytes: &[u8], from: usize, marks: &mut Marks) -> Option<Part>
    requires from { from ≤ length bytes.now }
    requires marks { AreMarks bytes.now from marks.old }
    ensures part { IsPartAt bytes.now from (scanning.u8_part (rest bytes.now from)) result }
    ensures marks { AreMarks bytes.now from marks.new }
{
    let quote = byte_from(bytes, from)?;
    if quote.byte == b'"' {
        string_part(bytes, quote, marks)
    } else {
        None
    }
}

fn is_wide(byte: u8) -> bool
    ensures { result ≡ scanning.is_wide byte }
{
    byte == b'L' || byte == b'u' || byte == b'U'
}

/// A single or a double quote.
pub fn is_quote(byte: u8) -> bool
    ensures { result ≡ scanning.is_quote byte }
{
    byte == b'\'' || byte == b'"'
}

/// The literal that goes on at an offset behind the first byte of its prefix.
pub fn prefixed_part(bytes: &[u8], first: u8, from: usize, marks: &mut Marks) -> Option<Part>
    requires from { from ≤ length bytes.now }
    requires marks { AreMarks bytes.now from marks.old }
    ensures part { IsPartAt bytes.now from (scanning.prefixed_part first (rest bytes.now from)) result }
    ensures marks { AreMarks bytes.now from marks.new }
{
    let next = byte_from(bytes, from)?;
    if is_wide(first) && is_quote(next.byte) {
        literal_part(bytes, next, marks)
    } else if first == b'u' && next.byte == b'8' {
        u8_part(bytes, next.at + 1, marks)
    } else {
        None
    }
}
