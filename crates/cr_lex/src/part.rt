//! The part of a file that begins at a byte.
ghost use Rattle.std.specs.Prelude.{◌≡◌, ◌≤◌, ◌+◌, length, false};
ghost use Rattle.cr_lex.specs.Spellings as spellings;
ghost use Rattle.cr_lex.specs.Scanning as scanning;
ghost use Rattle.cr_lex.specs.Scanning.{IsByte, AreMarks, IsPart};
ghost use Rattle.cr_lex.specs.Joins.{rest};

use crate::cell::{Byte, byte_from};
use crate::literal::{is_quote, literal_part, prefixed_part};
use crate::punctuator::punct_part;
use crate::scan::{block_end, line_end, number_end, word_end};
use cr_base::{PpKind, is_digit, starts_name};

/// What a part is. A comment is white space (C11 5.1.1.2, phase 3); an `OpenComment` is `/*` without an end.
#[derive(Clone, Copy)]
pub enum Found {
    Space,
    LineEnd,
    OpenComment,
    Piece(PpKind),
}

/// A part, and the offset behind its last byte.
#[derive(Clone, Copy)]
pub struct Part {
    pub found: Found,
    pub end: usize,
}

/// Offsets up to which no single quote, and no double quote, is closed on its line.
#[derive(Clone, Copy)]
pub struct Marks {
    pub char: usize,
    pub string: usize,
}

/// What is known of quotes at a file's beginning: nothing.
pub fn no_marks() -> Marks
    ensures { result ≡ record { char = 0; string = 0 } }
{
    Marks { char: 0, string: 0 }
}

fn is_blank(byte: u8) -> bool
    ensures { result ≡ spellings.is_blank_byte byte }
{
    byte == b' ' || byte == b'\t' || byte == b'\x0b' || byte == b'\x0c' || byte == b'\r'
}

fn word_part(bytes: &[u8], first: u8, from: usize, marks: &mut Marks) -> Part
    requires from { from ≤ length bytes.now }
    requires marks { AreMarks bytes.now from marks.old }
    ensures part { IsPart bytes.now from (scanning.word_part first from (rest bytes.now from)) result }
    ensures marks { AreMarks bytes.now from marks.new }
{
    match prefixed_part(bytes, first, from, marks) {
        Some(part) => part,
        None => Part {
            found: Found::Piece(PpKind::Ident),
            end: word_end(bytes, from),
        },
    }
}

fn quote_part(bytes: &[u8], quote: Byte, marks: &mut Marks) -> Part
    requires quote { IsByte bytes.now quote }
    requires marks { AreMarks bytes.now quote.at marks.old }
    ensures part { IsPart bytes.now (quote.at + 1) (scanning.quote_part quote.byte (quote.at + 1) (rest bytes.now (quote.at + 1))) result }
    ensures marks { AreMarks bytes.now (quote.at + 1) marks.new }
{
    match literal_part(bytes, quote, marks) {
        Some(part) => part,
        None => Part {
            found: Found::Piece(PpKind::Stray),
            end: quote.at + 1,
        },
    }
}

fn dot_part(bytes: &[u8], from: usize) -> Part
    requires { from ≤ length bytes.now }
    ensures { IsPart bytes.now from (scanning.dot_part from (rest bytes.now from)) result }
{
    match byte_from(bytes, from) {
        Some(next) if is_digit(next.byte) => Part {
            found: Found::Piece(PpKind::Number),
            end: number_end(bytes, next.byte, next.at + 1),
        },
        _ => punct_part(bytes, b'.', from),
    }
}

fn block_part(bytes: &[u8], from: usize) -> Part
    requires { from ≤ length bytes.now }
    ensures { IsPart bytes.now from (scanning.block_part from (scanning.block_end false (rest bytes.now from))) result }
{
    match block_end(bytes, from) {
        Some(end) => Part {
            found: Found::Space,
            end,
        },
        None => Part {
            found: Found::OpenComment,
            end: from,
        },
    }
}

fn slash_part(bytes: &[u8], from: usize) -> Part
    requires { from ≤ length bytes.now }
    ensures { IsPart bytes.now from (scanning.slash_part from (rest bytes.now from)) result }
{
    match byte_from(bytes, from) {
        Some(next) if next.byte == b'*' => block_part(bytes, next.at + 1),
        Some(next) if next.byte == b'/' => Part {
            found: Found::Space,
            end: line_end(bytes, next.at + 1),
        },
        _ => punct_part(bytes, b'/', from),
    }
}

fn plain(found: Found, end: usize) -> Part
    ensures { result ≡ scanning.part found end }
{
    Part { found, end }
}

/// The part of a file that begins with this byte, the longest that can.
pub fn part_at(bytes: &[u8], first: Byte, marks: &mut Marks) -> Part
    requires first { IsByte bytes.now first }
    requires marks { AreMarks bytes.now first.at marks.old }
    ensures part { IsPart bytes.now (first.at + 1) (scanning.part_behind first.byte (first.at + 1) (rest bytes.now (first.at + 1))) result }
    ensures marks { AreMarks bytes.now (first.at + 1) marks.new }
{
    let from = first.at + 1;
    if is_blank(first.byte) {
        plain(Found::Space, from)
    } else if first.byte == b'\n' {
        plain(Found::LineEnd, from)
    } else if starts_name(first.byte) {
        word_part(bytes, first.byte, from, marks)
    } else if is_digit(first.byte) {
        plain(
            Found::Piece(PpKind::Number),
            number_end(bytes, first.byte, from),
        )
    } else if first.byte == b'.' {
        dot_part(bytes, from)
    } else if is_quote(first.byte) {
        quote_part(bytes, first, marks)
    } else if first.byte == b'/' {
        slash_part(bytes, from)
    } else {
        punct_part(bytes, first.byte, from)
    }
}
