//! Punctuators (C11 6.4.6), by their first byte.
ghost use Rattle.std.specs.Prelude.{◌≡◌, ◌≤◌, length, codes};
ghost use Rattle.cr_lex.specs.Spellings as spellings;
ghost use Rattle.cr_lex.specs.Scanning as scanning;
ghost use Rattle.cr_lex.specs.Scanning.{IsReachedAt, IsPart};
ghost use Rattle.cr_lex.specs.Joins.{rest};

use crate::cell::byte_from;
use crate::part::{Found, Part};
use cr_base::PpKind;

fn is_single(byte: u8) -> bool
    ensures { result ≡ scanning.is_single byte }
{
    matches!(
        byte,
        b'[' | b']'
            | b'('
            | b')'
            | b'{'
            | b'}'
            | b'.'
            | b'&'
            | b'*'
            | b'+'
            | b'-'
            | b'~'
            | b'!'
            | b'/'
            | b'%'
            | b'<'
            | b'>'
            | b'^'
            | b'|'
            | b'?'
            | b':'
            | b';'
            | b'='
            | b','
            | b'#'
    )
}

fn takes_equals(byte: u8) -> bool
    ensures { result ≡ spellings.is_one_of (codes "=!<>*/%+-&^|") byte }
{
    matches!(
        byte,
        b'=' | b'!' | b'<' | b'>' | b'*' | b'/' | b'%' | b'+' | b'-' | b'&' | b'^' | b'|'
    )
}

fn is_doubled(byte: u8) -> bool
    ensures { result ≡ spellings.is_one_of (codes "+-<>&|#") byte }
{
    matches!(byte, b'+' | b'-' | b'<' | b'>' | b'&' | b'|' | b'#')
}

fn is_colon_or_percent(byte: u8) -> bool
    ensures { result ≡ spellings.is_one_of (codes ":%") byte }
{
    matches!(byte, b':' | b'%')
}

fn is_pair(first: u8, second: u8) -> bool
    ensures { result ≡ spellings.is_pair first second }
{
    (takes_equals(first) && second == b'=')
        || (is_doubled(first) && first == second)
        || (first == b'-' && second == b'>')
        || (first == b'<' && is_colon_or_percent(second))
        || (is_colon_or_percent(first) && second == b'>')
        || (first == b'%' && second == b':')
}

fn is_angle(byte: u8) -> bool
    ensures { result ≡ spellings.is_one_of (codes "<>") byte }
{
    matches!(byte, b'<' | b'>')
}

fn is_triple(first: u8, second: u8, third: u8) -> bool
    ensures { result ≡ spellings.is_triple first second third }
{
    (first == b'.' && (second == b'.' && third == b'.'))
        || (is_angle(first) && (first == second && third == b'='))
}

fn pair_end(bytes: &[u8], first: u8, from: usize) -> Option<usize>
    requires { from ≤ length bytes.now }
    ensures { IsReachedAt bytes.now from (scanning.pair_end first (rest bytes.now from)) result }
{
    let second = byte_from(bytes, from)?;
    if is_pair(first, second.byte) {
        Some(second.at + 1)
    } else {
        None
    }
}

fn triple_end(bytes: &[u8], first: u8, from: usize) -> Option<usize>
    requires { from ≤ length bytes.now }
    ensures { IsReachedAt bytes.now from (scanning.triple_end first (rest bytes.now from)) result }
{
    let second = byte_from(bytes, from)?;
    if first != second.byte {
        return None;
    }
    let third = byte_from(bytes, second.at + 1)?;
    if is_triple(first, second.byte, third.byte) {
        Some(third.at + 1)
    } else {
        None
    }
}

fn quad_end(bytes: &[u8], first: u8, from: usize) -> Option<usize>
    requires { from ≤ length bytes.now }
    ensures { IsReachedAt bytes.now from (scanning.quad_end first (rest bytes.now from)) result }
{
    if first != b'%' {
        return None;
    }
    let second = byte_from(bytes, from)?;
    let third = byte_from(bytes, second.at + 1)?;
    let fourth = byte_from(bytes, third.at + 1)?;
    if second.byte == b':' && (third.byte == b'%' && fourth.byte == b':') {
        Some(fourth.at + 1)
    } else {
        None
    }
}

fn more_end(bytes: &[u8], first: u8, from: usize) -> Option<usize>
    requires { from ≤ length bytes.now }
    ensures { IsReachedAt bytes.now from (scanning.or_else (scanning.quad_end first (rest bytes.now from))
        (scanning.or_else (scanning.triple_end first (rest bytes.now from)) (scanning.pair_end first (rest bytes.now from)))) result }
{
    if let Some(end) = quad_end(bytes, first, from) {
        return Some(end);
    }
    if let Some(end) = triple_end(bytes, first, from) {
        return Some(end);
    }
    pair_end(bytes, first, from)
}

fn single_found(byte: u8) -> Found
    ensures { result ≡ scanning.single_found byte }
{
    if is_single(byte) {
        Found::Piece(PpKind::Punct)
    } else {
        Found::Piece(PpKind::Stray)
    }
}

/// The longest punctuator that begins with a byte and goes on at an offset, or a stray byte.
pub fn punct_part(bytes: &[u8], first: u8, from: usize) -> Part
    requires { from ≤ length bytes.now }
    ensures { IsPart bytes.now from (scanning.punct_part first from (rest bytes.now from)) result }
{
    match more_end(bytes, first, from) {
        Some(end) => Part {
            found: Found::Piece(PpKind::Punct),
            end,
        },
        None => Part {
            found: single_found(first),
            end: from,
        },
    }
}
