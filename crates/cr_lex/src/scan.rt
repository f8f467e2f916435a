//! The loops over the bytes of one part.
ghost use Rattle.std.specs.Prelude.{MatchOption, ◌≡◌, ◌<◌, ◌≤◌, ◌+◌, length, false, codes};
ghost use Rattle.cr_base.specs.Names as names;
ghost use Rattle.cr_lex.specs.Spellings as spellings;
ghost use Rattle.cr_lex.specs.Scanning as scanning;
ghost use Rattle.cr_lex.specs.Scanning.{IsReached, IsReachedAt, IsClosed};
ghost use Rattle.cr_lex.specs.Joins.{rest};

use crate::cell::byte_from;
use cr_base::is_word_byte;

/// Where the letters, digits and `_` end that begin at an offset.
pub fn word_end(bytes: &[u8], from: usize) -> usize
    requires { from ≤ length bytes.now }
    ensures { IsReached bytes.now from (scanning.run_end names.is_word_byte from (rest bytes.now from)) result }
{
    let mut at = from;
    while let Some(next) = byte_from(bytes, at) {
        if !is_word_byte(next.byte) {
            break;
        }
        at = next.at + 1;
    }
    at
}

/// Any byte but a line feed.
pub fn is_not_line_feed(byte: u8) -> bool
    ensures { result ≡ scanning.is_not_line_feed byte }
{
    byte != b'\n'
}

/// Where the line ends in which an offset is.
pub fn line_end(bytes: &[u8], from: usize) -> usize
    requires { from ≤ length bytes.now }
    ensures { IsReached bytes.now from (scanning.run_end scanning.is_not_line_feed from (rest bytes.now from)) result }
{
    let mut at = from;
    while let Some(next) = byte_from(bytes, at) {
        if !is_not_line_feed(next.byte) {
            break;
        }
        at = next.at + 1;
    }
    at
}

fn is_sign(byte: u8) -> bool
    ensures { result ≡ spellings.is_one_of (codes "+-") byte }
{
    byte == b'+' || byte == b'-'
}

fn is_exponent(byte: u8) -> bool
    ensures { result ≡ spellings.is_one_of (codes "eEpP") byte }
{
    byte == b'e' || byte == b'E' || byte == b'p' || byte == b'P'
}

fn goes_on_behind(last: u8, byte: u8) -> bool
    ensures { result ≡ spellings.goes_on_behind last byte }
{
    is_word_byte(byte) || byte == b'.' || (is_sign(byte) && is_exponent(last))
}

/// Where a number ends that goes on at an offset behind a byte.
pub fn number_end(bytes: &[u8], first: u8, from: usize) -> usize
    requires { from ≤ length bytes.now }
    ensures { IsReached bytes.now from (scanning.number_end first from (rest bytes.now from)) result }
{
    let mut at = from;
    let mut last = first;
    while let Some(next) = byte_from(bytes, at) {
        if !goes_on_behind(last, next.byte) {
            break;
        }
        at = next.at + 1;
        last = next.byte;
    }
    at
}

/// Where the comment ends whose text begins at an offset behind `/*`, if it ends.
pub fn block_end(bytes: &[u8], from: usize) -> Option<usize>
    requires { from ≤ length bytes.now }
    ensures { IsReachedAt bytes.now from (scanning.block_end false (rest bytes.now from)) result }
{
    let mut at = from;
    let mut star = false;
    while let Some(next) = byte_from(bytes, at) {
        at = next.at + 1;
        if star && next.byte == b'/' {
            return Some(at);
        }
        star = next.byte == b'*';
    }
    None
}

/// Where the literal ends whose elements begin at an offset. Where it isn't closed, where its line ends.
pub fn closed(bytes: &[u8], quote: u8, from: usize) -> Result<usize, usize>
    requires { from ≤ length bytes.now }
    ensures { IsClosed bytes.now from (scanning.closed quote false from (rest bytes.now from)) result }
{
    let mut at = from;
    let mut escaped = false;
    while let Some(next) = byte_from(bytes, at) {
        if next.byte == b'\n' {
            return Err(next.at);
        }
        at = next.at + 1;
        if !escaped && next.byte == quote {
            return Ok(at);
        }
        escaped = !escaped && next.byte == b'\\';
    }
    Err(at)
}
