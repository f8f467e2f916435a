//! What is written in the bytes of a token.
ghost use Rattle.std.specs.Prelude.{◌≡◌, ◌≤◌, ◌<◌, ◌+◌, ℕ, length, drop, count_by, slice_range, IfOk, IfSome, true, false};
ghost use Rattle.std.specs.Prelude.{◌==◌};
ghost use Rattle.cr_lex.specs.Joins as joins;
ghost use Rattle.cr_lex.specs.Joins.{text_of};
ghost use Rattle.cr_lex.specs.Lexing as lexing;
ghost use Rattle.cr_lex.specs.Scanning.{own_cells};
ghost use Rattle.cr_lex.specs.Standing.{IsPlain};

use crate::cell::{byte_from, join_len};
use cr_base::OutOfMemory;
use std::alloc::Global;

/// How many line feeds there are.
pub fn line_feeds(bytes: &[u8]) -> usize
    ensures { result ≡ count_by (λ b. b == 10) bytes.now }
{
    bytes.iter().filter(|b| **b == b'\n').count()
}

fn is_trigraph(bytes: &[u8], at: usize) -> bool
    requires { at < length bytes.now }
    ensures { result ≡ joins.is_trigraph (drop at bytes.now) }
{
    match &bytes[at..] {
        [b'?', b'?', third, ..] => matches!(
            *third,
            b'=' | b'(' | b'/' | b')' | b'\'' | b'<' | b'!' | b'>' | b'-'
        ),
        _ => false,
    }
}

/// Where the first trigraph begins between two offsets.
pub fn first_trigraph(bytes: &[u8], from: usize, end: usize) -> Option<usize>
    requires from { from ≤ end }
    requires end { end ≤ length bytes.now }
    ensures within { IfSome result (λ at. at < length bytes.now) }
    ensures first { result ≡ lexing.first_trigraph (own_cells bytes.now from end) }
{
    let mut at = from;
    while let Some(next) = byte_from(bytes, at) {
        if next.at >= end {
            break;
        }
        if is_trigraph(bytes, next.at) {
            return Some(next.at);
        }
        at = next.at + 1;
    }
    None
}

/// Whether a join begins between two offsets.
pub fn has_join(bytes: &[u8], from: usize, end: usize) -> bool
    requires from { from ≤ end }
    requires end { end ≤ length bytes.now }
    ensures { result ≡ false → IsPlain bytes.now from end }
{
    for at in from..end {
        if join_len(bytes, at) > 0 {
            return true;
        }
    }
    false
}

/// What is written between two offsets without the joins.
pub fn without_joins(
    alloc: Global,
    bytes: &[u8],
    from: usize,
    end: usize,
) -> Result<Vec<u8>, OutOfMemory>
    requires from { from ≤ end }
    requires end { end ≤ length bytes.now }
    ensures { IfOk result (λ text. text.items ≡ text_of (own_cells bytes.now from end)) }
{
    let mut text = Vec::new(alloc);
    let mut at = from;
    while let Some(next) = byte_from(bytes, at) {
        if next.at >= end {
            break;
        }
        text.push(next.byte)?;
        at = next.at + 1;
    }
    Ok(text)
}
