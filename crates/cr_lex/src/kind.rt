//! The test on texts alone.
ghost use Rattle.std.specs.Prelude.{◌≡◌, ◌==◌, length};
ghost use Rattle.std.specs.List.{list_all};
ghost use Rattle.cr_lex.specs.Spellings as spellings;
ghost use Rattle.cr_lex.specs.Scanning as scanning;

use crate::cell::byte_from;
use crate::part::{Found, Part, no_marks, part_at};
use crate::scan::is_not_line_feed;
use cr_base::PpKind;

// The kind of a part that is a token and ends at an offset.
fn whole_kind(part: Part, end: usize) -> Option<PpKind>
    ensures { result ≡ scanning.whole_kind (part.end == end) part.found }
{
    match part.found {
        Found::Piece(PpKind::Stray) => None,
        Found::Piece(kind) if part.end == end => Some(kind),
        _ => None,
    }
}

fn is_one_line(text: &[u8]) -> bool
    ensures { result ≡ list_all scanning.is_not_line_feed text.now }
{
    text.iter().all(|b| is_not_line_feed(*b))
}

/// The kind of the preprocessing token that a text is, if it is exactly one (C11 6.4). White space, a
/// comment and a stray byte are none, and joined lines and trigraphs are not looked for.
pub fn token_kind(text: &[u8]) -> Option<PpKind>
    ensures { result ≡ spellings.token_kind text.now }
{
    if !is_one_line(text) {
        return None;
    }
    match byte_from(text, 0) {
        Some(first) => {
            let mut marks = no_marks();
            let part = part_at(text, first, &mut marks);
            whole_kind(part, text.len())
        }
        None => None,
    }
}
