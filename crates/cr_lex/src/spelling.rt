//! Whether a new name can be spelled in a token's place.
ghost use Rattle.std.specs.Prelude.{◌≡◌, ◌≤◌, length};
ghost use Rattle.cr_lex.specs.Joins.{rest};
ghost use Rattle.cr_lex.specs.Renaming as renaming;

use crate::cell::byte_from;
use cr_base::PpTok;

fn is_wide_prefix(name: &[u8]) -> bool
    ensures { result ≡ renaming.is_wide_prefix name.now }
{
    name == b"L".as_slice() || name == b"u".as_slice() || name == b"U".as_slice()
}

fn could_prefix(name: &[u8], quote: u8) -> bool
    ensures { result ≡ renaming.could_prefix name.now quote }
{
    (is_wide_prefix(name) && (quote == b'\'' || quote == b'"'))
        || (name == b"u8".as_slice() && quote == b'"')
}

fn is_before_quote(bytes: &[u8], name: &[u8], end: usize) -> bool
    requires { end ≤ length bytes.now }
    ensures { result ≡ renaming.is_before_quote name.now (rest bytes.now end) }
{
    match byte_from(bytes, end) {
        Some(next) => could_prefix(name, next.byte),
        None => false,
    }
}

/// Whether a new name can't be spelled in the place of a token of these bytes: a joined line is inside the
/// token, or the next byte that is no part of one is a quote that the new name, `L`, `u`, `U` or `u8`, could
/// prefix (own rule of this project; C11 6.4.4.4, 6.4.5).
pub fn is_unspellable(bytes: &[u8], new: &[u8], token: PpTok) -> bool
    requires { token.end ≤ length bytes.now }
    ensures { result ≡ renaming.is_unspellable bytes.now new.now token.joined token.end }
{
    token.joined || is_before_quote(bytes, new, token.end as usize)
}
