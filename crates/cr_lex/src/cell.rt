//! The bytes of a file that are no part of a joined line.
ghost use Rattle.std.specs.Prelude.{MatchOption, ◌≡◌, ◌<◌, ◌≤◌, ◌+◌, ◌∷◌, [], length, drop, slice_index};
ghost use Rattle.cr_lex.specs.Joins as joins;
ghost use Rattle.cr_lex.specs.Scanning.{IsByte};
ghost use Rattle.cr_lex.specs.Joins.{rest};

/// A byte in no join, and its offset.
#[derive(Clone, Copy)]
pub struct Byte {
    pub byte: u8,
    pub at: usize,
}

/// How many bytes the join at an offset has.
pub fn join_len(bytes: &[u8], at: usize) -> usize
    requires { at < length bytes.now }
    ensures { result ≡ joins.join_len (drop at bytes.now) }
{
    match &bytes[at..] {
        [b'\\', b'\n', ..] => 2,
        [b'\\', b'\r', b'\n', ..] => 3,
        _ => 0,
    }
}

/// The next byte in no join, from an offset on.
pub fn byte_from(bytes: &[u8], from: usize) -> Option<Byte>
    requires { from ≤ length bytes.now }
    ensures { MatchOption result (rest bytes.now from ≡ [])
        (λ b. (from ≤ b.at) × IsByte bytes.now b × (rest bytes.now from ≡ rest bytes.now b.at)) }
{
    let mut at = from;
    while at < bytes.len() {
        let joined = join_len(bytes, at);
        if joined == 0 {
            return Some(Byte {
                byte: bytes[at],
                at,
            });
        }
        at += joined;
    }
    None
}
