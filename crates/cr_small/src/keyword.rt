//! The keywords, found by their length.
ghost use Rattle.std.specs.Prelude.{◌≡◌, ◌==◌, [], MatchOption};
ghost use Rattle.std.specs.List.{slice_split};
ghost use Rattle.cr_base.specs.Names as names;
ghost use Rattle.cr_small.specs.Keywords.{is_among, keywords_of_length};

// The keywords of this length, which blanks part.
#[tactic(auto, unfolding(cr_base::specs::Names::keywords))]
fn of_length(n: usize) -> Option<&'static [u8]>
    ensures { MatchOption result (keywords_of_length n ≡ []) (λ words. slice_split (λ b. b == 32) words.now ≡ keywords_of_length n) }
{
    match n {
        2 => Some(b"do if"),
        3 => Some(b"for int"),
        4 => Some(b"auto case char else enum goto long void"),
        5 => Some(b"break const float short union while _Bool"),
        6 => Some(b"double extern inline return signed sizeof static struct switch"),
        7 => Some(b"default typedef _Atomic"),
        8 => Some(
            b"continue register restrict unsigned volatile _Alignas _Alignof _Complex _Generic",
        ),
        9 => Some(b"_Noreturn"),
        10 => Some(b"_Imaginary"),
        13 => Some(b"_Thread_local"),
        14 => Some(b"_Static_assert"),
        _ => None,
    }
}

// Whether a text is one of the words, which blanks part.
fn is_among(text: &[u8], words: &[u8]) -> bool
    ensures { result ≡ is_among text.now words.now }
{
    words.split(|b| *b == b' ').any(|word| word == text)
}

/// One of the 44 keywords of C11.
pub fn is_keyword(text: &[u8]) -> bool
    ensures { result ≡ names.is_keyword text.now }
{
    match of_length(text.len()) {
        Some(words) => is_among(text, words),
        None => false,
    }
}
