//! The words that are no identifiers, found by their length.
ghost use Rattle.std.specs.Prelude.{◌≡◌, ◌==◌, [], MatchOption};
ghost use Rattle.std.specs.List.{slice_split};
ghost use Rattle.cr_phase7.specs.Tokens as spec;
ghost use Rattle.cr_phase7.specs.Tokens.{words_of_length};

use crate::number::is_among;

// The keywords and the further words of this length, which blanks part.
#[tactic(auto, unfolding(crate::specs::Tokens::further_words, cr_base::specs::Names::keywords))]
fn of_length(n: usize) -> Option<&'static [u8]>
    ensures { MatchOption result (words_of_length n ≡ []) (λ words. slice_split (λ b. b == 32) words.now ≡ words_of_length n) }
{
    match n {
        2 => Some(b"do if"),
        3 => Some(b"for int"),
        4 => Some(b"auto case char else enum goto long void"),
        5 => Some(b"break const float short union while _Bool"),
        6 => Some(b"double extern inline return signed sizeof static struct switch"),
        7 => Some(b"default typedef _Atomic __asm__"),
        8 => Some(
            b"continue register restrict unsigned volatile _Alignas _Alignof _Complex _Generic __inline",
        ),
        9 => Some(b"_Noreturn __const__"),
        10 => Some(b"_Imaginary __inline__ __restrict __signed__"),
        12 => Some(b"__restrict__ __volatile__"),
        13 => Some(b"_Thread_local __attribute__ __extension__"),
        14 => Some(b"_Static_assert"),
        16 => Some(b"__builtin_va_arg"),
        17 => Some(b"__builtin_va_list"),
        18 => Some(b"__builtin_offsetof"),
        _ => None,
    }
}

// A keyword of C11, or a word that this project reads beside them.
pub fn is_word(text: &[u8]) -> bool
    ensures { result ≡ spec.is_word text.now }
{
    match of_length(text.len()) {
        Some(words) => is_among(text, words),
        None => false,
    }
}
