//! Words that rules of binding speak of.
ghost use Rattle.std.specs.Prelude.{◌≡◌, ℕ, map, bytes_eq};
ghost use Rattle.std.specs.Map.{lookup};
ghost use Rattle.cr_binding.specs.Source.{Source, is_built_in};
ghost use Rattle.cr_binding.specs.State.{State};
ghost use Rattle.cr_binding.specs.Specifying.{specifier_words, read_in};
ghost use Rattle.cr_binding.specs.Expressions.{is_function_name};
ghost use Rattle.cr_decl.specs.Specifiers.{is_basic};
ghost use Rattle.cr_bound.specs.Words.{read_by};

use cr_decl::SpecWord;
use cr_grammar::NonTerm;

// What the tokens of a node say: a specifier each, the keyword of a tag, or nothing by themselves.
#[derive(Clone, Copy)]
pub(crate) enum Reading {
    Specifier,
    Keyword,
    Nothing,
}

pub(crate) fn reads(node: NonTerm) -> Reading
    ensures { (t : Source) (i : ℕ) (s : State) → read_in node t i s ≡ read_by result t i s }
{
    match node {
        NonTerm::Mod | NonTerm::Specs0 | NonTerm::SpecsB => Reading::Specifier,
        NonTerm::Rec | NonTerm::Enum => Reading::Keyword,
        _ => Reading::Nothing,
    }
}

// The specifiers, with the words in double underscores that mean them (our own rule).
const WORDS: &[(&[u8], SpecWord)] = &[
    (b"typedef", SpecWord::Typedef),
    (b"extern", SpecWord::Extern),
    (b"static", SpecWord::Static),
    (b"auto", SpecWord::Auto),
    (b"register", SpecWord::Register),
    (b"_Thread_local", SpecWord::ThreadLocal),
    (b"void", SpecWord::Void),
    (b"char", SpecWord::Char),
    (b"short", SpecWord::Short),
    (b"int", SpecWord::Int),
    (b"long", SpecWord::Long),
    (b"float", SpecWord::Float),
    (b"double", SpecWord::Double),
    (b"signed", SpecWord::Signed),
    (b"__signed__", SpecWord::Signed),
    (b"unsigned", SpecWord::Unsigned),
    (b"_Bool", SpecWord::Bool),
    (b"_Complex", SpecWord::Complex),
    (b"__builtin_va_list", SpecWord::VaList),
    (b"_Atomic", SpecWord::Atomic),
    (b"struct", SpecWord::Struct),
    (b"union", SpecWord::Union),
    (b"enum", SpecWord::Enum),
];

fn words() -> &'static [(&'static [u8], SpecWord)]
    ensures { map (λ r. (r.0.now, r.1)) result.now ≡ specifier_words }
{
    WORDS
}

// The specifier of a spelling among some.
fn specifier_among(words: &[(&[u8], SpecWord)], text: &[u8]) -> Option<SpecWord>
    ensures { result ≡ lookup (bytes_eq text.now) (map (λ r. (r.0.now, r.1)) words.now) }
{
    for (word, specifier) in words {
        if text == *word {
            return Some(*specifier);
        }
    }
    None
}

/// The specifier of a spelling, if it is one (C11 6.7.1, 6.7.2). Words in double underscores mean the keywords inside them:
/// our own rule.
pub fn specifier(text: &[u8]) -> Option<SpecWord>
    ensures { result ≡ lookup (bytes_eq text.now) specifier_words }
{
    specifier_among(words(), text)
}

// Whether a specifier names a type by itself.
pub(crate) fn is_basic(word: SpecWord) -> bool
    ensures { result ≡ is_basic word }
{
    matches!(
        word,
        SpecWord::Void
            | SpecWord::Char
            | SpecWord::Short
            | SpecWord::Int
            | SpecWord::Long
            | SpecWord::Float
            | SpecWord::Double
            | SpecWord::Signed
            | SpecWord::Unsigned
            | SpecWord::Bool
            | SpecWord::Complex
            | SpecWord::VaList
    )
}

// `__func__`, and what compilers take for it (C11 6.4.2.2).
pub(crate) fn is_function_name(text: &[u8]) -> bool
    ensures { result ≡ is_function_name text.now }
{
    text == b"__func__".as_slice() || text == b"__FUNCTION__".as_slice()
}

// What the compiler supplies when it is called without a declaration (our own rule).
pub(crate) fn is_built_in(text: &[u8]) -> bool
    ensures { result ≡ is_built_in text.now }
{
    text.starts_with(b"__builtin_")
}
