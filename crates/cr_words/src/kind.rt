//! The options of the command line, and the form of their values.
ghost use Rattle.std.specs.Prelude.{◌≡◌};
ghost use Rattle.cr_words.specs.Kinds as spec;

use crate::number::is_number_in;
use crate::qualified_name::qualified_name;

/// What a word of the command line is: an option, the one plain word, or `--`.
#[derive(Clone, Copy, Debug, PartialEq, Eq)]
pub enum WordKind {
    Database,
    Offset,
    QualifiedName,
    NewName,
    Root,
    Workers,
    Retries,
    Rehearse,
    Generate,
    InPlace,
    Source,
    Separator,
}

impl WordKind {
    pub(crate) fn is(self, other: WordKind) -> bool
        ensures { result ≡ spec.same_kind self other }
    {
        self as u8 == other as u8
    }

    // Whether a text is a value of this option.
    pub(crate) fn takes(self, value: &[u8]) -> bool
        ensures { result ≡ spec.is_of_form self value.now }
    {
        match self {
            WordKind::Offset | WordKind::Rehearse => is_number_in(value, 0, u32::MAX),
            WordKind::QualifiedName => qualified_name(value).is_some(),
            WordKind::Workers => is_number_in(value, 1, 16),
            WordKind::Retries => is_number_in(value, 0, 8),
            WordKind::Generate => is_number_in(value, 1, 16384),
            _ => true,
        }
    }
}

// The option of this name that takes a value, but for `-p`.
#[tactic(auto, unfolding(crate::specs::Kinds::long_kind))]
pub(crate) fn long_kind(name: &[u8]) -> Option<WordKind>
    ensures { result ≡ spec.long_kind name.now }
{
    if name == b"--database".as_slice() {
        Some(WordKind::Database)
    } else if name == b"--offset".as_slice() {
        Some(WordKind::Offset)
    } else if name == b"--qualified-name".as_slice() {
        Some(WordKind::QualifiedName)
    } else if name == b"--new-name".as_slice() {
        Some(WordKind::NewName)
    } else if name == b"--root".as_slice() {
        Some(WordKind::Root)
    } else {
        number_kind(name)
    }
}

// The option of this name whose value is a number, but for `--offset`.
#[tactic(auto, unfolding(crate::specs::Kinds::number_kind))]
fn number_kind(name: &[u8]) -> Option<WordKind>
    ensures { result ≡ spec.number_kind name.now }
{
    if name == b"--workers".as_slice() {
        Some(WordKind::Workers)
    } else if name == b"--retries".as_slice() {
        Some(WordKind::Retries)
    } else if name == b"--rehearse".as_slice() {
        Some(WordKind::Rehearse)
    } else if name == b"--generate".as_slice() {
        Some(WordKind::Generate)
    } else {
        None
    }
}

// The option that takes the next word as its value, where the word is one.
#[tactic(auto, unfolding(crate::specs::Kinds::valued_kind))]
pub(crate) fn valued_kind(word: &[u8]) -> Option<WordKind>
    ensures { result ≡ spec.valued_kind word.now }
{
    if word == b"-p".as_slice() {
        Some(WordKind::Database)
    } else {
        long_kind(word)
    }
}

pub(crate) fn is_option(word: &[u8]) -> bool
    ensures { result ≡ spec.is_option word.now }
{
    match word {
        [first, _, ..] => *first == b'-',
        _ => false,
    }
}

pub(crate) fn begins_with_dash(word: &[u8]) -> bool
    ensures { result ≡ spec.begins_with_dash word.now }
{
    match word {
        [first, ..] => *first == b'-',
        [] => false,
    }
}
