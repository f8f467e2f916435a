//! The words of the command line, each option with its value.
ghost use Rattle.std.specs.Prelude.{◌≡◌, ◌++◌, ◌∷◌, [], List, ℕ, map, take, string_bytes, IfOk, OnOk};
ghost use Rattle.std.specs.Option.{option_map};
ghost use Rattle.std.specs.List.{list_any};
ghost use Rattle.cr_words.specs.Givens as spec;
ghost use Rattle.cr_words.specs.Seen.{given_of, reading_of};

use crate::kind::{WordKind, begins_with_dash, is_option, long_kind, valued_kind};
use crate::text::position_of;
use cr_base::OutOfMemory;
use std::alloc::Global;

// An option or a plain word, with its value.
#[derive(Clone, Copy)]
pub(crate) struct Setting<'a> {
    pub kind: WordKind,
    pub value: &'a [u8],
}

// A word, and what it sets, if it is right.
#[derive(Clone, Copy)]
pub(crate) struct Given<'a> {
    pub word: &'a [u8],
    pub setting: Option<Setting<'a>>,
}

// How the next word is read.
#[derive(Clone, Copy)]
enum Reading<'a> {
    Open,
    Waiting(&'a [u8]),
    Plain,
    Ended,
}

impl<'a> Given<'a> {
    fn new(word: &'a [u8], kind: Option<WordKind>, value: &'a [u8]) -> Given<'a>
        ensures { given_of result ≡ spec.given word.now kind value.now }
    {
        let setting = match kind {
            Some(kind) if kind.takes(value) => Some(Setting { kind, value }),
            _ => None,
        };
        Given { word, setting }
    }

    pub(crate) fn is(&self, kind: WordKind) -> bool
        ensures { result ≡ spec.is_of kind (given_of self.now) }
    {
        match self.setting {
            Some(setting) => setting.kind.is(kind),
            None => false,
        }
    }
}

// The words with their values, in order. Behind an option without its value none are read.
pub(crate) fn givens<'a>(alloc: Global, words: &'a [String]) -> Result<Vec<Given<'a>>, OutOfMemory>
    ensures { IfOk result (λ givens. map given_of givens.items ≡ spec.givens (map string_bytes words.now)) }
{
    let mut givens = Vec::new(alloc);
    let mut reading = Reading::Open;
    for word in words {
        reading = take_word(&mut givens, reading, word.as_bytes())?;
    }
    if let Reading::Waiting(option) = reading {
        givens.push(Given::new(option, None, b""))?;
    }
    Ok(givens)
}

fn take_word<'a>(
    givens: &mut Vec<Given<'a>>,
    reading: Reading<'a>,
    word: &'a [u8],
) -> Result<Reading<'a>, OutOfMemory>
    ensures { IfOk result (λ next. (rest : List (List ℕ)) →
        map given_of givens.old.items ++ spec.givens_behind (word.now ∷ rest) (reading_of reading.entry)
        ≡ map given_of givens.new.items ++ spec.givens_behind rest (reading_of next)) }
{
    match reading {
        Reading::Open => take_open(givens, word),
        Reading::Waiting(option) => take_value(givens, option, word),
        Reading::Plain => {
            givens.push(Given::new(word, Some(WordKind::Source), word))?;
            Ok(Reading::Plain)
        }
        Reading::Ended => Ok(Reading::Ended),
    }
}

fn take_value<'a>(
    givens: &mut Vec<Given<'a>>,
    option: &'a [u8],
    word: &'a [u8],
) -> Result<Reading<'a>, OutOfMemory>
    ensures { IfOk result (λ next. (rest : List (List ℕ)) →
        map given_of givens.old.items ++ spec.valued option.now (word.now ∷ rest)
        ≡ map given_of givens.new.items ++ spec.givens_behind rest (reading_of next)) }
{
    if begins_with_dash(word) {
        givens.push(Given::new(option, None, b""))?;
        return Ok(Reading::Ended);
    }
    givens.push(Given::new(option, valued_kind(option), word))?;
    Ok(Reading::Open)
}

fn take_open<'a>(givens: &mut Vec<Given<'a>>, word: &'a [u8]) -> Result<Reading<'a>, OutOfMemory>
    ensures { IfOk result (λ next. (rest : List (List ℕ)) →
        map given_of givens.old.items ++ spec.givens (word.now ∷ rest)
        ≡ map given_of givens.new.items ++ spec.givens_behind rest (reading_of next)) }
{
    if word == b"--".as_slice() {
        givens.push(Given::new(word, Some(WordKind::Separator), b""))?;
        return Ok(Reading::Plain);
    }
    if valued_kind(word).is_some() {
        return Ok(Reading::Waiting(word));
    }
    givens.push(whole_word(word))?;
    Ok(Reading::Open)
}

// A plain word, `-i`, or an option with its value behind `=`.
fn whole_word(word: &[u8]) -> Given<'_>
    ensures { given_of result ≡ spec.whole_word word.now }
{
    if !is_option(word) {
        return Given::new(word, Some(WordKind::Source), word);
    }
    if word == b"-i".as_slice() {
        return Given::new(word, Some(WordKind::InPlace), b"");
    }
    match position_of(word, b'=') {
        Some(end) => Given::new(word, long_kind(&word[..end]), &word[end + 1..]),
        None => Given::new(word, None, b""),
    }
}

// The first word that is wrong, or is given a second time.
pub(crate) fn first_fault<'a>(givens: &[Given<'a>]) -> Option<&'a [u8]>
    ensures { option_map (λ word. word.now) result ≡ spec.first_fault [] (map given_of givens.now) }
{
    for (n, given) in givens.iter().enumerate() {
        if is_fault(&givens[..n], given) {
            return Some(given.word);
        }
    }
    None
}

fn is_fault(before: &[Given<'_>], given: &Given<'_>) -> bool
    ensures { result ≡ spec.is_fault (map given_of before.now) (given_of given.now) }
{
    match given.setting {
        Some(setting) => is_given(before, setting.kind),
        None => true,
    }
}

// Whether an option or a plain word is among the words.
pub(crate) fn is_given(givens: &[Given<'_>], kind: WordKind) -> bool
    ensures { result ≡ list_any (spec.is_of kind) (map given_of givens.now) }
{
    givens.iter().any(|given| given.is(kind))
}

// The value of an option, or the plain word.
pub(crate) fn value_of<'a>(givens: &[Given<'a>], kind: WordKind) -> Option<&'a [u8]>
    ensures { option_map (λ value. value.now) result ≡ spec.value_of kind (map given_of givens.now) }
{
    for given in givens {
        if let Some(setting) = given.setting {
            if setting.kind.is(kind) {
                return Some(setting.value);
            }
        }
    }
    None
}
