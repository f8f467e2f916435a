//! The options of a compiler's command, with their values.
ghost use Rattle.std.specs.Prelude.{◌≡◌, ◌≤◌, ◌++◌, ◌∷◌, List, ℕ, IfOk, OnOk, IsTrue, length, ◌==◌, ◌||◌, bytes_eq};
ghost use Rattle.cr_compdb.specs.Settings as spec;

use cr_base::{OutOfMemory, Text};
use std::alloc::Global;

// An option and its value.
#[derive(Drop)]
pub struct Setting {
    pub option: Text,
    pub value: Text,
}

impl Setting {
    // Whether it is of this option.
    pub(crate) fn is(&self, option: &[u8]) -> bool
        ensures { result ≡ bytes_eq self.now.option option.now }
    {
        self.option.bytes() == option
    }
}

const TAKES_NEXT: &[u8] = b"-I -iquote -isystem -D -U -x -include -o -MF -MT -MQ";

// The options of a list of words, in order.
pub(crate) fn settings_of(alloc: Global, words: &[Text]) -> Result<Vec<Setting>, OutOfMemory>
    ensures { IfOk result (λ settings. settings.items ≡ spec.settings_of words.now) }
{
    let mut settings = Vec::new(alloc);
    let mut waiting = None;
    for word in words {
        waiting = take_word(alloc, &mut settings, waiting, word.bytes())?;
    }
    Ok(settings)
}

// Takes one more word, and says which option waits for its value then.
fn take_word(
    alloc: Global,
    settings: &mut Vec<Setting>,
    waiting: Option<Text>,
    word: &[u8],
) -> Result<Option<Text>, OutOfMemory>
    ensures { IfOk result (λ next. (rest : List (List ℕ)) →
        settings.old.items ++ spec.settings_behind (word.now ∷ rest) waiting
        ≡ settings.new.items ++ spec.settings_behind rest next) }
{
    if let Some(option) = waiting {
        let value = Text::new(alloc, word)?;
        settings.push(Setting { option, value })?;
        return Ok(None);
    }
    if takes_next(word) {
        return Ok(Some(Text::new(alloc, word)?));
    }
    push_own(alloc, settings, word)?;
    Ok(None)
}

fn push_own(alloc: Global, settings: &mut Vec<Setting>, word: &[u8]) -> Result<(), OutOfMemory>
    ensures { OnOk result (settings.new.items ≡ settings.old.items ++ spec.own_setting word.now) }
{
    let n = name_length(word);
    if n > 0 {
        let option = Text::new(alloc, &word[..n])?;
        let value = Text::new(alloc, &word[n..])?;
        settings.push(Setting { option, value })?;
    }
    Ok(())
}

fn takes_next(word: &[u8]) -> bool
    ensures { result ≡ spec.takes_next word.now }
{
    TAKES_NEXT.split(|b| *b == b' ').any(|name| name == word)
}

// How many bytes of a word are the name of an option that takes the rest of it.
fn name_length(word: &[u8]) -> usize
    ensures value { result ≡ spec.name_length word.now }
    ensures within { result ≤ length word.now }
{
    if word.starts_with(b"-iquote") {
        7
    } else if word.starts_with(b"-isystem") {
        8
    } else if is_short(word) {
        2
    } else {
        0
    }
}

fn is_short(word: &[u8]) -> bool
    ensures value { result ≡ spec.is_short word.now }
    ensures within { IsTrue result → 2 ≤ length word.now }
{
    match word {
        [b'-', second, ..] => is_letter(*second),
        _ => false,
    }
}

fn is_letter(byte: u8) -> bool
    ensures { result ≡ (byte == 73 || byte == 68 || byte == 85 || byte == 120) }
{
    byte == b'I' || byte == b'D' || byte == b'U' || byte == b'x'
}
