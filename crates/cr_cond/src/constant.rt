//! Integer and character constants.
ghost use Rattle.std.specs.Prelude.{◌≡◌, ◌<◌, ◌≤◌, ◌+◌, ◌*◌};
ghost use Rattle.cr_cond.specs.Constants as spec;

use crate::symbol::Value;
use cr_base::{PpKind, is_digit};

const PLAIN_SUFFIXES: &[u8] = b" l L ll LL";

const UNSIGNED_SUFFIXES: &[u8] = b"u U ul uL ull uLL Ul UL Ull ULL lu lU llu llU Lu LU LLu LLU";

// What a digit of any base counts, and 16 for what is none.
fn digit(b: u8) -> u64
    ensures value { result ≡ spec.digit b }
    ensures small { result ≤ 16 }
{
    if is_digit(b) {
        u64::from(b - b'0')
    } else if b >= b'a' && b <= b'f' {
        u64::from(b - 87)
    } else if b >= b'A' && b <= b'F' {
        u64::from(b - 55)
    } else {
        16
    }
}

fn is_digit_of(base: u64, b: u8) -> bool
    ensures { result ≡ spec.is_digit_of base b }
{
    digit(b) < base
}

fn starts_with_digit(base: u64, text: &[u8]) -> bool
    ensures { result ≡ spec.starts_with_digit base text.now }
{
    match text {
        [] => false,
        [first, ..] => is_digit_of(base, *first),
    }
}

// What stands behind the digits at the front.
fn after_digits(base: u64, text: &[u8]) -> &[u8]
    ensures { result.now ≡ spec.after_digits base text.now }
{
    for i in 0..text.len() {
        if !is_digit_of(base, text[i]) {
            return &text[i..];
        }
    }
    b""
}

// A number with one more digit, where it has 64 bits.
fn with_digit(base: u64, n: u64, b: u8) -> Option<u64>
    ensures { result ≡ spec.word (n * base + spec.digit b) }
{
    match n.checked_mul(base) {
        None => None,
        Some(product) => product.checked_add(digit(b)),
    }
}

// The number that the digits at the front write, where it has 64 bits.
fn number(base: u64, text: &[u8]) -> Option<u64>
    requires { 0 < base }
    ensures { result ≡ spec.word (spec.number base 0 text.now) }
{
    let mut n = 0;
    for i in 0..text.len() {
        if !is_digit_of(base, text[i]) {
            return Some(n);
        }
        match with_digit(base, n, text[i]) {
            None => return None,
            Some(more) => n = more,
        }
    }
    Some(n)
}

// Whether a text is one of the words, which blanks part.
fn is_among(text: &[u8], words: &[u8]) -> bool
    ensures { result ≡ spec.is_among text.now words.now }
{
    words.split(|b| *b == b' ').any(|word| word == text)
}

#[tactic(auto, unfolding(crate::specs::Constants::unsigned_suffixes))]
fn is_unsigned_suffix(text: &[u8]) -> bool
    ensures { result ≡ spec.is_among text.now spec.unsigned_suffixes }
{
    is_among(text, UNSIGNED_SUFFIXES)
}

#[tactic(auto, unfolding(crate::specs::Constants::plain_suffixes))]
fn is_plain_suffix(text: &[u8]) -> bool
    ensures { result ≡ spec.is_among text.now spec.plain_suffixes }
{
    is_among(text, PLAIN_SUFFIXES)
}

fn unsigned_of(n: Option<u64>) -> Option<Value>
    ensures { result ≡ spec.unsigned_of n }
{
    match n {
        Some(n) => Some(Value::Unsigned(n)),
        None => None,
    }
}

fn plain(is_decimal: bool, n: Option<u64>) -> Option<Value>
    ensures { result ≡ spec.plain is_decimal n }
{
    match n {
        None => None,
        Some(n) => {
            if n < 1 << 63 {
                Some(Value::Signed(n.cast_signed()))
            } else if is_decimal {
                None
            } else {
                Some(Value::Unsigned(n))
            }
        }
    }
}

fn suffixed(is_decimal: bool, n: Option<u64>, suffix: &[u8]) -> Option<Value>
    ensures { result ≡ spec.suffixed is_decimal n suffix.now }
{
    if is_unsigned_suffix(suffix) {
        unsigned_of(n)
    } else if is_plain_suffix(suffix) {
        plain(is_decimal, n)
    } else {
        None
    }
}

fn integer_of(base: u64, text: &[u8]) -> Option<Value>
    requires { 0 < base }
    ensures { result ≡ spec.integer_of base text.now }
{
    if starts_with_digit(base, text) {
        suffixed(base == 10, number(base, text), after_digits(base, text))
    } else {
        None
    }
}

// An integer constant that begins with 0.
fn prefixed(text: &[u8], rest: &[u8]) -> Option<Value>
    ensures { result ≡ spec.prefixed text.now rest.now }
{
    match rest {
        [b'x' | b'X', digits @ ..] => integer_of(16, digits),
        _ => integer_of(8, text),
    }
}

fn integer(text: &[u8]) -> Option<Value>
    ensures { result ≡ spec.integer text.now }
{
    match text {
        [] => None,
        [first, rest @ ..] => {
            if *first == b'0' {
                prefixed(text, rest)
            } else {
                integer_of(10, text)
            }
        }
    }
}

// What the letter of an escape stands for.
fn simple_escape(b: u8) -> Option<u64>
    ensures { result ≡ spec.simple_escape b }
{
    match b {
        b'a' => Some(7),
        b'b' => Some(8),
        b'f' => Some(12),
        b'n' => Some(10),
        b'r' => Some(13),
        b't' => Some(9),
        b'v' => Some(11),
        b'\'' | b'"' | b'?' | b'\\' => Some(u64::from(b)),
        _ => None,
    }
}

fn is_quote(text: &[u8]) -> bool
    ensures { result ≡ spec.is_quote text.now }
{
    match text {
        [b] => *b == b'\'',
        _ => false,
    }
}

fn digits_and_quote(base: u64, text: &[u8]) -> Option<u64>
    requires { 0 < base }
    ensures { result ≡ spec.digits_and_quote base text.now }
{
    if starts_with_digit(base, text) && is_quote(after_digits(base, text)) {
        number(base, text)
    } else {
        None
    }
}

fn octal_escape(text: &[u8]) -> Option<u64>
    ensures { result ≡ spec.octal_escape text.now }
{
    if text.len() <= 4 {
        digits_and_quote(8, text)
    } else {
        None
    }
}

fn letter_escape(b: u8, rest: &[u8]) -> Option<u64>
    ensures { result ≡ spec.letter_escape b rest.now }
{
    if is_quote(rest) {
        simple_escape(b)
    } else {
        None
    }
}

// An escape and the quote, behind a backslash.
fn escape(text: &[u8]) -> Option<u64>
    ensures { result ≡ spec.escape text.now }
{
    match text {
        [] => None,
        [first, rest @ ..] => {
            if *first == b'x' {
                digits_and_quote(16, rest)
            } else if is_digit_of(8, *first) {
                octal_escape(text)
            } else {
                letter_escape(*first, rest)
            }
        }
    }
}

// One element of a character constant and the quote.
fn element(text: &[u8]) -> Option<u64>
    ensures { result ≡ spec.element text.now }
{
    match text {
        [] => None,
        [first, rest @ ..] => {
            if *first == b'\\' {
                escape(rest)
            } else if is_quote(rest) {
                Some(u64::from(*first))
            } else {
                None
            }
        }
    }
}

fn after_quote(text: &[u8]) -> &[u8]
    ensures { result.now ≡ spec.after_quote text.now }
{
    for i in 0..text.len() {
        if text[i] == b'\'' {
            return &text[i + 1..];
        }
    }
    b""
}

fn below_128(n: Option<u64>) -> Option<Value>
    ensures { result ≡ spec.below_128 n }
{
    match n {
        None => None,
        Some(n) => {
            if n < 128 {
                Some(Value::Signed(n.cast_signed()))
            } else {
                None
            }
        }
    }
}

// What a constant stands for, if it is one.
pub fn constant(kind: PpKind, text: &[u8]) -> Option<Value>
    ensures { result ≡ spec.constant kind text.now }
{
    match kind {
        PpKind::Number => integer(text),
        PpKind::Char => below_128(element(after_quote(text))),
        _ => None,
    }
}
