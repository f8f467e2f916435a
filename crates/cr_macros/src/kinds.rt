//! Which texts are exactly one preprocessing token.
ghost use Rattle.std.specs.Prelude.{◌≡◌, false};
ghost use Rattle.cr_macros.specs.OneToken as spec;

use cr_base::{PpKind, is_digit, is_identifier, is_word_byte};

const PUNCTUATORS: &[u8] =
    b"[ ] ( ) { } . -> ++ -- & * + - ~ ! / % << >> < > <= >= == != ^ | && || ? : ; ... = *= /= %= += -= <<= >>= &= ^= |= , # ## <: :> <% %> %: %:%:";

fn is_exponent_sign(before: u8, byte: u8) -> bool
    ensures { result ≡ spec.is_exponent_sign before byte }
{
    (byte == b'+' || byte == b'-')
        && ((before == b'e' || before == b'E') || (before == b'p' || before == b'P'))
}

fn is_number_byte(before: u8, byte: u8) -> bool
    ensures { result ≡ spec.is_number_byte before byte }
{
    is_word_byte(byte) || (byte == b'.' || is_exponent_sign(before, byte))
}

fn are_number_bytes(first: u8, text: &[u8]) -> bool
    ensures { result ≡ spec.are_number_bytes first text.now }
{
    let mut before = first;
    for i in 0..text.len() {
        if !is_number_byte(before, text[i]) {
            return false;
        }
        before = text[i];
    }
    true
}

fn is_digit_and_more(text: &[u8]) -> bool
    ensures { result ≡ spec.is_digit_and_more text.now }
{
    match text {
        [] => false,
        [first, rest @ ..] => is_digit(*first) && are_number_bytes(*first, rest),
    }
}

fn is_number(text: &[u8]) -> bool
    ensures { result ≡ spec.is_number text.now }
{
    match text {
        [] => false,
        [first, rest @ ..] => {
            is_digit_and_more(text) || (*first == b'.' && is_digit_and_more(rest))
        }
    }
}

fn ends_with_quote(quote: u8, text: &[u8]) -> bool
    ensures { result ≡ spec.ends_with_quote quote false text.now }
{
    let mut escaped = false;
    for i in 0..text.len() {
        if !escaped && text[i] == b'\\' {
            escaped = true;
            continue;
        }
        if !escaped && text[i] == quote {
            return text[i + 1..].is_empty();
        }
        if text[i] == b'\n' {
            return false;
        }
        escaped = false;
    }
    false
}

fn begins_with(byte: u8, text: &[u8]) -> bool
    ensures { result ≡ spec.begins_with byte text.now }
{
    match text {
        [] => false,
        [first, ..] => *first == byte,
    }
}

fn is_in_quotes(quote: u8, may_be_empty: bool, text: &[u8]) -> bool
    ensures { result ≡ spec.is_in_quotes quote may_be_empty text.now }
{
    match text {
        [] => false,
        [first, rest @ ..] => {
            *first == quote
                && ((may_be_empty || !begins_with(quote, rest)) && ends_with_quote(quote, rest))
        }
    }
}

fn is_behind_letter(quote: u8, may_be_empty: bool, text: &[u8]) -> bool
    ensures { result ≡ spec.is_behind_letter quote may_be_empty text.now }
{
    match text {
        [] => false,
        [first, rest @ ..] => {
            is_in_quotes(quote, may_be_empty, text)
                || ((*first == b'L' || (*first == b'u' || *first == b'U'))
                    && is_in_quotes(quote, may_be_empty, rest))
        }
    }
}

fn is_utf8_string(text: &[u8]) -> bool
    ensures { result ≡ spec.is_utf8_string text.now }
{
    match text {
        [first, second, rest @ ..] => {
            *first == b'u' && (*second == b'8' && is_in_quotes(b'"', true, rest))
        }
        _ => false,
    }
}

/// Whether a text is exactly one string literal (C11 6.4.5).
pub fn is_string(text: &[u8]) -> bool
    ensures { result ≡ spec.is_string text.now }
{
    is_behind_letter(b'"', true, text) || is_utf8_string(text)
}

fn is_punctuator(text: &[u8]) -> bool
    ensures { result ≡ spec.is_punctuator text.now }
{
    PUNCTUATORS.split(|b| *b == b' ').any(|mark| mark == text)
}

fn is_white(byte: u8) -> bool
    ensures { result ≡ spec.is_white byte }
{
    byte == b' '
        || ((byte == b'\t' || byte == b'\n') || ((byte == 11 || byte == 12) || byte == b'\r'))
}

fn is_stray(text: &[u8]) -> bool
    ensures { result ≡ spec.is_stray text.now }
{
    match text {
        [] => false,
        [byte, rest @ ..] => rest.is_empty() && !is_white(*byte),
    }
}

/// The kind of the one preprocessing token that a text is as a whole, if it is one (C11 6.4).
pub fn one_token(text: &[u8]) -> Option<PpKind>
    ensures { result ≡ spec.one_token text.now }
{
    if is_identifier(text) {
        Some(PpKind::Ident)
    } else if is_number(text) {
        Some(PpKind::Number)
    } else if is_behind_letter(b'\'', false, text) {
        Some(PpKind::Char)
    } else if is_string(text) {
        Some(PpKind::Str)
    } else if is_punctuator(text) {
        Some(PpKind::Punct)
    } else if is_stray(text) {
        Some(PpKind::Stray)
    } else {
        None
    }
}
