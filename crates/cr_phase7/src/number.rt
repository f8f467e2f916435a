//! The forms of numbers.
ghost use Rattle.std.specs.Prelude.{◌≡◌};
ghost use Rattle.cr_phase7.specs.Numbers as spec;

use cr_base::is_digit;

// What digits a number has.
#[derive(Clone, Copy)]
pub enum Radix {
    Octal,
    Decimal,
    Hexadecimal,
}

// None, `u`, `l`, `ll`, or `u` and one of these in either order.
const INTEGER_SUFFIXES: &[u8] =
    b" u U l L ll LL ul uL ull uLL Ul UL Ull ULL lu lU llu llU Lu LU LLu LLU";

const FLOATING_SUFFIXES: &[u8] = b" f F l L";

// Whether a text is one of the words, which blanks part.
pub fn is_among(text: &[u8], words: &[u8]) -> bool
    ensures { result ≡ spec.is_among text.now words.now }
{
    words.split(|b| *b == b' ').any(|word| word == text)
}

fn is_digit_of(b: u8, radix: Radix) -> bool
    ensures { result ≡ spec.is_digit_of b radix }
{
    match radix {
        Radix::Octal => b >= b'0' && b <= b'7',
        Radix::Decimal => is_digit(b),
        Radix::Hexadecimal => is_digit(b) || (b >= b'a' && b <= b'f') || (b >= b'A' && b <= b'F'),
    }
}

// What stands behind the digits at the front.
fn after_digits(radix: Radix, text: &[u8]) -> &[u8]
    ensures { result.now ≡ spec.after_digits radix text.now }
{
    for i in 0..text.len() {
        if !is_digit_of(text[i], radix) {
            return &text[i..];
        }
    }
    b""
}

fn starts_with_digit(radix: Radix, text: &[u8]) -> bool
    ensures { result ≡ spec.starts_with_digit radix text.now }
{
    match text {
        [] => false,
        [first, ..] => is_digit_of(*first, radix),
    }
}

#[tactic(auto, unfolding(crate::specs::Numbers::integer_suffixes))]
fn is_integer_suffix(text: &[u8]) -> bool
    ensures { result ≡ spec.is_integer_suffix text.now }
{
    is_among(text, INTEGER_SUFFIXES)
}

#[tactic(auto, unfolding(crate::specs::Numbers::floating_suffixes))]
fn is_floating_suffix(text: &[u8]) -> bool
    ensures { result ≡ spec.is_floating_suffix text.now }
{
    is_among(text, FLOATING_SUFFIXES)
}

fn is_whole(radix: Radix, text: &[u8]) -> bool
    ensures { result ≡ spec.is_whole radix text.now }
{
    starts_with_digit(radix, text) && is_integer_suffix(after_digits(radix, text))
}

fn is_mark(b: u8, radix: Radix) -> bool
    ensures { result ≡ spec.is_mark b radix }
{
    match radix {
        Radix::Hexadecimal => b == b'p' || b == b'P',
        _ => b == b'e' || b == b'E',
    }
}

fn is_exponent_digits(text: &[u8]) -> bool
    ensures { result ≡ spec.is_exponent_digits text.now }
{
    starts_with_digit(Radix::Decimal, text)
        && is_floating_suffix(after_digits(Radix::Decimal, text))
}

fn is_signed_exponent(text: &[u8]) -> bool
    ensures { result ≡ spec.is_signed_exponent text.now }
{
    match text {
        [] => false,
        [first, rest @ ..] => {
            if *first == b'+' || *first == b'-' {
                is_exponent_digits(rest)
            } else {
                is_exponent_digits(text)
            }
        }
    }
}

fn is_exponent(radix: Radix, text: &[u8]) -> bool
    ensures { result ≡ spec.is_exponent radix text.now }
{
    match text {
        [] => false,
        [first, rest @ ..] => is_mark(*first, radix) && is_signed_exponent(rest),
    }
}

fn may_end(text: &[u8], radix: Radix) -> bool
    ensures { result ≡ spec.may_end text.now radix }
{
    match radix {
        Radix::Hexadecimal => false,
        _ => is_floating_suffix(text),
    }
}

fn ends_fraction(radix: Radix, text: &[u8]) -> bool
    ensures { result ≡ spec.ends_fraction radix text.now }
{
    may_end(text, radix) || is_exponent(radix, text)
}

fn is_fraction(radix: Radix, some: bool, text: &[u8]) -> bool
    ensures { result ≡ spec.is_fraction radix some text.now }
{
    match text {
        [] => false,
        [first, rest @ ..] => {
            if *first == b'.' {
                (some || starts_with_digit(radix, rest))
                    && ends_fraction(radix, after_digits(radix, rest))
            } else {
                some && is_exponent(radix, text)
            }
        }
    }
}

fn is_floating(radix: Radix, text: &[u8]) -> bool
    ensures { result ≡ spec.is_floating radix text.now }
{
    is_fraction(
        radix,
        starts_with_digit(radix, text),
        after_digits(radix, text),
    )
}

fn is_hexadecimal(text: &[u8]) -> bool
    ensures { result ≡ spec.is_hexadecimal text.now }
{
    match text {
        [] => false,
        [first, rest @ ..] => (*first == b'x' || *first == b'X')
            && (is_whole(Radix::Hexadecimal, rest) || is_floating(Radix::Hexadecimal, rest)),
    }
}

fn is_plain_integer(text: &[u8]) -> bool
    ensures { result ≡ spec.is_plain_integer text.now }
{
    match text {
        [] => false,
        [first, ..] => {
            if *first == b'0' {
                is_whole(Radix::Octal, text)
            } else {
                is_whole(Radix::Decimal, text)
            }
        }
    }
}

fn is_prefixed(text: &[u8]) -> bool
    ensures { result ≡ spec.is_prefixed text.now }
{
    match text {
        [] => false,
        [first, rest @ ..] => *first == b'0' && is_hexadecimal(rest),
    }
}

// An integer constant or a floating constant.
pub fn is_number(text: &[u8]) -> bool
    ensures { result ≡ spec.is_number text.now }
{
    is_prefixed(text) || is_plain_integer(text) || is_floating(Radix::Decimal, text)
}
