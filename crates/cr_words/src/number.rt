//! Numbers on the command line.
ghost use Rattle.std.specs.Prelude.{◌≡◌};
ghost use Rattle.cr_words.specs.Numbers.{number_of, digits_from};
ghost use Rattle.cr_words.specs.Numbers as spec;

use cr_base::is_digit;

// A number from 0 to 4,294,967,295, in one decimal digit or more.
pub(crate) fn number_of(text: &[u8]) -> Option<u32>
    ensures { result ≡ number_of text.now }
{
    match text {
        [] => None,
        _ => digits_of(text),
    }
}

fn digits_of(text: &[u8]) -> Option<u32>
    ensures { result ≡ digits_from 0 text.now }
{
    let mut value: u32 = 0;
    for digit in text {
        if !is_digit(*digit) {
            return None;
        }
        value = value
            .checked_mul(10)?
            .checked_add(u32::from(*digit - b'0'))?;
    }
    Some(value)
}

// Whether a text is a number in a range.
pub(crate) fn is_number_in(text: &[u8], least: u32, most: u32) -> bool
    ensures { result ≡ spec.is_number_in least most text.now }
{
    match number_of(text) {
        Some(number) => least <= number && number <= most,
        None => false,
    }
}
