// Numbers of a source.
ghost use Rattle.std.specs.Prelude.{◌≡◌, ◌+◌, ◌*◌, drop};
ghost use Rattle.source_tokens.specs.Numbers.{digit_worth, if_fits, digit_added, with_digits, is_hex, magnitude_of, number_of, digit_from_one, two_digits, bits_written, width_of};

use crate::bytes::is_digit;

/// What a byte is worth as a digit of base 16; 16 if it is none.
fn digit_worth(byte: u8) -> u64
    ensures { result ≡ digit_worth byte }
{
    if is_digit(byte) {
        u64::from(byte - 48)
    } else if 97 <= byte && byte <= 102 {
        u64::from(byte - 87)
    } else if 65 <= byte && byte <= 70 {
        u64::from(byte - 55)
    } else {
        16
    }
}

/// A number with a digit behind it, if it is below 2^64.
fn longer(base: u64, number: u64, digit: u64) -> Option<u64>
    ensures { result ≡ if_fits (number * base + digit) }
{
    number.checked_mul(base)?.checked_add(digit)
}

/// A number with one more digit of that base, if it is below 2^64. `_` adds none.
fn digit_added(base: u64, number: u64, byte: u8) -> Option<u64>
    ensures { result ≡ digit_added base number byte }
{
    let digit = digit_worth(byte);
    if byte == b'_' {
        Some(number)
    } else if digit < base {
        longer(base, number, digit)
    } else {
        None
    }
}

/// A number with more digits.
fn with_digits(base: u64, number: u64, text: &[u8]) -> Option<u64>
    ensures { result ≡ with_digits base number text.now }
{
    let mut number = number;
    let mut left = text;
    while let Some((first, others)) = left.split_first() {
        number = digit_added(base, number, *first)?;
        left = others;
    }
    Some(number)
}

/// Whether a number begins with `0x` and a digit.
fn is_hex(text: &[u8]) -> bool
    ensures { result ≡ is_hex text.now }
{
    match text {
        [b'0', b'x', third, ..] => digit_worth(*third) < 16,
        _ => false,
    }
}

/// What follows the first two bytes.
fn behind_two(text: &[u8]) -> &[u8]
    ensures { result.now ≡ drop 2 text.now }
{
    match text {
        [_, _, rest @ ..] => rest,
        _ => &[],
    }
}

fn magnitude_of(text: &[u8]) -> Option<u64>
    ensures { result ≡ magnitude_of text.now }
{
    if is_hex(text) {
        with_digits(16, 0, behind_two(text))
    } else {
        with_digits(10, 0, text)
    }
}

/// The number that a lexeme is. From 2^63 on it stands for the one with a sign that has the same bits.
pub(crate) fn number_of(text: &[u8]) -> Option<i64>
    ensures { result ≡ number_of text.now }
{
    Some(magnitude_of(text)?.cast_signed())
}

/// A digit from 1 on; 0 if it is none.
fn digit_from_one(byte: u8) -> u8
    ensures { result ≡ digit_from_one byte }
{
    if 49 <= byte && byte <= 57 {
        byte - 48
    } else {
        0
    }
}

/// The number of two digits from 10 to 62; 0 if they write no such number.
fn two_digits(first: u8, second: u8) -> u8
    ensures { result ≡ two_digits first second }
{
    let tens = digit_from_one(first);
    if 0 < tens && is_digit(second) && tens * 10 + (second - 48) <= 62 {
        tens * 10 + (second - 48)
    } else {
        0
    }
}

/// The number of bits that digits write, from 1 to 62; 0 if they write none.
fn bits_written(text: &[u8]) -> u8
    ensures { result ≡ bits_written text.now }
{
    match text {
        [first] => digit_from_one(*first),
        [first, second] => two_digits(*first, *second),
        _ => 0,
    }
}

/// How many bits a width says, which is `u1` to `u62`; 0 if it is none.
pub(crate) fn width_of(text: &[u8]) -> u8
    ensures { result ≡ width_of text.now }
{
    match text.split_first() {
        Some((first, rest)) => {
            if *first == b'u' {
                bits_written(rest)
            } else {
                0
            }
        }
        None => 0,
    }
}
