//! Values that are read: a number, or behind the mark `#` the hexadecimal digits of bytes.

ghost use Rattle.std.specs.Prelude.{◌≡◌, ◌<◌, ◌⊎◌, ◌/◌, ◌%◌, ◌||◌, ◌&&◌, nat_le, true, slice_index, IfSome};
ghost use Rattle.hex.specs.Hex.{lower_digits};
ghost use Rattle.std.specs.List.{list_all};
ghost use Rattle.std.specs.Option.{option_map};
ghost use Rattle.hub_base.specs.Value.{saying};
ghost use Rattle.hub_base.specs.Lines.{bytes_value, is_hex, value_read};

use crate::numbers::number;
use hub_base::{Edition, GREATEST_VALUE, Kind, MOST_VALUE_BYTES, Value};

/// What each byte is worth as a hexadecimal digit in lower case. One that is no digit is worth 256, too much for
/// either digit of a byte.
static DIGITS: [u32; 256] = [
    256, 256, 256, 256, 256, 256, 256, 256, 256, 256, 256, 256, 256, 256, 256, 256, 256, 256, 256,
    256, 256, 256, 256, 256, 256, 256, 256, 256, 256, 256, 256, 256, 256, 256, 256, 256, 256, 256,
    256, 256, 256, 256, 256, 256, 256, 256, 256, 256, 0, 1, 2, 3, 4, 5, 6, 7, 8, 9, 256, 256, 256,
    256, 256, 256, 256, 256, 256, 256, 256, 256, 256, 256, 256, 256, 256, 256, 256, 256, 256, 256,
    256, 256, 256, 256, 256, 256, 256, 256, 256, 256, 256, 256, 256, 256, 256, 256, 256, 10, 11,
    12, 13, 14, 15, 256, 256, 256, 256, 256, 256, 256, 256, 256, 256, 256, 256, 256, 256, 256, 256,
    256, 256, 256, 256, 256, 256, 256, 256, 256, 256, 256, 256, 256, 256, 256, 256, 256, 256, 256,
    256, 256, 256, 256, 256, 256, 256, 256, 256, 256, 256, 256, 256, 256, 256, 256, 256, 256, 256,
    256, 256, 256, 256, 256, 256, 256, 256, 256, 256, 256, 256, 256, 256, 256, 256, 256, 256, 256,
    256, 256, 256, 256, 256, 256, 256, 256, 256, 256, 256, 256, 256, 256, 256, 256, 256, 256, 256,
    256, 256, 256, 256, 256, 256, 256, 256, 256, 256, 256, 256, 256, 256, 256, 256, 256, 256, 256,
    256, 256, 256, 256, 256, 256, 256, 256, 256, 256, 256, 256, 256, 256, 256, 256, 256, 256, 256,
    256, 256, 256, 256, 256, 256, 256, 256, 256, 256, 256, 256, 256, 256, 256, 256, 256, 256, 256,
    256, 256, 256, 256,
];

/// What this byte is worth as such a digit.
#[inline(always)]
fn worth_of(byte: u8) -> u32
    ensures { (result ≡ 256) ⊎ ((result < 16) × (slice_index lower_digits result ≡ byte)) }
{
    DIGITS[usize::from(byte)]
}

/// The byte whose two digits these are.
#[inline(always)]
#[tactic(auto, using(crate::proofs::HexDigits::high_digit, crate::proofs::HexDigits::low_digit))]
pub fn byte_of(high: u8, low: u8) -> Option<u8>
    ensures { IfSome result (λ b.
        (slice_index lower_digits (b / 16) ≡ high) × (slice_index lower_digits (b % 16) ≡ low)) }
{
    let byte = worth_of(high) * 16 + worth_of(low);
    if byte < 256 { Some(byte as u8) } else { None }
}

/// Whether it is a hexadecimal digit in lower case.
fn is_hex(digit: u8) -> bool
    ensures { result ≡ is_hex digit }
{
    digit.is_ascii_digit() || (b'a'..=b'f').contains(&digit)
}

/// Whether all of them are.
fn all_hex(digits: &[u8]) -> bool
    ensures { result ≡ list_all is_hex digits.now }
{
    digits.iter().all(|digit| is_hex(*digit))
}

/// The bytes that these digits spell, two digits each.
fn decode(digits: &[u8]) -> Option<Value>
    requires { list_all is_hex digits.now ≡ true }
    ensures { result ≡ option_map saying (bytes_value digits.now) }
{
    if digits.len() > 2 * MOST_VALUE_BYTES {
        return None;
    }
    let half = digits.len() / 2;
    let mut places = [0; MOST_VALUE_BYTES];
    match hex::decode_to_slice(digits, &mut places[..half]) {
        Ok(()) => Value::bytes(&places[..half]),
        Err(_odd) => None,
    }
}

/// The bytes that these digits spell, where all are digits.
fn bytes_value(digits: &[u8]) -> Option<Value>
    ensures { result ≡ option_map saying (bytes_value digits.now) }
{
    if all_hex(digits) {
        decode(digits)
    } else {
        None
    }
}

/// The value that a field spells in a journal of this edition.
pub fn read_value(edition: Edition, field: &[u8]) -> Result<Value, Kind>
    ensures { result ≡ value_read edition field.now }
{
    let value = match field.split_first() {
        Some((b'#', digits)) if edition.has_bytes() => bytes_value(digits),
        _ => number(field, GREATEST_VALUE).map(Value::num),
    };
    value.ok_or(Kind::BadNumber)
}
