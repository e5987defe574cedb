//! Numbers: `0`, or a digit from 1 to 9 followed by digits.

ghost use Rattle.std.specs.Prelude.{◌≡◌, ◌≤◌, ◌<◌, IfSome};
ghost use Rattle.std.specs.List.{list_all};
ghost use Rattle.std.specs.Char.{is_ascii_digit};
ghost use Rattle.hub_base.specs.Lines.{number as number_of, one_number};
ghost use Rattle.std.specs.Str.Parse.{digits_value};

/// The value of decimal digits, leading zeros among them, where it is at most `most`.
fn value_of(bytes: &[u8], most: u64) -> Option<u64>
    ensures value { result
        ≡ one_number (list_all is_ascii_digit bytes.now) (digits_value 10 bytes.now) most }
    ensures bound { IfSome result (λ n. n ≤ most) }
{
    let mut value: u64 = 0;
    for byte in bytes {
        if !byte.is_ascii_digit() {
            return None;
        }
        if value > u64::MAX / 10 {
            return None;
        }
        match (value * 10).checked_add(u64::from(*byte - b'0')) {
            Some(next) if next <= most => value = next,
            _ => return None,
        }
    }
    Some(value)
}

/// The number that the bytes spell, where it is at most `most`.
pub fn number(bytes: &[u8], most: u64) -> Option<u64>
    ensures exact { result ≡ number_of most bytes.now }
    ensures bound { IfSome result (λ n. n ≤ most) }
{
    if bytes.is_empty() || bytes.len() > 1 && bytes[0] == b'0' {
        return None;
    }
    value_of(bytes, most)
}
