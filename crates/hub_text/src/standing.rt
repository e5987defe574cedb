//! What stands at a place of some bytes, in one pass over them: a number, a mark, a word, a value.
//!
//! Whatever else stands there, the answer is `None`. The last byte of all is a newline, so no place is tested for the end
//! of the bytes. These functions are inlined always: the compiler would make calls of some, which cost more than they do.

ghost use Rattle.std.specs.Prelude.{◌≡◌, ◌≢◌, ◌≤◌, ◌<◌, ◌+◌, ◌-◌, ◌∷◌, ◌++◌, [], length, decimal, get_or, true, IfSome};
ghost use Rattle.std.specs.Char.{is_ascii_digit};
ghost use Rattle.hub_base.specs.declared.head.Edition.{Edition};
ghost use Rattle.hub_base.specs.Head.{has_bytes};
ghost use Rattle.hub_text.specs.Quick.{EndsLine, Stands, GoesOn, ValueStands};

use crate::values::byte_of;
use hub_base::{GREATEST_PID, GREATEST_PORT, MOST_VALUE_BYTES, Pid, Port, Value};

/// The number that this digit is, and above 9 where it is none.
#[inline(always)]
fn digit(byte: u8) -> u64
    ensures { result ≤ 9 → (is_ascii_digit byte ≡ true) × (result ≡ byte - 48) }
{
    u64::from(byte).wrapping_sub(48)
}

/// The number at this place, and the place behind it. Most have few digits, so three are read without a loop.
#[inline(always)]
pub fn number_at(bytes: &[u8], start: usize) -> Option<(u64, usize)>
    requires line { EndsLine bytes.now }
    requires start { start < length bytes.now }
    ensures { IfSome result (λ x. Stands bytes.now start (decimal x.0) x.1) }
{
    let first = digit(bytes[start]);
    if first > 9 {
        return None;
    }
    let next = digit(bytes[start + 1]);
    if next > 9 {
        return Some((first, start + 1));
    }
    // A zero leads no number.
    if first == 0 {
        return None;
    }
    let second = first * 10 + next;
    let last = digit(bytes[start + 2]);
    if last > 9 {
        return Some((second, start + 2));
    }
    longer_at(bytes, start + 3, second * 10 + last)
}

/// The number that goes on at this place, where the digits before it are this number, and the place behind it.
#[inline(always)]
fn longer_at(bytes: &[u8], start: usize, first: u64) -> Option<(u64, usize)>
    requires line { EndsLine bytes.now }
    requires start { start < length bytes.now }
    requires some { 0 < first }
    ensures { IfSome result (λ x. GoesOn bytes.now first start x.0 x.1) }
{
    let mut value = first;
    let mut end = start;
    // Two digits more do not pass the greatest of all, so one test does for both.
    while value < u64::MAX / 100 {
        let next = digit(bytes[end]);
        if next > 9 {
            return Some((value, end));
        }
        value = value * 10 + next;
        let last = digit(bytes[end + 1]);
        if last > 9 {
            return Some((value, end + 1));
        }
        value = value * 10 + last;
        end += 2;
    }
    let next = digit(bytes[end]);
    // What may pass the greatest of all is left to the slow reading: the caller finds a digit in place of a mark.
    if next > 9 || value >= u64::MAX / 10 {
        return Some((value, end));
    }
    Some((value * 10 + next, end + 1))
}

/// The same of a number up to this.
#[inline(always)]
pub fn number_up_to(most: u64, bytes: &[u8], start: usize) -> Option<(u64, usize)>
    requires line { EndsLine bytes.now }
    requires start { start < length bytes.now }
    ensures spelled { IfSome result (λ x. Stands bytes.now start (decimal x.0) x.1) }
    ensures fits { IfSome result (λ x. x.0 ≤ most) }
{
    let (number, end) = number_at(bytes, start)?;
    if number > most {
        return None;
    }
    Some((number, end))
}

/// The place behind this mark, where it stands at this place.
#[inline(always)]
pub fn behind(bytes: &[u8], start: usize, mark: u8) -> Option<usize>
    requires line { EndsLine bytes.now }
    requires start { start < length bytes.now }
    requires mark { mark ≢ 10 }
    ensures { IfSome result (λ end. Stands bytes.now start (mark ∷ []) end) }
{
    if bytes[start] == mark {
        Some(start + 1)
    } else {
        None
    }
}

/// The place behind these four bytes, where they stand at this place.
#[inline(always)]
pub fn behind_word(bytes: &[u8], start: usize, word: &[u8; 4]) -> Option<usize>
    requires start { start < length bytes.now }
    ensures { IfSome result (λ end. Stands bytes.now start word.now end) }
{
    if start + 4 >= bytes.len() {
        return None;
    }
    // As one number they are compared at once.
    let here = [
        bytes[start],
        bytes[start + 1],
        bytes[start + 2],
        bytes[start + 3],
    ];
    if u32::from_le_bytes(here) == u32::from_le_bytes(*word) {
        Some(start + 4)
    } else {
        None
    }
}

/// The place behind these eight bytes, where they stand at this place.
#[inline(always)]
pub fn behind_words(bytes: &[u8], start: usize, first: &[u8; 4], second: &[u8; 4]) -> Option<usize>
    requires { start < length bytes.now }
    ensures { IfSome result (λ end. Stands bytes.now start (first.now ++ second.now) end) }
{
    behind_word(bytes, behind_word(bytes, start, first)?, second)
}

/// The value that is bytes and stands at this place, and the place behind it.
#[inline(always)]
pub fn bytes_at(bytes: &[u8], start: usize) -> (Value, usize)
    requires line { EndsLine bytes.now }
    requires start { start < length bytes.now }
    requires mark { get_or bytes.now start 0 ≡ 35 }
    ensures { (edition : Edition) → has_bytes edition ≡ true
        → ValueStands edition bytes.now start result.0 result.1 }
{
    let first = start + 1;
    let mut places = [0; MOST_VALUE_BYTES];
    let mut len = 0;
    // Digits that are too many, or lack their second, are left there, where the caller wants another mark.
    let most = ((bytes.len() - first) / 2).min(MOST_VALUE_BYTES);
    while len < most {
        let Some(byte) = byte_of(bytes[first + 2 * len], bytes[first + 2 * len + 1]) else {
            break;
        };
        places[len] = byte;
        len += 1;
    }
    (Value::of_places(len, places), first + 2 * len)
}

/// The value that is a number and stands at this place, and the place behind it.
#[inline(always)]
pub fn num_at(bytes: &[u8], start: usize) -> Option<(Value, usize)>
    requires line { EndsLine bytes.now }
    requires start { start < length bytes.now }
    ensures { IfSome result (λ x. (edition : Edition) → ValueStands edition bytes.now start x.0 x.1) }
{
    let (number, end) = number_at(bytes, start)?;
    Some((Value::num(number), end))
}

/// The port whose number stands at this place, and the place behind it.
#[inline(always)]
pub fn port_at(bytes: &[u8], start: usize) -> Option<(Port, usize)>
    requires line { EndsLine bytes.now }
    requires start { start < length bytes.now }
    ensures spelled { IfSome result (λ x. Stands bytes.now start (decimal x.0.0) x.1) }
    ensures fits { IfSome result (λ x. x.0.0 ≤ GREATEST_PORT) }
{
    let (port, end) = number_up_to(GREATEST_PORT.into(), bytes, start)?;
    Some((Port(port as u16), end))
}

/// The process whose number stands at this place, and the place behind it.
#[inline(always)]
pub fn pid_at(bytes: &[u8], start: usize) -> Option<(Pid, usize)>
    requires line { EndsLine bytes.now }
    requires start { start < length bytes.now }
    ensures spelled { IfSome result (λ x. Stands bytes.now start (decimal x.0.0) x.1) }
    ensures fits { IfSome result (λ x. x.0.0 ≤ GREATEST_PID) }
{
    let (pid, end) = number_up_to(GREATEST_PID.into(), bytes, start)?;
    Some((Pid(pid as u8), end))
}

/// The place behind the newline, where it stands at this place.
#[inline(always)]
pub fn behind_newline(bytes: &[u8], start: usize) -> Option<usize>
    requires { start < length bytes.now }
    ensures newline { IfSome result (λ end. get_or bytes.now start 0 ≡ 10) }
    ensures end { IfSome result (λ end. end ≡ start + 1) }
{
    if bytes[start] == b'\n' {
        Some(start + 1)
    } else {
        None
    }
}
