//! The line of an event, put into bytes that are there already.
//!
//! Each function puts its piece at a place, behind the bytes before it, and tells where it ends. What lies behind
//! that is no part of the text.

ghost use Rattle.std.specs.Prelude.{◌≡◌, ◌+◌, ◌*◌, ◌≤◌, ◌<◌, ◌++◌, ◌∷◌, length, take, decimal};
ghost use Rattle.std.specs.List.{flat_map};
ghost use Rattle.hub_base.specs.declared.event.What.TheVariants as what;
ghost use Rattle.hub_base.specs.EventText.{event_line, what_text, outcome_text};
ghost use Rattle.hex.specs.Hex.{encode_lower};
ghost use Rattle.hub_base.specs.Value.{bytes_in, content, value_field};
ghost use Rattle.hub_text.specs.Writing.{Puts, pair, four};

use crate::limits::MOST_LINE;
use hub_base::{Event, Fault, MOST_VALUE_BYTES, Outcome, Port, Value, What};

/// The most digits of a number of 8 bits.
const MOST_SMALL: usize = 3;

/// The most digits of a number of 64 bits.
pub(crate) const MOST_DIGITS: usize = 20;

/// The most bytes of a value: `#`, and two digits for each byte that it is.
pub(crate) const MOST_VALUE: usize = 1 + 2 * MOST_VALUE_BYTES;

/// The most bytes of how a communication ended: ` got ` and a value.
const MOST_OUTCOME: usize = 70;

/// The most bytes of what a process is told: ` case `, a number, and how a communication ended.
const MOST_WHAT: usize = 79;

/// The digits of the numbers below 100, two each.
static PAIRS: [u8; 200] =
    *b"0001020304050607080910111213141516171819202122232425262728293031323334353637383940414243444546474849\
      5051525354555657585960616263646566676869707172737475767778798081828384858687888990919293949596979899";

/// Puts these bytes. Few bytes of a known number become a store or two, which a copy would not.
#[inline(always)]
pub(crate) fn put(out: &mut [u8], at: usize, bytes: &[u8]) -> usize
    requires { at + length bytes.now ≤ length out.old }
    ensures { Puts out.old out.new at bytes.now (length bytes.now) result }
{
    for i in 0..bytes.len() {
        out[at + i] = bytes[i];
    }
    at + bytes.len()
}

/// Puts two digits.
#[inline(always)]
fn put_pair(out: &mut [u8], at: usize, n: u64) -> usize
    requires below { n < 100 }
    requires room { at + 2 ≤ length out.old }
    ensures { Puts out.old out.new at (pair n) 2 result }
{
    let place = n as usize * 2;
    put(out, at, &[PAIRS[place], PAIRS[place + 1]])
}

/// Puts a number of one or two digits.
#[inline(always)]
fn put_first(out: &mut [u8], at: usize, n: u64) -> usize
    requires below { n < 100 }
    requires room { at + 2 ≤ length out.old }
    ensures { Puts out.old out.new at (decimal n) 2 result }
{
    if n >= 10 {
        return put_pair(out, at, n);
    }
    put(out, at, &[b'0' + n as u8])
}

/// Puts a number of up to four digits.
#[inline(always)]
fn put_short(out: &mut [u8], at: usize, n: u64) -> usize
    requires below { n < 10000 }
    requires room { at + 4 ≤ length out.old }
    ensures { Puts out.old out.new at (decimal n) 4 result }
{
    if n < 100 {
        put_first(out, at, n)
    } else {
        let end = put_first(out, at, n / 100);
        put_pair(out, end, n % 100)
    }
}

/// Puts four digits.
#[inline(always)]
fn put_four(out: &mut [u8], at: usize, n: u64) -> usize
    requires below { n < 10000 }
    requires room { at + 4 ≤ length out.old }
    ensures { Puts out.old out.new at (four n) 4 result }
{
    let end = put_pair(out, at, n / 100);
    put_pair(out, end, n % 100)
}

/// Puts a number of more than four digits.
#[inline(never)]
fn put_longer(out: &mut [u8], at: usize, n: u64) -> usize
    requires above { 10000 ≤ n }
    requires room { at + MOST_DIGITS ≤ length out.old }
    ensures { Puts out.old out.new at (decimal n) MOST_DIGITS result }
{
    if n < 100_000_000 {
        let end = put_short(out, at, n / 10_000);
        put_four(out, end, n % 10_000)
    } else {
        put_long(out, at, n)
    }
}

/// Puts a number of more than eight digits.
#[inline(never)]
fn put_long(out: &mut [u8], at: usize, n: u64) -> usize
    requires above { 100000000 ≤ n }
    requires room { at + MOST_DIGITS ≤ length out.old }
    ensures { Puts out.old out.new at (decimal n) MOST_DIGITS result }
{
    let first = n / 100_000_000;
    // Values of 64 bits have mostly more than sixteen digits, so that is asked first.
    let end = if first >= 100_000_000 {
        let end = put_short(out, at, first / 100_000_000);
        let middle = first % 100_000_000;
        let end = put_four(out, end, middle / 10_000);
        put_four(out, end, middle % 10_000)
    } else if first >= 10_000 {
        let end = put_short(out, at, first / 10_000);
        put_four(out, end, first % 10_000)
    } else {
        put_short(out, at, first)
    };
    let last = n % 100_000_000;
    let end = put_four(out, end, last / 10_000);
    put_four(out, end, last % 10_000)
}

/// Puts a number of up to 64 bits.
#[inline(always)]
pub(crate) fn put_large(out: &mut [u8], at: usize, n: u64) -> usize
    requires { at + MOST_DIGITS ≤ length out.old }
    ensures { Puts out.old out.new at (decimal n) MOST_DIGITS result }
{
    if n < 10_000 {
        put_short(out, at, n)
    } else {
        put_longer(out, at, n)
    }
}

/// Puts a number of 8 bits that has three digits. Few have.
#[inline(never)]
#[tactic(auto, using(crate::proofs::Puts::puts_hundreds))]
fn put_hundreds(out: &mut [u8], at: usize, n: u8) -> usize
    requires above { 100 ≤ n }
    requires room { at + MOST_SMALL ≤ length out.old }
    ensures { Puts out.old out.new at (decimal n) MOST_SMALL result }
{
    let end = put(out, at, &[b'0' + n / 100]);
    put_pair(out, end, (n % 100).into())
}

/// Puts a number of 8 bits. Most have one digit, which is tried first.
#[inline(always)]
#[tactic(auto, using(std::proofs::lemmas::Fmt::decimal_digit, itoa::proofs::Decimal::decimal_two))]
fn put_small(out: &mut [u8], at: usize, n: u8) -> usize
    requires { at + MOST_SMALL ≤ length out.old }
    ensures { Puts out.old out.new at (decimal n) MOST_SMALL result }
{
    if n < 10 {
        put(out, at, &[b'0' + n])
    } else if n < 100 {
        put_pair(out, at, n.into())
    } else {
        put_hundreds(out, at, n)
    }
}

/// Puts a value that is bytes. Most are numbers.
#[inline(never)]
pub fn put_bytes(out: &mut [u8], at: usize, value: &Value) -> usize
    requires { at + MOST_VALUE ≤ length out.old }
    ensures { Puts out.old out.new at (35 ∷ encode_lower (bytes_in (content value.now))) MOST_VALUE result }
{
    let bytes = value.as_bytes();
    let first = put(out, at, b"#");
    let end = first + 2 * bytes.len();
    match hex::encode_to_slice(bytes, &mut out[first..end]) {
        Ok(()) => end,
        Err(_other_length) => unreachable!(),
    }
}

/// Puts a value.
#[inline(always)]
pub(crate) fn put_value(out: &mut [u8], at: usize, value: &Value) -> usize
    requires { at + MOST_VALUE ≤ length out.old }
    ensures { Puts out.old out.new at (value_field value.now) MOST_VALUE result }
{
    match value.as_num() {
        Some(number) => put_large(out, at, number),
        // A copy is what is passed on, so that a number need not lie in memory.
        None => {
            let copy = *value;
            put_bytes(out, at, &copy)
        }
    }
}

/// Puts how a communication ended, behind a space.
#[inline(always)]
fn put_outcome(out: &mut [u8], at: usize, outcome: &Outcome) -> usize
    requires { at + MOST_OUTCOME ≤ length out.old }
    ensures { Puts out.old out.new at (outcome_text outcome.now) MOST_OUTCOME result }
{
    match outcome {
        Outcome::Sent => put(out, at, b" sent"),
        Outcome::Got(value) => {
            let end = put(out, at, b" got ");
            put_value(out, end, value)
        }
        Outcome::Drained => put(out, at, b" drained"),
        Outcome::Closed => put(out, at, b" closed"),
    }
}

/// Puts that this port was made, behind a space.
#[inline(never)]
fn put_made(out: &mut [u8], at: usize, port: Port) -> usize
    requires { at + MOST_WHAT ≤ length out.old }
    ensures { Puts out.old out.new at (what_text (what.Made port)) MOST_WHAT result }
{
    let end = put(out, at, b" made ");
    put_large(out, end, port.0.into())
}

/// Puts this fault, behind a space.
#[inline(never)]
fn put_fault(out: &mut [u8], at: usize, fault: Fault) -> usize
    requires { at + MOST_WHAT ≤ length out.old }
    ensures { Puts out.old out.new at (what_text (what.Fault fault)) MOST_WHAT result }
{
    let end = put(out, at, b" fault ");
    put_small(out, end, fault.number())
}

/// Puts what a process is told, behind a space. What is rare stands apart, so that this can be written into each place
/// where something is told: there most of it is known.
#[inline(always)]
fn put_what(out: &mut [u8], at: usize, what: &What) -> usize
    requires { at + MOST_WHAT ≤ length out.old }
    ensures { Puts out.old out.new at (what_text what.now) MOST_WHAT result }
{
    match what {
        What::Made(port) => put_made(out, at, *port),
        What::Fired { case, outcome } => {
            let word = put(out, at, b" case ");
            let end = put_small(out, word, *case);
            put_outcome(out, end, outcome)
        }
        What::Default => put(out, at, b" default"),
        What::Done => put(out, at, b" done"),
        What::Parked => put(out, at, b" parked"),
        What::Stalled => put(out, at, b" stalled"),
        What::Fault(fault) => put_fault(out, at, *fault),
        What::Cancelled => put(out, at, b" cancelled"),
    }
}

/// Puts a line.
#[inline(always)]
pub fn put_event(out: &mut [u8], at: usize, event: &Event) -> usize
    requires { at + MOST_LINE ≤ length out.old }
    ensures { Puts out.old out.new at (event_line event.now) MOST_LINE result }
{
    let pid = put_small(out, at, event.pid.0);
    let what = put_what(out, pid, &event.what);
    put(out, what, b"\n")
}
