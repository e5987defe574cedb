//! Fields of an entry's line, put into bytes that are there already.

ghost use Rattle.std.specs.Prelude.{◌≡◌, ◌≤◌, ◌+◌, ◌++◌, ◌∷◌, [], false, length, decimal};
ghost use Rattle.hub_base.specs.Lines.{call, call_fields, line};
ghost use Rattle.hub_base.specs.Value.{value_field};
ghost use Rattle.hub_text.specs.Writing.{Puts, spaced};

use crate::event_lines::{MOST_DIGITS, MOST_VALUE, put, put_large, put_value};
use hub_base::{Case, Pid, Port, Value};

/// The most bytes of a word before a number: ` select ` has so many.
pub(crate) const MOST_WORD: usize = 8;

/// The most bytes of a word and a number.
pub(crate) const MOST_NUMBER: usize = MOST_WORD + MOST_DIGITS;

/// The most bytes of a word, a port, a mark and a value.
pub(crate) const MOST_SEND: usize = MOST_NUMBER + 1 + MOST_VALUE;

/// The most bytes of the line of a plain send.
pub(crate) const MOST_PLAIN: usize = MOST_DIGITS + MOST_SEND + 1;

/// Puts a word and a number.
#[inline(always)]
pub(crate) fn put_number(out: &mut [u8], at: usize, word: &[u8], n: u64) -> usize
    requires few { length word.now ≤ MOST_WORD }
    requires room { at + MOST_NUMBER ≤ length out.old }
    ensures { Puts out.old out.new at (word.now ++ decimal n) MOST_NUMBER result }
{
    let end = put(out, at, word);
    put_large(out, end, n)
}

/// Puts a word, a port, a mark and a value.
#[inline(always)]
pub(crate) fn put_send(
    out: &mut [u8],
    at: usize,
    word: &[u8],
    port: Port,
    mark: u8,
    value: &Value,
) -> usize
    requires few { length word.now ≤ MOST_WORD }
    requires room { at + MOST_SEND ≤ length out.old }
    ensures { Puts out.old out.new at (word.now ++ decimal port.0 ++ mark ∷ value_field value.now) MOST_SEND result }
{
    let number = put_number(out, at, word, port.0.into());
    let end = put(out, number, &[mark]);
    put_value(out, end, value)
}

/// Puts a plain send or receive, behind a space.
#[inline(always)]
fn put_plain_step(out: &mut [u8], at: usize, case: Case) -> usize
    requires { at + MOST_SEND ≤ length out.old }
    ensures { Puts out.old out.new at (spaced (call_fields (case ∷ []) false 0)) MOST_SEND result }
{
    match case {
        Case::Send(port, value) => put_send(out, at, b" send ", port, b' ', &value),
        Case::Recv(port) => put_number(out, at, b" recv ", port.0.into()),
    }
}

/// Puts the line of a plain send or receive.
#[inline(always)]
pub(crate) fn put_plain(out: &mut [u8], pid: Pid, case: Case) -> usize
    requires { MOST_PLAIN ≤ length out.old }
    ensures { Puts out.old out.new 0 (line (record { pid = pid; step = call (case ∷ []) false 0 })) MOST_PLAIN result }
{
    let step = put_large(out, 0, pid.0.into());
    let end = put_plain_step(out, step, case);
    put(out, end, b"\n")
}
