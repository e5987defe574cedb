//! What C asks for: the values and the cases that structs say.

ghost use Rattle.std.specs.Prelude.{◌≡◌, ◌≤◌, ◌<◌, length, map, take, true};
ghost use Rattle.hub_base.specs.declared.limits.TheConstants.{CASE_PLACES, MOST_VALUE_BYTES};
ghost use Rattle.hub_base.specs.Head.{has_value};
ghost use Rattle.hub_base.specs.Value.{bytes_of};
ghost use Rattle.hub_session.specs.Structs.{are_cases_of, case_in, is_case, is_true, is_value, suits, value_in};

use crate::structs::{CaseC, ValueC};
use hub_base::{Case, Edition, MOST_VALUE_BYTES, Port, Value};

/// Whether a number that comes from C is true: any but 0 is.
#[inline(always)]
pub fn is_true(flag: u8) -> bool
    ensures { result ≡ is_true flag }
{
    flag != 0
}

/// Whether it is a value: bytes are no more than there are places for.
#[inline(always)]
pub(crate) fn is_value(value: &ValueC) -> bool
    ensures { result ≡ is_value value.now }
{
    usize::from(value.length) <= MOST_VALUE_BYTES
}

/// The bytes of a struct.
#[inline(always)]
fn bytes_in(value: &ValueC) -> &[u8]
    ensures { result.now ≡ take value.now.length value.now.bytes }
{
    &value.bytes[..usize::from(value.length).min(MOST_VALUE_BYTES)]
}

/// The value of a struct that says bytes. It is apart from a number, since a value that may be either is put together from both,
/// byte by byte.
#[inline(always)]
pub(crate) fn bytes_value(value: &ValueC) -> Value
    requires { is_true value.now.is_bytes ≡ true }
    ensures { result ≡ value_in value.now }
{
    match Value::bytes(bytes_in(value)) {
        Some(value) => value,
        None => unreachable!(),
    }
}

/// The value that a struct says.
fn value_in(value: &ValueC) -> Value
    ensures { result ≡ value_in value.now }
{
    if is_true(value.is_bytes) {
        bytes_value(value)
    } else {
        Value::num(value.number)
    }
}

/// Whether it is a case. The value of a receive is not looked at.
pub(crate) fn is_case(case: &CaseC) -> bool
    ensures { result ≡ is_case case.now }
{
    !is_true(case.sends) || is_value(&case.value)
}

/// The case that a struct says.
pub(crate) fn case_in(case: &CaseC) -> Case
    ensures { result ≡ case_in case.now }
{
    let port = Port(case.port);
    if is_true(case.sends) {
        Case::Send(port, value_in(&case.value))
    } else {
        Case::Recv(port)
    }
}

/// Whether a journal of this edition can have the value that is these bytes.
#[inline(always)]
fn has_bytes(edition: Edition, bytes: &[u8]) -> bool
    requires { length bytes.now ≤ MOST_VALUE_BYTES }
    ensures { result ≡ has_value edition (bytes_of bytes.now) }
{
    edition.has_bytes()
}

/// Whether it is a case, and one that a journal of this edition can have.
#[inline(always)]
fn suits(edition: Edition, case: &CaseC) -> bool
    ensures { result ≡ suits edition case.now }
{
    if !is_true(case.sends) {
        return true;
    }
    if !is_true(case.value.is_bytes) {
        // That every edition has numbers is told where one is made.
        let _number = Value::num(case.value.number);
        return is_value(&case.value);
    }
    is_value(&case.value) && has_bytes(edition, bytes_in(&case.value))
}

/// Puts the case that a struct says into a place. A receive is short: nothing stands in the place of a value, so none is copied;
/// and a number is written where it goes, without a way by bytes that it might have been.
#[inline(always)]
fn put_case(case: &CaseC, place: &mut Case)
    ensures { place.new ≡ case_in case.now }
{
    let port = Port(case.port);
    if !is_true(case.sends) {
        *place = Case::Recv(port);
    } else if is_true(case.value.is_bytes) {
        *place = Case::Send(port, bytes_value(&case.value));
    } else {
        *place = Case::Send(port, Value::num(case.value.number));
    }
}

/// Puts the cases that these structs say into places for them, up to the first that a journal of this edition cannot have: whether
/// there is no such case. So each struct is looked at once.
#[inline(always)]
pub(crate) fn take_cases(edition: Edition, cases: &[CaseC], places: &mut [Case]) -> bool
    requires few { length cases.now ≤ length places.old }
    requires within { length places.old ≤ CASE_PLACES }
    ensures all { result ≡ are_cases_of edition cases.now }
    ensures items { result ≡ true → take (length cases.now) places.new ≡ map case_in cases.now }
    ensures count { length places.new ≡ length places.old }
{
    for (i, case) in cases.iter().enumerate() {
        if !suits(edition, case) {
            return false;
        }
        put_case(case, &mut places[i]);
    }
    true
}
