//! Values, cases, and the numbers and texts of faults and of what is wrong with a line.

use crate::compare::{has_text, same};
use hub_base::{Case, Cases, Edition, Fault, Kind, Port, Value, cases_from, copy_cases};
use std::alloc::Global;
use std::process::Abort;

#[test]
fn values_are_numbers(rt: HostRuntime) {
    for number in [0, 7, u64::MAX] {
        same(&rt, Value::num(number).as_num(), Some(number), number);
        same(&rt, Value::num_at_once(number), Value::num(number), number);
    }
}

#[test]
fn values_are_bytes(rt: HostRuntime) {
    let most: [u8; 32] = *b"an even number of bytes, all 32.";
    for bytes in [b"".as_slice(), b"\x00", b"\x00\xff", &most] {
        match Value::bytes(bytes) {
            Some(value) => is_bytes(&rt, value, bytes),
            None => same(&rt, None, Some(bytes), "value"),
        }
    }
    same(&rt, Value::bytes(&[0; 33]), None, "33 bytes");
}

#[test]
fn places_are_bytes(rt: HostRuntime) {
    same(
        &rt,
        Some(Value::of_places(0, [0; 32])),
        Value::bytes(b""),
        "no bytes",
    );
    let most: [u8; 32] = *b"an even number of bytes, all 32.";
    same(
        &rt,
        Some(Value::of_places(32, most)),
        Value::bytes(&most),
        "all bytes",
    );
}

/// The value shows these bytes and no number, and is one of the second edition.
fn is_bytes(rt: &impl Abort, value: Value, bytes: &[u8]) {
    let fits = (value.fits(Edition::One), value.fits(Edition::Two));
    let found = (value.as_num(), usize::from(value.len()), fits);
    same(rt, found, (None, bytes.len(), (false, true)), bytes);
    for i in 0..=value.len() {
        same(rt, value.byte(i), bytes.get(usize::from(i)).copied(), i);
    }
    same(rt, Value::bytes(bytes), Some(value), bytes);
}

#[test]
fn a_number_has_no_bytes(rt: HostRuntime) {
    let value = Value::num(7);
    let found = (value.len(), value.byte(0), value.fits(Edition::One));
    same(
        &rt,
        found,
        (0, None, true),
        "length, first byte, first edition",
    );
    let bytes = Value::bytes(&[7, 0, 0, 0, 0, 0, 0, 0]);
    let is_equal = (Some(value) == bytes, Value::default() == Value::num(0));
    same(&rt, is_equal, (false, true), "number and bytes, default");
}

#[test]
fn cases_are_copied_in_order(rt: HostRuntime) {
    let mut cases = Cases::new();
    cases.push(Case::Send(Port(1), Value::num(2)));
    cases.push(Case::Recv(Port(3)));
    same(
        &rt,
        copy_cases(&cases).as_slice(),
        cases.as_slice(),
        "cases",
    );
    same(
        &rt,
        cases_from(&[Case::Send(Port(1), Value::num(2)), Case::Recv(Port(3))]).as_slice(),
        cases.as_slice(),
        "a list of cases",
    );
}

/// What has a number and a text.
#[derive(Clone, Copy)]
enum Bad {
    /// A step that has no effect.
    Step(Fault),
    /// A line of a journal that is not read.
    Line(Kind),
}

const BAD: &[(Bad, u8, &str)] = &[
    (Bad::Step(Fault::NoProcess), 1, "no such process"),
    (Bad::Step(Fault::Gone), 2, "the process has exited"),
    (Bad::Step(Fault::Busy), 3, "the process has an open call"),
    (Bad::Step(Fault::TooManyCases), 4, "too many cases"),
    (Bad::Step(Fault::NoPort), 5, "no such port"),
    (Bad::Step(Fault::BadCap), 6, "the capacity is too large"),
    (Bad::Step(Fault::TooManyPorts), 7, "too many ports"),
    (Bad::Step(Fault::NilClose), 8, "close of the nil port"),
    (Bad::Step(Fault::AlreadyClosed), 9, "close of a closed port"),
    (Bad::Step(Fault::JournalFull), 10, "the journal is full"),
    (Bad::Step(Fault::NoMemory), 11, "out of memory"),
    (Bad::Step(Fault::NotParked), 12, "no open call"),
    (Bad::Step(Fault::InUse), 16, "the port is in use"),
    (Bad::Step(Fault::NotGone), 17, "the process has not exited"),
    (Bad::Line(Kind::BadHeader), 1, "bad header"),
    (Bad::Line(Kind::BadProcs), 2, "bad procs"),
    (Bad::Line(Kind::BadStep), 3, "bad step"),
    (Bad::Line(Kind::BadNumber), 4, "bad number"),
    (Bad::Line(Kind::CutLine), 5, "cut line"),
    (Bad::Line(Kind::TooLong), 6, "too long"),
];

#[test]
fn what_is_wrong_has_its_number_and_text(rt: HostRuntime) {
    for (bad, number, text) in BAD {
        is_told_so(&rt, rt.alloc(), *bad, *number, text);
    }
}

fn is_told_so(rt: &impl Abort, alloc: Global, bad: Bad, number: u8, text: &str) {
    match bad {
        Bad::Step(fault) => {
            same(rt, fault.number(), number, text);
            has_text(rt, alloc, fault, text);
        }
        Bad::Line(kind) => same(rt, (kind.number(), kind.text()), (number, text), text),
    }
}
