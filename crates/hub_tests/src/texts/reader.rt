//! Reading entry by entry.

use super::written::write;
use crate::compare::same;
use hub_base::{Kind, TextFault};
use hub_text::{EntryPlace, Reader};
use std::process::Abort;

const TEXT: &[u8] = b"chanhub journal 3\n\
    procs 64\n\
    0 select 9 s1:2 r3 default\n\
    1 recv 4\n\
    2 send 5 6\n\
    3 exit\n\
    4 recv 0\n\
    5 close 1\n\
    0 start 3\n\
    0 reopen 1 7\n\
    6 select 0 r1 r2 s3:4\n\
    7 make 8\n\
    7 send 9 #0a\n\
    8 select 0\n\
    8 cancel 6\n";

const LINES: &[u8] = b"0 select 9 s1:2 r3 default\n\
    1 recv 4\n\
    2 send 5 6\n\
    3 exit\n\
    4 recv 0\n\
    5 close 1\n\
    0 start 3\n\
    0 reopen 1 7\n\
    6 select 0 r1 r2 s3:4\n\
    7 make 8\n\
    7 send 9 #0a\n\
    8 select 0\n\
    8 cancel 6\n";

#[test]
fn entries_are_read_into_one(rt: HostRuntime) {
    let mut written = Vec::new(rt.alloc());
    match open(TEXT) {
        Ok(mut reader) => read_all(&rt, &mut reader, &mut written),
        Err(fault) => same(&rt, Some(fault), None, "head"),
    }
    same(&rt, written.as_slice(), LINES, "lines");
}

fn open(text: &[u8]) -> Result<Reader<'_>, TextFault> {
    Reader::open(text)
}

/// Reads the thirteen entries into one place, and writes each behind what was written.
fn read_all(rt: &impl Abort, reader: &mut Reader, written: &mut Vec<u8>) {
    let mut place = EntryPlace::new();
    for number in 0..14 {
        let is_read = read_on(rt, reader, &mut place, written);
        same(rt, is_read, Ok(number < 13), number);
    }
}

/// Reads the next entry into this place, if there is one, and writes it.
fn read_on(
    rt: &impl Abort,
    reader: &mut Reader,
    place: &mut EntryPlace,
    written: &mut Vec<u8>,
) -> Result<bool, TextFault> {
    let is_read = reader.read_into(place)?;
    if is_read {
        let is_written = write(rt, written, reader.head().edition, &place.entry());
        same(rt, is_written, true, "memory");
    }
    Ok(is_read)
}

/// A text, its number of processes, and of each reading whether there is an entry, or the fault.
type Readings = (&'static [u8], u8, &'static [Result<bool, TextFault>]);

const MALFORMED: Result<bool, TextFault> = Err(TextFault {
    line: 4,
    kind: Kind::BadStep,
});

const READINGS: &[Readings] = &[
    (
        b"chanhub journal 1\nprocs 2\n1 exit\n0 exit 1\n0 exit\n",
        2,
        &[Ok(true), MALFORMED, MALFORMED],
    ),
    (
        b"chanhub journal 1\nprocs 64\n0 exit\n",
        64,
        &[Ok(true), Ok(false), Ok(false)],
    ),
];

#[test]
fn reader_stays_at_a_fault_and_at_the_end(rt: HostRuntime) {
    for (text, procs, readings) in READINGS {
        match open(text) {
            Ok(reader) => reads(&rt, reader, *procs, readings),
            Err(fault) => same(&rt, Some(fault), None, *procs),
        }
    }
}

/// Whether there is an entry more.
fn has_more(reader: &mut Reader) -> Result<bool, TextFault> {
    Ok(reader.next_entry()?.is_some())
}

/// Reads so often, and finds this.
fn reads(rt: &impl Abort, reader: Reader, procs: u8, readings: &[Result<bool, TextFault>]) {
    let mut reader = reader;
    same(rt, reader.procs(), procs, procs);
    for (place, reading) in readings.iter().enumerate() {
        same(rt, has_more(&mut reader), *reading, (procs, place));
    }
}
