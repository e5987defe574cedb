//! Texts that are written: journals, which are read again, and events.

use crate::compare::same;
use crate::steps::entries::{SENT, Told, event_of};
use hub_base::{Edition, EntryRef, Event, Fault, Hears, Journal, NoMemory, ReadFault, Value};
use hub_text::{
    EventText, read_journal, write_entry, write_event, write_head, write_journal, write_value,
};
use std::alloc::Global;
use std::process::Abort;
use std::test::Fail;

const EVERY_LINE: &[u8] = b"chanhub journal 1\n\
    procs 64\n\
    0 make 0\n\
    255 make 4294967295\n\
    0 send 0 0\n\
    0 send 65535 18446744073709551615\n\
    9 recv 0\n\
    10 recv 65535\n\
    1 select 0\n\
    1 select 0 default\n\
    1 select 18446744073709551615 s65535:18446744073709551615\n\
    1 select 1 r0\n\
    1 select 0 s1:2 default\n\
    1 select 0 r1 default\n\
    1 select 3 s1:2 r1\n\
    1 select 0 r0 s1:1 r2 s3:3 r4 s5:5 r6 s7:7 r8 s9:9 r10 s11:11 r12 s13:13 r14 s15:15\n\
    1 select 7 r0 r0 r0 r0 r0 r0 r0 r0 r0 r0 r0 r0 r0 r0 r0 r0 default\n\
    2 close 0\n\
    2 close 65535\n\
    3 exit\n";

const SECOND_EDITION: &[u8] = b"chanhub journal 2\n\
    procs 1\n\
    0 send 1 #\n\
    1 select 0 r0 s1:#00ff r0 r0 r0 r0 r0 r0 r0 default\n\
    0 cancel 1\n\
    255 cancel 255\n";

#[test]
fn what_is_read_is_written_again(rt: HostRuntime) -> Result<(), Fail> {
    for text in [EVERY_LINE, SECOND_EDITION] {
        is_written_again(&rt, &read(rt.alloc(), text)?, text);
    }
    Ok(())
}

fn read(alloc: Global, text: &[u8]) -> Result<Journal, ReadFault> {
    read_journal(alloc, text)
}

/// The journal is written as this text, and so is its copy.
fn is_written_again<R: Abort + AllocGlobal>(rt: &R, journal: &Journal, text: &[u8]) {
    is_text(rt, rt.alloc(), journal, text);
    match copy_of(rt.alloc(), journal) {
        Ok(copy) => is_text(rt, rt.alloc(), &copy, text),
        Err(NoMemory) => same(rt, false, true, "memory"),
    }
}

/// A journal with copies of these entries.
fn copy_of(alloc: Global, journal: &Journal) -> Result<Journal, NoMemory> {
    let mut copies = Vec::new(alloc);
    for entry in journal.entries() {
        if copies.push(entry.copy()).is_err() {
            return Err(NoMemory);
        }
    }
    Ok(Journal::of(journal.edition(), journal.procs(), copies))
}

/// The journal is written so, line by line, and then as a whole behind that.
fn is_text(rt: &impl Abort, alloc: Global, journal: &Journal, text: &[u8]) {
    let mut out = Vec::new(alloc);
    same(rt, write_twice(rt, &mut out, journal), true, "memory");
    same(rt, out.get(..text.len()), Some(text), "line by line");
    same(rt, out.get(text.len()..), Some(text), "whole");
}

/// Writes the journal line by line, and then as a whole; whether memory sufficed.
fn write_twice(rt: &impl Abort, out: &mut Vec<u8>, journal: &Journal) -> bool {
    let procs = journal.procs();
    assert!(rt; 1 <= procs && procs <= 64);
    write_head(out, journal.edition(), procs).is_ok()
        && write_entries(rt, out, journal)
        && write_journal(out, journal).is_ok()
}

fn write_entries(rt: &impl Abort, out: &mut Vec<u8>, journal: &Journal) -> bool {
    let mut is_written = true;
    for entry in journal.entries() {
        is_written &= write(rt, out, journal.edition(), &entry.by_slice());
    }
    is_written
}

/// Writes an entry, which the edition must have; whether memory sufficed.
pub(super) fn write(
    rt: &impl Abort,
    out: &mut Vec<u8>,
    edition: Edition,
    entry: &EntryRef<'_>,
) -> bool {
    assert!(rt; entry.fits(edition));
    write_entry(out, edition, entry).is_ok()
}

const LINES: &[(u8, Told, &str)] = &[
    (0, Told::Made(1), "0 made 1\n"),
    (255, Told::Made(65535), "255 made 65535\n"),
    (0, SENT, "0 case 0 sent\n"),
    (1, Told::Got(7, 0), "1 case 7 got 0\n"),
    (
        2,
        Told::Got(255, 18446744073709551615),
        "2 case 255 got 18446744073709551615\n",
    ),
    (63, Told::Drained(1), "63 case 1 drained\n"),
    (64, Told::Closed(2), "64 case 2 closed\n"),
    (10, Told::Default, "10 default\n"),
    (20, Told::Done, "20 done\n"),
    (30, Told::Parked, "30 parked\n"),
    (40, Told::Stalled, "40 stalled\n"),
    (50, Told::Fault(Fault::NoProcess), "50 fault 1\n"),
    (60, Told::Fault(Fault::NoMemory), "60 fault 11\n"),
    (70, Told::Fault(Fault::NotParked), "70 fault 12\n"),
    (71, Told::Fault(Fault::InUse), "71 fault 16\n"),
    (72, Told::Fault(Fault::NotGone), "72 fault 17\n"),
    (80, Told::Cancelled, "80 cancelled\n"),
];

#[test]
fn each_event_has_its_line(rt: HostRuntime) {
    let mut out = Vec::new(rt.alloc());
    for (pid, told, line) in LINES {
        has_line(&rt, &mut out, event_of(*pid, *told), line);
    }
}

/// The event is written as this line, behind what was written.
fn has_line(rt: &impl Abort, out: &mut Vec<u8>, event: Event, line: &str) {
    let before = out.len();
    same(rt, write_event(out, &event).is_ok(), true, line);
    same(rt, out.get(before..), Some(line.as_bytes()), line);
}

#[test]
fn lines_of_events_join_into_one_text(rt: HostRuntime) -> Result<(), Fail> {
    let mut text = EventText::new(rt.alloc());
    join(&rt, &mut text)?;
    text.clear();
    write_anew(&rt, &mut text)
}

/// Three events behind a text without any.
fn join(rt: &impl Abort, text: &mut EventText) -> Result<(), Fail> {
    same(rt, text.text(), b"", "new");
    text.make_step_room()?;
    text.hear(event_of(9, Told::Parked));
    text.hear(event_of(10, Told::Got(99, 100)));
    text.hear(event_of(100, Told::Got(9, 9_999_999_999_999_999_999)));
    let expected = "9 parked\n10 case 99 got 100\n100 case 9 got 9999999999999999999\n";
    same(rt, text.text(), expected.as_bytes(), "joined");
    Ok(())
}

/// An event in a text that was cleared.
fn write_anew(rt: &impl Abort, text: &mut EventText) -> Result<(), Fail> {
    same(rt, text.text(), b"", "cleared");
    hear(text, event_of(0, Told::Stalled))?;
    same(rt, text.text(), b"0 stalled\n", "written anew");
    Ok(())
}

/// An event, for which room is made.
fn hear(text: &mut EventText, event: Event) -> Result<(), NoMemory> {
    text.make_step_room()?;
    text.hear(event);
    Ok(())
}

#[test]
fn text_of_events_grows(rt: HostRuntime) -> Result<(), Fail> {
    let longest = event_of(255, Told::Got(255, 18446744073709551615));
    let mut text = EventText::new(rt.alloc());
    for _ in 0..4000 {
        hear(&mut text, longest)?;
    }
    are_all(&rt, text.text(), b"255 case 255 got 18446744073709551615\n");
    Ok(())
}

/// The text is this line, 4,000 times.
fn are_all(rt: &impl Abort, text: &[u8], line: &[u8; 38]) {
    same(rt, text.len(), 4000 * line.len(), "length");
    for found in text.chunks(line.len()) {
        same(rt, found, line.as_slice(), "line");
    }
}

#[test]
fn values_are_written(rt: HostRuntime) -> Result<(), Fail> {
    let mut text = Vec::new(rt.alloc());
    for number in [0, 9, 10, 12_345, u64::MAX] {
        write_value(&mut text, &Value::num(number))?;
        text.push(b' ')?;
    }
    for bytes in [b"".as_slice(), b"\x00\xff", &[0xa5; 32]] {
        let value = Value::bytes(bytes).expect(&rt, "at most 32 bytes");
        write_value(&mut text, &value)?;
        text.push(b' ')?;
    }
    let wanted = b"0 9 10 12345 18446744073709551615 # #00ff \
        #a5a5a5a5a5a5a5a5a5a5a5a5a5a5a5a5a5a5a5a5a5a5a5a5a5a5a5a5a5a5a5a5 ";
    same(&rt, text.as_slice(), wanted.as_slice(), "values");
    Ok(())
}
