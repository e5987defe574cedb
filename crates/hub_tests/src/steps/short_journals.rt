//! A hub that ends in a journal which is kept short, whether its entries were kept so before or written out.

use crate::compare::same;
use hub_base::{Edition, Entry, Events, NoMemory};
use hub_core::{ShortHub, run, write_short_journal};
use hub_text::{read_journal, write_journal};
use std::alloc::Global;
use std::process::Abort;
use std::test::Fail;

/// Each kind of step, and calls of each form; each entry is admitted.
const TEXT: &[u8] = b"chanhub journal 2\n\
    procs 3\n\
    0 make 2\n\
    0 make 0\n\
    0 send 1 7\n\
    1 select 3 s1:#00ff r2 default\n\
    2 recv 2\n\
    0 select 1 r1 s2:8\n\
    2 send 1 #0a\n\
    1 recv 2\n\
    0 cancel 1\n\
    0 close 1\n\
    0 exit\n\
    1 exit\n\
    2 exit\n";

#[test]
fn journal_is_short_whatever_was_written_out(rt: HostRuntime) -> Result<(), Fail> {
    let journal = read_journal(rt.alloc(), TEXT)?;
    let entries = journal.entries();
    for place in 0..=entries.len() {
        let (first, others) = entries.split_at(place);
        match hub_after(&rt, rt.alloc(), first, others) {
            Some(hub) => ends_in_text(&rt, rt.alloc(), hub, place),
            None => same(&rt, false, true, ("steps", place)),
        }
    }
    Ok(())
}

/// The hub that has made the first steps while its entries were written out, and then the others.
fn hub_after(
    rt: &impl Abort,
    alloc: Global,
    first: &[Entry],
    others: &[Entry],
) -> Option<ShortHub> {
    assert!(rt; Edition::Two.has_all(first));
    match run(alloc, 3, 100, Edition::Two, first) {
        Ok((hub, _events)) => makes_all(rt, hub.shortened(), others),
        Err(_fault) => None,
    }
}

/// The hub, once it has made these steps, if all are admitted.
fn makes_all(rt: &impl Abort, hub: ShortHub, entries: &[Entry]) -> Option<ShortHub> {
    let mut hub = hub;
    let mut events = Events::new();
    for entry in entries {
        assert!(rt; entry.fits(hub.head().edition));
        if hub.step_into(&entry.by_slice(), &mut events).is_err() {
            return None;
        }
    }
    Some(hub)
}

/// Its journal is written as this text, short and then written out.
fn ends_in_text(rt: &impl Abort, alloc: Global, hub: ShortHub, place: usize) {
    let mut text = Vec::new(alloc);
    same(
        rt,
        write_twice(alloc, hub, &mut text),
        Ok(()),
        ("memory", place),
    );
    same(rt, text.get(..TEXT.len()), Some(TEXT), ("short", place));
    same(rt, text.get(TEXT.len()..), Some(TEXT), ("whole", place));
}

fn write_twice(alloc: Global, hub: ShortHub, text: &mut Vec<u8>) -> Result<(), NoMemory> {
    // Its contract says what a head is.
    let _head = hub.head();
    let short = hub.into_short_journal(alloc)?;
    write_short_journal(text, &short)?;
    write_journal(text, &short.write_out(alloc)?)
}
