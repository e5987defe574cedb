//! What a story tells of a port: which call passed a value to which, how full it was, and who stalled.

use crate::compare::same;
use hub_base::{MOST_PROCS, Pid, Port, Value};
use hub_core::{ShortJournal, read_short_journal};
use hub_story::{Level, Passage, Story, Told, story_of};
use std::alloc::Global;
use std::process::Abort;
use std::test::Fail;

/// Two values through the buffer, one from hand to hand, and three receives that nobody answers.
const TEXT: &[u8] = b"chanhub journal 2\n\
    procs 3\n\
    0 make 2\n\
    0 send 1 7\n\
    0 send 1 #0a\n\
    1 recv 1\n\
    2 recv 1\n\
    1 recv 1\n\
    0 send 1 8\n\
    2 recv 1\n\
    1 recv 1\n\
    0 recv 1\n";

/// The story of a journal that is known to have a head and few entries.
fn story(rt: &impl Abort, alloc: Global, journal: &ShortJournal) -> Result<Story, Fail> {
    let procs = journal.head().procs;
    assert!(rt; 1 <= procs && usize::from(procs) <= MOST_PROCS && journal.entries().len() < 100);
    Ok(story_of(alloc, journal)?)
}

/// From which entry to which a value passed, and the value; `None` behind the last passage.
fn passage(passages: &[Passage], place: usize) -> Option<(u32, u32, Value)> {
    let passage = passages.get(place)?;
    let (sent, received) = (passage.sent, passage.received);
    Some((sent.told.asked, received.told.asked, received.value))
}

/// The process that was told, and of which entry; `None` behind the last.
fn told(all: &[Told], place: usize) -> Option<(Pid, u32)> {
    let told = all.get(place)?;
    Some((told.event.pid, told.asked))
}

#[test]
fn values_pass_from_sends_to_receives(rt: HostRuntime) -> Result<(), Fail> {
    let journal = read_short_journal(rt.alloc(), TEXT)?;
    let story = story(&rt, rt.alloc(), &journal)?;
    let passages = story.passages(rt.alloc(), &journal, Port(1))?;
    let bytes = Value::bytes(b"\x0a").expect(&rt, "a byte");
    let wanted = [(1, 3, Value::num(7)), (2, 4, bytes), (6, 5, Value::num(8))];
    for place in 0..wanted.len() {
        same(
            &rt,
            passage(&passages, place),
            Some(wanted[place]),
            ("passage", place),
        );
    }
    same(&rt, passages.len(), 3, "passages");
    Ok(())
}

#[test]
fn level_is_what_was_sent_and_received(rt: HostRuntime) -> Result<(), Fail> {
    let journal = read_short_journal(rt.alloc(), TEXT)?;
    let story = story(&rt, rt.alloc(), &journal)?;
    for (count, wanted) in [
        (1, (0, 0)),
        (3, (2, 0)),
        (4, (2, 1)),
        (7, (3, 3)),
        (10, (3, 3)),
    ] {
        let Level { sent, received } = story.level(&journal, Port(1), count);
        same(&rt, (sent, received), wanted, ("entries", count));
    }
    let Level { sent, received } = story.level(&journal, Port(2), 10);
    same(&rt, (sent, received), (0, 0), "a port that nobody made");
    Ok(())
}

#[test]
fn stalled_calls_are_told_by_arrival(rt: HostRuntime) -> Result<(), Fail> {
    let journal = read_short_journal(rt.alloc(), TEXT)?;
    let story = story(&rt, rt.alloc(), &journal)?;
    let stalled = story.stalled_by(rt.alloc(), 9)?;
    let found = [
        told(&stalled, 0),
        told(&stalled, 1),
        told(&stalled, 2),
        told(&stalled, 3),
    ];
    let wanted = [
        Some((Pid(2), 7)),
        Some((Pid(1), 8)),
        Some((Pid(0), 9)),
        None,
    ];
    same(&rt, found, wanted, "stalled");
    let none = story.stalled_by(rt.alloc(), 8)?;
    same(&rt, none.len(), 0, "stalled by a call that waits");
    Ok(())
}
