//! The values that went through each port: as flows, from the step that sent a value to the step that received it, and as
//! counters of how many values a port with room held. The k-th value that was sent is the k-th that was received.

ghost use Rattle.std.specs.Prelude.{◌≡◌, IfErr, OnErr, OnOk};
ghost use Rattle.hub_replay.specs.ViewFaults.{Fails};
ghost use Rattle.hub_trace.specs.Formats.Format.{Trace};
ghost use Rattle.hub_trace.specs.Formats.{Begins, Goes, Keeps};

use crate::pieces::{Piece, number_of, put_event};
use crate::ports::Ports;
use hub_base::{EntryRef, NoMemory, Pid, Port};
use hub_core::ShortEntries;
use hub_parts::Side;
use hub_replay::{Sink, ViewFault, write_many};
use hub_story::{ByPort, Told, move_of};
use std::alloc::{AllocError, Global};

/// A value that moved through a port.
#[derive(Clone, Copy)]
struct Moved {
    /// By which step. It stands first, so that a value takes 8 bytes.
    by: u32,
    /// Who sent or received it.
    pid: Pid,
    /// On which side of the port.
    side: Side,
}

/// How many of these were received.
fn received_in(moves: &[Moved]) -> usize {
    moves
        .iter()
        .filter(|moved| matches!(moved.side, Side::Recv))
        .count()
}

/// What moved so far through a port.
#[derive(Clone, Copy)]
struct Passage {
    /// The port.
    port: Port,
    /// Whether it has room for values.
    has_room: bool,
    /// How many values are received from it in all.
    received_in_all: usize,
    /// How many values were sent, and how many received.
    sent: usize,
    received: usize,
    /// By which step the last one moved.
    by: Option<u32>,
}

impl Passage {
    /// Appends an end of a value's flow, by the number of the value. A flow begins behind a quarter of the step that sent the
    /// value, and ends behind three quarters of the one that received it.
    fn put_flow(&self, text: &mut Vec<u8>, moved: &Moved) -> Result<(), NoMemory>
        ensures { OnOk result (Keeps Trace text.old.items text.new.items) }
    {
        let (begin, part, number): (&[u8], &[u8], usize) = match moved.side {
            Side::Send => (
                b"{\"ph\":\"s\",\"pid\":1,\"tid\":",
                b".25,\"cat\":\"port ",
                self.sent,
            ),
            Side::Recv => (
                b"{\"ph\":\"f\",\"bp\":\"e\",\"pid\":1,\"tid\":",
                b".75,\"cat\":\"port ",
                self.received,
            ),
        };
        put_event(
            text,
            &[
                Piece::Word(begin),
                Piece::Number(moved.pid.0.into()),
                Piece::Word(b",\"ts\":"),
                Piece::Number(number_of(moved.by)),
                Piece::Word(part),
                Piece::Number(self.port.0.into()),
                Piece::Word(b"\",\"name\":\"port "),
                Piece::Number(self.port.0.into()),
                Piece::Word(b"\",\"id\":"),
                Piece::Number(number as u64),
                Piece::Word(b"},\n"),
            ],
        )
    }

    /// Appends how many values the port holds, from the step at this place on.
    fn put_held(&self, text: &mut Vec<u8>, place: u32) -> Result<(), NoMemory>
        ensures { OnOk result (Keeps Trace text.old.items text.new.items) }
    {
        put_event(
            text,
            &[
                Piece::Word(b"{\"ph\":\"C\",\"pid\":2,\"ts\":"),
                Piece::Number(number_of(place)),
                Piece::Word(b",\"name\":\"port "),
                Piece::Number(self.port.0.into()),
                Piece::Word(b"\",\"args\":{\"values\":"),
                Piece::Number(self.sent.saturating_sub(self.received) as u64),
                Piece::Word(b"}},\n"),
            ],
        )
    }

    /// The same, where the last value moved by another step than the next one. A port without room holds none.
    fn put_level(&self, text: &mut Vec<u8>, next: Option<u32>) -> Result<(), NoMemory>
        ensures { OnOk result (Keeps Trace text.old.items text.new.items) }
    {
        match self.by {
            Some(by) if self.has_room && next != Some(by) => self.put_held(text, by),
            _ => Ok(()),
        }
    }

    /// Whether the flow of a value has such an end. That of a value that stays in its port has none.
    fn has_end(&self, moved: &Moved) -> bool {
        matches!(moved.side, Side::Recv) || self.sent < self.received_in_all
    }

    /// Counts a value that moved.
    fn count(&mut self, moved: &Moved) {
        match moved.side {
            Side::Send => self.sent = self.sent.saturating_add(1),
            Side::Recv => self.received = self.received.saturating_add(1),
        }
        self.by = Some(moved.by);
    }

    /// Appends the lines of the next value that moved.
    fn put(&mut self, text: &mut Vec<u8>, moved: &Moved) -> Result<(), NoMemory>
        ensures { OnOk result (Keeps Trace text.old.items text.new.items) }
    {
        self.put_level(text, Some(moved.by))?;
        if self.has_end(moved) {
            self.put_flow(text, moved)?;
        }
        self.count(moved);
        Ok(())
    }
}

/// Writes the values that moved through a port, in order.
fn write_port<W: Sink>(
    output: &mut W,
    text: &mut Vec<u8>,
    port: Port,
    has_room: bool,
    moves: &[Moved],
) -> Result<(), ViewFault>
    ensures goes { OnOk result (Goes Trace (W.contents output.old) (W.contents output.new) text.old.items text.new.items) }
    ensures begun { OnErr result (Begins Trace (W.contents output.old) (W.contents output.new) text.old.items) }
    ensures err { IfErr result (Fails (W.failures output.old) (W.failures output.new)) }
    ensures ok { OnOk result (W.failures output.new ≡ W.failures output.old) }
{
    let mut passage = Passage {
        port,
        has_room,
        received_in_all: received_in(moves),
        sent: 0,
        received: 0,
        by: None,
    };
    for moved in moves {
        passage.put(text, moved)?;
        write_many(output, text)?;
    }
    passage.put_level(text, None)?;
    Ok(())
}

/// The values that moved through the ports of a journal.
#[derive(Drop)]
pub(crate) struct Traffic {
    /// The ports.
    ports: Ports,
    /// The values that moved through each port, in order.
    by_port: ByPort<Moved>,
}

impl Traffic {
    /// None.
    pub(crate) fn new(alloc: Global) -> Result<Traffic, AllocError> {
        Ok(Traffic {
            ports: Ports::new(alloc)?,
            by_port: ByPort::new(alloc)?,
        })
    }

    /// Takes in what is told of this entry, one of these.
    pub(crate) fn note(
        &mut self,
        entries: &ShortEntries,
        entry: &EntryRef<'_>,
        told: &Told,
    ) -> Result<(), AllocError> {
        self.ports.note(entry, told)?;
        let Some(moved) = move_of(entries, told) else {
            return Ok(());
        };
        let pid = told.event.pid;
        self.by_port.push(
            moved.port,
            Moved {
                by: told.by,
                pid,
                side: moved.side,
            },
        )
    }

    /// Writes the values of each port, in the order in which they were made.
    pub(crate) fn write<W: Sink>(&self, output: &mut W, text: &mut Vec<u8>) -> Result<(), ViewFault>
        ensures goes { OnOk result (Goes Trace (W.contents output.old) (W.contents output.new) text.old.items text.new.items) }
        ensures begun { OnErr result (Begins Trace (W.contents output.old) (W.contents output.new) text.old.items) }
        ensures err { IfErr result (Fails (W.failures output.old) (W.failures output.new)) }
        ensures ok { OnOk result (W.failures output.new ≡ W.failures output.old) }
    {
        for port in &self.ports.made {
            let has_room = self.ports.has_room(*port);
            write_port(output, text, *port, has_room, self.by_port.on(*port))?;
        }
        Ok(())
    }
}
