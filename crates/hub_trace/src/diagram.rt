//! A sequence diagram for Mermaid.

ghost use Rattle.std.specs.Prelude.{◌≡◌, ◌<◌, ◌-◌, ◌^◌, ◌++◌, length, IfErr, IfOk, OnErr, OnOk};
ghost use Rattle.std.specs.List.{flat_map};
ghost use Rattle.hub_base.specs.Head.{IsHead};
ghost use Rattle.hub_replay.specs.Devices.{AppendsSome};
ghost use Rattle.hub_replay.specs.ViewFaults.{Fails};
ghost use Rattle.hub_trace.specs.Diagrams.{IsBegun, IsDiagram};
ghost use Rattle.hub_trace.specs.Formats.Format.{Diagram};
ghost use Rattle.hub_trace.specs.Formats.{AtLine, Keeps, margin};
ghost use Rattle.hub_trace.specs.Pieces.{Walks, escape, escaped_behind};

use crate::Window;
use crate::pieces::{Piece, number_of, put_pieces};
use crate::ports::Ports;
use crate::writing::{Pen, write_steps};
use hub_base::{EntryRef, NoMemory, Pid, Port, Step, What};
use hub_core::{ShortEntries, ShortJournal};
use hub_parts::Side;
use hub_replay::{Sink, ViewFault, write_whole};
use hub_story::{Move, Told, clock_in, is_clock, move_of, part_of};
use std::alloc::{AllocError, Global};

/// Appends a byte, or what stands for it: behind a `#` Mermaid would read a comment.
fn put_escaped_byte(text: &mut Vec<u8>, byte: u8) -> Result<(), AllocError>
    ensures { OnOk result (text.new.items ≡ text.old.items ++ escape byte) }
{
    if byte == b'#' {
        text.extend_from_slice(b"#35;")
    } else {
        text.extend_from_slice(&[byte])
    }
}

/// Appends these bytes, or what stands for them.
fn put_escaped(text: &mut Vec<u8>, bytes: &[u8]) -> Result<(), AllocError>
    ensures { OnOk result (text.new.items ≡ text.old.items ++ flat_map escape bytes.now) }
{
    for byte in bytes {
        put_escaped_byte(text, *byte)?;
    }
    Ok(())
}

/// Appends a line, escaped.
fn put_line(text: &mut Vec<u8>, pieces: &[Piece<'_>]) -> Result<(), NoMemory>
    requires { Walks escaped_behind pieces.now margin margin }
    ensures { OnOk result (Keeps Diagram text.old.items text.new.items) }
{
    let mut plain = Vec::new(*text.allocator());
    put_pieces(&mut plain, pieces)?;
    Ok(put_escaped(text, &plain)?)
}

/// Appends the line of a process. The clock has another name.
fn put_process(text: &mut Vec<u8>, pid: u8, clock: Option<Pid>) -> Result<(), NoMemory>
    ensures { OnOk result (Keeps Diagram text.old.items text.new.items) }
{
    let is_clock = is_clock(clock, Pid(pid));
    put_line(
        text,
        &[
            Piece::Word(b"    participant P"),
            Piece::Number(pid.into()),
            Piece::With(b" as P", is_clock.then_some(pid.into())),
            Piece::Clock(is_clock),
            Piece::Word(b"\n"),
        ],
    )
}

/// The first lines, with those of so many processes.
fn first_lines(alloc: Global, procs: u8, clock: Option<Pid>) -> Result<Vec<u8>, NoMemory>
    ensures { IfOk result (λ text. AtLine Diagram text.items) }
{
    let mut text = Vec::from_slice(alloc, b"sequenceDiagram\n")?;
    for pid in 0..procs {
        put_process(&mut text, pid, clock)?;
    }
    Ok(text)
}

/// Appends the line of a port.
fn put_port(text: &mut Vec<u8>, port: Port) -> Result<(), NoMemory>
    ensures { OnOk result (Keeps Diagram text.old.items text.new.items) }
{
    put_line(
        text,
        &[
            Piece::Word(b"    participant port"),
            Piece::Number(port.0.into()),
            Piece::Word(b" as port "),
            Piece::Number(port.0.into()),
            Piece::Word(b"\n"),
        ],
    )
}

/// Appends the lines of those of these ports that have room.
fn put_ports(text: &mut Vec<u8>, ports: &Ports) -> Result<(), NoMemory>
    ensures { OnOk result (Keeps Diagram text.old.items text.new.items) }
{
    for port in &ports.made {
        if ports.has_room(*port) {
            put_port(text, *port)?;
        }
    }
    Ok(())
}

/// How a value moved.
#[derive(Clone, Copy)]
enum Way {
    /// Into a port with room.
    Into,
    /// Out of one.
    OutOf,
    /// From this process straight to another.
    From(Pid),
}

/// Appends the arrow of a value that moved so.
fn put_arrow(text: &mut Vec<u8>, way: Way, told: &Told, moved: &Move) -> Result<(), NoMemory>
    ensures { OnOk result (Keeps Diagram text.old.items text.new.items) }
{
    let (pid, port) = (u64::from(told.event.pid.0), u64::from(moved.port.0));
    let (begin, from, arrow, to, on): (&[u8], u64, &[u8], u64, Option<u64>) = match way {
        Way::Into => (b"    P", pid, b"-)port", port, None),
        Way::OutOf => (b"    port", port, b"-->>P", pid, None),
        Way::From(sender) => (b"    P", sender.0.into(), b"->>P", pid, Some(port)),
    };
    put_line(
        text,
        &[
            Piece::Word(begin),
            Piece::Number(from),
            Piece::Word(arrow),
            Piece::Number(to),
            Piece::Word(b": "),
            Piece::Number(number_of(told.by)),
            Piece::Word(b": "),
            Piece::Carries(moved.value),
            Piece::With(b" on port ", on),
            Piece::Word(b"\n"),
        ],
    )
}

/// The number of the process that was started again, by what is told of this entry.
fn started(entry: &EntryRef<'_>, what: What) -> Option<u64> {
    match (&entry.step, what) {
        (Step::Start(pid), What::Done) => Some(pid.0.into()),
        _ => None,
    }
}

/// What is known of a journal, and shown of it.
#[derive(Clone, Copy)]
struct Events<'a> {
    /// The entries of the journal.
    entries: &'a ShortEntries,
    /// The ports.
    ports: &'a Ports,
    /// The steps that are shown.
    window: Window,
    /// How many processes have a line.
    procs: u8,
    /// The clock, if one is.
    clock: Option<Pid>,
}

impl Events<'_> {
    /// Whether it is told by a step that the window has, and to a process that has a line.
    fn shows(&self, told: &Told) -> bool {
        self.window.has(told.by) && told.event.pid.0 < self.procs
    }

    /// Whether it is told that a value was sent on the port.
    fn sends_on(&self, port: Port, told: &Told) -> bool {
        match move_of(self.entries, told) {
            Some(moved) => matches!(moved.side, Side::Send) && moved.port.0 == port.0,
            None => false,
        }
    }

    /// Who is told to have sent on the port, by one of these events.
    fn sender(&self, port: Port, came: &[Told]) -> Option<Pid> {
        for told in came {
            if self.shows(told) && self.sends_on(port, told) {
                return Some(told.event.pid);
            }
        }
        None
    }

    /// How a value moved by the step by which these came. One through a port without room is told where it is received.
    fn way_of(&self, moved: &Move, came: &[Told]) -> Option<Way> {
        match (moved.side, self.ports.has_room(moved.port)) {
            (Side::Send, true) => Some(Way::Into),
            (Side::Recv, true) => Some(Way::OutOf),
            (Side::Send, false) => None,
            (Side::Recv, false) => self.sender(moved.port, came).map(Way::From),
        }
    }

    /// Appends a note of what a process is told, and of which of its entries. It stands over one that was started again, too.
    fn put_note(
        &self,
        text: &mut Vec<u8>,
        entry: &EntryRef<'_>,
        told: &Told,
    ) -> Result<(), NoMemory>
        ensures { OnOk result (Keeps Diagram text.old.items text.new.items) }
    {
        put_line(
            text,
            &[
                Piece::Word(b"    Note over P"),
                Piece::Number(told.event.pid.0.into()),
                Piece::With(b",P", started(entry, told.event.what)),
                Piece::Word(b": "),
                Piece::Number(number_of(told.by)),
                Piece::Word(b": "),
                Piece::Asks(entry),
                Piece::Word(b", "),
                Piece::Tells(part_of(self.clock, self.entries, told), told.event.what),
                Piece::Word(b"\n"),
            ],
        )
    }
}

/// The arrow or the note of an event that is shown.
impl Pen for Events<'_> {
    ghost format = { Diagram };

    fn put(
        &mut self,
        text: &mut Vec<u8>,
        entry: &EntryRef<'_>,
        told: &Told,
        came: &[Told],
    ) -> Result<(), NoMemory> {
        if !self.shows(told) {
            return Ok(());
        }
        match move_of(self.entries, told) {
            Some(moved) => match self.way_of(&moved, came) {
                Some(way) => put_arrow(text, way, told, &moved),
                None => Ok(()),
            },
            None => self.put_note(text, entry, told),
        }
    }
}

/// Writes the steps that the window has of a journal of 1 to `MOST_PROCS` processes as a sequence diagram for Mermaid: a
/// participant for each process and for each port that ever has room, an arrow for each value that moved, and a note for each
/// other event. Steps are counted from 1. The journal is walked along twice: once for which ports have room.
pub fn write_diagram<W: Sink>(
    alloc: Global,
    journal: &ShortJournal,
    window: Window,
    output: &mut W,
) -> Result<(), ViewFault>
    requires head { IsHead journal.now.head }
    requires few { length journal.now.entries < 2 ^ 32 - 1 }
    ensures whole { OnOk result (AppendsSome IsDiagram (W.contents output.old) (W.contents output.new)) }
    ensures beginning { OnErr result (AppendsSome IsBegun (W.contents output.old) (W.contents output.new)) }
    ensures err { IfErr result (Fails (W.failures output.old) (W.failures output.new)) }
    ensures ok { OnOk result (W.failures output.new ≡ W.failures output.old) }
{
    let ports = Ports::of(alloc, journal)?;
    let mut events = Events {
        entries: journal.entries(),
        ports: &ports,
        window,
        procs: journal.head().procs,
        clock: clock_in(journal),
    };
    let mut text = first_lines(alloc, events.procs, events.clock)?;
    put_ports(&mut text, &ports)?;
    write_steps(output, &mut text, &mut events, journal)?;
    write_whole(output, &text)?;
    Ok(())
}
