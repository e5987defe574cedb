//! The line that tells of the steps of a block so much that they can be drawn before their lines are read.

ghost use Rattle.std.specs.Prelude.{◌≡◌, ◌≤◌, ◌++◌, OnOk};
ghost use Rattle.hub_page.specs.Known.{procs_of};
ghost use Rattle.hub_page.specs.Sketch.{IsSketch, counts_of_lane, counts_of_port, lane_words, part_words, port_words, since};
ghost use Rattle.hub_page.specs.Sketch.{words_of, words_of_lanes, words_of_ports};

use crate::block::Block;
use crate::known::Known;
use crate::number::put_number;
use crate::past::Past;
use hub_base::{MOST_PORTS, Port};
use hub_story::count_at;
use std::alloc::AllocError;

/// What is counted of a lane.
#[derive(Clone, Copy)]
struct LaneCounts {
    /// Behind how many steps a call of it waited.
    waited: u64,
    /// How many steps it asked.
    asked: u64,
    /// How many of its steps were told to be stalled, a fault, or closed.
    troubles: u64,
    /// How many steps ago the call was asked that waits behind the block.
    open_for: u64,
}

/// What is counted of a port.
#[derive(Clone, Copy)]
struct PortCounts {
    /// The most values that it held behind a step by which one moved.
    most: u64,
    /// How many values were sent.
    sent: u64,
    /// How many were received.
    received: u64,
}

/// A block behind whose last step a place is.
#[derive(Clone, Copy)]
pub(crate) struct Sketch<'a> {
    /// The journal.
    pub(crate) known: &'a Known<'a>,
    /// What is known of all steps before the place.
    pub(crate) past: &'a Past,
    /// What is counted of those of the block.
    pub(crate) block: &'a Block,
    /// The place.
    pub(crate) end: u32,
}

/// Appends a letter and a number, and nothing for 0.
fn put_part(out: &mut Vec<u8>, letter: &[u8], number: u64) -> Result<(), AllocError>
    ensures { OnOk result (out.new.items ≡ out.old.items ++ part_words letter.now number) }
{
    if number == 0 {
        return Ok(());
    }
    put_number(out, letter, number)
}

/// How long ago a call was asked.
fn since(end: u32, asked: Option<u32>) -> u64
    ensures { result ≡ since end asked }
{
    match asked {
        Some(asked) => end.saturating_sub(asked).into(),
        None => 0,
    }
}

impl<'a> Sketch<'a> {
    /// What is counted of a lane.
    fn lane(&self, lane: usize) -> LaneCounts
        requires sketch { IsSketch self.now }
        requires few { lane ≤ procs_of self.now.known.now }
        ensures { result ≡ counts_of_lane self.now lane }
    {
        LaneCounts {
            waited: count_at(&self.block.waited, lane),
            asked: count_at(&self.block.asked, lane),
            troubles: count_at(&self.block.troubles, lane),
            open_for: since(self.end, self.past.parked.call(lane)),
        }
    }

    /// What is counted of a port.
    fn port(&self, port: Port) -> PortCounts
        requires sketch { IsSketch self.now }
        requires few { port.0 ≤ MOST_PORTS }
        ensures { result ≡ counts_of_port self.now port }
    {
        PortCounts {
            most: count_at(&self.block.most, port.0.into()),
            sent: self.past.levels.sent_since(&self.block.sent, port),
            received: self.past.levels.received_since(&self.block.received, port),
        }
    }
}

/// Appends what is told of a lane, and nothing for one that does nothing.
fn put_lane(out: &mut Vec<u8>, lane: usize, counts: LaneCounts) -> Result<(), AllocError>
    ensures { OnOk result (out.new.items ≡ out.old.items ++ lane_words lane counts) }
{
    if counts.waited == 0 && counts.asked == 0 && counts.troubles == 0 && counts.open_for == 0 {
        return Ok(());
    }
    put_number(out, b"P", lane as u64)?;
    put_part(out, b"w", counts.waited)?;
    put_part(out, b"a", counts.asked)?;
    put_part(out, b"t", counts.troubles)?;
    put_part(out, b"o", counts.open_for)
}

/// Appends what is told of all lanes.
fn put_lanes(out: &mut Vec<u8>, sketch: &Sketch<'_>) -> Result<(), AllocError>
    requires { IsSketch sketch.now }
    ensures { OnOk result (out.new.items ≡ out.old.items ++ words_of_lanes sketch.now) }
{
    let lanes = usize::from(sketch.known.procs()) + 1;
    for lane in 0..lanes {
        put_lane(out, lane, sketch.lane(lane))?;
    }
    Ok(())
}

/// Appends what is told of a port, and nothing for one on which no value moved.
fn put_port(out: &mut Vec<u8>, port: Port, counts: PortCounts) -> Result<(), AllocError>
    ensures { OnOk result (out.new.items ≡ out.old.items ++ port_words port counts) }
{
    if counts.sent == 0 && counts.received == 0 {
        return Ok(());
    }
    put_number(out, b"p", port.0.into())?;
    put_part(out, b"m", counts.most)?;
    put_part(out, b"s", counts.sent)?;
    put_part(out, b"g", counts.received)
}

/// Appends what is told of all ports.
fn put_ports(out: &mut Vec<u8>, sketch: &Sketch<'_>) -> Result<(), AllocError>
    requires { IsSketch sketch.now }
    ensures { OnOk result (out.new.items ≡ out.old.items ++ words_of_ports sketch.now) }
{
    for number in 0..MOST_PORTS + 1 {
        let port = Port(number as u16);
        put_port(out, port, sketch.port(port))?;
    }
    Ok(())
}

/// Appends the line of a block.
pub(crate) fn put_sketch(out: &mut Vec<u8>, sketch: &Sketch<'_>) -> Result<(), AllocError>
    requires { IsSketch sketch.now }
    ensures { OnOk result (out.new.items ≡ out.old.items ++ words_of sketch.now) }
{
    out.extend_from_slice(b"~")?;
    put_lanes(out, sketch)?;
    put_ports(out, sketch)?;
    out.extend_from_slice(b"\n")?;
    Ok(())
}
