//! Where steps and processes stand on a page.

ghost use Rattle.std.specs.Prelude.{◌≤◌, max, min};
ghost use Rattle.hub_picture.specs.Frames.{AreBounded};

use crate::{Drawing, Window};
use hub_base::{CASE_PLACES, MOST_PORTS, MOST_PROCS};

/// Where the first step of a band begins.
pub(crate) const LEFT: u64 = 60;

/// Where the first band begins, below the legend.
pub(crate) const TOP: u64 = 90;

/// The height of a port's strip, with the room above it.
pub(crate) const STRIP: u64 = 18;

/// The height of a strip whose port is full.
pub(crate) const FULL: u64 = 12;

/// The room below the rows of those who wait, and of the row above them.
pub(crate) const FOOT: u64 = 16 + ROW;

/// The height of a row of those who wait, or of the legend.
pub(crate) const ROW: u64 = 18;

/// The most such rows for which a page has room: for two lists of all processes, each with the most cases.
pub(crate) const MOST_ROWS: usize = 2 * MOST_PROCS * CASE_PLACES;

/// The number of the step at this place, from 1.
pub(crate) fn number_of(place: u32) -> u64 {
    u64::from(place) + 1
}

/// How much room steps and processes have.
#[derive(Clone, Copy)]
pub(crate) enum Scale {
    /// For a few steps.
    Wide,
    /// For some dozens.
    Middle,
    /// For more.
    Dense,
}

/// How much room a scale gives.
#[derive(Clone, Copy)]
pub(crate) struct Sizes {
    /// Half of the room of a step.
    pub half: u64,
    /// The room of a process.
    pub lane: u64,
    /// The height of a box.
    pub size: u64,
    /// Half of the height of a bar.
    pub thick: u64,
    /// The steps of a band.
    pub steps: u64,
    /// Of how many steps the number of one is written.
    pub tick: u64,
}

impl Scale {
    /// One of three.
    fn of(self, wide: u64, middle: u64, dense: u64) -> u64
        ensures least { min wide (min middle dense) ≤ result }
        ensures most { result ≤ max wide (max middle dense) }
    {
        match self {
            Scale::Wide => wide,
            Scale::Middle => middle,
            Scale::Dense => dense,
        }
    }

    /// How much room it gives.
    pub fn sizes(self) -> Sizes
        ensures bounds { AreBounded result }
    {
        Sizes {
            half: self.of(40, 16, 10),
            lane: self.of(58, 42, 30),
            size: self.of(36, 20, 14),
            thick: self.of(5, 4, 3),
            steps: self.of(14, 36, 60),
            tick: self.of(1, 1, 5),
        }
    }
}

/// A band of steps.
#[derive(Clone, Copy)]
pub(crate) struct Frame {
    /// How much room steps and processes have.
    pub scale: Scale,
    /// The number of the band, from 0.
    pub band: u32,
    /// How many processes there are.
    pub procs: u8,
    /// How many strips there are.
    pub ports: u8,
    /// Its steps.
    pub steps: Window,
}

/// How many strips there are. No hub has more ports than `MOST_PORTS`.
pub(crate) fn ports_of(drawing: &Drawing) -> u8 {
    drawing.strips.len().min(MOST_PORTS) as u8
}

/// The height of a band.
pub(crate) fn height_of(scale: Scale, procs: u8, ports: u8) -> u64
    ensures most { result ≤ 20000 }
{
    scale.sizes().lane * (u64::from(procs) + 2) + STRIP * u64::from(ports)
}

/// The first step of a band, or the end of the window where that comes first.
fn step_of(window: Window, scale: Scale, band: u64) -> u32
    requires few { band ≤ 4294967296 }
{
    let step = u64::from(window.first) + band * scale.sizes().steps;
    step.min(window.end.into()) as u32
}

/// The steps from one band to another.
pub(crate) fn steps_between(scale: Scale, drawing: &Drawing, first: u64, end: u64) -> Window
    requires first { first ≤ 4294967296 }
    requires end { end ≤ 4294967296 }
{
    Window {
        first: step_of(drawing.window, scale, first),
        end: step_of(drawing.window, scale, end),
    }
}

/// The band of this number.
pub(crate) fn frame_of(scale: Scale, drawing: &Drawing, band: u32) -> Frame {
    Frame {
        scale,
        band,
        procs: drawing.procs,
        ports: ports_of(drawing),
        steps: steps_between(scale, drawing, band.into(), u64::from(band) + 1),
    }
}

impl Frame {
    /// Where a step stands.
    pub fn x(self, place: u32) -> u64
        ensures least { LEFT ≤ result }
        ensures most { result ≤ 1099511627776 }
    {
        let end = 2 * u64::from(self.steps.end);
        let within = (2 * u64::from(place) + 1).min(end);
        LEFT + self.scale.sizes().half * within.saturating_sub(2 * u64::from(self.steps.first))
    }

    /// Where it begins.
    fn top(self) -> u64
        ensures least { TOP ≤ result }
        ensures most { result ≤ 1125899906842624 }
    {
        TOP + u64::from(self.band) * height_of(self.scale, self.procs, self.ports)
    }

    /// Where a process stands.
    pub fn y(self, pid: u8) -> u64
        ensures least { TOP ≤ result }
        ensures most { result ≤ 2251799813685248 }
    {
        self.top() + self.scale.sizes().lane * (1 + u64::from(pid.min(self.procs)))
    }

    /// The floor of the strip in this row.
    pub fn floor(self, row: usize) -> u64
        ensures least { TOP ≤ result }
        ensures most { result ≤ 2251799813685248 }
    {
        let lane = self.scale.sizes().lane;
        let lanes = lane * (u64::from(self.procs) + 1) + lane / 2;
        self.top() + lanes + STRIP * (1 + row.min(self.ports.into()) as u64)
    }

    /// From where something goes on that begins by such a step.
    pub fn since(self, begun: Option<u32>) -> u64
        ensures least { LEFT ≤ result }
        ensures most { result ≤ 1099511627776 }
    {
        match begun {
            Some(place) => self.x(place),
            None => LEFT,
        }
    }

    /// Whether it begins before the band ends.
    pub fn has_begun(self, begun: Option<u32>) -> bool {
        match begun {
            Some(place) => place < self.steps.end,
            None => true,
        }
    }

    /// Until where something goes on that ends so.
    pub fn until(self, end: Option<u32>) -> u32 {
        match end {
            Some(place) => place,
            None => self.steps.end,
        }
    }
}
