//! What is counted of the steps of a block.

ghost use Rattle.std.specs.Prelude.{◌≡◌, IfOk, OnOk};
ghost use Rattle.hub_page.specs.Block.{IsBlock, IsNext, IsWhole};
ghost use Rattle.hub_page.specs.Known.{procs_of};
ghost use Rattle.hub_page.specs.Past.{IsPast};

use crate::known::Known;
use crate::lanes::{count_troubles, count_waits, lane_of};
use crate::line::Line;
use crate::past::Past;
use crate::ports::{none_held, note_held};
use hub_base::MOST_PORTS;
use hub_story::count_one;
use std::alloc::{AllocError, Global};

/// Tables of lanes and of ports, by their numbers.
#[derive(Drop)]
pub(crate) struct Block {
    /// The place of the block's first step.
    pub(crate) first: u32,
    /// How many steps each lane asked.
    pub(crate) asked: Vec<u64>,
    /// How many of its steps were told to be stalled, a fault, or closed.
    pub(crate) troubles: Vec<u64>,
    /// Behind how many steps a call of it waited.
    pub(crate) waited: Vec<u64>,
    /// The most values that each port held behind a step by which one moved.
    pub(crate) most: Vec<u64>,
    /// How many values were sent on it before the block.
    pub(crate) sent: Vec<u64>,
    /// How many were received from it before the block.
    pub(crate) received: Vec<u64>,
}

impl Block {
    /// A block that has no step yet.
    pub(crate) fn new(
        alloc: Global,
        known: &Known<'_>,
        past: &Past,
        first: u32,
    ) -> Result<Block, AllocError>
        requires { IsPast known.now first past.now }
        ensures first { IfOk result (λ block. block.first ≡ first) }
        ensures begun { IfOk result (IsBlock known.now first) }
        ensures whole { IfOk result (IsWhole (procs_of known.now)) }
    {
        let lanes = usize::from(known.procs()) + 1;
        let ports = MOST_PORTS + 1;
        Ok(Block {
            first,
            asked: vec![in alloc; 0; lanes]?,
            troubles: vec![in alloc; 0; lanes]?,
            waited: vec![in alloc; 0; lanes]?,
            most: none_held(alloc)?,
            sent: Vec::from_slice(alloc, &past.levels.sent[..ports])?,
            received: Vec::from_slice(alloc, &past.levels.received[..ports])?,
        })
    }

    /// Counts one step more.
    pub(crate) fn note_step(&mut self, line: &Line<'_>) -> Result<(), AllocError>
        requires { IsWhole (procs_of line.now.known.now) self.old }
        ensures next { OnOk result (IsNext line.now self.old self.new) }
        ensures whole { IsWhole (procs_of line.now.known.now) self.new }
    {
        let procs = line.known.procs();
        let past = line.past;
        count_one(&mut self.asked, lane_of(procs, line.entry.pid))?;
        count_troubles(&mut self.troubles, procs, line.came)?;
        count_waits(&mut self.waited, procs, &past.parked)?;
        note_held(
            &mut self.most,
            &past.levels,
            line.known.entries(),
            line.came,
        );
        Ok(())
    }
}
