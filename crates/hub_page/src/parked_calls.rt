//! Where calls wait.

ghost use Rattle.std.specs.Prelude.{◌≡◌, ◌++◌, List, [], IfOk};
ghost use Rattle.hub_story.specs.declared.told.Told.{Told};
ghost use Rattle.hub_page.specs.ParkedCalls.{AreNext, AreParked, IsWhole, call_of};

use crate::lanes::lane_of;
use hub_base::What;
use hub_story::Told;
use std::alloc::{AllocError, Global};

/// Of each lane, by its number.
#[derive(Drop)]
pub(crate) struct ParkedCalls {
    /// The place of its call that waits, if one does.
    places: Vec<Option<u32>>,
}

impl ParkedCalls {
    /// None does.
    pub(crate) fn new(alloc: Global, procs: u8) -> Result<ParkedCalls, AllocError>
        ensures none { IfOk result (AreParked procs []) }
        ensures whole { IfOk result (IsWhole procs) }
    {
        Ok(ParkedCalls {
            places: vec![in alloc; None; usize::from(procs) + 1]?,
        })
    }

    /// Takes in the next event. A fault ends no call.
    fn note(&mut self, procs: u8, told: &Told)
        requires { IsWhole procs self.old }
        ensures next { AreNext procs told.now self.old self.new }
        ensures whole { IsWhole procs self.new }
    {
        let lane = lane_of(procs, told.event.pid);
        match told.event.what {
            What::Fault(_) => {}
            What::Parked => self.places[lane] = Some(told.asked),
            _ => self.places[lane] = None,
        }
    }

    /// Takes in these events, in order, behind those so far.
    pub(crate) fn note_all(&mut self, procs: u8, told: &[Told])
        requires { IsWhole procs self.old }
        ensures parked { (until : List Told) → AreParked procs until self.old → AreParked procs (until ++ told.now) self.new }
        ensures whole { IsWhole procs self.new }
    {
        for told in told {
            self.note(procs, told);
        }
    }

    /// The place of the lane's call that waits, if one does.
    pub(crate) fn call(&self, lane: usize) -> Option<u32>
        ensures { result ≡ call_of self.now lane }
    {
        *self.places.get(lane)?
    }
}
