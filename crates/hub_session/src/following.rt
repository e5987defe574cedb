//! Hubs that follow a journal: their steps, whose step is next, and what that journal says.

ghost use Rattle.std.specs.Prelude.{◌≡◌, true};
ghost use Rattle.hub_base.specs.Head.{is_of};
ghost use Rattle.hub_session.specs.Looks.{clock_in, next_in, step_in};
ghost use Rattle.hub_session.specs.Tells.{next_told};
ghost use Rattle.hub_session.specs.Steps.{ServesFollowing};

use crate::session::{Opened, Session};
use crate::stepping::bits_ended;
use crate::structs::{NO_CLOCK, NextC, ToldC};
use crate::telling::{
    bit_of, clock_told, next_told, tell_diverged, tell_made, tell_nothing, tell_refused,
};
use hub_base::{EntryRef, Pid};
use hub_served::{Follower, NotMade};

/// Makes a step of a hub that follows a journal, and tells what it came to.
#[inline(never)]
pub(crate) fn step_following(hub: &mut Follower, entry: &EntryRef<'_>, told: &mut ToldC)
    requires fits { is_of hub.old.locked.hub.terms.head.edition entry.now.step ≡ true }
    ensures { ServesFollowing hub.old entry.now hub.new told.new }
{
    match hub.step(entry) {
        Ok(answer) => tell_made(&answer, bits_ended(hub.locked()), false, told),
        Err(NotMade::Refused(fault)) => tell_refused(fault, false, told),
        Err(NotMade::NotYet) => tell_nothing(told),
        Err(NotMade::Diverged(step)) => tell_diverged(step, told),
    }
}

impl Session {
    /// The bit of the process whose step is the next of the journal; 0 where there is none.
    pub fn next(&self) -> u64
        ensures { result ≡ next_in self.now.hub }
    {
        match &self.hub {
            Opened::Following(hub) => match hub.next() {
                Some(pid) => bit_of(pid),
                None => 0,
            },
            Opened::Limited(_) | Opened::Endless(_) => 0,
        }
    }

    /// A process's next step of the journal that is followed.
    pub fn step_of(&self, pid: u8) -> NextC
        ensures { result ≡ next_told (step_in self.now.hub pid) }
    {
        match &self.hub {
            Opened::Following(hub) => next_told(hub.step_of(Pid(pid))),
            Opened::Limited(_) | Opened::Endless(_) => next_told(None),
        }
    }

    /// The number of the clock's process in the journal that is followed; `NO_CLOCK` where there is none.
    pub fn clock(&self) -> u8
        ensures { result ≡ clock_in self.now.hub }
    {
        match &self.hub {
            Opened::Following(hub) => clock_told(hub.clock()),
            Opened::Limited(_) | Opened::Endless(_) => NO_CLOCK,
        }
    }
}
