//! Counts of the cases of open calls, so that nobody has to look for a case on a port.
//!
//! `sends` has for each port how many cases of open calls send on it, and `recvs` how many receive from it; port 0
//! is counted like any other. A case on a port above the last is not counted.

ghost use Rattle.std.specs.Prelude.{◌≡◌, ◌≤◌, replicate};
ghost use Rattle.hub_parts.specs.CaseCounts.{changed, all_changed, changed_by, Allows, AllAllow, CanChange};
ghost use Rattle.hub_parts.specs.CaseCounts.{with_raised, with_lowered, CanRaise, CanLower, has_case};

use crate::Side;
use hub_base::{Case, MOST_PORTS, Port};

/// The ports, and port 0.
const PORT_NUMBERS: usize = MOST_PORTS + 1;

/// A number for each of them.
type Counts = [u16; PORT_NUMBERS];

/// How many cases of open calls there are on each side of each port.
#[derive(Drop)]
pub(crate) struct CaseCounts {
    /// Of the cases that send, by port number.
    sends: Counts,
    /// Of those that receive.
    recvs: Counts,
}

/// How a count changes.
#[derive(Clone, Copy)]
enum Change {
    /// One case more.
    More,
    /// One case fewer.
    Fewer,
}

/// The cases on the port are one more, or one fewer.
#[inline(always)]
fn change_at(counts: &mut Counts, port: Port, by: Change)
    requires { Allows (CanChange by) counts.old port }
    ensures { counts.new ≡ changed (changed_by by) port counts.old }
{
    if (port.0 as usize) < counts.len() {
        match by {
            Change::More => counts[port.0 as usize] += 1,
            Change::Fewer => counts[port.0 as usize] -= 1,
        }
    }
}

impl CaseCounts {
    /// No case.
    pub(crate) fn new() -> CaseCounts
        ensures sends { result.sends ≡ replicate PORT_NUMBERS 0 }
        ensures recvs { result.recvs ≡ replicate PORT_NUMBERS 0 }
    {
        CaseCounts {
            sends: [0; PORT_NUMBERS],
            recvs: [0; PORT_NUMBERS],
        }
    }

    /// The same counts.
    pub(crate) fn copy(&self) -> CaseCounts
        ensures { result ≡ self.now }
    {
        CaseCounts {
            sends: self.sends,
            recvs: self.recvs,
        }
    }

    /// Takes the counts of another.
    pub(crate) fn copy_from(&mut self, other: &CaseCounts)
        ensures { self.new ≡ other.now }
    {
        self.sends = other.sends;
        self.recvs = other.recvs;
    }

    /// Changes the count of each of these cases.
    #[inline(always)]
    fn change_each(&mut self, cases: &[Case], by: Change)
        requires { AllAllow (changed_by by) (CanChange by) self.old cases.now }
        ensures { self.new ≡ all_changed (changed_by by) self.old cases.now }
    {
        for case in cases {
            match *case {
                Case::Send(port, _value) => change_at(&mut self.sends, port, by),
                Case::Recv(port) => change_at(&mut self.recvs, port, by),
            }
        }
    }

    /// Counts the cases of a call that opens.
    #[inline(always)]
    pub(crate) fn add(&mut self, cases: &[Case])
        requires { CanRaise self.old cases.now }
        ensures { self.new ≡ with_raised self.old cases.now }
    {
        self.change_each(cases, Change::More);
    }

    /// Uncounts the cases of a call that ends.
    pub(crate) fn remove(&mut self, cases: &[Case])
        requires { CanLower self.old cases.now }
        ensures { self.new ≡ with_lowered self.old cases.now }
    {
        self.change_each(cases, Change::Fewer);
    }

    /// Whether some case is on this side of the port.
    pub(crate) fn has(&self, port: Port, side: Side) -> bool
        requires { port.0 ≤ MOST_PORTS }
        ensures { result ≡ has_case self.now port side }
    {
        let place = port.0 as usize;
        match side {
            Side::Send => self.sends[place] != 0,
            Side::Recv => self.recvs[place] != 0,
        }
    }
}
