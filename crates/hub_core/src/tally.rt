//! How many values each port has carried.

ghost use Rattle.std.specs.Prelude.{◌≡◌, ◌≤◌, ◌<◌, ◌++◌, ◌∷◌, [], length};
ghost use Rattle.hub_core.specs.Records.{tally_at, no_tally};
ghost use Rattle.hub_core.specs.Carried.{CanCarry, one_carried};

use arrayvec::ArrayVec;
use hub_base::{MOST_PORTS, Port};
use std::marker::Model;

/// What a port has carried.
#[derive(Clone, Copy, Debug, Default, PartialEq, Eq)]
pub struct Tally {
    /// How many sends completed.
    pub sent: u32,
    /// How many of their values were received.
    pub received: u32,
}

/// How a port carries a value in one step.
#[derive(Clone, Copy)]
pub(crate) enum Carried {
    /// It was sent, and stays in the buffer.
    Sent,
    /// It was received out of the buffer.
    Received,
    /// It was handed from a sender to a receiver.
    Handed,
}

/// The tallies of the ports that are made, in order; there is a place for each that there may be.
#[derive(Drop)]
pub(crate) struct Tallies {
    /// By port number less one.
    list: ArrayVec<Tally, MOST_PORTS>,
}

impl Model for Tallies {
    ghost use Rattle.std.specs.Prelude.{List};
    ghost use Rattle.hub_core.specs.declared.tally.Tally.{Tally};

    ghost Value = { List Tally };

    ghost view = { λ t. t.list.items };
}

impl Tallies {
    /// No port.
    pub(crate) fn new() -> Tallies
        ensures { result ≡ [] }
    {
        Tallies {
            list: ArrayVec::new(),
        }
    }

    /// The same tallies.
    pub(crate) fn copy(&self) -> Tallies
        ensures { result ≡ self.now }
    {
        let mut list = ArrayVec::new();
        let _full = list.try_extend_from_slice(self.list.as_slice());
        Tallies { list }
    }

    /// Takes the tallies of another.
    pub(crate) fn copy_from(&mut self, other: &Tallies)
        ensures { self.new ≡ other.now }
    {
        self.list.clear();
        let _full = self.list.try_extend_from_slice(other.list.as_slice());
    }

    /// A port more, which has carried nothing.
    pub(crate) fn add(&mut self)
        requires { length self.old < MOST_PORTS }
        ensures { self.new ≡ self.old ++ no_tally ∷ [] }
    {
        self.list.push(Tally {
            sent: 0,
            received: 0,
        });
    }

    /// The tally of a port.
    pub(crate) fn at(&self, port: Port) -> Tally
        requires { (0 < port.0) × (port.0 ≤ length self.now) }
        ensures { result ≡ tally_at self.now port }
    {
        self.list.as_slice()[port.0 as usize - 1]
    }

    /// A value more was carried.
    #[inline(always)]
    pub(crate) fn count(&mut self, port: Port, carried: Carried)
        requires made { (0 < port.0) × (port.0 ≤ length self.old) }
        requires room { CanCarry carried (tally_at self.old port) }
        ensures { self.new ≡ one_carried carried port self.old }
    {
        let tally = &mut self.list.as_mut_slice()[port.0 as usize - 1];
        match carried {
            Carried::Sent => tally.sent += 1,
            Carried::Received => tally.received += 1,
            Carried::Handed => {
                tally.sent += 1;
                tally.received += 1;
            }
        }
    }
}
