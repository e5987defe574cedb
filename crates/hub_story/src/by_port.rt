//! Things that are kept by the port that they are of, so that those of one are at hand without a look at all.

ghost use Rattle.std.specs.Prelude.{◌≡◌, ◌++◌, [], IfOk, OnOk};
ghost use Rattle.hub_base.specs.declared.value.Port.{Port};
ghost use Rattle.hub_story.specs.OfPorts.{one_of, things_on, without};

use hub_base::Port as PortNumber;
use std::alloc::{AllocError, Global};
use std::marker::Model;

/// How many numbers a case can give a port.
pub const PORT_NUMBERS: usize = 65_536;

/// Things of ports. Those of a port stand in the order in which they came.
#[derive(Drop)]
pub struct ByPort<T> {
    /// Those of each port, by its number.
    lists: Vec<Vec<T>>,
}

impl<T> Model for ByPort<T> {
    ghost use Rattle.std.specs.Prelude.{◌≡◌, List, length, map};
    ghost use Rattle.std.specs.Global.{Vec};

    ghost Value = { List (List T) };

    ghost view = { λ b. map (λ (v : Vec T). v.items) b.lists.items };

    ghost invariant = { λ b. length b.lists.items ≡ 65536 };
}

impl<T: Copy> ByPort<T> {
    /// None.
    pub fn new(alloc: Global) -> Result<ByPort<T>, AllocError>
        ensures { IfOk result (λ all. (q : Port) → things_on all q ≡ []) }
    {
        let mut lists = Vec::with_capacity(alloc, PORT_NUMBERS)?;
        for _number in 0..PORT_NUMBERS {
            lists.push(Vec::new(alloc))?;
        }
        Ok(ByPort { lists })
    }

    /// Adds one of this port. An `Err` is memory.
    pub fn push(&mut self, port: PortNumber, thing: T) -> Result<(), AllocError>
        ensures { OnOk result (
            (q : Port) → things_on self.new q ≡ things_on self.old q ++ one_of port q thing) }
    {
        let list = &mut self.lists[usize::from(port.0)];
        list.push(thing)?;
        Ok(())
    }

    /// Takes out those of this port.
    pub fn clear(&mut self, port: PortNumber)
        ensures { (q : Port) → things_on self.new q ≡ without port q (things_on self.old q) }
    {
        self.lists[usize::from(port.0)].clear();
    }

    /// Those of this port.
    pub fn on(&self, port: PortNumber) -> &[T]
        ensures { result.now ≡ things_on self.now port }
    {
        &self.lists[usize::from(port.0)]
    }
}
