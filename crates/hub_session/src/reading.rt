//! What is read of a hub that is no text: its ports, and how long its journal is.

ghost use Rattle.std.specs.Prelude.{◌≡◌, length};
ghost use Rattle.hub_session.specs.Hubs.{IsLook, present_in, totals_since};
ghost use Rattle.hub_session.specs.Looks.{LooksIn};

use crate::session::{Opened, Session};
use crate::structs::CountsC;
use crate::telling::counts_told;
use hub_base::{Look, Port};
use hub_cut::Totals;

/// What a port holds and has carried, in a hub that was never cut.
fn totals_since(look: Look) -> Totals
    ensures { result ≡ totals_since look }
{
    Totals {
        cap: look.cap,
        len: look.counts.len,
        sent: look.counts.sent.into(),
        received: look.counts.received.into(),
        closed: look.counts.closed,
    }
}

impl Opened {
    /// What a port holds, and what it has carried since the hub was opened.
    fn look(&self, port: Port) -> Option<Totals>
        ensures { IsLook self.now port result }
    {
        match self {
            Opened::Limited(hub) => hub.look(port).map(totals_since),
            Opened::Endless(hub) => hub.look(port),
            Opened::Following(hub) => hub.locked().look(port).map(totals_since),
        }
    }

    /// How many entries the journal has.
    fn len(&self) -> usize
        ensures { result ≡ length (present_in self.now).entries }
    {
        match self {
            Opened::Limited(hub) => hub.len(),
            Opened::Endless(hub) => hub.present().len(),
            Opened::Following(hub) => hub.locked().len(),
        }
    }
}

impl Session {
    /// Looks at a port: of a hub that never ends, what the whole history gives.
    pub fn look(&self, port: u16) -> CountsC
        ensures { LooksIn self.now port result }
    {
        counts_told(self.hub.look(Port(port)))
    }

    /// How many entries the journal has; of a hub that never ends, its present chapter.
    pub fn len(&self) -> u64
        ensures { result ≡ length (present_in self.now.hub).entries }
    {
        self.hub.len() as u64
    }
}
