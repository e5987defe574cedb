//! Cuts that C asks for, and the chapter that waits to be read.

ghost use Rattle.hub_session.specs.Cuts.{CutsIn, CutsOut, LetsGoIn};

use crate::session::{Opened, Session};
use crate::stepping::hold;
use crate::structs::CutC;
use hub_base::NoMemory;
use hub_core::ShortHub;
use hub_served::EndlessHub;

/// Cuts a hub that never ends: whether it did. It does not while a chapter waits to be read, and not if memory is refused.
fn cut_endless(hub: &mut EndlessHub, out: &mut Option<ShortHub>, hands_out: bool) -> bool
    ensures { CutsOut hands_out hub.old out.old hub.new out.new result }
{
    if out.is_some() {
        return false;
    }
    match hub.cut() {
        Ok(chapter) => {
            *out = chapter;
            hold(out, hands_out);
            true
        }
        Err(NoMemory) => false,
    }
}

impl Session {
    /// Cuts a hub that never ends. Not while a chapter waits to be read, and not if memory is refused.
    #[inline(never)]
    pub fn cut(&mut self) -> CutC
        ensures { CutsIn self.old self.new result }
    {
        let cut = match &mut self.hub {
            Opened::Limited(_) | Opened::Following(_) => false,
            Opened::Endless(hub) => cut_endless(hub, &mut self.chapter, self.hands_out),
        };
        CutC {
            cut,
            chapter: self.chapter.is_some(),
        }
    }

    /// Lets the chapter go that waits to be read: whether one did.
    #[inline(never)]
    pub fn let_go(&mut self) -> bool
        ensures { LetsGoIn self.old self.new result }
    {
        self.chapter.take().is_some()
    }
}
