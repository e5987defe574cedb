//! Events in order, in less memory than a list of them.
//!
//! An event has room for a value, and most that end a call which waited have none. So little is kept of each, and what others say
//! stands beside.

ghost use Rattle.std.specs.Prelude.{◌≡◌, ◌<◌, ◌++◌, ◌∷◌, ℕ, List, [], Some, length, slice_get, IfSome, OnOk};
ghost use Rattle.hub_base.specs.declared.event.What.{What as Said};
ghost use Rattle.hub_story.specs.ToldLists.{StandsBelow, told_again, what_of};

use crate::Told;
use hub_base::{Event, Outcome, Pid, What};
use std::alloc::{AllocError, Global};
use std::marker::Model;

/// What is kept of what an event says.
#[derive(Clone, Copy)]
enum ShortWhat {
    /// That this case fired, and sent.
    Sent(u8),
    /// That everyone waited.
    Stalled,
    /// That the call was cancelled.
    Cancelled,
    /// Anything else, which stands at this place of what is kept whole.
    Whole(u32),
}

/// What is kept of an event.
#[derive(Clone, Copy)]
struct ShortTold {
    /// The place of the entry that it answers, or whose call it ends.
    asked: u32,
    /// The place of the entry by whose step it came.
    by: u32,
    /// The process to which it is told.
    pid: Pid,
    /// What it says.
    what: ShortWhat,
}

/// Events in order.
#[derive(Drop)]
pub struct ToldList {
    /// What is kept of each.
    kept: Vec<ShortTold>,
    /// What is kept whole of what they say.
    whats: Vec<What>,
}

impl Model for ToldList {
    ghost use Rattle.std.specs.Prelude.{List};
    ghost use Rattle.hub_story.specs.declared.told.Told.{Told};
    ghost use Rattle.hub_story.specs.ToldLists.{told_kept};
    ghost use Rattle.hub_story.specs.ToldKeeps.{ToldKeeps};

    ghost Value = { List Told };

    ghost view = { λ l. told_kept l.kept.items l.whats.items };

    ghost invariant = { λ l. ToldKeeps l };
}

/// What is kept of this, if it need not be kept whole.
fn short_of(what: What) -> Option<ShortWhat>
    ensures says { IfSome result (λ short. (whats : List Said) → what_of whats short ≡ what) }
    ensures stands { IfSome result (λ short. (n : ℕ) → StandsBelow n short) }
{
    match what {
        What::Fired {
            case,
            outcome: Outcome::Sent,
        } => Some(ShortWhat::Sent(case)),
        What::Stalled => Some(ShortWhat::Stalled),
        What::Cancelled => Some(ShortWhat::Cancelled),
        _ => None,
    }
}

/// What was said of which this is kept.
fn what_of(short: ShortWhat, whats: &[What]) -> What
    ensures { result ≡ what_of whats.now short }
{
    match short {
        ShortWhat::Sent(case) => What::Fired {
            case,
            outcome: Outcome::Sent,
        },
        ShortWhat::Stalled => What::Stalled,
        ShortWhat::Cancelled => What::Cancelled,
        ShortWhat::Whole(place) => {
            let what = whats.get(place as usize).copied();
            what.unwrap_or(What::Stalled)
        }
    }
}

/// The event of which this is kept.
fn told_again(short: ShortTold, whats: &[What]) -> Told
    ensures { result ≡ told_again whats.now short }
{
    Told {
        asked: short.asked,
        by: short.by,
        event: Event {
            pid: short.pid,
            what: what_of(short.what, whats),
        },
    }
}

impl ToldList {
    /// No event.
    pub(crate) fn new(alloc: Global) -> ToldList
        ensures { result ≡ [] }
    {
        ToldList {
            kept: Vec::new(alloc),
            whats: Vec::new(alloc),
        }
    }

    /// How many there are.
    pub(crate) fn len(&self) -> usize
        ensures { result ≡ length self.now }
    {
        self.kept.len()
    }

    /// Appends one of which this is kept.
    fn push_short(&mut self, told: &Told, what: ShortWhat) -> Result<(), AllocError>
        requires says { (whats : List Said) → what_of whats what ≡ told.now.event.what }
        requires stands { (n : ℕ) → StandsBelow n what }
        ensures { OnOk result (self.new ≡ self.old ++ told.now ∷ []) }
    {
        self.kept.reserve(1)?;
        self.kept.push_reserved(ShortTold {
            asked: told.asked,
            by: told.by,
            pid: told.event.pid,
            what,
        });
        Ok(())
    }

    /// Appends one, of which what it says is kept whole. So many that their places do not fit find no memory.
    fn push_whole(&mut self, told: &Told) -> Result<(), AllocError>
        ensures { OnOk result (self.new ≡ self.old ++ told.now ∷ []) }
    {
        let place = self.whats.len();
        if place > u32::MAX as usize {
            return Err(AllocError);
        }
        self.kept.reserve(1)?;
        self.whats.reserve(1)?;
        self.whats.push_reserved(told.event.what);
        self.kept.push_reserved(ShortTold {
            asked: told.asked,
            by: told.by,
            pid: told.event.pid,
            what: ShortWhat::Whole(place as u32),
        });
        Ok(())
    }

    /// Appends an event.
    pub(crate) fn push(&mut self, told: &Told) -> Result<(), AllocError>
        ensures { OnOk result (self.new ≡ self.old ++ told.now ∷ []) }
    {
        match short_of(told.event.what) {
            Some(what) => self.push_short(told, what),
            None => self.push_whole(told),
        }
    }

    /// The event at this place; `None` behind the last.
    pub(crate) fn get(&self, place: usize) -> Option<Told>
        ensures { result ≡ slice_get self.now place }
    {
        match self.kept.get(place).copied() {
            Some(short) => Some(told_again(short, &self.whats)),
            None => None,
        }
    }

    /// The event at this place.
    pub(crate) fn told(&self, place: usize) -> Told
        requires { place < length self.now }
        ensures { slice_get self.now place ≡ Some result }
    {
        match self.get(place) {
            Some(told) => told,
            None => unreachable!(),
        }
    }
}
