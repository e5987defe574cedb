//! A hub as C holds it.

ghost use Rattle.std.specs.Prelude.{◌≡◌, IfOk, IfErr, OnOk};
ghost use Rattle.hub_base.specs.Head.{IsHead, head_of};
ghost use Rattle.hub_base.specs.declared.limits.TheConstants.{MOST_STEPS};
ghost use Rattle.hub_core.specs.HubView.{RefusesOpening, IsLimit, terms_of};
ghost use Rattle.hub_cut.specs.Recorder.{IsKeep};
ghost use Rattle.hub_cut.specs.Faults.{IsNotLegal};
ghost use Rattle.hub_session.specs.Hubs.{head_in};
ghost use Rattle.hub_session.specs.Opens.{IsAnew, IsOpened, IsOpenedEndless, IsOpenedFollowing};

use hub_base::{Edition, Head};
use hub_core::{Hub, OpenFault, ShortHub};
use hub_cut::ChainFault;
use hub_live::under_lock::Locked;
use hub_served::{AfterDivergence, EndlessHub, Follower};
use std::alloc::Global;

/// A hub as it was opened, and the answers that wait.
#[derive(Drop)]
pub enum Opened {
    /// One whose journal ends at a limit.
    Limited(Locked),
    /// One that cuts itself.
    Endless(EndlessHub),
    /// One that follows a journal.
    Following(Follower),
}

impl Opened {
    /// What the journal's head lines say.
    pub(crate) fn head(&self) -> Head
        ensures { result ≡ head_in self.now }
    {
        match self {
            Opened::Limited(locked) => locked.head(),
            Opened::Endless(endless) => endless.head(),
            Opened::Following(follower) => follower.locked().head(),
        }
    }
}

/// A hub as it was opened, and what C reads of it.
#[derive(Drop)]
pub struct Session {
    /// The hub, and the answers that wait.
    pub(crate) hub: Opened,
    /// The hub as it was two cuts ago: its journal is the chapter that waits to be read and let go.
    pub(crate) chapter: Option<ShortHub>,
    /// Whether chapters that are no longer kept wait to be read. Else they go.
    pub(crate) hands_out: bool,
    /// Where pieces of a text are put together.
    pub(crate) pieces: Vec<u8>,
}

impl Session {
    /// A hub at which nothing has happened. Refused as `Hub::open` is.
    pub(crate) fn open(
        alloc: Global,
        procs: u8,
        limit: u32,
        edition: Edition,
    ) -> Result<Session, OpenFault>
        ensures ok { IfOk result (λ s. IsOpened edition procs limit s) }
        ensures bounds { OnOk result (IsHead (head_of edition procs) × IsLimit limit) }
        ensures err { IfErr result (λ f. RefusesOpening (terms_of edition procs limit) f) }
    {
        let hub = Hub::open(alloc, procs, limit, edition)?;
        Ok(Session::of(alloc, Opened::Limited(Locked::of(hub)), false))
    }

    /// A hub that never ends, at which nothing has happened. Refused as `EndlessHub::open` is.
    pub(crate) fn open_endless(
        alloc: Global,
        procs: u8,
        keep: u32,
        edition: Edition,
        hands_out: bool,
    ) -> Result<Session, OpenFault>
        requires keep { IsKeep keep }
        ensures ok { IfOk result (λ s. IsOpenedEndless edition procs keep hands_out s) }
        ensures bounds { OnOk result (IsHead (head_of edition procs)) }
        ensures err { IfErr result (λ f. RefusesOpening (terms_of edition procs MOST_STEPS) f) }
    {
        let hub = EndlessHub::open(alloc, procs, keep, edition)?;
        // That there is such a number of processes is told where the head is shown.
        let _head = hub.present().head();
        Ok(Session::of(alloc, Opened::Endless(hub), hands_out))
    }

    /// A hub that follows the journal of this text, at which nothing has happened. Refused as `Follower::open` is.
    pub(crate) fn open_following(
        alloc: Global,
        text: &[u8],
        after: AfterDivergence,
    ) -> Result<Session, ChainFault>
        ensures ok { IfOk result (λ s. IsOpenedFollowing text.now after s) }
        ensures err { IfErr result (λ f. IsNotLegal text.now f) }
    {
        let hub = Follower::open(alloc, text, after)?;
        Ok(Session::of(alloc, Opened::Following(hub), false))
    }

    /// A hub, and no chapter that waits.
    fn of(alloc: Global, hub: Opened, hands_out: bool) -> Session
        ensures { IsAnew hub hands_out result }
    {
        Session {
            hub,
            chapter: None,
            hands_out,
            pieces: Vec::new(alloc),
        }
    }
}
