//! The seats of processes: what a process steps with, and what it has seen.

ghost use Rattle.std.specs.Prelude.{◌≡◌, ◌<◌, Some};
ghost use Rattle.hub_live.specs.SeatView.{IsIdle};
ghost use Rattle.hub_live.specs.Seated.{IsAlone, seat_of};

use crate::rule::Token;
use hub_base::Pid;
use std::marker::Model;

/// The seat of a process, which may have an open call.
#[derive(Drop)]
pub struct InnerSeat {
    /// The process whose seat it is.
    pub(crate) pid: Pid,
    /// Taken out while it is joined to another.
    pub(crate) token: Option<Token>,
}

impl Model for InnerSeat {
    ghost use Rattle.hub_live.specs.SeatView.{SeatView};

    ghost Value = { SeatView };

    ghost use Rattle.hub_live.specs.Seated.{IsSeated, seat_of};

    ghost view = { λ p. seat_of p.pid p.token };

    ghost invariant = { λ p. IsSeated p.pid p.token };
}

impl InnerSeat {
    pub(crate) fn of(pid: Pid, token: Token) -> InnerSeat
        requires { IsAlone pid token }
        ensures { result ≡ seat_of pid (Some token) }
    {
        InnerSeat {
            pid,
            token: Some(token),
        }
    }

    /// Its process, which is one of its hub's.
    pub fn pid(&self) -> Pid
        ensures pid { result ≡ self.now.pid }
        ensures below { result.0 < self.now.hub.terms.head.procs }
    {
        self.pid
    }
}

/// The seat of a process that has no open call.
#[derive(Drop)]
pub struct Seat {
    /// What the hub's calls take.
    pub(crate) inner: InnerSeat,
}

impl Model for Seat {
    ghost use Rattle.hub_live.specs.SeatView.{SeatView, IsIdle};

    ghost Value = { SeatView };

    ghost view = { λ s. s.inner };

    ghost invariant = { λ s. IsIdle s.inner };
}

impl Seat {
    pub(crate) fn of(inner: InnerSeat) -> Seat
        requires { IsIdle inner }
        ensures { result ≡ inner }
    {
        Seat { inner }
    }

    /// Its process, which is one of its hub's. What the seat has seen is a legal journal, in which
    /// the process has no open call.
    pub fn pid(&self) -> Pid
        ensures pid { result ≡ self.now.pid }
        ensures below { result.0 < self.now.hub.terms.head.procs }
        ensures idle { IsIdle self.now }
    {
        self.inner.pid()
    }

    pub(crate) fn into_inner(self) -> InnerSeat
        ensures inner { result ≡ self }
        ensures idle { IsIdle result }
    {
        let Seat { inner } = self;
        inner
    }
}
