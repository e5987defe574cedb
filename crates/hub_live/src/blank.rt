//! A hub that has no name yet.

ghost use Rattle.std.specs.Prelude.{◌≡◌, IfOk, IfErr, OnOk, All, vec_len};
ghost use Rattle.hub_base.specs.Head.{IsHead, head_of};
ghost use Rattle.hub_core.specs.HubView.{RefusesOpening, IsLimit, opened_hub, terms_of};
ghost use Rattle.hub_live.specs.Locked.{none_waits};
ghost use Rattle.hub_live.specs.Name.{name_of};
ghost use Rattle.hub_live.specs.Calls.{AreSeats};
ghost use Rattle.hub_live.specs.Rule.{word_count};

use crate::desk::Desk;
use crate::live_hub::LiveHub;
use crate::locked::Locked;
use crate::name::HubName;
use crate::parker::Parker;
use crate::rule::{HubTable, Token};
use crate::seat::{InnerSeat, Seat};
use crate::words::{Words, draw, open_table};
use hub_base::{Edition, Head, Pid};
use hub_core::{Hub, OpenFault, Terms};
use std::alloc::{AllocError, Global};
use std::marker::Model;

/// A hub that has no name yet. To a contract it is the name that it can have, and what is to lie
/// under its lock.
#[derive(Drop)]
pub struct Blank {
    /// The words, on which nothing was written.
    table: HubTable,
    /// The seat of the table that is the hub's own.
    token: Token,
    /// The hub, at which nothing has happened.
    locked: Locked,
    /// What the thread of each process waits on.
    wakers: Vec<Parker>,
}

impl Model for Blank {
    ghost use Rattle.std.specs.Prelude.{vec_len};
    ghost use Rattle.hub_live.specs.Name.{name_of};
    ghost use Rattle.hub_live.specs.Seated.{BlankView, IsBlank};

    ghost Value = { BlankView };

    ghost view = { λ b.
        record { name = name_of b.table.shared.table_id b.table.shared.key; locked = b.locked } };

    ghost invariant = { λ b.
        IsBlank b.table.shared.table_id b.table.shared.key b.locked b.token (vec_len b.wakers) };
}

/// A parker for each process.
fn wakers_of(alloc: Global, procs: u8) -> Result<Vec<Parker>, AllocError>
    ensures { IfOk result (λ wakers. vec_len wakers ≡ procs) }
{
    let mut wakers = Vec::new(alloc);
    for _pid in 0..procs {
        wakers.push(Parker::new())?;
    }
    Ok(wakers)
}

/// A seat for each process, in order.
fn seats_of(alloc: Global, table: &HubTable, procs: u8) -> Result<Vec<Seat>, AllocError>
    requires words { table.now.shared.table_id.words ≡ word_count }
    requires slots { table.now.shared.table_id.slots ≡ 0 }
    requires procs { table.now.shared.key.head.procs ≡ procs }
    ensures count { IfOk result (λ seats. vec_len seats ≡ procs) }
    ensures seats { IfOk result (λ seats.
        AreSeats (name_of table.now.shared.table_id table.now.shared.key) 0 seats.items) }
{
    let mut seats = Vec::new(alloc);
    for pid in 0..procs {
        let token = draw(table, u64::from(pid) + 1)?;
        let inner = InnerSeat::of(Pid(pid), token);
        seats.push(Seat::of(inner))?;
    }
    Ok(seats)
}

/// What threads share beside the hub, put around it, and a seat for each process, in order.
fn blank_over(alloc: Global, hub: Hub, terms: Terms) -> Result<(Blank, Vec<Seat>), AllocError>
    requires hub { hub.memory.hub ≡ opened_hub terms }
    requires bounds { IsHead terms.head × IsLimit terms.limit }
    ensures hub { IfOk result (λ r. r.0.locked ≡ none_waits (opened_hub terms)) }
    ensures terms { IfOk result (λ r. r.0.name.terms ≡ terms) }
    ensures count { IfOk result (λ r. vec_len r.1 ≡ terms.head.procs) }
    ensures seats { IfOk result (λ r. AreSeats r.0.name 0 r.1.items) }
{
    let (table, token) = open_table(alloc, terms)?;
    let wakers = wakers_of(alloc, terms.head.procs)?;
    let seats = seats_of(alloc, &table, terms.head.procs)?;
    let blank = Blank {
        table,
        token,
        locked: Locked::of(hub),
        wakers,
    };
    Ok((blank, seats))
}

impl Blank {
    /// A hub of this edition, of 1 to `MOST_PROCS` processes, whose journal may hold 1 to `MOST_STEPS` entries that are no
    /// exits, and a seat for each process, in order. Refused as `Hub::open` is, and nothing is kept; by
    /// `NoMemory` also where the words, the parkers or the seats were refused memory, or a
    /// seat can't draw its number.
    #[tactic(auto, using(crate::proofs::Laters::all_of_hub, crate::proofs::Openings::refused_so, crate::proofs::Openings::memory_refused))]
    pub fn open(
        alloc: Global,
        procs: u8,
        limit: u32,
        edition: Edition,
    ) -> Result<(Blank, Vec<Seat>), OpenFault>
        ensures hub { IfOk result (λ r. r.0.locked ≡ none_waits (opened_hub (terms_of edition procs limit))) }
        ensures terms { IfOk result (λ r. r.0.name.terms ≡ terms_of edition procs limit) }
        ensures bounds { OnOk result (IsHead (head_of edition procs) × IsLimit limit) }
        ensures count { IfOk result (λ r. vec_len r.1 ≡ procs) }
        ensures seats { IfOk result (λ r. AreSeats r.0.name 0 r.1.items) }
        ensures together { IfOk result (λ r. All (λ s. s.hub ≡ r.0.name) r.1.items) }
        ensures err { IfErr result (λ f. RefusesOpening (terms_of edition procs limit) f) }
    {
        let hub = Hub::open(alloc, procs, limit, edition)?;
        let terms = Terms {
            head: Head { edition, procs },
            limit,
        };
        Ok(blank_over(alloc, hub, terms)?)
    }

    /// The hub under its name.
    pub fn named<K: HubName>(self) -> LiveHub<K>
        requires { self.name ≡ K.name }
    {
        let Blank {
            table,
            token,
            locked,
            wakers,
        } = self;
        LiveHub::of(
            locked.head(),
            Words::of(table),
            Desk::of(locked, token),
            wakers,
        )
    }
}
