//! What is told of one port, without a look at every entry for each port.
//!
//! Only the places of what is told of a port are kept: the story of a long journal tells much, and holds it once.

ghost use Rattle.std.specs.Prelude.{◌≡◌, ◌<◌, ◌++◌, [], filter, length, slice_index_or, IfOk, OnOk};
ghost use Rattle.hub_base.specs.declared.value.Port.{Port as PortNumber};
ghost use Rattle.hub_story.specs.OfPorts.{things_on};
ghost use Rattle.hub_picture.specs.Drawings.{makes_port};
ghost use Rattle.hub_picture.specs.Moves.{StandAt, is_told_on, place_on};

use hub_base::{MOST_PORTS, Port, What};
use hub_core::ShortEntries;
use hub_story::{ByPort, Told, move_of};
use std::alloc::{AllocError, Global};
use std::marker::Model;

/// Takes in the place of what is told next, where a value moved.
fn note(
    all: &mut ByPort<u32>,
    entries: &ShortEntries,
    told: &Told,
    place: u32,
) -> Result<(), AllocError>
    ensures { OnOk result ((q : PortNumber) → things_on all.new q
        ≡ things_on all.old q ++ place_on entries.now q told.now place) }
{
    let Some(moved) = move_of(entries, told) else {
        return Ok(());
    };
    all.push(moved.port, place)?;
    Ok(())
}

/// The places in `told` of what is told of each port, in order. So many events that their places do not fit find no
/// memory.
fn places_by_port(
    alloc: Global,
    entries: &ShortEntries,
    told: &[Told],
) -> Result<ByPort<u32>, AllocError>
    ensures { IfOk result (λ all. (q : PortNumber) →
        StandAt told.now (things_on all q) (filter (is_told_on entries.now q) told.now)) }
{
    if told.len() > u32::MAX as usize {
        return Err(AllocError);
    }
    let mut all = ByPort::new(alloc)?;
    for place in 0..told.len() {
        note(&mut all, entries, &told[place], place as u32)?;
    }
    Ok(all)
}

/// What is told of a port, in order.
#[derive(Drop)]
pub(crate) struct OnPort<'a> {
    /// All that is told.
    told: &'a [Told],
    /// The places there of what is told of the port.
    places: &'a [u32],
}

impl<'a> Model for OnPort<'a> {
    ghost use Rattle.std.specs.Prelude.{List};
    ghost use Rattle.hub_story.specs.declared.told.Told.{Told};
    ghost use Rattle.hub_picture.specs.Moves.{StandAt, all_at};

    ghost Value = { List Told };

    ghost view = { λ p. all_at p.told.now p.places.now };

    ghost invariant = { λ p. StandAt p.told.now p.places.now (all_at p.told.now p.places.now) };
}

impl<'a> OnPort<'a> {
    /// How much it is.
    #[inline(always)]
    pub fn len(&self) -> usize
        ensures { result ≡ length self.now }
    {
        self.places.len()
    }

    /// The thing with this number, counted from 0.
    #[inline(always)]
    pub fn at(&self, index: usize) -> &'a Told
        requires within { index < length self.now }
        ensures { result.now ≡ slice_index_or self.now index result.now }
    {
        let places = self.places;
        &self.told[places[index] as usize]
    }
}

/// Whether it tells that a port was made.
fn makes_port(told: &Told) -> bool
    ensures { result ≡ makes_port told.now }
{
    matches!(told.event.what, What::Made(_))
}

/// That ports were made, in order.
fn made_of(alloc: Global, told: &[Told]) -> Result<Vec<Told>, AllocError>
    ensures { IfOk result (λ made. made.items ≡ filter makes_port told.now) }
{
    let mut made = Vec::new(alloc);
    for told in told {
        if makes_port(told) {
            made.push(*told)?;
        }
    }
    Ok(made)
}

/// What is told, and apart from it the places of what is told of each port.
#[derive(Drop)]
pub(crate) struct Moves<'a> {
    /// The entries of the journal.
    pub entries: &'a ShortEntries,
    /// All that is told.
    pub told: &'a [Told],
    /// The places of what is told of each port, in order.
    by_port: ByPort<u32>,
    /// That ports were made, in order.
    pub made: Vec<Told>,
    ghost makes: { made.items ≡ filter makes_port told.now },
    ghost each: { (q : PortNumber) →
        StandAt told.now (things_on by_port q) (filter (is_told_on entries.now q) told.now) },
}

impl<'a> Moves<'a> {
    ghost use Rattle.std.specs.Prelude.{◌≡◌, ◌≤◌, IfOk, filter};
    ghost use Rattle.hub_picture.specs.Drawings.{ports_of};
    ghost use Rattle.hub_picture.specs.Moves.{is_told_on};

    /// Of these entries.
    pub fn new(
        alloc: Global,
        entries: &'a ShortEntries,
        told: &'a [Told],
    ) -> Result<Moves<'a>, AllocError>
        ensures entries { IfOk result (λ moves. moves.entries.now ≡ entries.entry.now) }
        ensures told { IfOk result (λ moves. moves.told.now ≡ told.entry.now) }
    {
        let by_port = places_by_port(alloc, entries, told)?;
        let made = made_of(alloc, told)?;
        Ok(Moves {
            entries,
            told,
            by_port,
            made,
        })
    }

    /// How many ports were made. No hub has more than `MOST_PORTS`.
    pub fn ports(&self) -> usize
        ensures value { result ≡ ports_of self.now.told.now }
        ensures most { result ≤ MOST_PORTS }
    {
        self.made.len().min(MOST_PORTS)
    }

    /// What is told of a port, in order.
    pub fn on(&self, port: Port) -> OnPort<'_>
        ensures { result ≡ filter (is_told_on self.now.entries.now port) self.now.told.now }
    {
        OnPort {
            told: self.told,
            places: self.by_port.on(port),
        }
    }
}
