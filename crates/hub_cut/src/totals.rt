//! What a port has carried since its recorder was opened, in counts of 64 bits that a cut does not begin again.

ghost use Rattle.std.specs.Prelude.{◌≡◌, ◌≤◌, ◌<◌, ◌+◌, ◌^◌, ℕ, length, slice_index};
ghost use Rattle.hub_base.specs.Notation.{port};
ghost use Rattle.hub_core.specs.HubView.{state_of};
ghost use Rattle.hub_chapters.specs.Carried.{received_count};
ghost use Rattle.hub_cut.specs.Totals.{in_64_bits, with_base};

use hub_base::{Look, MOST_PORTS, Port};
use hub_core::ShortHub;

/// A place for each number of a port, from 0 on.
pub(crate) const PORT_PLACES: usize = MOST_PORTS + 1;

/// What a port holds, and what it has carried since its recorder was opened.
#[derive(Clone, Copy, Debug, Default, PartialEq, Eq)]
pub struct Totals {
    /// The capacity, 0 to `MOST_CAP`.
    pub cap: u32,
    /// How many values were sent and not yet received.
    pub len: u32,
    /// How many sends completed, or the greatest number if there were more.
    pub sent: u64,
    /// How many values were received, or the greatest number if there were more.
    pub received: u64,
    /// Whether the port is closed.
    pub closed: bool,
}

/// The totals of a port on which so many values were received before the present chapter.
pub(crate) fn with_base(base: u64, look: Look) -> Totals
    ensures { result ≡ with_base base look }
{
    Totals {
        cap: look.cap,
        len: look.counts.len,
        sent: base.saturating_add(look.counts.sent.into()),
        received: base.saturating_add(look.counts.received.into()),
        closed: look.counts.closed,
    }
}

/// The counts before anything was received.
pub(crate) fn no_bases() -> [u64; PORT_PLACES]
    ensures { (n : ℕ) → slice_index result n ≡ 0 }
{
    [0; PORT_PLACES]
}

/// The count that stands at a port's number, or 0 behind the last.
pub(crate) fn base_of(bases: &[u64], port: Port) -> u64
    ensures { result ≡ slice_index bases.now port.0 }
{
    match bases.get(port.0 as usize) {
        Some(base) => *base,
        None => 0,
    }
}

/// How many values were received on a port in the hub's journal.
fn received(hub: &ShortHub, port: Port) -> u64
    ensures { result ≡ received_count (state_of hub.now.memory.hub) port }
{
    match hub.look(port) {
        Some(look) => look.counts.received.into(),
        None => 0,
    }
}

/// Adds to each port's count, which stands at its number, what was received on it in the hub's journal.
pub(crate) fn add_received(bases: &mut [u64], hub: &ShortHub)
    requires few { length bases.old ≤ 2 ^ 16 }
    ensures { (n : ℕ) → n < length bases.old → slice_index bases.new n
        ≡ in_64_bits (slice_index bases.old n + received_count (state_of hub.now.memory.hub) (port n)) }
{
    for (number, base) in bases.iter_mut().enumerate() {
        *base = base.saturating_add(received(hub, Port(number as u16)));
    }
}
