//! How a trial begins: its seats are held, and the first of them makes the ports.

ghost use Rattle.std.specs.Prelude.{◌≡◌, All};

use crate::trouble::Trouble;
use hub_base::Event;
use hub_live::{Held, HubName, LiveHub, Seat, hold_all};
use std::alloc::{AllocError, Global};
use std::sync::Wait;

/// Makes ports of these capacities, and gives the answers in order.
fn make_ports<K: HubName, R: Wait>(
    rt: &R,
    alloc: Global,
    hub: &LiveHub<K>,
    seat: &mut Held<K>,
    capacities: &[u32],
) -> Result<Vec<Event>, Trouble> {
    let mut made = Vec::new(alloc);
    for capacity in capacities {
        let answer = seat.make(rt, hub, *capacity)?;
        made.push(answer).map_err(AllocError::from)?;
    }
    Ok(made)
}

/// The seats, held, once the first of them has made ports of these capacities; and its answers, in order.
pub fn hold_with_ports<K: HubName, R: Wait>(
    rt: &R,
    alloc: Global,
    hub: &LiveHub<K>,
    seats: Vec<Seat>,
    capacities: &[u32],
) -> Result<(Vec<Held<K>>, Vec<Event>), Trouble>
    requires { All (λ s. s.hub ≡ K.name) seats.items }
{
    let mut seats = hold_all::<K>(alloc, seats)?;
    let first = seats.first_mut().ok_or(Trouble::NotStarted)?;
    let made = make_ports(rt, alloc, hub, first, capacities)?;
    Ok((seats, made))
}
