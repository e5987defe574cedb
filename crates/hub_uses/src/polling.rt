//! A select that does not wait, and what a channel holds.

ghost use Rattle.std.specs.Prelude.{◌≡◌, ℕ, Some, IfOk, IfSome};
ghost use Rattle.std.specs.Option.{option_map_or};
ghost use Rattle.hub_base.specs.declared.event.What.TheVariants as what;
ghost use Rattle.hub_base.specs.declared.event.Outcome.TheVariants.{Got};
ghost use Rattle.hub_live.specs.Calls.{Later};
ghost use Rattle.hub_live.specs.Mark.{counts_at};
ghost use Rattle.hub_live.specs.SeatView.{state_seen};
ghost use Rattle.hub_live.specs.Values.{last_answer};

use hub_base::{Cases, Fault, Outcome, Value, What};
use hub_live::{Chan, Held, HubName, LiveHub};
use std::sync::Wait;

/// Receives a value from one of two channels, if it can at once; where both can, the choice word picks.
/// `None` where neither can, where the one picked is closed and drained, and where one is not made.
///
/// Refused as a call is.
pub fn poll<K: HubName, R: Wait>(
    rt: &R,
    hub: &LiveHub<K>,
    seat: &mut Held<K>,
    one: Chan,
    other: Chan,
    word: u64,
) -> Result<Option<Value>, Fault>
    ensures later { Later seat.old seat.new }
    ensures found { IfOk result (λ r. IfSome r (λ v.
        (i : ℕ) × (last_answer seat.new ≡ Some (what.Fired i (Got v))))) }
{
    let mut cases = Cases::new();
    cases.push(one.receiver().recv());
    cases.push(other.receiver().recv());
    match seat.call(rt, hub, cases, true, word)?.what {
        What::Fired {
            outcome: Outcome::Got(value),
            ..
        } => Ok(Some(value)),
        _ => Ok(None),
    }
}

/// How many values wait in the channel, as far as the seat has then seen; 0 where it is not made. It
/// takes no lock.
pub fn waiting<K: HubName>(hub: &LiveHub<K>, seat: &mut Held<K>, chan: Chan) -> u32
    ensures later { Later seat.old seat.new }
    ensures len { result ≡ option_map_or (λ c. c.len) (counts_at (state_seen seat.new) chan) 0 }
{
    seat.look(hub, chan.port()).map_or(0, |counts| counts.len)
}
