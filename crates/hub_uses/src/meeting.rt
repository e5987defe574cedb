//! What one process knows becomes known to another, without a step of either.

ghost use Rattle.std.specs.Prelude.{◌≡◌};
ghost use mathlib.Core.List.{IsPrefix};

use hub_live::{Held, HubName, LiveHub};

/// Each has then seen what the other had seen. A look of either shows what both had done before.
pub fn share<K: HubName>(hub: &LiveHub<K>, first: &mut Held<K>, second: &mut Held<K>)
    ensures together { first.new.seen ≡ second.new.seen }
    ensures first { IsPrefix second.old.seen first.new.seen }
    ensures second { IsPrefix first.old.seen second.new.seen }
{
    first.meet(hub, second);
}
