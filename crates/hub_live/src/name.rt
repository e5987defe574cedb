//! What names a hub: its table, and what it was opened with.

use std::marker::Brand;

/// Names one hub.
///
/// What uses a hub is generic over a type `K` of this trait, is given the blank and the seats, and
/// is called with `Brand` for `K`. So its calls can say that hub and seats belong together.
pub trait HubName {
    ghost use Rattle.hub_live.specs.Name.{Name};

    ghost name: { Name };
}

impl HubName for Brand {
    ghost use Rattle.hub_live.specs.Name.{no_name};

    ghost name = { no_name };
}
