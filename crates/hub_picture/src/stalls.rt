//! Who was stalled: a band of a drawing on the lane of each.

ghost use Rattle.std.specs.Prelude.{◌≡◌, IfOk, filter};
ghost use Rattle.hub_picture.specs.Drawings.{stalls_in};

use crate::Window;
use hub_story::Told;
use std::alloc::{AllocError, Global};

/// Whether it tells that a call ended in the window because everyone waited.
fn stalls_in(window: Window, told: &Told) -> bool
    ensures { result ≡ stalls_in window told.now }
{
    told.event.what.is_stalled() && window.has(told.by)
}

/// Whoever was stalled in the window, by arrival.
pub(crate) fn all_stalled(
    alloc: Global,
    window: Window,
    told: &[Told],
) -> Result<Vec<Told>, AllocError>
    ensures { IfOk result (λ all. all.items ≡ filter (stalls_in window) told.now) }
{
    let mut all = Vec::new(alloc);
    for told in told {
        if stalls_in(window, told) {
            all.push(*told)?;
        }
    }
    Ok(all)
}
