//! The text of a drawing: SVG.
#![tactic(auto, using(crate::proofs::Reading::failed))]

ghost use Rattle.std.specs.Prelude.{◌≡◌, IfErr, OnErr, OnOk};
ghost use Rattle.hub_replay.specs.Devices.{AppendsSome};
ghost use Rattle.hub_replay.specs.ViewFaults.{Fails};
ghost use Rattle.hub_picture.specs.Xml.{IsBegun, IsDocument};

mod arrows;
mod bands;
mod bars;
mod boxes;
mod entries;
mod lanes;
mod legend;
mod marks;
mod page;
mod rect;
mod select;
mod shapes;
mod stalls;
mod strips;
mod style;
mod waiters;
mod whom;

use self::bands::write_bands;
use self::page::{put_foot, put_top};
use crate::Drawing;
use hub_replay::{Sink, ViewFault, write_whole};
use std::alloc::Global;

/// Writes the picture of a drawing, as SVG: a document that is well-formed, or a beginning of one. Bands are written as soon
/// as their text is long, and let go.
pub fn write_svg<W: Sink>(alloc: Global, drawing: &Drawing, output: &mut W) -> Result<(), ViewFault>
    ensures whole { OnOk result (AppendsSome IsDocument (W.contents output.old) (W.contents output.new)) }
    ensures beginning { OnErr result (AppendsSome IsBegun (W.contents output.old) (W.contents output.new)) }

    // One write failed, or none where memory was refused.
    ensures err { IfErr result (Fails (W.failures output.old) (W.failures output.new)) }
    ensures ok { OnOk result (W.failures output.new ≡ W.failures output.old) }
{
    let mut text = Vec::new(alloc);
    put_top(&mut text, drawing)?;
    write_bands(output, &mut text, drawing)?;
    put_foot(&mut text, drawing)?;
    write_whole(output, &text)?;
    Ok(())
}
