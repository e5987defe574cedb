//! What stands in every page, whatever its journal: the files of the folder `viewer`.

ghost use Rattle.std.specs.Prelude.{◌≡◌, OnErr, OnOk};
ghost use Rattle.std.specs.Io.KnownBytes.{Appends};
ghost use Rattle.hub_replay.specs.Devices.{AppendsBeginning, Failed};
ghost use Rattle.hub_page.specs.Viewer.{after_text, before_text, between_text};

mod body;
mod data;
mod end;
mod head;
mod main;
mod paint;
mod panel;
mod scripts;
mod story;
mod style;
mod view;

use hub_replay::{Sink, WriteFailed, write_pieces, write_whole};

/// Writes what stands before the data.
pub(crate) fn write_before<W: Sink>(output: &mut W) -> Result<(), WriteFailed>
    ensures whole { OnOk result (Appends (W.contents output.old) (W.contents output.new) before_text) }
    ensures beginning { OnErr result (AppendsBeginning (W.contents output.old) (W.contents output.new) before_text) }
    ensures err { OnErr result (Failed (W.failures output.old) (W.failures output.new)) }
    ensures ok { OnOk result (W.failures output.new ≡ W.failures output.old) }
{
    write_pieces(output, &[head::TEXT, style::TEXT, body::TEXT])
}

/// Writes what stands between the data and the end of the story.
pub(crate) fn write_between<W: Sink>(output: &mut W) -> Result<(), WriteFailed>
    ensures whole { OnOk result (Appends (W.contents output.old) (W.contents output.new) between_text) }
    ensures beginning { OnErr result (AppendsBeginning (W.contents output.old) (W.contents output.new) between_text) }
    ensures err { OnErr result (Failed (W.failures output.old) (W.failures output.new)) }
    ensures ok { OnOk result (W.failures output.new ≡ W.failures output.old) }
{
    write_whole(output, story::TEXT.as_bytes())
}

/// Writes what stands behind the end of the story.
pub(crate) fn write_after<W: Sink>(output: &mut W) -> Result<(), WriteFailed>
    ensures whole { OnOk result (Appends (W.contents output.old) (W.contents output.new) after_text) }
    ensures beginning { OnErr result (AppendsBeginning (W.contents output.old) (W.contents output.new) after_text) }
    ensures err { OnErr result (Failed (W.failures output.old) (W.failures output.new)) }
    ensures ok { OnOk result (W.failures output.new ≡ W.failures output.old) }
{
    write_pieces(
        output,
        &[
            scripts::TEXT,
            data::FIRST,
            data::SECOND,
            view::TEXT,
            paint::FIRST,
            paint::SECOND,
            panel::TEXT,
            main::TEXT,
            end::TEXT,
        ],
    )
}
