//! What is asked of a journal.

ghost use Rattle.std.specs.Prelude.{◌≡◌, ◌<◌, ◌-◌, ◌^◌, length, IfOk, IfErr, OnErr, OnOk};
ghost use Rattle.hub_base.specs.ReadJournal.{IsFaultOf};
ghost use Rattle.hub_base.specs.Head.{IsHead};
ghost use Rattle.hub_base.specs.Text.{IsText};
ghost use Rattle.hub_replay.specs.Devices.{AppendsSome, Failed};
ghost use Rattle.hub_replay.specs.ViewFaults.{Fails};
ghost use Rattle.chanhub_tool.specs.Explains.{Explains, IsBegun, IsWhole};
ghost use Rattle.chanhub_tool.specs.Promises.{HasRefused};

use crate::asked::{Asked, Form, window_of};
use crate::fault::StoryFault;
use hub_base::{MOST_BYTES, ReadFault};
use hub_core::{ShortJournal, read_short_journal};
use hub_page::write_page;
use hub_picture::{drawing_of, write_svg};
use hub_replay::{Sink, Source, ViewFault, read_up_to};
use hub_story::{Window, story_of};
use hub_story_text::write_story;
use hub_trace::{write_diagram, write_trace};
use std::alloc::Global;

/// The journal that these bytes are the text of. They are let go.
fn journal_of(alloc: Global, bytes: Vec<u8>) -> Result<ShortJournal, ReadFault>
    ensures found { IfOk result (λ j. IsText bytes.items j.head j.entries) }
    ensures faulty { IfErr result (λ f. IsFaultOf bytes.items f) }
{
    read_short_journal(alloc, &bytes)
}

/// Writes these steps of a journal in this form.
fn write_form<W: Sink>(
    alloc: Global,
    form: Form,
    journal: &ShortJournal,
    window: Window,
    output: &mut W,
) -> Result<(), ViewFault>
    requires head { IsHead journal.now.head }
    requires few { length journal.now.entries < 2 ^ 32 - 1 }
    ensures whole { OnOk result (AppendsSome (IsWhole form window journal.now) (W.contents output.old) (W.contents output.new)) }
    ensures beginning { OnErr result (AppendsSome (IsBegun form window journal.now) (W.contents output.old) (W.contents output.new)) }
    ensures err { IfErr result (Fails (W.failures output.old) (W.failures output.new)) }
{
    match form {
        Form::Text(paint) => write_story(alloc, journal, window, paint, output),
        Form::Picture => {
            let story = story_of(alloc, journal)?;
            let drawing = drawing_of(alloc, journal, &story, window)?;
            write_svg(alloc, &drawing, output)
        }
        Form::Mermaid => write_diagram(alloc, journal, window, output),
        Form::Trace => write_trace(alloc, journal, output),
        Form::Page => write_page(alloc, journal, window, output),
    }
}

/// Reads a journal to its end, or until more than `MOST_BYTES` bytes have come, and writes what is asked of it. Nothing is
/// tried again.
pub(crate) fn write_explanation<S: Source, W: Sink>(
    alloc: Global,
    asked: Asked,
    input: &mut S,
    output: &mut W,
) -> Result<(), StoryFault>
    ensures ok { OnOk result (Explains asked (S.remaining input.old) (S.remaining input.new)
        (W.contents output.old) (W.contents output.new) IsWhole) }
    ensures err { IfErr result (HasRefused asked (S.remaining input.old) (S.remaining input.new)
        (output.new ≡ output.old)
        (Failed (S.failures input.old) (S.failures input.new))
        (Failed (W.failures output.old) (W.failures output.new))
        (W.failures output.new ≡ W.failures output.old)
        (Explains asked (S.remaining input.old) (S.remaining input.new)
        (W.contents output.old) (W.contents output.new) IsBegun)) }
{
    let bytes = read_up_to(alloc, input, MOST_BYTES)?;
    let journal = journal_of(alloc, bytes)?;
    let window = window_of(asked, journal.entries().len())?;
    write_form(alloc, asked.form, &journal, window, output)?;
    Ok(())
}
