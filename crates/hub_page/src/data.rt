//! The data of a page.

ghost use Rattle.std.specs.Prelude.{◌≡◌, ◌<◌, ◌+◌, ◌-◌, ◌*◌, ◌^◌, ◌++◌, length, IfErr, IfOk, OnErr, OnOk};
ghost use Rattle.std.specs.Io.KnownBytes.{Appends};
ghost use Rattle.hub_base.specs.Head.{IsHead};
ghost use Rattle.hub_base.specs.Reading.{head_lines};
ghost use Rattle.hub_replay.specs.Devices.{AppendsBeginning};
ghost use Rattle.hub_replay.specs.ViewFaults.{Fails};
ghost use Rattle.hub_story.specs.Clock.{clock_of};
ghost use Rattle.hub_page.specs.Data.{block_begin, block_count, clock_words, whole_blocks, window_line};
ghost use Rattle.hub_page.specs.Known.{IsKnown, entries_of, head_of};
ghost use Rattle.hub_page.specs.KnownPage.{all_blocks, block_of, data_of};
ghost use Rattle.hub_page.specs.Past.{IsPast};

use crate::block::Block;
use crate::known::Known;
use crate::limits::BLOCK;
use crate::number::put_number;
use crate::past::Past;
use crate::sketch::{Sketch, put_sketch};
use crate::step_lines::put_lines;
use hub_base::{NoMemory, Pid};
use hub_core::CaseRoom;
use hub_replay::{Sink, ViewFault, write_whole};
use hub_story::Window;
use hub_text::write_head;
use std::alloc::{AllocError, Global};

/// How many blocks so many steps have.
fn block_count(count: usize) -> usize
    requires { count < 2 ^ 32 }
    ensures value { result ≡ block_count count }
    ensures few { BLOCK * result < 2 ^ 33 }
{
    (count + (BLOCK - 1)) / BLOCK
}

/// Where the block of this number begins, of so many steps.
fn block_begin(count: usize, number: usize) -> usize
    requires { BLOCK * number < 2 ^ 33 }
    ensures { result ≡ block_begin count number }
{
    (BLOCK * number).min(count)
}

/// The blocks of so many steps of which the window has some, whole.
pub(crate) fn whole_blocks(count: usize, window: Window) -> Window
    requires { count < 2 ^ 32 - 1 }
    ensures { result ≡ whole_blocks count window }
{
    Window {
        first: block_begin(count, window.first as usize / BLOCK) as u32,
        end: block_begin(count, block_count(window.end as usize)) as u32,
    }
}

/// Makes the text of the block of this number, in place of what `text` has.
fn make_block(
    text: &mut Vec<u8>,
    past: &mut Past,
    room: &mut CaseRoom,
    known: &Known<'_>,
    number: usize,
) -> Result<(), NoMemory>
    requires known { IsKnown known.now }
    requires number { BLOCK * (number + 1) < 2 ^ 33 }
    requires past { IsPast known.now (block_begin (length (entries_of known.now)) number) past.old }
    ensures text { OnOk result (text.new.items ≡ block_of known.now number) }
    ensures past { OnOk result (IsPast known.now (block_begin (length (entries_of known.now)) (number + 1)) past.new) }
{
    let count = known.entries().len();
    let first = block_begin(count, number);
    let end = block_begin(count, number + 1);
    let mut block = Block::new(*text.allocator(), known, past, first as u32)?;
    text.clear();
    put_lines(text, past, &mut block, room, known, end)?;
    let sketch = Sketch {
        known,
        past,
        block: &block,
        end: end as u32,
    };
    put_sketch(text, &sketch)?;
    Ok(())
}

/// Writes all blocks, each as soon as its text is made.
fn write_blocks<W: Sink>(
    output: &mut W,
    alloc: Global,
    past: &mut Past,
    known: &Known<'_>,
) -> Result<(), ViewFault>
    requires known { IsKnown known.now }
    requires past { IsPast known.now 0 past.old }
    ensures whole { OnOk result (Appends (W.contents output.old) (W.contents output.new) (all_blocks known.now)) }
    ensures beginning { OnErr result (AppendsBeginning (W.contents output.old) (W.contents output.new) (all_blocks known.now)) }
    ensures err { IfErr result (Fails (W.failures output.old) (W.failures output.new)) }
    ensures ok { OnOk result (W.failures output.new ≡ W.failures output.old) }
    ensures past { OnOk result (IsPast known.now (length (entries_of known.now)) past.new) }
{
    let mut text = Vec::new(alloc);
    let mut room = CaseRoom::new();
    for number in 0..block_count(known.entries().len()) {
        make_block(&mut text, past, &mut room, known, number)?;
        write_whole(output, &text)?;
    }
    Ok(())
}

/// Appends which process is the clock, if one is.
fn put_clock(out: &mut Vec<u8>, clock: Option<Pid>) -> Result<(), AllocError>
    ensures { OnOk result (out.new.items ≡ out.old.items ++ clock_words clock) }
{
    match clock {
        Some(clock) => put_number(out, b" clock ", clock.0.into()),
        None => Ok(()),
    }
}

/// Appends which steps are asked for, and which process is the clock.
fn put_window(out: &mut Vec<u8>, window: Window, clock: Option<Pid>) -> Result<(), AllocError>
    ensures { OnOk result (out.new.items ≡ out.old.items ++ window_line window clock) }
{
    put_number(out, b"steps ", u64::from(window.first) + 1)?;
    put_number(out, b" ", window.end.into())?;
    put_clock(out, clock)?;
    out.extend_from_slice(b"\n")
}

/// The lines before the blocks.
fn first_lines(alloc: Global, known: &Known<'_>, window: Window) -> Result<Vec<u8>, NoMemory>
    requires known { IsKnown known.now }
    requires head { IsHead (head_of known.now) }
    ensures { IfOk result (λ lines. lines.items ≡ head_lines (head_of known.now)
        ++ window_line window (clock_of (head_of known.now) (entries_of known.now))) }
{
    let mut lines = Vec::new(alloc);
    let head = known.explained.journal.head();
    write_head(&mut lines, head.edition, head.procs)?;
    put_window(&mut lines, window, known.explained.clock)?;
    Ok(lines)
}

/// Writes the data of a page: of blocks of all steps what they have in common, and what each
/// step of the window asks and what is told by it, with the other steps without which these could not be understood.
pub(crate) fn write_data<W: Sink>(
    output: &mut W,
    alloc: Global,
    past: &mut Past,
    known: &Known<'_>,
    window: Window,
) -> Result<(), ViewFault>
    requires known { IsKnown known.now }
    requires window { known.now.window ≡ whole_blocks (length (entries_of known.now)) window }
    requires head { IsHead (head_of known.now) }
    requires past { IsPast known.now 0 past.old }
    ensures whole { OnOk result (Appends (W.contents output.old) (W.contents output.new) (data_of window known.now)) }
    ensures beginning { OnErr result (AppendsBeginning (W.contents output.old) (W.contents output.new) (data_of window known.now)) }
    ensures err { IfErr result (Fails (W.failures output.old) (W.failures output.new)) }
    ensures ok { OnOk result (W.failures output.new ≡ W.failures output.old) }
    ensures past { OnOk result (IsPast known.now (length (entries_of known.now)) past.new) }
{
    let lines = first_lines(alloc, known, window)?;
    write_whole(output, &lines)?;
    write_blocks(output, alloc, past, known)
}
