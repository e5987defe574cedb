//! Writing journals and events. A private function that is refused may leave a part behind, which
//! the public one takes back.

ghost use Rattle.std.specs.Prelude.{◌≡◌, ◌++◌, ◌∷◌, [], codes, decimal, false, length, IfSome, OnOk, OnErr, IsOk, ◌↔◌, take, ◌≤◌, true};
ghost use Rattle.hub_base.specs.EventText.{event_line, EventFits};
ghost use Rattle.hub_base.specs.Lines.{call, case_field, select_fields, call_fields, step_fields, line};
ghost use Rattle.std.specs.List.{flat_map};
ghost use Rattle.std.specs.Vec.{vec_capacity};
ghost use Rattle.hub_base.specs.Head.{IsHead, head_of, is_of};
ghost use Rattle.hub_base.specs.Reading.{head_lines, header, text};
ghost use Rattle.hub_text.specs.Writing.{Appends, spaced, spaced_cases, HasRoomFor};
ghost use Rattle.hub_base.specs.Text.{Fits};
ghost use Rattle.hub_base.specs.Value.{value_field};

use crate::entry_fields::{
    MOST_NUMBER, MOST_PLAIN, MOST_SEND, MOST_WORD, put_number, put_plain, put_send,
};
use crate::event_lines::{MOST_DIGITS, MOST_VALUE, put_event, put_large, put_value};
use crate::limits::MOST_LINE;
use hub_base::{
    Case, Edition, Entry, EntryRef, Event, Head, Journal, MOST_PROCS, NoMemory, Pid, Port, Step,
    StepRef, Value, What,
};
use std::alloc::AllocError;

/// Appends these bytes.
fn put(out: &mut Vec<u8>, bytes: &[u8]) -> Result<(), AllocError>
    ensures appends { Appends out.old out.new bytes.now result }
    ensures unchanged { OnErr result (out.new.items ≡ out.old.items) }
{
    out.extend_from_slice(bytes)
}

/// Appends a word, or what else stands before a number, and the number.
#[inline(always)]
fn put_before_number(out: &mut Vec<u8>, before: &[u8], n: u64) -> Result<(), AllocError>
    requires { length before.now ≤ MOST_WORD }
    ensures { Appends out.old out.new (before.now ++ decimal n) result }
{
    let mut field = [0; MOST_NUMBER];
    let end = put_number(&mut field, 0, before, n);
    put(out, &field[..end])
}

/// Appends a word, or what else stands before a port, the port, a mark and a value.
#[inline(always)]
fn put_sent(
    out: &mut Vec<u8>,
    before: &[u8],
    port: Port,
    mark: u8,
    value: &Value,
) -> Result<(), AllocError>
    requires { length before.now ≤ MOST_WORD }
    ensures { Appends out.old out.new (before.now ++ decimal port.0 ++ mark ∷ value_field value.now) result }
{
    let mut field = [0; MOST_SEND];
    let end = put_send(&mut field, 0, before, port, mark, value);
    put(out, &field[..end])
}

/// The end of an append that began at this place: where a growth was refused, the bytes from there on
/// are taken back.
pub fn undo_if_refused(
    out: &mut Vec<u8>,
    before: usize,
    done: Result<(), AllocError>,
) -> Result<(), NoMemory>
    ensures same { IsOk result ↔ IsOk done }
    ensures ok { OnOk result (out.new.items ≡ out.old.items) }
    ensures err { OnErr result (out.new.items ≡ take before out.old.items) }
    ensures capacity { vec_capacity out.new ≡ vec_capacity out.old }
{
    match done {
        Ok(()) => Ok(()),
        Err(AllocError) => {
            out.truncate(before);
            Err(NoMemory)
        }
    }
}

/// That the event's parts are such as a line can spell. Each number is read, since its type tells the greatest that it can be.
#[inline(always)]
#[tactic(auto, using(hub_base::proofs::Values::every_value))]
fn parts_fit(event: Event)
    ensures { EventFits event }
{
    let _pid = event.pid.0;
    match event.what {
        What::Made(port) => {
            let _port = port.0;
        }
        What::Fired { case, .. } => {
            let _case = case;
        }
        _ => {}
    }
}

/// Appends the event's line; `Err` where a growth was refused, with nothing appended.
pub fn write_event(out: &mut Vec<u8>, event: &Event) -> Result<(), NoMemory>
    ensures ok { OnOk result (out.new.items ≡ out.old.items ++ event_line event.now) }
    ensures err { OnErr result (out.new.items ≡ out.old.items) }
    ensures capacity { vec_capacity out.old ≤ vec_capacity out.new }
    ensures succeeds { HasRoomFor out.old (event_line event.now) → IsOk result }
    ensures fits { EventFits event.now }
{
    parts_fit(*event);
    let mut line = [0; MOST_LINE];
    let end = put_event(&mut line, 0, event);
    put(out, &line[..end])?;
    Ok(())
}

/// Appends a value as a journal spells it; `Err` where a growth was refused, with nothing appended.
pub fn write_value(out: &mut Vec<u8>, value: &Value) -> Result<(), NoMemory>
    ensures ok { OnOk result (out.new.items ≡ out.old.items ++ value_field value.now) }
    ensures err { OnErr result (out.new.items ≡ out.old.items) }
    ensures capacity { vec_capacity out.old ≤ vec_capacity out.new }
    ensures succeeds { HasRoomFor out.old (value_field value.now) → IsOk result }
{
    let mut spelled = [0; MOST_VALUE];
    let end = put_value(&mut spelled, 0, value);
    put(out, &spelled[..end])?;
    Ok(())
}

/// Appends a number as a journal spells it; `Err` where a growth was refused, with nothing appended. Those of processes and
/// ports have mostly one digit.
#[tactic(auto, using(std::proofs::lemmas::Fmt::decimal_digit))]
pub fn write_number(out: &mut Vec<u8>, number: u64) -> Result<(), AllocError>
    ensures ok { OnOk result (out.new.items ≡ out.old.items ++ decimal number) }
    ensures err { OnErr result (out.new.items ≡ out.old.items) }
    ensures capacity { vec_capacity out.old ≤ vec_capacity out.new }
    ensures succeeds { HasRoomFor out.old (decimal number) → IsOk result }
{
    if number < 10 {
        return put(out, &[b'0' + number as u8]);
    }
    let mut digits = [0; MOST_DIGITS];
    let end = put_large(&mut digits, 0, number);
    put(out, &digits[..end])
}

/// Appends a case of a select, behind a space.
fn put_case(out: &mut Vec<u8>, case: Case) -> Result<(), AllocError>
    ensures { Appends out.old out.new (codes " " ++ case_field case) result }
{
    match case {
        Case::Send(port, value) => put_sent(out, b" s", port, b':', &value),
        Case::Recv(port) => put_before_number(out, b" r", port.0.into()),
    }
}

/// Appends the cases of a select, each behind a space.
fn put_cases(out: &mut Vec<u8>, cases: &[Case]) -> Result<(), AllocError>
    ensures { Appends out.old out.new (spaced_cases cases.now) result }
{
    for case in cases {
        match put_case(out, *case) {
            Ok(()) => {}
            Err(AllocError) => return Err(AllocError),
        }
    }
    Ok(())
}

/// Appends a call that has no short form.
fn put_select(out: &mut Vec<u8>, cases: &[Case], default: bool, word: u64) -> Result<(), AllocError>
    ensures { Appends out.old out.new (spaced (select_fields cases.now default word)) result }
{
    put_before_number(out, b" select ", word)?;
    put_cases(out, cases)?;
    if default {
        put(out, b" default")?;
    }
    Ok(())
}

/// Appends a call: one of one case without default and with word 0 has a short form.
fn put_call(out: &mut Vec<u8>, cases: &[Case], default: bool, word: u64) -> Result<(), AllocError>
    ensures { Appends out.old out.new (spaced (call_fields cases.now default word)) result }
{
    if cases.len() != 1 || default || word != 0 {
        return put_select(out, cases, default, word);
    }
    match cases[0] {
        Case::Send(port, value) => put_sent(out, b" send ", port, b' ', &value),
        Case::Recv(port) => put_before_number(out, b" recv ", port.0.into()),
    }
}

/// Appends a reopen.
fn put_reopen(out: &mut Vec<u8>, port: Port, cap: u32) -> Result<(), AllocError>
    ensures { Appends out.old out.new (spaced (codes "reopen" ∷ decimal port.0 ∷ decimal cap ∷ [])) result }
{
    put_before_number(out, b" reopen ", port.0.into())?;
    put_before_number(out, b" ", cap.into())
}

/// Appends a step, behind a space.
fn put_step(out: &mut Vec<u8>, step: &StepRef<'_>) -> Result<(), AllocError>
    ensures { Appends out.old out.new (spaced (step_fields step.now)) result }
{
    match step {
        Step::Make(cap) => put_before_number(out, b" make ", (*cap).into()),
        Step::Call {
            cases,
            default,
            word,
        } => put_call(out, cases.as_slice(), *default, *word),
        Step::Close(port) => put_before_number(out, b" close ", port.0.into()),
        Step::Exit => put(out, b" exit"),
        Step::Cancel(pid) => put_before_number(out, b" cancel ", pid.0.into()),
        Step::Start(pid) => put_before_number(out, b" start ", pid.0.into()),
        Step::Reopen { port, cap } => put_reopen(out, *port, *cap),
    }
}

/// Appends the line of a plain send or receive at once.
#[inline(always)]
fn put_plain_line(out: &mut Vec<u8>, pid: Pid, case: Case) -> Result<(), AllocError>
    ensures { Appends out.old out.new (line (record { pid = pid; step = call (case ∷ []) false 0 })) result }
{
    let mut text = [0; MOST_PLAIN];
    let end = put_plain(&mut text, pid, case);
    put(out, &text[..end])
}

/// Appends a line in pieces.
fn put_pieces(out: &mut Vec<u8>, entry: &EntryRef<'_>) -> Result<(), AllocError>
    ensures { Appends out.old out.new (line entry.now) result }
{
    put_before_number(out, b"", entry.pid.0.into())?;
    put_step(out, &entry.step)?;
    put(out, b"\n")
}

/// The case of a plain send or receive.
#[inline(always)]
fn plain_case(step: &StepRef<'_>) -> Option<Case>
    ensures { IfSome result (λ case. step.now ≡ call (case ∷ []) false 0) }
{
    match step {
        Step::Call {
            cases,
            default,
            word,
        } => {
            let cases = cases.as_slice();
            if cases.len() != 1 || *default || *word != 0 {
                None
            } else {
                Some(cases[0])
            }
        }
        _ => None,
    }
}

/// Appends a line. Most are of plain sends and receives.
fn put_entry(out: &mut Vec<u8>, entry: &EntryRef<'_>) -> Result<(), AllocError>
    ensures { Appends out.old out.new (line entry.now) result }
{
    match plain_case(&entry.step) {
        Some(case) => put_plain_line(out, entry.pid, case),
        None => put_pieces(out, entry),
    }
}

/// Appends the one spelling, a line, of an entry that this edition has; `Err` where a growth was refused, with
/// nothing appended. It is read again as this entry.
pub fn write_entry(
    out: &mut Vec<u8>,
    edition: Edition,
    entry: &EntryRef<'_>,
) -> Result<(), NoMemory>
    requires fits { is_of edition entry.now.step ≡ true }
    ensures ok { OnOk result (out.new.items ≡ out.old.items ++ line entry.now) }
    ensures err { OnErr result (out.new.items ≡ out.old.items) }
    ensures capacity { vec_capacity out.old ≤ vec_capacity out.new }
    ensures succeeds { HasRoomFor out.old (line entry.now) → IsOk result }
    ensures fits { Fits edition entry.now }
{
    let _fits = entry.fits(edition);
    let before = out.len();
    let done = put_entry(out, entry);
    undo_if_refused(out, before, done)
}

/// The first line of a journal of this edition, without its newline.
pub fn header(edition: Edition) -> &'static [u8]
    ensures { result.now ≡ header edition }
{
    match edition {
        Edition::One => b"chanhub journal 1",
        Edition::Two => b"chanhub journal 2",
        Edition::Three => b"chanhub journal 3",
    }
}

/// Appends the two head lines.
fn put_head(out: &mut Vec<u8>, head: Head) -> Result<(), AllocError>
    ensures { Appends out.old out.new (head_lines head) result }
{
    put(out, header(head.edition))?;
    put(out, b"\n")?;
    put_before_number(out, b"procs ", head.procs.into())?;
    put(out, b"\n")
}

/// Appends the first two lines of a journal of this edition, of 1 to `MOST_PROCS` processes; `Err` where a growth
/// was refused, with nothing appended.
pub fn write_head(out: &mut Vec<u8>, edition: Edition, procs: u8) -> Result<(), NoMemory>
    requires { (1 ≤ procs) × (procs ≤ MOST_PROCS) }
    ensures ok { OnOk result (out.new.items ≡ out.old.items ++ head_lines (head_of edition procs)) }
    ensures err { OnErr result (out.new.items ≡ out.old.items) }
    ensures capacity { vec_capacity out.old ≤ vec_capacity out.new }
    ensures succeeds { HasRoomFor out.old (head_lines (head_of edition procs)) → IsOk result }
{
    let before = out.len();
    let done = put_head(out, Head { edition, procs });
    undo_if_refused(out, before, done)
}

/// Appends the line of each entry.
fn put_entries(out: &mut Vec<u8>, entries: &[Entry]) -> Result<(), AllocError>
    ensures { Appends out.old out.new (flat_map line entries.now) result }
{
    for entry in entries {
        match put_entry(out, &entry.by_slice()) {
            Ok(()) => {}
            Err(AllocError) => return Err(AllocError),
        }
    }
    Ok(())
}

/// Appends the head lines and the line of each entry.
fn put_journal(out: &mut Vec<u8>, journal: &Journal) -> Result<(), AllocError>
    ensures { Appends out.old out.new (text journal.now.head journal.now.entries) result }
{
    put_head(out, journal.head())?;
    put_entries(out, journal.entries())
}

/// Appends the text of a journal of 1 to `MOST_PROCS` processes; `Err` where a growth was refused, with
/// nothing appended. It is read again as this journal, where its edition has each entry and it keeps within the
/// limits of texts.
pub fn write_journal(out: &mut Vec<u8>, journal: &Journal) -> Result<(), NoMemory>
    requires { IsHead journal.now.head }
    ensures ok { OnOk result (
        out.new.items ≡ out.old.items ++ text journal.now.head journal.now.entries) }
    ensures err { OnErr result (out.new.items ≡ out.old.items) }
    ensures capacity { vec_capacity out.old ≤ vec_capacity out.new }
    ensures succeeds { HasRoomFor out.old (text journal.now.head journal.now.entries) → IsOk result }
{
    let before = out.len();
    let done = put_journal(out, journal);
    undo_if_refused(out, before, done)
}
