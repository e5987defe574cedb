//! Who has left, and who waits, and for what.

ghost use Rattle.std.specs.Prelude.{◌≡◌, ◌++◌, codes, OnOk};
ghost use Rattle.std.specs.List.{flat_map};
ghost use Rattle.hub_story.specs.LastMoves.{known_at};
ghost use Rattle.hub_story_text.specs.WaiterText.{case_words, gone_words, left_words, mover_words, port_words, waiter_words, waiters_words, who_words};

use crate::numbers::{number_of, put_number};
use hub_base::{Case, Port};
use hub_core::{CaseRoom, ShortEntries};
use hub_story::{AtPort, LastMoves, Mover, Told};
use std::alloc::AllocError;

/// Appends a process and a step, behind these words.
fn put_mover(out: &mut Vec<u8>, words: &[u8], mover: Option<Mover>) -> Result<(), AllocError>
    ensures { OnOk result (out.new.items ≡ out.old.items ++ words.now ++ mover_words mover) }
{
    out.extend_from_slice(words)?;
    match mover {
        Some(mover) => {
            put_number(out, b"P", mover.pid.0.into())?;
            put_number(out, b" at step ", number_of(mover.asked))
        }
        None => out.extend_from_slice(b"nobody"),
    }
}

/// Appends a port, and who was the last there.
fn put_port(out: &mut Vec<u8>, known: AtPort, port: Port) -> Result<(), AllocError>
    ensures { OnOk result (out.new.items ≡ out.old.items ++ port_words known port) }
{
    put_number(out, b"", port.0.into())?;
    put_mover(out, b": last sent by ", known.sender)?;
    put_mover(out, b", last received by ", known.receiver)
}

/// Appends that all who received there have left, where this is so.
fn put_gone(out: &mut Vec<u8>, gone: bool) -> Result<(), AllocError>
    ensures { OnOk result (out.new.items ≡ out.old.items ++ gone_words gone) }
{
    if gone {
        out.extend_from_slice(b"; all who received there have left")
    } else {
        Ok(())
    }
}

/// Appends that a case waits to send on the port.
fn put_send(out: &mut Vec<u8>, known: AtPort, port: Port) -> Result<(), AllocError>
    ensures { OnOk result (out.new.items ≡ out.old.items ++ (codes "            to send on port "
        ++ port_words known port ++ gone_words known.gone ++ codes "\n")) }
{
    out.extend_from_slice(b"            to send on port ")?;
    put_port(out, known, port)?;
    put_gone(out, known.gone)?;
    out.extend_from_slice(b"\n")?;
    Ok(())
}

/// Appends that it waits to receive from it.
fn put_receive(out: &mut Vec<u8>, known: AtPort, port: Port) -> Result<(), AllocError>
    ensures { OnOk result (out.new.items ≡ out.old.items ++ (codes "            to receive from port "
        ++ port_words known port ++ codes "\n")) }
{
    out.extend_from_slice(b"            to receive from port ")?;
    put_port(out, known, port)?;
    out.extend_from_slice(b"\n")?;
    Ok(())
}

/// Appends what a case waits for.
fn put_case(out: &mut Vec<u8>, moves: &LastMoves, case: Case) -> Result<(), AllocError>
    ensures { OnOk result (out.new.items ≡ out.old.items ++ case_words (known_at moves.now) case) }
{
    match case {
        Case::Send(port, _) => put_send(out, moves.at(port), port),
        Case::Recv(port) => put_receive(out, moves.at(port), port),
    }
}

/// Appends what each of these cases waits for.
fn put_cases(out: &mut Vec<u8>, moves: &LastMoves, cases: &[Case]) -> Result<(), AllocError>
    ensures { OnOk result (out.new.items ≡ out.old.items
        ++ flat_map (case_words (known_at moves.now)) cases.now) }
{
    for case in cases {
        put_case(out, moves, *case)?;
    }
    Ok(())
}

/// Appends a process, and behind these words its step.
fn put_who(out: &mut Vec<u8>, words: &[u8], told: &Told) -> Result<(), AllocError>
    ensures { OnOk result (out.new.items ≡ out.old.items ++ who_words words.now told.now) }
{
    put_number(out, b"          P", told.event.pid.0.into())?;
    put_number(out, words, number_of(told.asked))?;
    out.extend_from_slice(b"\n")?;
    Ok(())
}

/// Appends who has left.
fn put_left(out: &mut Vec<u8>, left: &[Told]) -> Result<(), AllocError>
    ensures { OnOk result (out.new.items ≡ out.old.items ++ left_words left.now) }
{
    for told in left {
        put_who(out, b" left at step ", told)?;
    }
    Ok(())
}

/// Appends a call that waited, and its cases.
fn put_waiter(
    out: &mut Vec<u8>,
    entries: &ShortEntries,
    moves: &LastMoves,
    told: &Told,
) -> Result<(), AllocError>
    ensures { OnOk result (out.new.items ≡ out.old.items
        ++ waiter_words entries.now (known_at moves.now) told.now) }
{
    put_who(out, b" waits since step ", told)?;
    let mut room = CaseRoom::new();
    put_cases(out, moves, entries.cases_at(told.asked as usize, &mut room))
}

/// Appends these calls.
fn put_calls(
    out: &mut Vec<u8>,
    entries: &ShortEntries,
    moves: &LastMoves,
    waiters: &[Told],
) -> Result<(), AllocError>
    ensures { OnOk result (out.new.items ≡ out.old.items
        ++ flat_map (waiter_words entries.now (known_at moves.now)) waiters.now) }
{
    for told in waiters {
        put_waiter(out, entries, moves, told)?;
    }
    Ok(())
}

/// Appends below a heading who has left, and these calls; if there are none, words for that.
pub(crate) fn put_waiters(
    out: &mut Vec<u8>,
    nobody: &[u8],
    heading: &[u8],
    entries: &ShortEntries,
    moves: &LastMoves,
    waiters: &[Told],
) -> Result<(), AllocError>
    ensures { OnOk result (out.new.items ≡ out.old.items ++ waiters_words nobody.now heading.now entries.now
        (known_at moves.now) moves.now.receivers.left.items waiters.now) }
{
    if waiters.is_empty() {
        return out.extend_from_slice(nobody);
    }
    out.extend_from_slice(heading)?;
    put_left(out, &moves.receivers.left)?;
    put_calls(out, entries, moves, waiters)
}
