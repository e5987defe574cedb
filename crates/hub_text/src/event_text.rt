//! The text of events, which grows by pieces.
//!
//! The bytes behind the written ones are there already, so a line is put into them piece by piece, and whether
//! there is room is asked once for all events of a step, before the step is made.

ghost use Rattle.std.specs.Prelude.{◌≡◌, ◌+◌, ◌-◌, ◌*◌, ◌/◌, ◌≤◌, ◌++◌, [], List, ℕ, length, take, vec_len, IfSome, OnOk, OnErr};

use crate::event_lines::put_event;
use crate::limits::{MOST_LINE, TEXT_GROWTH};
use hub_base::{Event, Hears, MOST_EVENTS, NoMemory};
use std::alloc::{AllocError, Global};
use std::marker::Model;

/// The lines of events.
#[derive(Drop)]
pub struct EventText {
    /// The lines, and behind them bytes that hold none yet.
    bytes: Vec<u8>,
    /// How many bytes the lines have.
    len: usize,
}

impl Model for EventText {
    ghost use Rattle.std.specs.Prelude.{◌-◌, ◌/◌, ◌≤◌, take, vec_len};
    ghost use Rattle.hub_base.specs.EventText.{TextView};
    ghost use Rattle.hub_text.specs.declared.limits.TheConstants.{MOST_LINE};

    ghost Value = { TextView };

    ghost view = { λ t. record { lines = take t.len t.bytes.items; room = (vec_len t.bytes - t.len) / MOST_LINE } };

    ghost invariant = { λ t. t.len ≤ vec_len t.bytes };
}

/// The length after a growth, where it can be counted.
fn length_after(len: usize, more: usize) -> Option<usize>
    ensures { IfSome result (λ n. len + more ≤ n) }
{
    len.checked_add(more)?.checked_add(TEXT_GROWTH)
}

/// Adds so many bytes, and more that later lines will find there.
#[inline(never)]
fn grow(bytes: &mut Vec<u8>, more: usize) -> Result<(), NoMemory>
    ensures ok { OnOk result (vec_len bytes.old + more ≤ vec_len bytes.new) }
    ensures kept { take (vec_len bytes.old) bytes.new.items ≡ bytes.old.items }
{
    let Some(len) = length_after(bytes.len(), more) else {
        return Err(NoMemory);
    };
    match bytes.resize(len, 0) {
        Ok(()) => Ok(()),
        Err(AllocError) => Err(NoMemory),
    }
}

/// Makes room for the lines of a step behind this place.
#[inline(always)]
fn make_room(bytes: &mut Vec<u8>, at: usize) -> Result<(), NoMemory>
    requires { at ≤ vec_len bytes.old }
    ensures ok { OnOk result (at + MOST_EVENTS * MOST_LINE ≤ vec_len bytes.new) }
    ensures longer { vec_len bytes.old ≤ vec_len bytes.new }
    ensures kept { take at bytes.new.items ≡ take at bytes.old.items }
    ensures had_room { at + MOST_EVENTS * MOST_LINE ≤ vec_len bytes.old
        → vec_len bytes.new ≡ vec_len bytes.old }
{
    let most = MOST_EVENTS * MOST_LINE;
    let room = bytes.len() - at;
    if most <= room {
        return Ok(());
    }
    grow(bytes, most - room)
}

impl EventText {
    /// The text of no event. It takes no memory.
    pub fn new(alloc: Global) -> EventText
        ensures { result.lines ≡ [] }
    {
        EventText {
            bytes: Vec::new(alloc),
            len: 0,
        }
    }

    /// The lines that were written.
    pub fn text(&self) -> &[u8]
        ensures { result.now ≡ self.now.lines }
    {
        &self.bytes[..self.len]
    }

    /// Makes room for the events of a step; `Err` where a growth was refused. The lines stay as they are.
    #[inline(always)]
    pub fn make_step_room(&mut self) -> Result<(), NoMemory>
        ensures ok { OnOk result (MOST_EVENTS ≤ self.new.room) }
        ensures had_room { MOST_EVENTS ≤ self.old.room → self.new.room ≡ self.old.room }
        ensures lines { self.new.lines ≡ self.old.lines }
    {
        make_room(&mut self.bytes, self.len)
    }

    /// Takes all lines back. What they took is kept for others.
    pub fn clear(&mut self)
        ensures { self.new.lines ≡ [] }
    {
        self.len = 0;
    }
}

/// A text hears an event as its last line.
impl Hears for EventText {
    ghost use Rattle.std.specs.Prelude.{◌≡◌, ◌++◌};
    ghost use Rattle.std.specs.List.{flat_map};
    ghost use Rattle.std.proofs.Common.{◌∙◌, ap, sym, append_assoc};
    ghost use Rattle.hub_base.specs.EventText.{event_line};
    ghost use Rattle.std.proofs.lemmas.Grind.{flat_map-append};
    ghost use Rattle.std.proofs.lemmas.List.{append-nil};

    ghost heard = { λ old told new. new.lines ≡ old.lines ++ flat_map event_line told };

    ghost room = { λ text. text.room };

    ghost begins = { λ text. sym (append-nil text.lines) };

    ghost goes_on = { λ a b c xs ys first then.
        then ∙ ap (λ l. l ++ flat_map event_line ys) first ∙ append_assoc a.lines (flat_map event_line xs) (flat_map event_line ys)
        ∙ ap (λ l. a.lines ++ l) (sym (flat_map-append event_line xs ys)) };

    #[inline(always)]
    fn hear(&mut self, event: Event) {
        self.len = put_event(&mut self.bytes, self.len, &event);
    }
}
