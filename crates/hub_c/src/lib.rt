//! A hub for C: functions by name, over structs that C has too.
//!
//! A struct of C's owns the hub, and each function tells all that came of it at once. No function is unsafe, and none requires
//! anything: whatever numbers come are answered, also where no hub is open. The calls on one hub are ordered by a lock that is
//! the caller's.
#![tactic(auto)]

ghost use Rattle.std.specs.Prelude.{◌≡◌, None, Some};
ghost use Rattle.hub_base.specs.Lines.{by};
ghost use Rattle.hub_base.specs.Notation.{cancel, close, exit, make, recv, reopen, start};
ghost use Rattle.hub_session.specs.Cuts.{Cuts, LetsGo};
ghost use Rattle.hub_session.specs.Looks.{Looks, ReadsText, clock_number, entries_of, next_bits, next_step};
ghost use Rattle.hub_session.specs.declared.text.Text.TheVariants.{Asked, Before, Given, Present, Waiting};
ghost use Rattle.hub_session.specs.Opens.{OpensEndless, OpensFollowing, OpensSession};
ghost use Rattle.hub_session.specs.Steps.{Steps, Takes};
ghost use Rattle.hub_session.specs.Structs.{call_of, is_true, send_of};

use hub_base::{Pid, Port, Step, StepRef};
use hub_session::{
    CaseC, CountsC, CutC, FollowC, HubC, NO_CLOCK, NextC, PieceC, Text, ToldC, ValueC, counts_told,
    is_true, next_told, no_piece, open_box, open_endless_box, open_following_box, tell_bad_call,
};
use std::alloc::Global;

/// Opens a hub of this edition, 1 to 3, of 1 to `MOST_PROCS` processes, whose journal may hold 1 to `MOST_STEPS` steps, as
/// `limit` says. Answers 0, or what refuses it: 1 the processes, 2 the limit, 3 memory, 4 the edition. A hub that was held
/// before ends.
#[unsafe(no_mangle)]
pub extern "C" fn hub_c_open(
    alloc: Global,
    hub: &mut HubC,
    edition: u8,
    procs: u8,
    limit: u32,
) -> u8
    ensures { OpensSession edition procs limit hub.new.session result }
{
    hub.put_in_opened(alloc, open_box(alloc, edition, procs, limit))
}

/// The same, but the hub never ends: a chapter is cut once it has `keep` steps behind its checkpoint, exits not counted, 1 to
/// `MOST_KEEP`. The chapter before it is kept; older ones go, or wait to be read where they are handed out.
#[unsafe(no_mangle)]
pub extern "C" fn hub_c_open_endless(
    alloc: Global,
    hub: &mut HubC,
    edition: u8,
    procs: u8,
    keep: u32,
    hands_out: u8,
) -> u8
    ensures { OpensEndless edition procs keep (is_true hands_out) hub.new.session result }
{
    let opened = open_endless_box(alloc, edition, procs, keep, is_true(hands_out));
    hub.put_in_opened(alloc, opened)
}

/// Opens a hub that follows the journal of this text: its edition, number of processes and steps. A step is made only if it is
/// the journal's next; if its turn may come later, `what` is 0, and the call is to be made again once a step was made. A step
/// that is not its process's next is told by the fault `DIVERGED`, with the number of that next step, from 1, as the value.
/// After that, and once all of the journal is made, the hub makes any step, or none, as `goes_on` says. It has no limit but
/// `MOST_STEPS`. A hub that was held before ends.
#[unsafe(no_mangle)]
pub extern "C" fn hub_c_open_following(
    alloc: Global,
    hub: &mut HubC,
    text: &[u8],
    goes_on: u8,
) -> FollowC
    ensures { OpensFollowing text.now (is_true goes_on) hub.new.session result }
{
    match open_following_box(alloc, text, is_true(goes_on)) {
        Ok(session) => {
            hub.put_in(session);
            FollowC {
                refusal: 0,
                line: 0,
            }
        }
        Err(told) => {
            hub.end(alloc);
            told
        }
    }
}

/// Ends the hub: it gives back its memory.
#[unsafe(no_mangle)]
pub extern "C" fn hub_c_end(alloc: Global, hub: &mut HubC)
    ensures { hub.new.session ≡ None }
{
    hub.end(alloc);
}

/// Makes a step that is no call.
#[inline(always)]
fn plain(alloc: Global, hub: &mut HubC, pid: u8, step: StepRef<'_>, told: &mut ToldC)
    ensures { Steps hub.old.session (Some (by pid step.entry)) hub.new.session told.new }
{
    let Some(mut session) = hub.take_out(alloc) else {
        tell_bad_call(told);
        return;
    };
    session.plain(pid, step, told);
    hub.put_in(session);
}

/// Makes a port of this capacity.
#[unsafe(no_mangle)]
pub extern "C" fn hub_c_make(alloc: Global, hub: &mut HubC, pid: u8, cap: u32, told: &mut ToldC)
    ensures { Steps hub.old.session (Some (make pid cap)) hub.new.session told.new }
{
    plain(alloc, hub, pid, Step::Make(cap), told);
}

/// Sends a value on a port.
#[unsafe(no_mangle)]
pub extern "C" fn hub_c_send(
    alloc: Global,
    hub: &mut HubC,
    pid: u8,
    port: u16,
    value: &ValueC,
    told: &mut ToldC,
)
    ensures { Steps hub.old.session (send_of pid port value.now) hub.new.session told.new }
{
    let Some(mut session) = hub.take_out(alloc) else {
        tell_bad_call(told);
        return;
    };
    session.send(pid, port, value, told);
    hub.put_in(session);
}

/// Receives from a port.
#[unsafe(no_mangle)]
pub extern "C" fn hub_c_recv(alloc: Global, hub: &mut HubC, pid: u8, port: u16, told: &mut ToldC)
    ensures { Steps hub.old.session (Some (recv pid port)) hub.new.session told.new }
{
    let Some(mut session) = hub.take_out(alloc) else {
        tell_bad_call(told);
        return;
    };
    session.receive(pid, port, told);
    hub.put_in(session);
}

/// Calls these cases, perhaps with a default.
#[unsafe(no_mangle)]
pub extern "C" fn hub_c_call(
    alloc: Global,
    hub: &mut HubC,
    pid: u8,
    cases: &[CaseC],
    has_default: u8,
    word: u64,
    told: &mut ToldC,
)
    ensures { Steps hub.old.session (call_of pid cases.now has_default word) hub.new.session told.new }
{
    let Some(mut session) = hub.take_out(alloc) else {
        tell_bad_call(told);
        return;
    };
    session.call(pid, cases, has_default, word, told);
    hub.put_in(session);
}

/// Closes a port.
#[unsafe(no_mangle)]
pub extern "C" fn hub_c_close(alloc: Global, hub: &mut HubC, pid: u8, port: u16, told: &mut ToldC)
    ensures { Steps hub.old.session (Some (close pid port)) hub.new.session told.new }
{
    plain(alloc, hub, pid, Step::Close(Port(port)), told);
}

/// Ends a process.
#[unsafe(no_mangle)]
pub extern "C" fn hub_c_exit(alloc: Global, hub: &mut HubC, pid: u8, told: &mut ToldC)
    ensures { Steps hub.old.session (Some (exit pid)) hub.new.session told.new }
{
    plain(alloc, hub, pid, Step::Exit, told);
}

/// Ends the open call of another process.
#[unsafe(no_mangle)]
pub extern "C" fn hub_c_cancel(alloc: Global, hub: &mut HubC, pid: u8, other: u8, told: &mut ToldC)
    ensures { Steps hub.old.session (Some (cancel pid other)) hub.new.session told.new }
{
    plain(alloc, hub, pid, Step::Cancel(Pid(other)), told);
}

/// Starts another process again, which has exited.
#[unsafe(no_mangle)]
pub extern "C" fn hub_c_start(alloc: Global, hub: &mut HubC, pid: u8, other: u8, told: &mut ToldC)
    ensures { Steps hub.old.session (Some (start pid other)) hub.new.session told.new }
{
    plain(alloc, hub, pid, Step::Start(Pid(other)), told);
}

/// Opens a port again, which is closed and drained, with this capacity.
#[unsafe(no_mangle)]
pub extern "C" fn hub_c_reopen(
    alloc: Global,
    hub: &mut HubC,
    pid: u8,
    port: u16,
    cap: u32,
    told: &mut ToldC,
)
    ensures { Steps hub.old.session (Some (reopen pid port cap)) hub.new.session told.new }
{
    let port = Port(port);
    plain(alloc, hub, pid, Step::Reopen { port, cap }, told);
}

/// Takes the answer that waits for a process. `what` is 0 where none waits.
#[unsafe(no_mangle)]
pub extern "C" fn hub_c_take(alloc: Global, hub: &mut HubC, pid: u8, told: &mut ToldC)
    ensures { Takes hub.old.session pid hub.new.session told.new }
{
    let Some(mut session) = hub.take_out(alloc) else {
        tell_bad_call(told);
        return;
    };
    session.take(pid, told);
    hub.put_in(session);
}

/// Looks at a port.
#[unsafe(no_mangle)]
pub extern "C" fn hub_c_look(alloc: Global, hub: &mut HubC, port: u16) -> CountsC
    ensures looks { Looks hub.old.session port result }
    ensures unchanged { hub.new.session ≡ hub.old.session }
{
    let Some(session) = hub.take_out(alloc) else {
        return counts_told(None);
    };
    let counts = session.look(port);
    hub.put_in(session);
    counts
}

/// The bit of the process whose step is the next of the journal that the hub follows. 0 once it has diverged, once all is made,
/// and for a hub that follows none.
#[unsafe(no_mangle)]
pub extern "C" fn hub_c_next(alloc: Global, hub: &mut HubC) -> u64
    ensures next { result ≡ next_bits hub.old.session }
    ensures unchanged { hub.new.session ≡ hub.old.session }
{
    let Some(session) = hub.take_out(alloc) else {
        return 0;
    };
    let next = session.next();
    hub.put_in(session);
    next
}

/// A process's next step of the journal that the hub follows. All is 0 once it has diverged, where the journal has no further step
/// of the process, and for a hub that follows none.
#[unsafe(no_mangle)]
pub extern "C" fn hub_c_step_of(alloc: Global, hub: &mut HubC, pid: u8) -> NextC
    ensures step { result ≡ next_step hub.old.session pid }
    ensures unchanged { hub.new.session ≡ hub.old.session }
{
    let Some(session) = hub.take_out(alloc) else {
        return next_told(None);
    };
    let next = session.step_of(pid);
    hub.put_in(session);
    next
}

/// The number of the clock's process in the journal that the hub follows: of the process that waits on port 0 while no call has a
/// deadline, and cancels calls whose deadlines have passed. `NO_CLOCK` if that has none, and for a hub that follows none.
#[unsafe(no_mangle)]
pub extern "C" fn hub_c_clock(alloc: Global, hub: &mut HubC) -> u8
    ensures clock { result ≡ clock_number hub.old.session }
    ensures unchanged { hub.new.session ≡ hub.old.session }
{
    let Some(session) = hub.take_out(alloc) else {
        return NO_CLOCK;
    };
    let clock = session.clock();
    hub.put_in(session);
    clock
}

/// How many entries the journal has. Of a hub that never ends it is the present chapter.
#[unsafe(no_mangle)]
pub extern "C" fn hub_c_entries(alloc: Global, hub: &mut HubC) -> u64
    ensures entries { result ≡ entries_of hub.old.session }
    ensures unchanged { hub.new.session ≡ hub.old.session }
{
    let Some(session) = hub.take_out(alloc) else {
        return 0;
    };
    let entries = session.len();
    hub.put_in(session);
    entries
}

/// Writes pieces of a text.
#[tactic(auto, using(crate::proofs::Texts::pieces_are_text))]
fn read(alloc: Global, hub: &mut HubC, text: Text, number: u64, place: &mut [u8]) -> PieceC
    ensures { ReadsText text hub.old.session number hub.new.session place.old place.new result }
{
    let Some(mut session) = hub.take_out(alloc) else {
        return no_piece();
    };
    let told = session.read(text, number, place);
    hub.put_in(session);
    told
}

/// Writes pieces of the journal's text at the head of `place`, from piece `number` on: as many whole ones as have room there, up to
/// some bound, and at least that one. Piece 0 is the head lines, and piece k + 1 the line of entry k. Where piece `number` has no
/// room there, nothing is written, and it is told how much it wants.
#[unsafe(no_mangle)]
pub extern "C" fn hub_c_present(
    alloc: Global,
    hub: &mut HubC,
    number: u64,
    place: &mut [u8],
) -> PieceC
    ensures { ReadsText Present hub.old.session number hub.new.session place.old place.new result }
{
    read(alloc, hub, Text::Present, number, place)
}

/// The same of the chapter before the present one.
#[unsafe(no_mangle)]
pub extern "C" fn hub_c_before(
    alloc: Global,
    hub: &mut HubC,
    number: u64,
    place: &mut [u8],
) -> PieceC
    ensures { ReadsText Before hub.old.session number hub.new.session place.old place.new result }
{
    read(alloc, hub, Text::Before, number, place)
}

/// The same of the chapter that waits to be read.
#[unsafe(no_mangle)]
pub extern "C" fn hub_c_waiting(
    alloc: Global,
    hub: &mut HubC,
    number: u64,
    place: &mut [u8],
) -> PieceC
    ensures { ReadsText Waiting hub.old.session number hub.new.session place.old place.new result }
{
    read(alloc, hub, Text::Waiting, number, place)
}

/// The same of the journal that the hub follows.
#[unsafe(no_mangle)]
pub extern "C" fn hub_c_given(
    alloc: Global,
    hub: &mut HubC,
    number: u64,
    place: &mut [u8],
) -> PieceC
    ensures { ReadsText Given hub.old.session number hub.new.session place.old place.new result }
{
    read(alloc, hub, Text::Given, number, place)
}

/// The same of the line of the step at which the hub diverged from the journal that it follows, as the only piece. There is none as
/// long as no step was told as a divergence.
#[unsafe(no_mangle)]
pub extern "C" fn hub_c_asked(
    alloc: Global,
    hub: &mut HubC,
    number: u64,
    place: &mut [u8],
) -> PieceC
    ensures { ReadsText Asked hub.old.session number hub.new.session place.old place.new result }
{
    read(alloc, hub, Text::Asked, number, place)
}

/// Cuts a hub that never ends. Not while a chapter waits to be read, and not if memory is refused.
#[unsafe(no_mangle)]
pub extern "C" fn hub_c_cut(alloc: Global, hub: &mut HubC) -> CutC
    ensures { Cuts hub.old.session hub.new.session result }
{
    let Some(mut session) = hub.take_out(alloc) else {
        return CutC {
            cut: false,
            chapter: false,
        };
    };
    let told = session.cut();
    hub.put_in(session);
    told
}

/// Lets the chapter go that waits to be read: whether one did.
#[unsafe(no_mangle)]
pub extern "C" fn hub_c_let_go(alloc: Global, hub: &mut HubC) -> bool
    ensures { LetsGo hub.old.session hub.new.session result }
{
    let Some(mut session) = hub.take_out(alloc) else {
        return false;
    };
    let gone = session.let_go();
    hub.put_in(session);
    gone
}
