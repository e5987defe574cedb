//! How a hub is opened, and what refuses it.

ghost use Rattle.std.specs.Prelude.{◌≡◌, IfOk, IfErr};
ghost use Rattle.hub_core.specs.HubView.{open_fault_number};
ghost use Rattle.hub_session.specs.Opens.{IsNew, IsNewEndless, IsNewFollowing, IsRefusedEndless, IsRefusedSo, NotFollowed, after_of, edition_of};
ghost use Rattle.hub_session.specs.Tells.{follow_refused};

use crate::session::Session;
use crate::structs::{FollowC, MALFORMED, NOT_ADMITTED, REFUSED_MEMORY};
use hub_base::Edition;
use hub_core::OpenFault;
use hub_cut::{ChainFault, MOST_KEEP};
use hub_served::AfterDivergence;
use std::alloc::Global;

/// A value that may be used by one thread and then by another.
fn crossing<T: Send>(value: T) -> T
    ensures { result ≡ value }
{
    value
}

/// A session on the heap, or the number that says that memory was refused. That all within it may be used by one thread and then by
/// another takes a proof half a minute, so it is shown here alone.
fn boxed(alloc: Global, session: Session) -> Result<Box<Session>, u8>
    ensures ok { IfOk result (λ b. b.value ≡ session) }
    ensures err { IfErr result (λ number. number ≡ REFUSED_MEMORY) }
{
    match Box::new(alloc, session) {
        Ok(place) => Ok(crossing(place)),
        Err(_refused) => Err(REFUSED_MEMORY),
    }
}

fn edition_of(number: u8) -> Option<Edition>
    ensures { result ≡ edition_of number }
{
    match number {
        1 => Some(Edition::One),
        2 => Some(Edition::Two),
        3 => Some(Edition::Three),
        _ => None,
    }
}

/// The number of what refuses an opening.
fn refusal_of(fault: OpenFault) -> u8
    ensures { result ≡ open_fault_number fault }
{
    match fault {
        OpenFault::BadProcs => 1,
        OpenFault::BadLimit => 2,
        OpenFault::NoMemory => REFUSED_MEMORY,
    }
}

/// A hub at which nothing has happened, or the number of what refuses it. It stands alone, so that the stack has room for one
/// kind of hub at a time.
#[inline(never)]
fn open_session(alloc: Global, edition: u8, procs: u8, limit: u32) -> Result<Session, u8>
    ensures ok { IfOk result (λ s. IsNew edition procs limit s) }
    ensures err { IfErr result (λ number. IsRefusedSo edition procs limit number) }
{
    let Some(edition) = edition_of(edition) else {
        return Err(4);
    };
    match Session::open(alloc, procs, limit, edition) {
        Ok(session) => Ok(session),
        Err(fault) => Err(refusal_of(fault)),
    }
}

/// The same of a hub that never ends and keeps so many steps of a chapter.
#[inline(never)]
fn open_endless_session(
    alloc: Global,
    edition: u8,
    procs: u8,
    keep: u32,
    hands_out: bool,
) -> Result<Session, u8>
    ensures ok { IfOk result (λ s. IsNewEndless edition procs keep hands_out s) }
    ensures err { IfErr result (λ number. IsRefusedEndless edition procs keep number) }
{
    let Some(edition) = edition_of(edition) else {
        return Err(4);
    };
    if keep == 0 || keep > MOST_KEEP {
        return Err(2);
    }
    match Session::open_endless(alloc, procs, keep, edition, hands_out) {
        Ok(session) => Ok(session),
        Err(fault) => Err(refusal_of(fault)),
    }
}

/// A hub on the heap at which nothing has happened: of this edition, 1 to 3, of 1 to `MOST_PROCS` processes, whose journal may
/// hold 1 to `MOST_STEPS` steps, as `limit` says. `Err` has the number of what refuses it: 1 the processes, 2 the limit, 3 memory,
/// 4 the edition.
#[inline(never)]
pub fn open_box(alloc: Global, edition: u8, procs: u8, limit: u32) -> Result<Box<Session>, u8>
    ensures ok { IfOk result (λ b. IsNew edition procs limit b.value) }
    ensures err { IfErr result (λ number. IsRefusedSo edition procs limit number) }
{
    boxed(alloc, open_session(alloc, edition, procs, limit)?)
}

/// The same of a hub that never ends, which cuts a chapter once it has `keep` steps behind its checkpoint, 1 to `MOST_KEEP`, and
/// twice as many as that has, exits not counted. `hands_out` says whether chapters that are no longer kept wait to be read; else they go. The number 2 is for
/// `keep`.
#[inline(never)]
pub fn open_endless_box(
    alloc: Global,
    edition: u8,
    procs: u8,
    keep: u32,
    hands_out: bool,
) -> Result<Box<Session>, u8>
    ensures ok { IfOk result (λ b. IsNewEndless edition procs keep hands_out b.value) }
    ensures err { IfErr result (λ number. IsRefusedEndless edition procs keep number) }
{
    boxed(
        alloc,
        open_endless_session(alloc, edition, procs, keep, hands_out)?,
    )
}

/// What comes after a divergence.
fn after_of(goes_on: bool) -> AfterDivergence
    ensures { result ≡ after_of goes_on }
{
    if goes_on {
        AfterDivergence::GoesOn
    } else {
        AfterDivergence::Ends
    }
}

/// What is told of a journal that is not followed.
fn follow_refused(fault: ChainFault) -> FollowC
    ensures { result ≡ follow_refused fault }
{
    match fault {
        ChainFault::Text(fault) => FollowC {
            refusal: MALFORMED,
            line: fault.line,
        },
        ChainFault::NotAdmitted { line, fault: _ } => FollowC {
            refusal: NOT_ADMITTED,
            line,
        },
        _ => FollowC {
            refusal: REFUSED_MEMORY,
            line: 0,
        },
    }
}

/// A hub that follows the journal of this text, at which nothing has happened, or what is told of why there is none.
#[inline(never)]
fn open_following_session(alloc: Global, text: &[u8], goes_on: bool) -> Result<Session, FollowC>
    ensures ok { IfOk result (λ s. IsNewFollowing text.now goes_on s) }
    ensures err { IfErr result (λ told. NotFollowed text.now told) }
{
    match Session::open_following(alloc, text, after_of(goes_on)) {
        Ok(session) => Ok(session),
        Err(fault) => Err(follow_refused(fault)),
    }
}

/// The same on the heap. After a divergence, and once all of the journal is made, it makes any step, or none, as `goes_on` says.
#[inline(never)]
pub fn open_following_box(
    alloc: Global,
    text: &[u8],
    goes_on: bool,
) -> Result<Box<Session>, FollowC>
    ensures ok { IfOk result (λ b. IsNewFollowing text.now goes_on b.value) }
    ensures err { IfErr result (λ told. NotFollowed text.now told) }
{
    let session = open_following_session(alloc, text, goes_on)?;
    match boxed(alloc, session) {
        Ok(place) => Ok(place),
        Err(_memory) => Err(follow_refused(ChainFault::NoMemory)),
    }
}
