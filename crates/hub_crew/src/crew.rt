//! One thread for each seat, none of which begins until all are started.

ghost use Rattle.std.specs.Prelude.{◌≡◌, ◌≤◌, [], true, IfOk, OnOk, IfSome, All, map, vec_len, vec_capacity};

use crate::start::Start;
use crate::task::{Member, Task};
use hub_base::{HasPid, Pid};
use std::alloc::{AllocError, Global};
use std::marker::PhantomData;
use std::sync::Wait;
use std::thread;
use std::thread::{Promise, PromisedHandle, Scope, Threads};

/// What a thread owes: the seat of its process, and where it began, what its task promises of it.
#[derive(Drop)]
struct Owed<H, S, R, T> {
    /// The number of the process.
    pid: Pid,
    /// What its thread is to do.
    task: T,
    /// What the threads share, their seats, and which run time.
    of: PhantomData<(H, S, R)>,
}

impl<H, S: HasPid + Drop, R, T: Task<H, S, R>> Promise<Option<Member<S, T::Report>>>
    for Owed<H, S, R, T> {
    ghost use Rattle.std.specs.Prelude.{◌≡◌, IfSome};

    ghost kept_by = { λ p r. IfSome r (λ m. (S.pid_of m.seat ≡ p.pid) × T.ends p.task m.seat m.report) };
}

/// A thread that was started. It gives no member where it was told not to begin.
type Started<H, S, R, T> = PromisedHandle<
    Option<Member<S, <T as Task<H, S, R>>::Report>>,
    Owed<H, S, R, T>,
>;

/// Waits for the start, and then performs the task.
fn work<H, S: HasPid + Drop, R: Wait, T: Task<H, S, R>>(
    rt: &R,
    hub: &H,
    start: &Start,
    seat: S,
    task: T,
) -> Option<Member<S, T::Report>>
    requires { T.begins task seat }
    ensures pid { IfSome result (λ m. S.pid_of m.seat ≡ S.pid_of seat) }
    ensures ends { IfSome result (λ m. T.ends task m.seat m.report) }
{
    let mut seat = seat;
    if !start.wait(rt) {
        return None;
    }
    let report = task.perform(rt, hub, &mut seat);
    Some(Member { seat, report })
}

/// Starts the thread of one seat. `None` where it can't be started.
fn spawn<
    's,
    E,
    H: Sync + 's,
    S: HasPid + Drop + Send + 's,
    R: Wait + Sync + 's,
    T: Task<H, S, R> + 's,
>(
    scope: &Scope<'s, E>,
    rt: &'s R,
    hub: &'s H,
    start: &'s Start,
    seat: S,
    task: T,
) -> Option<Started<H, S, R, T>>
    requires { T.begins task seat }
    ensures { IfSome result (λ h. (h.promise.pid ≡ S.pid_of seat) × (h.promise.task ≡ task)) }
{
    let owed = Owed {
        pid: seat.pid(),
        task,
        of: PhantomData,
    };
    let job = move || -> Option<Member<S, T::Report>>
        requires { T.begins task seat }
        ensures { IfSome result (λ m. (S.pid_of m.seat ≡ S.pid_of seat) × T.ends task m.seat m.report) }
    { work(rt, hub, start, seat, task) };
    scope.spawn_with(owed, job).ok()
}

/// Starts a thread for each seat, and lets all begin once all are started. Whether they were; else none
/// begins.
fn start_all<H: Sync, S: HasPid + Drop + Send, R: Threads + Wait + Sync, T: Task<H, S, R>>(
    rt: &R,
    hub: &H,
    seats: Vec<S>,
    task: T,
    room: Vec<Started<H, S, R, T>>,
) -> (Vec<Started<H, S, R, T>>, bool)
    requires begins { All (T.begins task) seats.items }
    requires empty { room.items ≡ [] }
    requires room { vec_len seats ≤ vec_capacity room }
    ensures pids { result.1 ≡ true →
        map (λ h. h.promise.pid) result.0.items ≡ map S.pid_of seats.items }
    ensures tasks { All (λ h. h.promise.task ≡ task) result.0.items }
    ensures fewer { vec_len result.0 ≤ vec_len seats }
{
    let begin = Start::new();
    let start = &begin;
    thread::scope(
        thread::scope_env(),
        rt,
        |scope| -> (Vec<Started<H, S, R, T>>, bool)
            requires { All (T.begins task) seats.items
                × (room.items ≡ []) × (vec_len seats ≤ vec_capacity room) }
            ensures { (result.1 ≡ true → map (λ h. h.promise.pid) result.0.items ≡ map S.pid_of seats.items)
                × All (λ h. h.promise.task ≡ task) result.0.items
                × (vec_len result.0 ≤ vec_len seats) }
        {
            let mut handles = room;
            for seat in seats {
                // Copies, since a thread keeps them for as long as the scope lasts.
                let (rt, hub, start) = (rt, hub, start);
                let Some(handle) = spawn(scope, rt, hub, start, seat, task) else {
                    start.tell(rt, false);
                    return (handles, false);
                };
                handles.push_reserved(handle);
            }
            start.tell(rt, true);
            (handles, true)
        },
    )
}

/// The members whose threads have ended. Err where they were not started or one did not begin, once all have ended.
fn join_all<H, S: HasPid + Drop, R: Threads, T: Task<H, S, R>>(
    rt: &R,
    handles: Vec<Started<H, S, R, T>>,
    started: bool,
    room: Vec<Member<S, T::Report>>,
    task: T,
) -> Result<Vec<Member<S, T::Report>>, AllocError>
    requires tasks { All (λ h. h.promise.task ≡ task) handles.items }
    requires empty { room.items ≡ [] }
    requires room { vec_len handles ≤ vec_capacity room }
    ensures started { OnOk result (started ≡ true) }
    ensures pids { IfOk result (λ done.
        map (λ m. S.pid_of m.seat) done.items ≡ map (λ h. h.promise.pid) handles.items) }
    ensures ends { IfOk result (λ done. All (λ m. T.ends task m.seat m.report) done.items) }
{
    let mut done = room;
    let mut all = started;
    for handle in handles {
        match handle.join(rt) {
            Some(member) => done.push_reserved(member),
            None => all = false,
        }
    }
    if all { Ok(done) } else { Err(AllocError) }
}

/// Room for the handles and the members of so many threads.
fn room_for<H, S: HasPid + Drop, R, T: Task<H, S, R>>(
    alloc: Global,
    count: usize,
) -> Result<(Vec<Started<H, S, R, T>>, Vec<Member<S, T::Report>>), AllocError>
    ensures empty { IfOk result (λ r. (r.0.items ≡ []) × (r.1.items ≡ [])) }
    ensures room { IfOk result (λ r. (count ≤ vec_capacity r.0) × (count ≤ vec_capacity r.1)) }
{
    let handles = Vec::with_capacity(alloc, count)?;
    let members = Vec::with_capacity(alloc, count)?;
    Ok((handles, members))
}

/// The task in a thread for each seat, and the seats with what their threads told, in order. None
/// begins before all are started; it returns when all have ended. It makes no exit for a task: a task for
/// which others may wait makes its own before it ends.
///
/// Err where a thread or memory was refused: then none has begun, no step was made, and the seats are
/// dropped. A hub whose seats they were has none then, and can only be finished.
pub fn run_crew<H: Sync, S: HasPid + Drop + Send, R: Threads + Wait + Sync, T: Task<H, S, R>>(
    rt: &R,
    alloc: Global,
    hub: &H,
    seats: Vec<S>,
    task: T,
) -> Result<Vec<Member<S, T::Report>>, AllocError>
    requires { All (T.begins task) seats.items }
    ensures pids { IfOk result (λ done.
        map (λ m. S.pid_of m.seat) done.items ≡ map S.pid_of seats.items) }
    ensures ends { IfOk result (λ done. All (λ m. T.ends task m.seat m.report) done.items) }
{
    // All memory comes first, so that no thread is left waiting and no handle is lost.
    let (handles, members) = room_for(alloc, seats.len())?;
    let (handles, started) = start_all(rt, hub, seats, task, handles);
    join_all(rt, handles, started, members, task)
}
