//! A hub that threads share. Steps take its lock; looks and meetings take none.

ghost use Rattle.std.specs.Sync.Mutex.{mutex_guard_value};
ghost use Rattle.std.specs.Prelude.{◌≡◌, ◌∷◌, ◌⊎◌, [], true, false, IfOk, IfErr, All, vec_len};
ghost use Rattle.hub_base.specs.declared.event.What.TheVariants as what;
ghost use Rattle.hub_live.specs.Prelude.{Send, Recv, Make, Call, Close, Exit, Cancel, Start, Reopen, has_cancel, has_lives, is_of, has_case, has_value, call, is_parked, counts_at, state_seen, Later};
ghost use Rattle.hub_live.specs.Prelude.{Made, Refused, Answers, AnswersNoCall, AskedNothing, Tells, Told, EndsIn, HasEnded, IsHistory, entry_of};

use crate::answers::Pids;
use crate::desk::Desk;
use crate::ends::{Chan, RecvPort, SendPort};
use crate::mark::read_back;
use crate::name::HubName;
use crate::parker::Parker;
use crate::seat::{InnerSeat, Seat};
use crate::words::Words;
use hub_base::{
    Case, CaseSlice, Cases, Counts, Entry, EntryRef, Event, Fault, Head, Journal, MOST_PORTS, Pid,
    Port, Step, StepRef, Value, What,
};
use std::sync::{Mutex, MutexGuard, Wait};

/// How many loads a thread lets pass before it tries again for a lock that another holds: as long as a step takes.
const FIRST_PAUSE: u32 = 400;

/// How many times as long the next pause is: who still finds the lock held is one of several that want it again and again.
const GROWTH: u32 = 4;

/// The longest pause in loads, so that whoever holds the lock can make some steps with the hub in its own cache.
const LONGEST_PAUSE: u32 = 6_400;

/// How often a thread tries again before it sleeps: for some 80 microseconds.
const TRIES: u32 = 30;

/// Whether a call waits on, by the answer to its step.
fn waits(answer: &Event) -> bool
    ensures { result ≡ is_parked answer.now.what }
{
    answer.what.is_parked()
}

/// A hub that threads share. Each seat that is passed to it must come from its own `Blank::open`.
#[derive(Drop)]
pub struct LiveHub<K: HubName> {
    /// What its journal's head lines say.
    head: Head,
    /// What threads read without the lock.
    words: Words<K>,
    /// What a step takes the lock for.
    desk: Mutex<Desk<K>>,
    /// By process number: told when an answer waits for that process. That is only a hint: a call
    /// ends where it finds its own answer.
    wakers: Vec<Parker>,
    ghost is: { (head ≡ K.name.terms.head) × (vec_len wakers ≡ K.name.terms.head.procs) },
}

/// The entry of a seat's process with this step.
#[inline(always)]
fn entry_of<'a>(seat: &Seat, step: StepRef<'a>) -> EntryRef<'a>
    ensures { result ≡ entry_of seat.now step.entry }
{
    Entry {
        pid: seat.pid(),
        step,
    }
}

impl<K: HubName> LiveHub<K> {
    pub(crate) fn of(head: Head, words: Words<K>, desk: Desk<K>, wakers: Vec<Parker>) -> LiveHub<K>
        requires head { head ≡ K.name.terms.head }
        requires wakers { vec_len wakers ≡ K.name.terms.head.procs }
    {
        LiveHub {
            head,
            words,
            desk: Mutex::new(desk),
            wakers,
        }
    }

    /// What its journal's head lines say: its edition, and its number of processes. It takes no lock.
    pub fn head(&self) -> Head
        ensures { result ≡ K.name.terms.head }
    {
        self.head
    }

    /// Wakes the processes whose calls ended, and no others.
    fn wake(&self, ended: &Pids) {
        for pid in ended.as_slice() {
            if let Some(waker) = self.wakers.get(usize::from(pid.0)) {
                waker.tell();
            }
        }
    }

    /// Makes a step of the seat's process, and waits where it parks. The entry is passed by reference: what is passed by value is
    /// copied in pieces of another size than those in which it was just stored, and a processor waits for such a copy. The seat comes
    /// last, since the entry is made of it.
    fn step<R: Wait>(&self, rt: &R, entry: &EntryRef<'_>, seat: &mut Seat) -> Result<Event, Fault>
        requires hub { seat.old.hub ≡ K.name }
        requires pid { entry.now.pid ≡ seat.old.pid }
        requires fits { is_of K.name.terms.head.edition entry.now.step ≡ true }
        ensures later { Later seat.old seat.new }
        ensures ok { IfOk result (λ x. Made seat.old seat.new entry.now.step x) }
        ensures answer { IfOk result (λ x. AnswersNoCall seat.old.pid entry.now.step x) }
        ensures err { IfErr result (λ f. Refused seat.old seat.new entry.now.step f) }
    {
        let waker = &self.wakers[usize::from(seat.pid().0)];
        let mut desk = self.lock(rt, waker);
        desk.step(&self.words, &mut seat.inner, entry)?;
        Ok(self.end_step(rt, desk, &mut seat.inner))
    }

    /// Wakes the processes whose calls the last step ended, and waits where the step parked. The answer is copied once, from where it
    /// was heard.
    #[inline]
    fn end_step<'a, R: Wait>(
        &'a self,
        rt: &R,
        desk: MutexGuard<'a, Desk<K>>,
        seat: &mut InnerSeat,
    ) -> Event
        requires hub { seat.old.hub ≡ K.name }
        requires history { IsHistory K.name.terms seat.old.seen }
        requires told { Tells K.name.terms seat.old.pid seat.old.seen (mutex_guard_value desk).last }
        ensures ended { HasEnded K.name seat.old seat.new result }
        ensures answer { is_parked (mutex_guard_value desk.entry).last.what ≡ false → result ≡ (mutex_guard_value desk.entry).last }
    {
        if waits(desk.answer()) {
            return self.wait_for_answer(rt, desk, seat);
        }
        let answer = *desk.answer();
        if desk.has_ended() {
            self.let_go(desk);
        }
        answer
    }

    /// Lets the lock go, and wakes the processes whose calls the last step ended, who then find it free. Mostly it ended none, and its
    /// caller should not pay for the list of them.
    #[inline(never)]
    fn let_go(&self, desk: MutexGuard<'_, Desk<K>>) {
        let ended = desk.ended();
        drop(desk);
        self.wake(&ended);
    }

    /// Takes the lock.
    #[inline(always)]
    fn lock<'a, R: Wait>(&'a self, rt: &R, waker: &Parker) -> MutexGuard<'a, Desk<K>> {
        match self.desk.try_lock() {
            Some(desk) => desk,
            None => self.wait_for_lock(rt, waker),
        }
    }

    /// Takes the lock that another holds. It is mostly let go before a thread could sleep, so it tries for a while first.
    #[inline(never)]
    fn wait_for_lock<'a, R: Wait>(&'a self, rt: &R, waker: &Parker) -> MutexGuard<'a, Desk<K>> {
        let mut loads = FIRST_PAUSE;
        for _ in 0..TRIES {
            waker.pause(loads);
            if let Some(desk) = self.desk.try_lock() {
                return desk;
            }
            loads = loads.saturating_mul(GROWTH).min(LONGEST_PAUSE);
        }
        self.desk.lock(rt)
    }

    /// Wakes the processes whose calls the step ended that parked. Then waits until an answer waits for the seat's process, and takes
    /// it; others may take the lock meanwhile.
    #[inline(never)]
    fn wait_for_answer<'a, R: Wait>(
        &'a self,
        rt: &R,
        desk: MutexGuard<'a, Desk<K>>,
        seat: &mut InnerSeat,
    ) -> Event
        requires { seat.old.hub ≡ K.name }
        ensures { HasEnded K.name seat.old seat.new result }
    {
        self.wake(&desk.ended());
        let waker = &self.wakers[usize::from(seat.pid().0)];
        let mut desk = desk;
        for _ in rt.forever() {
            // A `Stalled` of its own may lie there already.
            if let Some(answer) = desk.pick(&self.words, seat) {
                return answer;
            }
            // Still under the lock: whoever brings the answer has it later, and tells after that.
            waker.clear();
            drop(desk);
            waker.wait(rt);
            desk = self.lock(rt, waker);
        }
        unreachable!()
    }

    /// Makes a call of these cases, and waits until it ends: where a case fired, where the default was
    /// taken, or `Stalled` where everybody waits; never `What::Parked`. Of `k` cases that can proceed
    /// number `word mod k` fires, counted from 0. More cases than the edition admits are answered by the fault
    /// `TooManyCases`, and a port that was not made by `NoPort`. Others may take the lock while it waits. Its values
    /// have to be such as the hub's edition has: `Edition::has_cases` tests it.
    ///
    /// Refused, with no entry made and the hub as before, by `JournalFull` where the journal holds as
    /// many entries that are no exits as its limit, `Gone` where the process has exited, and `NoMemory`
    /// where a growth of the journal was refused; tested in this order.
    ///
    /// Go: "Send statements", "Receive operator", "Select statements".
    pub fn call<R: Wait>(
        &self,
        rt: &R,
        seat: &mut Seat,
        cases: Cases,
        default: bool,
        word: u64,
    ) -> Result<Event, Fault>
        requires hub { seat.old.hub ≡ K.name }
        requires fits { is_of K.name.terms.head.edition (Call cases default word) ≡ true }
        ensures later { Later seat.old seat.new }
        ensures ok { IfOk result (λ x. Made seat.old seat.new (Call cases default word) x) }
        ensures err { IfErr result (λ f. Refused seat.old seat.new (Call cases default word) f) }
    {
        let step = Step::Call {
            cases: CaseSlice::of(&cases),
            default,
            word,
        };
        self.step(rt, &entry_of(seat, step), seat)
    }

    /// Makes a call of this one case, without default and with word 0.
    fn call_one<R: Wait>(&self, rt: &R, seat: &mut Seat, case: Case) -> Result<Event, Fault>
        requires hub { seat.old.hub ≡ K.name }
        requires fits { has_case K.name.terms.head.edition case ≡ true }
        ensures later { Later seat.old seat.new }
        ensures ok { IfOk result (λ x. Made seat.old seat.new (call (case ∷ []) false 0) x) }
        ensures err { IfErr result (λ f. Refused seat.old seat.new (call (case ∷ []) false 0) f) }
    {
        let step = Step::Call {
            cases: CaseSlice::one(&case),
            default: false,
            word: 0,
        };
        self.step(rt, &entry_of(seat, step), seat)
    }

    /// Sends the value, as a call of this one case without default, and waits until it is sent. Answered
    /// `Fired` with `Sent`, or with `Closed` where the port is or gets closed; `Stalled` where everybody
    /// waits; or the fault `NoPort` for a port that was not made.
    ///
    /// Refused as a call is. The value has to be one that the hub's edition has, as each number is: `Value::fits`
    /// tests it. Go: "Send statements".
    pub fn send<R: Wait>(
        &self,
        rt: &R,
        seat: &mut Seat,
        sender: &SendPort,
        value: Value,
    ) -> Result<Event, Fault>
        requires hub { seat.old.hub ≡ K.name }
        requires fits { has_value K.name.terms.head.edition value ≡ true }
        ensures later { Later seat.old seat.new }
        ensures ok { IfOk result (λ x.
            Made seat.old seat.new (call (Send sender.now value ∷ []) false 0) x) }
        ensures err { IfErr result (λ f.
            Refused seat.old seat.new (call (Send sender.now value ∷ []) false 0) f) }
    {
        self.call_one(rt, seat, sender.send(value))
    }

    /// Receives a value, as a call of this one case without default, and waits until one comes. Answered
    /// `Fired` with `Got` and the value, or with `Drained` where the port is closed and its buffer
    /// empty; `Stalled` where everybody waits; or the fault `NoPort` for a port that was not made.
    ///
    /// Refused as a call is. Go: "Receive operator".
    pub fn recv<R: Wait>(
        &self,
        rt: &R,
        seat: &mut Seat,
        receiver: &RecvPort,
    ) -> Result<Event, Fault>
        requires { seat.old.hub ≡ K.name }
        ensures later { Later seat.old seat.new }
        ensures ok { IfOk result (λ x.
            Made seat.old seat.new (call (Recv receiver.now ∷ []) false 0) x) }
        ensures err { IfErr result (λ f.
            Refused seat.old seat.new (call (Recv receiver.now ∷ []) false 0) f) }
    {
        self.call_one(rt, seat, receiver.recv())
    }

    /// Makes a channel with a buffer of `cap` values, 0 to `MOST_CAP`; with 0 it is unbuffered. Answered
    /// `Made` with its port, the next number from 1 on, or the fault `BadCap` above that or `TooManyPorts`
    /// where `MOST_PORTS` are made. It takes the lock, and waits for no other step.
    ///
    /// Refused as a call is, and by `NoMemory` also where the channel's memory was refused. Go: "Making
    /// slices, maps and channels".
    pub fn make<R: Wait>(&self, rt: &R, seat: &mut Seat, cap: u32) -> Result<Event, Fault>
        requires { seat.old.hub ≡ K.name }
        ensures later { Later seat.old seat.new }
        ensures ok { IfOk result (λ x. Made seat.old seat.new (Make cap) x) }
        ensures answer { IfOk result (λ x. Answers seat.old.pid (Make cap) x) }
        ensures err { IfErr result (λ f. Refused seat.old seat.new (Make cap) f) }
    {
        self.step(rt, &entry_of(seat, Step::Make(cap)), seat)
    }

    /// Makes a channel as `make` does, and gives it. Err: with no entry made by what refuses a make, and
    /// by `BadCap` or `TooManyPorts` where the make was answered so. Go: "Making slices, maps and
    /// channels".
    pub fn make_chan<R: Wait>(&self, rt: &R, seat: &mut Seat, cap: u32) -> Result<Chan, Fault>
        requires { seat.old.hub ≡ K.name }
        ensures later { Later seat.old seat.new }
        ensures ok { IfOk result (λ chan. Told seat.old seat.new (Make cap) (what.Made chan)) }
        ensures err { IfErr result (λ f.
            Refused seat.old seat.new (Make cap) f ⊎ Told seat.old seat.new (Make cap) (what.Fault f)) }
    {
        match self.make(rt, seat, cap)?.what {
            What::Made(port) => Ok(Chan::of(port)),
            What::Fault(fault) => Err(fault),
            _ => unreachable!(),
        }
    }

    /// Closes a port, by its end that sends. Answered `Done`, or the fault `NoPort` for a port that was
    /// not made, `NilClose` for port 0 or `AlreadyClosed`. Receivers that wait end with `Drained` and
    /// senders that wait with `Closed`; what is buffered stays. It takes the lock, and waits for no
    /// other step.
    ///
    /// Refused as a call is. Go: "Close".
    pub fn close<R: Wait>(&self, rt: &R, seat: &mut Seat, sender: &SendPort) -> Result<Event, Fault>
        requires { seat.old.hub ≡ K.name }
        ensures later { Later seat.old seat.new }
        ensures ok { IfOk result (λ x. Made seat.old seat.new (Close sender.now) x) }
        ensures answer { IfOk result (λ x. Answers seat.old.pid (Close sender.now) x) }
        ensures err { IfErr result (λ f. Refused seat.old seat.new (Close sender.now) f) }
    {
        self.step(rt, &entry_of(seat, Step::Close(sender.port())), seat)
    }

    /// Ends the process. Answered `Done`; its later steps are refused by `Gone`, until it is started again. It
    /// takes the lock and no memory, and waits for no other step. A process that makes no exit, and has no open
    /// call, counts as one that can act: while there is one, no call that waits ends by `Stalled`. A seat that
    /// is dropped is no exit.
    ///
    /// Refused by `Gone` alone, where the process has exited before.
    pub fn exit<R: Wait>(&self, rt: &R, seat: &mut Seat) -> Result<Event, Fault>
        requires { seat.old.hub ≡ K.name }
        ensures later { Later seat.old seat.new }
        ensures ok { IfOk result (λ x. Made seat.old seat.new Exit x) }
        ensures answer { IfOk result (λ x. Answers seat.old.pid Exit x) }
        ensures err { IfErr result (λ f. Refused seat.old seat.new Exit f) }
    {
        self.step(rt, &entry_of(seat, Step::Exit), seat)
    }

    /// Cancels the open call of another process: it ends with `Cancelled`, no value moves, and no port
    /// changes. Answered `Done`, or the fault `NotParked` where that process has no open call: it is none of
    /// the hub's, has exited, is at work, or is the seat's own. It takes the lock, and waits for no other
    /// step. Hubs of the first edition do not have it.
    ///
    /// Refused as a call is.
    pub fn cancel<R: Wait>(&self, rt: &R, seat: &mut Seat, pid: Pid) -> Result<Event, Fault>
        requires hub { seat.old.hub ≡ K.name }
        requires edition { has_cancel K.name.terms.head.edition ≡ true }
        ensures later { Later seat.old seat.new }
        ensures ok { IfOk result (λ x. Made seat.old seat.new (Cancel pid) x) }
        ensures answer { IfOk result (λ x. Answers seat.old.pid (Cancel pid) x) }
        ensures err { IfErr result (λ f. Refused seat.old seat.new (Cancel pid) f) }
    {
        self.step(rt, &entry_of(seat, Step::Cancel(pid)), seat)
    }

    /// Starts another process again, which has exited: its seat then makes steps as before its exit. Answered
    /// `Done`, or the fault `NotGone` where that process has not exited or is none of the hub's. It takes the
    /// lock, and waits for no other step. Only hubs of the third edition have it.
    ///
    /// Refused as a call is.
    pub fn start<R: Wait>(&self, rt: &R, seat: &mut Seat, pid: Pid) -> Result<Event, Fault>
        requires hub { seat.old.hub ≡ K.name }
        requires edition { has_lives K.name.terms.head.edition ≡ true }
        ensures later { Later seat.old seat.new }
        ensures ok { IfOk result (λ x. Made seat.old seat.new (Start pid) x) }
        ensures answer { IfOk result (λ x. Answers seat.old.pid (Start pid) x) }
        ensures err { IfErr result (λ f. Refused seat.old seat.new (Start pid) f) }
    {
        self.step(rt, &entry_of(seat, Step::Start(pid)), seat)
    }

    /// Opens a port again, which is closed and drained, with this capacity, by its end that sends. Answered
    /// `Done`, or the fault `NoPort` for a port that was not made, `BadCap`, `NilClose` for port 0, or `InUse`
    /// where the port is open or holds a value. It takes the lock, and waits for no other step. Only hubs of the
    /// third edition have it.
    ///
    /// Refused as a make is.
    pub fn reopen<R: Wait>(
        &self,
        rt: &R,
        seat: &mut Seat,
        sender: &SendPort,
        cap: u32,
    ) -> Result<Event, Fault>
        requires hub { seat.old.hub ≡ K.name }
        requires edition { has_lives K.name.terms.head.edition ≡ true }
        ensures later { Later seat.old seat.new }
        ensures ok { IfOk result (λ x. Made seat.old seat.new (Reopen sender.now cap) x) }
        ensures answer { IfOk result (λ x. Answers seat.old.pid (Reopen sender.now cap) x) }
        ensures err { IfErr result (λ f. Refused seat.old seat.new (Reopen sender.now cap) f) }
    {
        let port = sender.port();
        self.step(rt, &entry_of(seat, Step::Reopen { port, cap }), seat)
    }

    /// The counts of a port in the journal that the seat has then seen: by at most one load, with no
    /// lock and no memory. `None` for port 0 and for a port that is not made there. Other threads may
    /// have made steps since. Go: "Length and capacity".
    pub fn look(&self, seat: &mut Seat, port: Port) -> Option<Counts>
        requires { seat.old.hub ≡ K.name }
        ensures later { Later seat.old seat.new }
        ensures same { AskedNothing seat.old seat.new }
        ensures counts { result ≡ counts_at (state_seen seat.new) port }
    {
        // Its contract says that the seat is idle, which holds still where nothing is loaded.
        let _pid = seat.pid();
        if port.0 == 0 || port.0 as usize > MOST_PORTS {
            return None;
        }
        let Some(mine) = &mut seat.inner.token else {
            unreachable!()
        };
        read_back(self.words.look(mine, usize::from(port.0)))
    }

    /// Both seats have then seen one journal: by three loads, with no lock and no memory.
    pub fn meet(&self, first: &mut Seat, second: &mut Seat)
        requires first { first.old.hub ≡ K.name }
        requires second { second.old.hub ≡ K.name }
        ensures together { first.new.seen ≡ second.new.seen }
        ensures first { Later first.old first.new }
        ensures first_same { AskedNothing first.old first.new }
        ensures second { Later second.old second.new }
        ensures second_same { AskedNothing second.old second.new }
    {
        let Some(mine) = &mut first.inner.token else {
            unreachable!()
        };
        let Some(theirs) = second.inner.token.take() else {
            unreachable!()
        };
        second.inner.token = Some(self.words.meet(mine, theirs));
    }

    /// The words and what lay under the lock, once nobody shares them.
    pub(crate) fn into_parts(self) -> (Words<K>, Desk<K>) {
        let LiveHub {
            head: _,
            words,
            desk,
            wakers: _,
        } = self;
        (words, desk.into_inner())
    }

    /// The journal. It begins with what each of these seats has seen, and their processes asked nothing
    /// more in it. The list may be empty. Answers that wait are dropped. Waits for nobody.
    pub fn finish(self, seats: Vec<Seat>) -> Journal
        requires { All (λ s. s.hub ≡ K.name) seats.items }
        ensures rules { EndsIn K.name seats.items result }
    {
        let (words, mut desk) = self.into_parts();
        desk.compare_all(&words, seats);
        desk.into_journal()
    }
}
