//! Seats whose hub is known by their type, so that their calls ask for nothing. Such a seat goes into a
//! thread and comes back with no clause.

ghost use Rattle.std.specs.Prelude.{◌≡◌, ◌<◌, ◌∷◌, ◌⊎◌, [], true, false, IfOk, IfErr, All};
ghost use Rattle.hub_base.specs.declared.event.What.TheVariants as what;
ghost use Rattle.hub_live.specs.Prelude.{Send, Recv, Make, Call, Close, Exit, Cancel, Start, Reopen, has_cancel, has_lives, is_of, has_value, call, counts_at, IsIdle, state_seen, Later};
ghost use Rattle.hub_live.specs.Prelude.{Made, Refused, Answers, AskedNothing, StandsIn, Told, EndsIn};

use crate::answer::Answer;
use crate::desk::Desk;
use crate::ends::{Chan, RecvPort, SendPort};
use crate::live_hub::LiveHub;
use crate::name::HubName;
use crate::seat::Seat;
use crate::words::Words;
use hub_base::{Cases, Counts, Fault, HasPid, Journal, NoMemory, Pid, Port, Value};
use hub_core::ShortJournal;
use std::alloc::{AllocError, Global};
use std::marker::{Model, PhantomData};
use std::sync::Wait;

/// A seat of the hub that `K` names. To a contract it is the seat. Each call is that of `LiveHub`.
#[derive(Drop)]
pub struct Held<K: HubName> {
    /// The seat.
    seat: Seat,
    /// Whose seat it is.
    of: PhantomData<K>,
}

impl<K: HubName> Model for Held<K> {
    ghost use Rattle.std.specs.Prelude.{◌≡◌};
    ghost use Rattle.hub_live.specs.SeatView.{SeatView};

    ghost Value = { SeatView };

    ghost view = { λ h. h.seat };

    ghost invariant = { λ h. h.seat.hub ≡ K.name };
}

impl<K: HubName> HasPid for Held<K> {
    ghost pid_of = { λ held. held.pid };

    fn pid(&self) -> Pid {
        Held::pid(self)
    }
}

impl<K: HubName> Held<K> {
    /// The seat, known to be of this hub.
    pub fn of(seat: Seat) -> Held<K>
        requires { seat.hub ≡ K.name }
        ensures { result ≡ seat }
    {
        Held {
            seat,
            of: PhantomData,
        }
    }

    /// Its process, which is one of its hub's. What the seat has seen is a legal journal, in which
    /// the process has no open call.
    pub fn pid(&self) -> Pid
        ensures pid { result ≡ self.now.pid }
        ensures below { result.0 < self.now.hub.terms.head.procs }
        ensures idle { IsIdle self.now }
        ensures hub { self.now.hub ≡ K.name }
    {
        self.seat.pid()
    }

    /// The seat.
    pub fn into_seat(self) -> Seat
        ensures seat { result ≡ self }
        ensures hub { result.hub ≡ K.name }
    {
        let Held { seat, of: _ } = self;
        seat
    }

    /// Makes a call of these cases, and waits until it ends. Answers and refusals: `LiveHub::call`. `Ok` is an answer and
    /// no success: a closed port and a fault are answers too.
    pub fn call<R: Wait>(
        &mut self,
        rt: &R,
        hub: &LiveHub<K>,
        cases: Cases,
        default: bool,
        word: u64,
    ) -> Answer
        requires { is_of K.name.terms.head.edition (Call cases default word) ≡ true }
        ensures later { Later self.old self.new }
        ensures ok { IfOk result (λ x. Made self.old self.new (Call cases default word) x) }
        ensures err { IfErr result (λ f. Refused self.old self.new (Call cases default word) f) }
    {
        hub.call(rt, &mut self.seat, cases, default, word)
    }

    /// Sends the value, and waits until it is sent. Answers and refusals: `LiveHub::send`.
    pub fn send<R: Wait>(
        &mut self,
        rt: &R,
        hub: &LiveHub<K>,
        sender: &SendPort,
        value: Value,
    ) -> Answer
        requires { has_value K.name.terms.head.edition value ≡ true }
        ensures later { Later self.old self.new }
        ensures ok { IfOk result (λ x.
            Made self.old self.new (call (Send sender.now value ∷ []) false 0) x) }
        ensures err { IfErr result (λ f.
            Refused self.old self.new (call (Send sender.now value ∷ []) false 0) f) }
    {
        hub.send(rt, &mut self.seat, sender, value)
    }

    /// Receives a value, and waits until one comes. Answers and refusals: `LiveHub::recv`.
    pub fn recv<R: Wait>(&mut self, rt: &R, hub: &LiveHub<K>, receiver: &RecvPort) -> Answer
        ensures later { Later self.old self.new }
        ensures ok { IfOk result (λ x.
            Made self.old self.new (call (Recv receiver.now ∷ []) false 0) x) }
        ensures err { IfErr result (λ f.
            Refused self.old self.new (call (Recv receiver.now ∷ []) false 0) f) }
    {
        hub.recv(rt, &mut self.seat, receiver)
    }

    /// Makes a channel with a buffer of `cap` values. Answers and refusals: `LiveHub::make`.
    pub fn make<R: Wait>(&mut self, rt: &R, hub: &LiveHub<K>, cap: u32) -> Answer
        ensures later { Later self.old self.new }
        ensures ok { IfOk result (λ x. Made self.old self.new (Make cap) x) }
        ensures answer { IfOk result (λ x. Answers self.old.pid (Make cap) x) }
        ensures err { IfErr result (λ f. Refused self.old self.new (Make cap) f) }
    {
        hub.make(rt, &mut self.seat, cap)
    }

    /// Makes a channel with a buffer of `cap` values, and gives it. `Err` where the make was refused, and where it was
    /// answered by a fault.
    pub fn make_chan<R: Wait>(&mut self, rt: &R, hub: &LiveHub<K>, cap: u32) -> Result<Chan, Fault>
        ensures later { Later self.old self.new }
        ensures ok { IfOk result (λ chan. Told self.old self.new (Make cap) (what.Made chan)) }
        ensures err { IfErr result (λ f.
            Refused self.old self.new (Make cap) f ⊎ Told self.old self.new (Make cap) (what.Fault f)) }
    {
        hub.make_chan(rt, &mut self.seat, cap)
    }

    /// Closes a port, by its end that sends. Answers and refusals: `LiveHub::close`.
    pub fn close<R: Wait>(&mut self, rt: &R, hub: &LiveHub<K>, sender: &SendPort) -> Answer
        ensures later { Later self.old self.new }
        ensures ok { IfOk result (λ x. Made self.old self.new (Close sender.now) x) }
        ensures answer { IfOk result (λ x. Answers self.old.pid (Close sender.now) x) }
        ensures err { IfErr result (λ f. Refused self.old self.new (Close sender.now) f) }
    {
        hub.close(rt, &mut self.seat, sender)
    }

    /// Ends the process: `LiveHub::exit`. A thread that others may wait for does so before it ends.
    pub fn exit<R: Wait>(&mut self, rt: &R, hub: &LiveHub<K>) -> Answer
        ensures later { Later self.old self.new }
        ensures ok { IfOk result (λ x. Made self.old self.new Exit x) }
        ensures answer { IfOk result (λ x. Answers self.old.pid Exit x) }
        ensures err { IfErr result (λ f. Refused self.old self.new Exit f) }
    {
        hub.exit(rt, &mut self.seat)
    }

    /// Cancels the open call of another process. Answers and refusals: `LiveHub::cancel`. Hubs of the first edition
    /// do not have it.
    pub fn cancel<R: Wait>(&mut self, rt: &R, hub: &LiveHub<K>, pid: Pid) -> Answer
        requires { has_cancel K.name.terms.head.edition ≡ true }
        ensures later { Later self.old self.new }
        ensures ok { IfOk result (λ x. Made self.old self.new (Cancel pid) x) }
        ensures answer { IfOk result (λ x. Answers self.old.pid (Cancel pid) x) }
        ensures err { IfErr result (λ f. Refused self.old self.new (Cancel pid) f) }
    {
        hub.cancel(rt, &mut self.seat, pid)
    }

    /// Starts another process again, which has exited. Answers and refusals: `LiveHub::start`. Only hubs of the third
    /// edition have it.
    pub fn start<R: Wait>(&mut self, rt: &R, hub: &LiveHub<K>, pid: Pid) -> Answer
        requires { has_lives K.name.terms.head.edition ≡ true }
        ensures later { Later self.old self.new }
        ensures ok { IfOk result (λ x. Made self.old self.new (Start pid) x) }
        ensures answer { IfOk result (λ x. Answers self.old.pid (Start pid) x) }
        ensures err { IfErr result (λ f. Refused self.old self.new (Start pid) f) }
    {
        hub.start(rt, &mut self.seat, pid)
    }

    /// Opens a port again, which is closed and drained, by its end that sends. Answers and refusals: `LiveHub::reopen`.
    /// Only hubs of the third edition have it.
    pub fn reopen<R: Wait>(
        &mut self,
        rt: &R,
        hub: &LiveHub<K>,
        sender: &SendPort,
        cap: u32,
    ) -> Answer
        requires { has_lives K.name.terms.head.edition ≡ true }
        ensures later { Later self.old self.new }
        ensures ok { IfOk result (λ x. Made self.old self.new (Reopen sender.now cap) x) }
        ensures answer { IfOk result (λ x. Answers self.old.pid (Reopen sender.now cap) x) }
        ensures err { IfErr result (λ f. Refused self.old self.new (Reopen sender.now cap) f) }
    {
        hub.reopen(rt, &mut self.seat, sender, cap)
    }

    /// The counts of a port in the journal that the seat has then seen.
    pub fn look(&mut self, hub: &LiveHub<K>, port: Port) -> Option<Counts>
        ensures later { Later self.old self.new }
        ensures same { AskedNothing self.old self.new }
        ensures counts { result ≡ counts_at (state_seen self.new) port }
    {
        hub.look(&mut self.seat, port)
    }

    /// Both seats have then seen one and the same beginning of the journal, all that either had seen among it.
    pub fn meet(&mut self, hub: &LiveHub<K>, other: &mut Held<K>)
        ensures together { self.new.seen ≡ other.new.seen }
        ensures later { Later self.old self.new }
        ensures same { AskedNothing self.old self.new }
        ensures other { Later other.old other.new }
        ensures other_same { AskedNothing other.old other.new }
    {
        hub.meet(&mut self.seat, &mut other.seat);
    }
}

/// Shows of each of these seats that the journal begins with what it has seen, and that its process asked nothing
/// more in it.
fn compare_all<K: HubName>(words: &Words<K>, desk: &mut Desk<K>, held: Vec<Held<K>>)
    ensures same { desk.new ≡ desk.old }
    ensures stand { All (λ s. StandsIn s desk.new.hub.journal) held.items }
{
    for one in held {
        desk.compare(words, one.into_seat().into_inner());
    }
}

impl<K: HubName> LiveHub<K> {
    /// The journal, as `finish` gives it.
    pub fn finish_held(self, held: Vec<Held<K>>) -> Journal
        ensures rules { EndsIn K.name held.items result }
    {
        let (words, mut desk) = self.into_parts();
        compare_all(&words, &mut desk, held);
        desk.into_journal()
    }

    /// The journal, as `finish_held` gives it, kept short: in 16 bytes for most entries, in place of those of an `Entry`. It takes
    /// memory only where some of its entries are written out; an `Err` is memory.
    pub fn finish_short(self, alloc: Global, held: Vec<Held<K>>) -> Result<ShortJournal, NoMemory>
        ensures rules { IfOk result (EndsIn K.name held.items) }
    {
        let (words, mut desk) = self.into_parts();
        compare_all(&words, &mut desk, held);
        desk.into_short_journal(alloc)
    }
}

/// The seats, in order, each known to be of this hub. Where memory is refused they are dropped.
pub fn hold_all<K: HubName>(alloc: Global, seats: Vec<Seat>) -> Result<Vec<Held<K>>, AllocError>
    requires { All (λ s. s.hub ≡ K.name) seats.items }
    ensures same { IfOk result (λ held. held.items ≡ seats.items) }
{
    let mut held = Vec::new(alloc);
    for seat in seats {
        held.push(Held::of(seat))?;
    }
    Ok(held)
}
