//! What is timed: which processes there are, and what each does.

ghost use Rattle.std.specs.Prelude.{◌≤◌, length};

use hub_base::{Pid, Port};
use std::fmt;

/// What is timed.
#[derive(Clone, Copy)]
pub enum Workload {
    /// One thread sends and receives in turn.
    Alone,
    /// Two threads hand a value to and fro, by two unbuffered ports.
    PingPong,
    /// A producer and a consumer.
    OneToOne,
    /// Four producers and four consumers of one port.
    FourToFour,
    /// Four producers, each with a port, and a consumer that selects.
    SelectOverFour,
    /// Five producers and three consumers of one port.
    Pool,
    /// Values go through eight processes, by seven ports.
    Pipeline,
    /// So many threads look at one port, and nobody steps before its looks are made.
    Looks(u8),
}

/// In the order in which they are timed.
pub const WORKLOADS: [Workload; 10] = [
    Workload::Alone,
    Workload::PingPong,
    Workload::OneToOne,
    Workload::FourToFour,
    Workload::SelectOverFour,
    Workload::Pool,
    Workload::Pipeline,
    Workload::Looks(1),
    Workload::Looks(2),
    Workload::Looks(4),
];

/// What a process does in each turn.
#[derive(Clone, Copy)]
pub enum Role {
    Send(Port),
    Receive(Port),
    SendThenReceive(Port, Port),
    ReceiveThenSend(Port, Port),
    /// Receives from any of the ports 1 to 4.
    SelectOverFour,
    Look(Port),
}

/// How many looks stand for a call. A look takes about a hundredth of its time, and with too few of
/// them the start of the threads would be timed.
const LOOKS: u32 = 100;

impl Workload {
    /// The number of processes.
    pub fn procs(self) -> u8 {
        match self {
            Workload::Alone => 1,
            Workload::PingPong | Workload::OneToOne => 2,
            Workload::FourToFour | Workload::Pool | Workload::Pipeline => 8,
            Workload::SelectOverFour => 5,
            Workload::Looks(threads) => threads,
        }
    }

    /// The capacities of its ports, in order.
    pub fn capacities(self) -> &'static [u32]
        ensures { length result.now ≤ 7 }
    {
        match self {
            Workload::Alone | Workload::OneToOne | Workload::FourToFour | Workload::Pool => &[64],
            Workload::Pipeline => &[64, 64, 64, 64, 64, 64, 64],
            Workload::PingPong => &[0, 0],
            Workload::SelectOverFour => &[16, 16, 16, 16],
            Workload::Looks(_) => &[0],
        }
    }

    /// What a process does.
    pub fn role(self, pid: Pid) -> Role {
        match self {
            Workload::Alone => Role::SendThenReceive(Port(1), Port(1)),
            Workload::PingPong if pid.0 == 0 => Role::SendThenReceive(Port(1), Port(2)),
            Workload::PingPong => Role::ReceiveThenSend(Port(1), Port(2)),
            Workload::OneToOne | Workload::FourToFour if pid.0 % 2 == 0 => Role::Send(Port(1)),
            Workload::OneToOne | Workload::FourToFour => Role::Receive(Port(1)),
            Workload::SelectOverFour if pid.0 == 0 => Role::SelectOverFour,
            Workload::SelectOverFour => Role::Send(Port(u16::from(pid.0))),
            Workload::Pool if pid.0 < 5 => Role::Send(Port(1)),
            Workload::Pool => Role::Receive(Port(1)),
            Workload::Pipeline if pid.0 == 0 => Role::Send(Port(1)),
            Workload::Pipeline if pid.0 == 7 => Role::Receive(Port(7)),
            Workload::Pipeline => {
                let port = u16::from(pid.0);
                Role::ReceiveThenSend(Port(port), Port(port + 1))
            }
            Workload::Looks(_) => Role::Look(Port(1)),
        }
    }

    /// The calls of all its processes together come in multiples of this.
    fn round(self) -> u32
        ensures { 8 ≤ result }
    {
        match self {
            Workload::Pool => 30,
            Workload::Pipeline => 14,
            _ => 8,
        }
    }

    /// How often a process does it, so that all processes make so many calls together, to the last
    /// whole round, or 100 times as many looks each.
    pub fn turns(self, role: Role, calls: u32) -> u32 {
        let rounds = calls / self.round();
        match (self, role) {
            (Workload::Alone | Workload::OneToOne, _) => 4 * rounds,
            (Workload::PingPong, _) => 2 * rounds,
            (Workload::FourToFour | Workload::Pipeline, _) => rounds,
            (Workload::SelectOverFour, Role::SelectOverFour) => 4 * rounds,
            (Workload::SelectOverFour, _) => rounds,
            (Workload::Pool, Role::Send(_)) => 3 * rounds,
            (Workload::Pool, _) => 5 * rounds,
            (Workload::Looks(_), _) => LOOKS.saturating_mul(calls),
        }
    }

    /// Whether the hub's journal is made too: of the calls that `chanhub run` makes, which reports on it.
    pub fn gives_its_journal(self) -> bool {
        matches!(self, Workload::Pool | Workload::Pipeline)
    }

    /// How many calls or looks are timed.
    pub fn operations(self, calls: u32) -> u64 {
        match self {
            Workload::Looks(threads) => u64::from(threads) * u64::from(LOOKS.saturating_mul(calls)),
            _ => u64::from(self.round()) * u64::from(calls / self.round()),
        }
    }
}

impl fmt::Display for Workload {
    fn fmt<W: fmt::Write>(&self, f: &mut fmt::Formatter<W>) -> fmt::Result {
        match self {
            Workload::Alone => f.write_str("alone"),
            Workload::PingPong => f.write_str("ping_pong"),
            Workload::OneToOne => f.write_str("one_to_one"),
            Workload::FourToFour => f.write_str("four_to_four"),
            Workload::SelectOverFour => f.write_str("select_over_four"),
            Workload::Pool => f.write_str("pool"),
            Workload::Pipeline => f.write_str("pipeline"),
            Workload::Looks(threads) => write!(f, "looks_{threads}"),
        }
    }
}
