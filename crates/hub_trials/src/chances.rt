//! Random choices of a process: what it does next, and on which ports.

ghost use Rattle.std.specs.Prelude.{◌≡◌, ◌<◌, ◌≤◌, true, length};
ghost use Rattle.std.specs.List.{list_all};
ghost use Rattle.hub_base.specs.declared.head.Edition.{Edition};
ghost use Rattle.hub_base.specs.Head.{has_case, has_value};

use hub_base::{Case, Cases, Pid, Port, Value};
use hub_live::Chan;
use rand_core::{Rng, SeedableRng};
use rand_xoshiro::Xoshiro256PlusPlus;

/// How many ports there are.
pub const PORTS: u16 = 40;

/// Where random choices come from.
#[derive(Drop)]
pub struct Chances {
    words: Xoshiro256PlusPlus,
}

impl Chances {
    pub fn of(seed: u64) -> Chances {
        Chances {
            words: Xoshiro256PlusPlus::seed_from_u64(seed),
        }
    }

    pub fn word(&mut self) -> u64 {
        self.words.next_u64()
    }

    /// A number below `count`.
    pub fn below(&mut self, count: u64) -> u64
        requires { 0 < count }
        ensures { result < count }
    {
        self.word() % count
    }

    /// A port that was made, or rarely the nil port.
    pub fn port(&mut self) -> Port
        ensures { result.0 ≤ 40 }
    {
        if self.below(256) == 0 {
            return Port(0);
        }
        Port(1 + self.below(u64::from(PORTS)) as u16)
    }

    fn case(&mut self, value: Value) -> Case
        requires { (edition : Edition) → has_value edition value ≡ true }
        ensures { (edition : Edition) → has_case edition result ≡ true }
    {
        let chan = Chan::of(self.port());
        if self.below(2) == 0 {
            chan.sender().send(value)
        } else {
            chan.receiver().recv()
        }
    }

    /// How many cases a call has: half of the calls have one, and no call more than 8.
    fn count_of_cases(&mut self) -> u64
        ensures { result ≤ 8 }
    {
        if self.below(2) == 0 {
            1
        } else {
            1 + self.below(8)
        }
    }

    /// The cases of a call, of which each send sends this value, which is a number.
    pub fn cases(&mut self, value: Value) -> Cases
        requires { (edition : Edition) → has_value edition value ≡ true }
        ensures few { length result.items ≤ 8 }
        ensures fits { (edition : Edition) → list_all (has_case edition) result.items ≡ true }
    {
        let mut cases = Cases::new();
        for _ in 0..self.count_of_cases() {
            cases.push(self.case(value));
        }
        cases
    }
}

/// No two sends of one hub have the same: it tells the process, and which of its sends it is.
pub fn value_of(pid: Pid, count: u32) -> Value
    ensures { (edition : Edition) → has_value edition result ≡ true }
{
    Value::num(u64::from(pid.0) * 0x1_0000_0000 + u64::from(count))
}
