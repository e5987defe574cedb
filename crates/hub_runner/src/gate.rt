//! What a process passes before each of its calls.

use hub_base::Pid;

/// What is called before the calls of a run: for tests that hold processes back, or watch them.
pub trait Gate {
    /// Called by the thread of each process before its `n`-th call or close, counted from 0; each
    /// receive of a range counts. The ports that process 0 makes and the exits don't. A run goes on
    /// when it returns.
    fn enter(&self, pid: u8, n: u32);
}

/// A gate that does nothing.
#[derive(Clone, Copy, Debug, PartialEq, Eq)]
pub struct NoGate;

impl Gate for NoGate {
    fn enter(&self, _pid: u8, _n: u32) {}
}

/// The gate and how often a process has passed it.
#[derive(Drop)]
pub struct Passes<'a, G> {
    /// What is passed.
    gate: &'a G,
    /// The process that passes it.
    pid: Pid,
    /// How often it has.
    count: u32,
}

impl<'a, G: Gate> Passes<'a, G> {
    pub fn new(gate: &'a G, pid: Pid) -> Passes<'a, G> {
        Passes {
            gate,
            pid,
            count: 0,
        }
    }

    pub fn pass(&mut self) {
        self.gate.enter(self.pid.0, self.count);
        self.count = self.count.saturating_add(1);
    }
}
