//! Who has exited.

ghost use Rattle.std.specs.Prelude.{◌≡◌, ◌≤◌, ◌<◌, ◌+◌, true, false, replicate, slice_set};
ghost use Rattle.hub_core.specs.ListSteps.{gone_on};

use hub_base::{MOST_PROCS, Pid};

/// Which processes have exited, and how many.
#[derive(Clone, Copy)]
pub(crate) struct Exited {
    /// Whether each process has exited, by its number.
    pub(crate) gone: [bool; MOST_PROCS],
    /// How many have.
    pub(crate) count: u8,
}

impl Exited {
    /// No process has exited.
    pub(crate) fn none() -> Exited
        ensures gone { result.gone ≡ replicate MOST_PROCS false }
        ensures count { result.count ≡ 0 }
    {
        Exited {
            gone: [false; MOST_PROCS],
            count: 0,
        }
    }

    /// Whether the process has exited.
    pub(crate) fn has(&self, pid: Pid) -> bool
        requires { pid.0 < MOST_PROCS }
        ensures { result ≡ gone_on self.now.gone pid.0 }
    {
        self.gone[pid.0 as usize]
    }

    /// The process has exited too.
    pub(crate) fn add(&mut self, pid: Pid)
        requires below { pid.0 < MOST_PROCS }
        requires few { self.old.count ≤ MOST_PROCS }
        ensures gone { self.new.gone ≡ slice_set self.old.gone pid.0 true }
        ensures count { self.new.count ≡ self.old.count + 1 }
    {
        self.gone[pid.0 as usize] = true;
        self.count += 1;
    }

    /// The process, which had exited, is started again.
    pub(crate) fn remove(&mut self, pid: Pid)
        requires below { pid.0 < MOST_PROCS }
        requires some { 0 < self.old.count }
        ensures gone { self.new.gone ≡ slice_set self.old.gone pid.0 false }
        ensures count { self.new.count + 1 ≡ self.old.count }
    {
        self.gone[pid.0 as usize] = false;
        self.count -= 1;
    }
}
