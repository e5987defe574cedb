//! What each thread of a run does: its process follows its script.

use crate::gate::Gate;
use crate::worker::follow;
use hub_base::Fault;
use hub_crew::Task;
use hub_live::{Held, HubName, LiveHub};
use hub_scenario::{ChoiceWords, Scenario};
use std::sync::Wait;

/// Each process follows its script, and passes the gate before its calls.
#[derive_where(Clone, Copy)]
pub struct Following<'a, G> {
    /// Whose script is followed.
    pub scenario: &'a Scenario,
    /// What each step passes.
    pub gate: &'a G,
}

impl<'a, K: HubName, R: Wait, G: Gate + Sync> Task<LiveHub<K>, Held<K>, R> for Following<'a, G> {
    ghost use Rattle.hub_scenario.specs.Scenario.{scenario_view};
    ghost use Rattle.hub_runner.specs.Running.{IsReady, IsOutcome};

    /// Why a step of the process was refused, if one was.
    type Report = Result<(), Fault>;

    ghost begins = { λ t s. IsReady (scenario_view t.scenario.now) s };

    ghost ends = { λ t s r. IsOutcome (scenario_view t.scenario.now) s r };

    fn perform(self, rt: &R, hub: &LiveHub<K>, seat: &mut Held<K>) -> Result<(), Fault> {
        let pid = seat.pid();
        let script = &self.scenario.scripts[usize::from(pid.0)];
        let words = ChoiceWords::of(self.scenario.seed, pid);
        follow(rt, hub, self.gate, seat, script, words)
    }
}
