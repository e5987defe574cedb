//! Calls that give what a caller wants of their answers, and tell any other answer by `Ended`.

ghost use Rattle.std.specs.Prelude.{◌≡◌, ◌≢◌, Option, ◌∷◌, [], true, false, IfOk, IfErr, OnOk};
ghost use Rattle.hub_base.specs.declared.event.What.TheVariants as what;
ghost use Rattle.hub_base.specs.declared.event.Outcome.TheVariants.{Sent};
ghost use Rattle.hub_base.specs.Steps.{outcome_of};
ghost use Rattle.hub_base.specs.declared.value.Value.{Value};
ghost use Rattle.hub_live.specs.Prelude.{Send, Recv, Close, call, has_value, Later};
ghost use Rattle.hub_live.specs.declared.values.Ended.TheVariants as ended;
ghost use Rattle.hub_live.specs.Values.{EndedBy, LastTold};

use crate::ends::{RecvPort, SendPort};
use crate::held::Held;
use crate::live_hub::LiveHub;
use crate::name::HubName;
use hub_base::{Fault, Outcome, Value, What};
use std::sync::Wait;

/// Why a call did not do what it was made for.
#[derive(Clone, Copy, Debug, PartialEq, Eq)]
pub enum Ended {
    /// The step was refused, and made no entry: the journal is full, the process has exited, or memory was refused.
    Refused(Fault),
    /// The call was told this in place of what it waits for: `Stalled`, `Cancelled`, a closed port or a fault.
    Told(What),
}

impl From<Fault> for Ended {
    ghost from_gives = { λ fault given. given ≡ ended.Refused fault };

    fn from(fault: Fault) -> Ended {
        Ended::Refused(fault)
    }
}

impl<K: HubName> Held<K> {
    /// Sends the value, and waits until it is sent. Err: whatever else the call was told, a closed port among it, or why it
    /// was refused. Go: "Send statements".
    pub fn send_value<R: Wait>(
        &mut self,
        rt: &R,
        hub: &LiveHub<K>,
        sender: &SendPort,
        value: Value,
    ) -> Result<(), Ended>
        requires { has_value K.name.terms.head.edition value ≡ true }
        ensures later { Later self.old self.new }
        ensures ok { OnOk result (LastTold self.old self.new (call (Send sender.now value ∷ []) false 0) (what.Fired 0 Sent)) }
        ensures err { IfErr result (λ e. EndedBy self.old self.new (call (Send sender.now value ∷ []) false 0) e) }
        ensures other { IfErr result (λ e. e ≢ ended.Told (what.Fired 0 Sent)) }
    {
        match self.send(rt, hub, sender, value)?.what {
            What::Fired {
                case: 0,
                outcome: Outcome::Sent,
            } => Ok(()),
            other => Err(Ended::Told(other)),
        }
    }

    /// Receives a value, and waits until one comes; `None` once the port is closed and drained. Err: whatever else the call
    /// was told, or why it was refused. Go: "Receive operator", "Close".
    pub fn recv_value<R: Wait>(
        &mut self,
        rt: &R,
        hub: &LiveHub<K>,
        receiver: &RecvPort,
    ) -> Result<Option<Value>, Ended>
        ensures later { Later self.old self.new }
        ensures ok { IfOk result (λ r. LastTold self.old self.new (call (Recv receiver.now ∷ []) false 0) (what.Fired 0 (outcome_of r))) }
        ensures err { IfErr result (λ e. EndedBy self.old self.new (call (Recv receiver.now ∷ []) false 0) e) }
        ensures other { IfErr result (λ e. (r : Option Value) → e ≢ ended.Told (what.Fired 0 (outcome_of r))) }
    {
        match self.recv(rt, hub, receiver)?.what {
            What::Fired {
                case: 0,
                outcome: Outcome::Got(value),
            } => Ok(Some(value)),
            What::Fired {
                case: 0,
                outcome: Outcome::Drained,
            } => Ok(None),
            other => Err(Ended::Told(other)),
        }
    }

    /// Closes a port. Err: the fault that it was told, or why it was refused. Go: "Close".
    pub fn close_port<R: Wait>(
        &mut self,
        rt: &R,
        hub: &LiveHub<K>,
        sender: &SendPort,
    ) -> Result<(), Ended>
        ensures later { Later self.old self.new }
        ensures ok { OnOk result (LastTold self.old self.new (Close sender.now) what.Done) }
        ensures err { IfErr result (λ e. EndedBy self.old self.new (Close sender.now) e) }
        ensures other { IfErr result (λ e. e ≢ ended.Told what.Done) }
    {
        match self.close(rt, hub, sender)?.what {
            What::Done => Ok(()),
            other => Err(Ended::Told(other)),
        }
    }
}
