//! One process: it makes the steps of its script in order, and exits.

ghost use Rattle.std.specs.Prelude.{◌≡◌, ◌<◌, ◌-◌, ◌^◌, ◌+◌, ◌&&◌, ◌++◌, ◌∷◌, [], List, ℕ, Some, true, IfOk, IfErr, OnOk};
ghost use Rattle.std.specs.List.{list_all};
ghost use Rattle.hub_base.specs.declared.entry.Step.TheVariants.{Exit};
ghost use Rattle.hub_runner.specs.Prelude.{is_stalled, Later, Refused, ScriptStep, choice_word, has_step, asks, gets, is_range};
ghost use Rattle.hub_runner.specs.Prelude.{taken_after, steps_asked, asked_of, has_exited, Onward, Leads, Followed, goes_on_with};
ghost use Rattle.hub_runner.specs.Prelude.{Stopped, WasStopped};

use crate::gate::{Gate, Passes};
use hub_base::{Event, Fault, Outcome, What, copy_cases};
use hub_live::{Chan, Held, HubName, LiveHub};
use hub_scenario::{ChoiceWords, ScriptStep};
use std::sync::Wait;

fn gets(what: What) -> bool
    ensures { result ≡ gets what }
{
    matches!(
        what,
        What::Fired {
            outcome: Outcome::Got(_),
            ..
        }
    )
}

fn is_range(step: &ScriptStep) -> bool
    ensures { result ≡ is_range step.now }
{
    matches!(step, ScriptStep::Range(_))
}

/// Whether the same step is made again after this answer.
pub fn repeats(step: &ScriptStep, what: What) -> bool
    ensures { result ≡ (is_range step.now && gets what) }
{
    is_range(step) && gets(what)
}

/// The choice word of a step: a select takes the next one, and for any other step it counts for
/// nothing.
fn word_for(step: &ScriptStep, words: &mut ChoiceWords) -> u64
    requires { words.old.drawn < 2 ^ 64 - 1 }
    ensures seed { words.new.seed ≡ words.old.seed }
    ensures taken { words.new.drawn ≡ taken_after step.now words.old.drawn }
    ensures chosen { asks step.now result
        ≡ asks step.now (choice_word words.old.seed words.old.drawn) }
{
    match step {
        ScriptStep::Select(..) => words.next_word(),
        _ => 0,
    }
}

/// A step of a script, and the choice word that it has.
#[derive(Clone, Copy)]
struct Turn<'a> {
    step: &'a ScriptStep,
    word: u64,
}

/// Makes the entry that a step of a script asks for.
fn ask<K: HubName, R: Wait>(
    rt: &R,
    hub: &LiveHub<K>,
    seat: &mut Held<K>,
    turn: Turn,
) -> Result<Event, Fault>
    requires { has_step K.name.terms.head.edition turn.step.now ≡ true }
    ensures later { Later seat.old seat.new }
    ensures ok { IfOk result (λ x.
        asked_of seat.new
        ≡ asked_of seat.old ++ record { step = asks turn.entry.step.now turn.entry.word; reply = Some x } ∷ []) }
    ensures err { IfErr result (λ f.
        Refused seat.old seat.new (asks turn.entry.step.now turn.entry.word) f) }
{
    // Its contract says that the process has no open call.
    let _pid = seat.pid();
    let Turn { step, word } = turn;
    match step {
        ScriptStep::Send(port, value) => seat.send(rt, hub, &Chan::of(*port).sender(), *value),
        ScriptStep::Recv(port) | ScriptStep::Range(port) => {
            seat.recv(rt, hub, &Chan::of(*port).receiver())
        }
        ScriptStep::Select(cases, default) => {
            seat.call(rt, hub, copy_cases(cases), *default, word)
        }
        ScriptStep::Close(port) => seat.close(rt, hub, &Chan::of(*port).sender()),
    }
}

/// Whether a script ends with this answer: everyone waited.
fn ends_script(what: &What) -> bool
    ensures { result ≡ is_stalled what.now }
{
    what.is_stalled()
}

/// Makes the entries of one step of a script, of a range until it gets no value, and passes the gate
/// before each. Whether the script goes on: not after `Stalled`.
fn take_step<K: HubName, R: Wait, G: Gate>(
    rt: &R,
    hub: &LiveHub<K>,
    passes: &mut Passes<G>,
    seat: &mut Held<K>,
    turn: Turn,
) -> Result<bool, Fault>
    requires { has_step K.name.terms.head.edition turn.step.now ≡ true }
    ensures later { Later seat.old seat.new }
    ensures ok { IfOk result (λ goes_on. (words : ℕ → ℕ) (rest : List ScriptStep) (j : ℕ) →
        asks turn.entry.step.now turn.entry.word ≡ asks turn.entry.step.now (words j) →
        Leads (asked_of seat.old) (asked_of seat.new) words (turn.entry.step.now ∷ rest) j
        (goes_on_with goes_on rest) (taken_after turn.entry.step.now j)) }
    ensures err { IfErr result (λ f. (words : ℕ → ℕ) (rest : List ScriptStep) (j : ℕ) →
        asks turn.entry.step.now turn.entry.word ≡ asks turn.entry.step.now (words j) →
        Stopped (asked_of seat.old) seat.new words (turn.entry.step.now ∷ rest) j f) }
{
    for _ in rt.forever() {
        passes.pass();
        let event = ask(rt, hub, seat, turn)?;
        if ends_script(&event.what) {
            return Ok(false);
        }
        if !repeats(turn.step, event.what) {
            return Ok(true);
        }
    }
    unreachable!()
}

/// Makes a script's entries in order, with the choice words that no one has taken yet.
fn follow_steps<K: HubName, R: Wait, G: Gate>(
    rt: &R,
    hub: &LiveHub<K>,
    passes: &mut Passes<G>,
    seat: &mut Held<K>,
    script: &[ScriptStep],
    words: &mut ChoiceWords,
) -> Result<(), Fault>
    requires none { words.old.drawn ≡ 0 }
    requires fits { list_all (has_step K.name.terms.head.edition) script.now ≡ true }
    ensures onward { Onward seat.old seat.new }
    ensures ok { OnOk result ((k : ℕ)
        × Leads (asked_of seat.old) (asked_of seat.new) (choice_word words.old.seed)
        script.now 0 [] k) }
    ensures err { IfErr result (λ f.
        Stopped (asked_of seat.old) seat.new (choice_word words.old.seed) script.now 0 f) }
{
    for step in script {
        let word = word_for(step, words);
        if !take_step(rt, hub, passes, seat, Turn { step, word })? {
            return Ok(());
        }
    }
    Ok(())
}

/// Exits.
#[tactic(auto, using(crate::proofs::Workers::made_ok))]
fn leave<K: HubName, R: Wait>(rt: &R, hub: &LiveHub<K>, seat: &mut Held<K>) -> Result<Event, Fault>
    ensures later { Later seat.old seat.new }
    ensures ok { IfOk result (λ x.
        asked_of seat.new ≡ asked_of seat.old ++ record { step = Exit; reply = Some x } ∷ []) }
    ensures err { IfErr result (λ f. Refused seat.old seat.new Exit f) }
    ensures same { steps_asked (asked_of seat.new) ≡ steps_asked (asked_of seat.old) }
    ensures left { has_exited seat.new.pid.0 seat.new.seen ≡ true }
{
    // Its contract says that the process has no open call.
    let _pid = seat.pid();
    seat.exit(rt, hub)
}

/// Exits where a step was refused, so that those who still wait are told. An exit is refused only behind another.
fn leave_early<K: HubName, R: Wait>(rt: &R, hub: &LiveHub<K>, seat: &mut Held<K>)
    ensures later { Later seat.old seat.new }
    ensures same { steps_asked (asked_of seat.new) ≡ steps_asked (asked_of seat.old) }
    ensures left { has_exited seat.new.pid.0 seat.new.seen ≡ true }
{
    let _left = leave(rt, hub, seat);
}

/// Makes a script's entries in order, and exits; where a step is refused, it exits at once.
pub fn follow<K: HubName, R: Wait, G: Gate>(
    rt: &R,
    hub: &LiveHub<K>,
    gate: &G,
    seat: &mut Held<K>,
    script: &[ScriptStep],
    words: ChoiceWords,
) -> Result<(), Fault>
    requires none { words.drawn ≡ 0 }
    requires fits { list_all (has_step K.name.terms.head.edition) script.now ≡ true }
    ensures onward { Onward seat.old seat.new }
    ensures ok { OnOk result (
        Followed (asked_of seat.old) (asked_of seat.new) (choice_word words.seed) script.now) }
    ensures err { IfErr result (λ f.
        WasStopped (asked_of seat.old) seat.new (choice_word words.seed) script.now f) }
{
    let mut words = words;
    let mut passes = Passes::new(gate, seat.pid());
    match follow_steps(rt, hub, &mut passes, seat, script, &mut words) {
        Ok(()) => {
            leave(rt, hub, seat)?;
            Ok(())
        }
        Err(fault) => {
            leave_early(rt, hub, seat);
            Err(fault)
        }
    }
}
