//! Laws of the faults, said of the definitions alone. These functions have no effect.

ghost use Rattle.std.specs.Prelude.{◌≡◌, ℕ, List, Ok, Err, IfSome, slice_get};
ghost use Rattle.toml.specs.Data.{Items};
ghost use Rattle.hub_base.specs.declared.head.Edition.{Edition};
ghost use Rattle.hub_scenario.specs.declared.fault.ScenarioFault.{ScenarioFault};
ghost use Rattle.hub_scenario.specs.declared.fault.ScenarioFault.TheVariants.{BadScript};
ghost use Rattle.hub_scenario.specs.declared.script.ScriptStep.{ScriptStep};
ghost use Rattle.hub_scenario.specs.Causes.{IsCauseIn, IsSoundIn};
ghost use Rattle.hub_scenario.specs.Firsts.{FirstBadScript, AllSteps};
ghost use Rattle.hub_scenario.specs.Scenario.{ScenarioData, reading};
ghost use Rattle.hub_scenario.specs.Scripts.{scripts_from};

/// Each fault of a file has its cause: the test of that fault fails, and each test before it passes.
/// A file without a fault passes them all.
pub fn faults_in_order()
    ensures cause { (bytes : List ℕ) (e : ScenarioFault) → reading bytes ≡ Err e →
        IsCauseIn bytes e }
    ensures none { (bytes : List ℕ) (s : ScenarioData) → reading bytes ≡ Ok s → IsSoundIn bytes }
{}

/// The fault of scripts is their first element that is no step or has place 10,000, by process and
/// then by place; where there is no fault, there is no such element.
pub fn first_bad_script()
    ensures first { (edition : Edition) (processes : List Items) (e : ScenarioFault) →
        scripts_from edition 0 processes ≡ Err e →
        (q : ℕ) × (k : ℕ) × (e ≡ BadScript q k) × FirstBadScript edition processes q k }
    ensures none { (edition : Edition) (processes : List Items) (scripts : List (List ScriptStep)) →
        scripts_from edition 0 processes ≡ Ok scripts →
        (q : ℕ) → IfSome (slice_get processes q) (AllSteps edition 0) }
{}
