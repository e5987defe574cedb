//! What is asked of all runs of a scenario: `[--ask WHAT]`.

ghost use Rattle.std.specs.Prelude.{◌≡◌, IfOk};
ghost use Rattle.hub_scenario.specs.Scenario.{scenario_view};
ghost use Rattle.chanhub_tool.specs.Explores.{Answers, subject_of};

use crate::given::optional;
use clap::Arg;
use hub_base::NoMemory;
use hub_explore::{Explored, Question, Watch, explore_values_left, explore_watched};
use hub_scenario::Scenario;
use std::alloc::Global;

/// The words that say what is asked.
const WORDS: &[&str] = &["stall", "closed", "fault", "left"];

/// What is asked of all runs of a scenario.
#[derive(Clone, Copy)]
pub enum Ask {
    /// Whether some run has such an event.
    Event(Question),
    /// Whether some run leaves a value in a buffer.
    Left,
}

pub(super) fn ask_option<'a>(alloc: Global) -> Arg<'a> {
    optional(
        alloc,
        "ask",
        "WHAT",
        "What is looked for: a stall, which is meant without it; a send on a closed port; a fault; or a value left in a buffer",
    )
    .long("ask")
    .value_parser(WORDS)
}

/// What is asked, by the word that `clap` found.
pub(super) fn read_ask(word: Option<&str>) -> Ask {
    match word {
        Some("closed") => Ask::Event(Question::Closed),
        Some("fault") => Ask::Event(Question::Fault),
        Some("left") => Ask::Left,
        _ => Ask::Event(Question::Stall),
    }
}

impl Ask {
    /// What is looked for, as it is printed.
    pub(super) fn subject(self) -> &'static str
        ensures { result.now ≡ subject_of self }
    {
        match self {
            Ask::Event(Question::Stall) => "stall",
            Ask::Event(Question::Closed) => "send on a closed port",
            Ask::Event(Question::Fault) => "fault",
            Ask::Left => "value left",
        }
    }

    /// Goes through all runs of the scenario. `watch` is told how far that has come, but for values left.
    pub(super) fn explore<W: Watch>(
        self,
        alloc: Global,
        scenario: &Scenario,
        most_states: u32,
        watch: &mut W,
    ) -> Result<Explored, NoMemory>
        ensures { IfOk result (Answers self (scenario_view scenario.now) most_states) }
    {
        match self {
            Ask::Event(question) => explore_watched(alloc, scenario, question, most_states, watch),
            Ask::Left => explore_values_left(alloc, scenario, most_states),
        }
    }
}
