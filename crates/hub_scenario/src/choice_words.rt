//! The choice words of a process: the numbers that its selects choose by.

ghost use Rattle.std.specs.Prelude.{◌≡◌, ◌≤◌, ◌<◌, ◌+◌, ◌-◌, ◌^◌};
ghost use Rattle.hub_scenario.specs.ChoiceWords.{choice_word};

use crate::limits::GREATEST_SEED;
use hub_base::Pid;
use rand_core::SeedableRng;
use rand_core::utils::NextWord;
use rand_xoshiro::Xoshiro256PlusPlus;
use std::marker::Model;

/// The choice words of a process, drawn one after another. They take no memory, and depend on the
/// scenario's seed and the number of the process alone.
#[derive(Drop)]
pub struct ChoiceWords {
    /// The seed of the scenario.
    seed: u64,
    /// How many words were drawn.
    drawn: u64,
    /// What draws the next.
    generator: Xoshiro256PlusPlus,
}

impl Model for ChoiceWords {
    ghost use Rattle.std.specs.Prelude.{◌≡◌};
    ghost use Rattle.hub_scenario.specs.ChoiceWords.{WordsDrawn, generator_at};

    ghost Value = { WordsDrawn };

    ghost view = { λ w. record { seed = w.seed; drawn = w.drawn } };

    ghost invariant = { λ w. w.generator ≡ generator_at w.seed w.drawn };
}

impl ChoiceWords {
    /// The words of this process in a scenario with this seed, none of them drawn yet.
    #[tactic(auto, using(crate::proofs::Words::generator_first))]
    pub fn of(seed: u64, pid: Pid) -> ChoiceWords
        requires { seed ≤ GREATEST_SEED }
        ensures { result ≡ record { seed = seed + pid.0; drawn = 0 } }
    {
        let seed = seed + u64::from(pid.0);
        ChoiceWords {
            seed,
            drawn: 0,
            generator: Xoshiro256PlusPlus::seed_from_u64(seed),
        }
    }

    /// Draws the next word. A script asks for at most 10,000, and there is room for 2^64 - 1.
    pub fn next_word(&mut self) -> u64
        requires room { self.old.drawn < 2 ^ 64 - 1 }
        ensures word { result ≡ choice_word self.old.seed self.old.drawn }
        ensures drawn { self.new.drawn ≡ self.old.drawn + 1 }
        ensures seed { self.new.seed ≡ self.old.seed }
    {
        self.drawn += 1;
        self.generator.next_word()
    }
}
