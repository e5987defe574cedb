//! `chanhub_tool explore [SCENARIO] [--ask WHAT] [--states N] [--journal FILE]`.

mod ask;

ghost use Rattle.std.specs.Prelude.{◌≡◌, ◌≤◌, ◌⊎◌, ◌+◌, length, Ok, IfOk, IfErr, OnOk};
ghost use Rattle.std.specs.Io.KnownBytes.{Appends};
ghost use Rattle.hub_replay.specs.declared.fault.ReplayFault.{ReplayFault};
ghost use Rattle.hub_scenario.specs.Scenario.{ScenarioData, reading, run_head, scenario_view};
ghost use Rattle.chanhub_tool.specs.declared.commands.explore.Unexplored.TheVariants.{Failed};
ghost use Rattle.chanhub_tool.specs.declared.commands.explore.Verdict.TheVariants.{Never, Found, GaveUp};
ghost use Rattle.chanhub_tool.specs.Explores.{Finds, IsRefusedFor, IsUnexplored, ReadsMalformed, ReadsScenario};
ghost use Rattle.chanhub_tool.specs.Explores.{found_line, gave_up_line, kept, never_line};

use crate::files::{Input, Output, file_of, tell_unopened};
use crate::given::optional;
use crate::limits::{DEFAULT_STATES, MOST_STATES};
use crate::progress::Progress;
use ask::{Ask, ask_option, read_ask};
use clap::{Arg, ArgMatches, Command};
use hub_base::{Journal, NoMemory};
use hub_explore::{Explored, Watch};
use hub_replay::{
    Counted, ReplayFault, Sink, Source, WriteFailed, read_up_to, tell_fault, write_pieces,
    write_whole,
};
use hub_scenario::{MOST_FILE_BYTES, Scenario, ScenarioFault, read_scenario};
use hub_text::{number, write_journal};
use itoa::Buffer;
use std::alloc::{AllocError, Global};

/// What the command is given.
#[derive(Clone, Copy)]
pub(crate) struct Exploring<'a> {
    /// The file that holds the scenario; standard input where there is none.
    scenario: Option<&'a str>,
    /// What is asked of its runs.
    ask: Ask,
    /// The most states that are gone through.
    most_states: u32,
    /// Where the journal of a run that is found is to be written, if anywhere; `-` is standard output.
    journal: Option<&'a str>,
}

fn scenario_argument<'a>(alloc: Global) -> Arg<'a> {
    optional(
        alloc,
        "scenario",
        "SCENARIO",
        "The scenario; without it, or as -, standard input",
    )
}

fn states_option<'a>(alloc: Global) -> Arg<'a> {
    optional(
        alloc,
        "states",
        "N",
        "The most states gone through, from 1 to 100000000; without it 1000000",
    )
    .long("states")
}

fn journal_option<'a>(alloc: Global) -> Arg<'a> {
    optional(
        alloc,
        "journal",
        "FILE",
        "Where the journal of a run that is found is written; - is standard output",
    )
    .long("journal")
}

pub(super) fn grammar<'a>(alloc: Global) -> Result<Command<'a>, AllocError> {
    Command::new(alloc, "explore")
        .about(
            "Goes through all runs of a scenario, whatever the order of their steps and the choices of their selects, to find one that stalls, or does what is asked for",
        )
        .after_help(
            "Prints `no stall`, `no fault` and so on, and how many states there are; or, with status 4, after how many steps of a\n\
             run it comes; or, with status 5, after how many states it gave up. The scenario's seed and limit play no part.",
        )
        .override_usage(
            "chanhub_tool explore [SCENARIO] [--ask WHAT] [--states N] [--journal FILE]",
        )
        .arg(scenario_argument(alloc))?
        .arg(ask_option(alloc))?
        .arg(states_option(alloc))?
        .arg(journal_option(alloc))
}

/// A number of states that can be asked for.
fn read_states(word: &str) -> Option<u32> {
    match number(word.as_bytes(), u64::from(MOST_STATES)) {
        Some(states) if states > 0 => u32::try_from(states).ok(),
        _ => None,
    }
}

/// What `clap` found.
pub(super) fn read_exploring<'a>(found: &ArgMatches<'a>) -> Option<Exploring<'a>> {
    let most_states = match found.get_str("states") {
        Some(word) => read_states(word)?,
        None => DEFAULT_STATES,
    };
    Some(Exploring {
        scenario: file_of(found.get_str("scenario")),
        ask: read_ask(found.get_str("ask")),
        most_states,
        journal: found.get_str("journal"),
    })
}

/// What came of it, once it is printed.
#[derive(Clone, Copy)]
enum Verdict {
    /// No run does what is asked for.
    Never,
    /// Some run does.
    Found,
    /// There are too many states, or the run found is too long for a journal.
    GaveUp,
}

/// Why nothing is said of a scenario.
#[derive(Clone, Copy)]
enum Unexplored {
    /// It is malformed.
    Malformed(ScenarioFault),
    /// A device or memory failed.
    Failed(ReplayFault),
}

impl<C: Into<ReplayFault>> From<C> for Unexplored {
    ghost from_gives = { λ cause given. (fault : ReplayFault)
        × C.converts cause fault × (given ≡ Failed fault) };

    fn from(cause: C) -> Unexplored {
        Unexplored::Failed(cause.into())
    }
}

/// The scenario that these bytes say.
fn scenario_of(alloc: Global, bytes: &[u8]) -> Result<Scenario, Unexplored>
    ensures ok { IfOk result (λ s. reading bytes.now ≡ Ok (scenario_view s)) }
    ensures err { IfErr result (λ why. IsRefusedFor bytes.now why) }
{
    match read_scenario(alloc, bytes) {
        Ok(scenario) => Ok(scenario),
        Err(ScenarioFault::NoMemory) => Err(Unexplored::Failed(ReplayFault::NoMemory)),
        Err(fault) => Err(Unexplored::Malformed(fault)),
    }
}

/// The scenario that a source holds.
fn read_from<S: Source>(alloc: Global, input: &mut S) -> Result<Scenario, Unexplored>
    ensures ok { IfOk result (λ s. ReadsScenario (S.remaining input.old) (S.remaining input.new) (scenario_view s)) }
    ensures err { IfErr result (λ why. IsUnexplored why (S.remaining input.old) (S.remaining input.new) (Unit {0})) }
{
    let bytes = read_up_to(alloc, input, MOST_FILE_BYTES)?;
    scenario_of(alloc, &bytes)
}

/// What is kept of a found journal: its text, or nothing.
fn text_of(
    alloc: Global,
    scenario: &Scenario,
    journal: &Journal,
    keeps: bool,
) -> Result<Vec<u8>, NoMemory>
    requires { journal.now.head ≡ run_head (scenario_view scenario.now) }
    ensures { IfOk result (λ text. text.items ≡ kept keeps journal.now) }
{
    let mut text = Vec::new(alloc);
    if keeps {
        write_journal(&mut text, journal)?;
    }
    Ok(text)
}

fn write_never<W: Sink>(
    output: &mut W,
    ask: Ask,
    states: u64,
    steps: u64,
) -> Result<(), WriteFailed>
    ensures { OnOk result
        (Appends (W.contents output.old) (W.contents output.new) (never_line ask states steps)) }
{
    let mut states_digits = Buffer::new();
    let mut steps_digits = Buffer::new();
    write_pieces(
        output,
        &[
            "no ",
            ask.subject(),
            ": ",
            states_digits.format(states),
            " states, ",
            steps_digits.format(steps),
            " steps between them\n",
        ],
    )
}

fn write_found<W: Sink>(output: &mut W, ask: Ask, steps: u64) -> Result<(), WriteFailed>
    ensures { OnOk result (Appends (W.contents output.old) (W.contents output.new) (found_line ask steps)) }
{
    let mut digits = Buffer::new();
    write_pieces(
        output,
        &[ask.subject(), " after ", digits.format(steps), " steps\n"],
    )
}

fn write_gave_up<W: Sink>(output: &mut W, states: u32) -> Result<(), WriteFailed>
    ensures { OnOk result (Appends (W.contents output.old) (W.contents output.new) (gave_up_line states)) }
{
    let mut digits = Buffer::new();
    write_pieces(
        output,
        &["gave up after ", digits.format(states), " states\n"],
    )
}

/// How many entries stand behind the makes of the ports.
fn steps_of(scenario: &Scenario, journal: &Journal) -> u64
    requires { length (scenario_view scenario.now).ports ≤ length journal.now.entries }
    ensures { length (scenario_view scenario.now).ports + result ≡ length journal.now.entries }
{
    (journal.entries().len() - scenario.ports.len()) as u64
}

/// Goes through the runs of the scenario that `input` holds, and prints what was found.
fn explore_from<S: Source, W: Sink, J: Sink, P: Watch>(
    alloc: Global,
    ask: Ask,
    most_states: u32,
    keeps: bool,
    input: &mut S,
    output: &mut W,
    journal: &mut J,
    progress: &mut P,
) -> Result<Verdict, Unexplored>
    ensures ok { IfOk result (λ verdict. (s : ScenarioData)
        × ReadsScenario (S.remaining input.old) (S.remaining input.new) s
        × Finds verdict ask s most_states keeps (Appends (W.contents output.old) (W.contents output.new))
        (Appends (J.contents journal.old) (J.contents journal.new)) (journal.new ≡ journal.old)) }
    ensures err { IfErr result (λ why. IsUnexplored why (S.remaining input.old) (S.remaining input.new)
        ((output.new ≡ output.old) × (journal.new ≡ journal.old))) }
{
    let scenario = read_from(alloc, input)?;
    let explored = ask.explore(alloc, &scenario, most_states, progress)?;
    match explored {
        Explored::Never { states, steps } => {
            write_never(output, ask, states, steps)?;
            Ok(Verdict::Never)
        }
        Explored::Found(found) => {
            let text = text_of(alloc, &scenario, &found, keeps)?;
            write_found(output, ask, steps_of(&scenario, &found))?;
            write_whole(journal, &text)?;
            Ok(Verdict::Found)
        }
        Explored::TooMany => {
            write_gave_up(output, most_states)?;
            Ok(Verdict::GaveUp)
        }
    }
}

/// Tells why a scenario is malformed, and answers the status.
fn tell_malformed<X: Sink>(alloc: Global, fault: ScenarioFault, errors: &mut X) -> u8
    ensures { (result ≡ 1) ⊎ (result ≡ 2) }
{
    match format!(in alloc; "{fault}") {
        Ok(text) => {
            let _ = write_pieces(errors, &["chanhub: scenario: ", text.as_str(), "\n"]);
            2
        }
        Err(_) => tell_fault(ReplayFault::NoMemory, errors),
    }
}

/// Goes through the runs of the scenario that `input` holds, prints what was found, and answers the status: 0 where no run
/// does what is asked for; 1 for a device or memory; 2 for a malformed scenario; 4 where some run does, the text of whose
/// journal is written to `journal` if it is to be kept; 5 where there are more states than were to be gone through, or the
/// run found is longer than a journal may be. `progress` is told how far the search has come, but for values left.
pub fn explore_scenario<S: Source, W: Sink, J: Sink, P: Watch, X: Sink>(
    alloc: Global,
    ask: Ask,
    most_states: u32,
    keeps: bool,
    input: &mut S,
    output: &mut W,
    journal: &mut J,
    progress: &mut P,
    errors: &mut X,
) -> u8
    ensures statuses { result ≤ 5 }
    ensures other { result ≡ 3 → ⊥ }
    ensures never { result ≡ 0 → (s : ScenarioData)
        × ReadsScenario (S.remaining input.old) (S.remaining input.new) s
        × Finds Never ask s most_states keeps (Appends (W.contents output.old) (W.contents output.new))
        (Appends (J.contents journal.old) (J.contents journal.new)) (journal.new ≡ journal.old)
        × (errors.new ≡ errors.old) }
    ensures found { result ≡ 4 → (s : ScenarioData)
        × ReadsScenario (S.remaining input.old) (S.remaining input.new) s
        × Finds Found ask s most_states keeps (Appends (W.contents output.old) (W.contents output.new))
        (Appends (J.contents journal.old) (J.contents journal.new)) (journal.new ≡ journal.old)
        × (errors.new ≡ errors.old) }
    ensures gave_up { result ≡ 5 → (s : ScenarioData)
        × ReadsScenario (S.remaining input.old) (S.remaining input.new) s
        × Finds GaveUp ask s most_states keeps (Appends (W.contents output.old) (W.contents output.new))
        (Appends (J.contents journal.old) (J.contents journal.new)) (journal.new ≡ journal.old)
        × (errors.new ≡ errors.old) }
    ensures malformed { result ≡ 2 → ReadsMalformed (S.remaining input.old) (S.remaining input.new)
        × (output.new ≡ output.old) × (journal.new ≡ journal.old) }
{
    match explore_from(
        alloc,
        ask,
        most_states,
        keeps,
        input,
        output,
        journal,
        progress,
    ) {
        Ok(Verdict::Never) => 0,
        Ok(Verdict::Found) => 4,
        Ok(Verdict::GaveUp) => 5,
        Err(Unexplored::Malformed(fault)) => tell_malformed(alloc, fault, errors),
        Err(Unexplored::Failed(fault)) => tell_fault(fault, errors),
    }
}

/// Goes through the runs of the scenario of a file or of standard input, and answers the status. A file that can't be
/// opened is one that can't be read.
pub(super) fn explore_given<X: Sink>(rt: &HostRuntime, given: Exploring<'_>, errors: &mut X) -> u8 {
    let keeps = given.journal.is_some();
    let mut output = Counted::new(rt.stdout());
    let mut journal = Counted::new(Output::new(rt, file_of(given.journal)));
    match Input::open(rt, given.scenario) {
        Ok(input) => {
            let mut input = Counted::new(input);
            explore_scenario(
                rt.alloc(),
                given.ask,
                given.most_states,
                keeps,
                &mut input,
                &mut output,
                &mut journal,
                &mut Progress::new(rt),
                errors,
            )
        }
        Err(_) => tell_unopened(given.scenario, errors),
    }
}
