//! The line on standard error that says why the program did not do what it was asked for, and its status.

ghost use Rattle.std.specs.Prelude.{◌≡◌, OnOk, OnErr};
ghost use Rattle.std.specs.Io.KnownBytes.{Appends};
ghost use Rattle.hub_replay.specs.Devices.{Failed, AppendsBeginning};
ghost use Rattle.chanhub.specs.FaultLines.{fault_line};
ghost use Rattle.chanhub.specs.Statuses.{status_of};

use crate::refusal::Refusal;
use hub_replay::{ProgramFault, Sink, WriteFailed, write_pieces};
use hub_scenario::ScenarioFault;
use itoa::Buffer;

fn write_scenario_line<X: Sink>(fault: ScenarioFault, errors: &mut X) -> Result<(), WriteFailed>
    ensures whole { OnOk result (Appends (X.contents errors.old) (X.contents errors.new)
        (fault_line (Refusal.Scenario fault))) }
    ensures beginning { OnErr result (AppendsBeginning (X.contents errors.old)
        (X.contents errors.new) (fault_line (Refusal.Scenario fault))) }
    ensures err { OnErr result (Failed (X.failures errors.old) (X.failures errors.new)) }
    ensures ok { OnOk result (X.failures errors.new ≡ X.failures errors.old) }
{
    let text = match fault {
        ScenarioFault::TooLong => "too long",
        ScenarioFault::BadToml => "bad toml",
        ScenarioFault::BadKey => "bad key",
        ScenarioFault::BadSeed => "bad seed",
        ScenarioFault::BadLimit => "bad limit",
        ScenarioFault::BadJournal => "bad journal",
        ScenarioFault::BadPorts => "bad ports",
        ScenarioFault::BadProcesses => "bad processes",
        ScenarioFault::NoMemory => "out of memory",
        ScenarioFault::BadScript { process, step } => {
            let mut process_digits = Buffer::new();
            let mut step_digits = Buffer::new();
            return write_pieces(
                errors,
                &[
                    "chanhub: scenario: bad script: process ",
                    process_digits.format(process),
                    " step ",
                    step_digits.format(step),
                    "\n",
                ],
            );
        }
    };
    write_pieces(errors, &["chanhub: scenario: ", text, "\n"])
}

impl ProgramFault for Refusal {
    ghost line = { fault_line };

    ghost status = { status_of };

    /// 1 for a device, memory or a full journal, 2 for malformed input or arguments.
    fn status(self) -> u8 {
        match self {
            Refusal::Replay(fault) => fault.status(),
            Refusal::JournalFull => 1,
            Refusal::BadArguments | Refusal::Scenario(_) => 2,
        }
    }

    fn write_line<W: Sink>(self, errors: &mut W) -> Result<(), WriteFailed> {
        match self {
            Refusal::BadArguments => write_pieces(errors, &["chanhub: bad arguments\n"]),
            Refusal::Replay(fault) => fault.write_line(errors),
            Refusal::JournalFull => write_pieces(errors, &["chanhub: journal full\n"]),
            Refusal::Scenario(fault) => write_scenario_line(fault, errors),
        }
    }
}
