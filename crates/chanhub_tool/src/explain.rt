//! The explanation of a journal, and its status.

ghost use Rattle.std.specs.Prelude.{◌≡◌, ◌≤◌};
ghost use Rattle.hub_replay.specs.Devices.{Failed};
ghost use Rattle.hub_replay.specs.FaultLines.{TellsOnce};
ghost use Rattle.chanhub_tool.specs.declared.fault.StoryFault.{StoryFault};
ghost use Rattle.chanhub_tool.specs.Explains.{Explains, IsBegun, IsWhole};
ghost use Rattle.chanhub_tool.specs.Faults.{fault_line, status_of};
ghost use Rattle.chanhub_tool.specs.Promises.{HasRefused};

use crate::asked::{Asked, Form};
use crate::explanation::write_explanation;
use crate::fault::tell;
use crate::files::{Input, Output, tell_unopened};
use crate::given::Given;
use hub_replay::{Counted, Sink, Source};
use std::alloc::Global;

/// Explains the journal that `input` holds, and answers the exit status: 0 where what was asked is written; 1 for a device
/// or memory; 2 for a malformed journal, or steps that it does not have. Why it is not 0 is told to `errors` as one line.
pub fn explain<S: Source, W: Sink, X: Sink>(
    alloc: Global,
    asked: Asked,
    input: &mut S,
    output: &mut W,
    errors: &mut X,
) -> u8
    ensures statuses { result ≤ 2 }
    ensures done { result ≡ 0 → Explains asked (S.remaining input.old) (S.remaining input.new)
        (W.contents output.old) (W.contents output.new) IsWhole × (errors.new ≡ errors.old) }
    ensures refused { ¬ (result ≡ 0) → (fault : StoryFault) × (result ≡ status_of fault)
        × HasRefused asked (S.remaining input.old) (S.remaining input.new) (output.new ≡ output.old)
        (Failed (S.failures input.old) (S.failures input.new))
        (Failed (W.failures output.old) (W.failures output.new))
        (W.failures output.new ≡ W.failures output.old)
        (Explains asked (S.remaining input.old) (S.remaining input.new)
        (W.contents output.old) (W.contents output.new) IsBegun) fault
        × TellsOnce (X.contents errors.old) (X.contents errors.new)
        (X.failures errors.old) (X.failures errors.new) (fault_line fault) }
{
    match write_explanation(alloc, asked, input, output) {
        Ok(()) => 0,
        Err(fault) => tell(fault, errors),
    }
}

/// Explains the journal of a file or of standard input, and answers the status. A file that can't be opened is one that
/// can't be read.
pub(crate) fn explain_given<X: Sink>(
    rt: &HostRuntime,
    form: Form,
    given: Given<'_>,
    errors: &mut X,
) -> u8 {
    let asked = Asked {
        form,
        shown: given.shown,
    };
    let mut output = Counted::new(Output::new(rt, given.output));
    match Input::open(rt, given.file) {
        Ok(input) => {
            let mut input = Counted::new(input);
            explain(rt.alloc(), asked, &mut input, &mut output, errors)
        }
        Err(_) => tell_unopened(given.file, errors),
    }
}
