//! Hears lines as they come, and says the events of their entries.

ghost use Rattle.std.specs.Prelude.{◌≡◌, ◌+◌, [], length, OnOk, OnErr, IsErrOf};
ghost use Rattle.hub_base.specs.declared.limits.TheConstants.{MOST_BYTES};
ghost use Rattle.hub_base.specs.declared.read_fault.TextFault.{TextFault};
ghost use Rattle.hub_replay.specs.Devices.{Failed};
ghost use Rattle.hub_replay.specs.Conversing.{Conversing};
ghost use Rattle.hub_replay.specs.Serve.{HasConversed, HasNamed, HasBegun, HasEnded, HasStopped, HasHeardAtMost};
ghost use Rattle.hub_replay.specs.Talks.{Stays, Grows, HasAnswered, IsAnswer};

use crate::conversation::Conversation;
use crate::{CHUNK, ReplayFault, Talk, WriteFailed};
use hub_base::MOST_BYTES;
use hub_text::{EventText, one_reading};
use std::alloc::Global;

/// Says all of the answer that is left, and stops at the first write that fails or takes none.
fn say_whole<T: Talk>(talk: &mut T, text: &[u8]) -> Result<(), WriteFailed>
    requires { IsAnswer (T.heard talk.old) (T.said talk.old) text.now }
    ensures whole { OnOk result (Grows (T.said talk.old) (T.said talk.new) text.now) }
    ensures beginning { OnErr result (HasBegun (T.heard talk.new) (T.said talk.new)) }
    ensures deaf { Stays (T.heard talk.old) (T.heard talk.new) }

    // One write failed at `Err`, and else none; and no read did.
    ensures err { OnErr result (Failed (T.failed_writes talk.old) (T.failed_writes talk.new)) }
    ensures ok { OnOk result (T.failed_writes talk.new ≡ T.failed_writes talk.old) }
    ensures reads { T.failed_reads talk.new ≡ T.failed_reads talk.old }
{
    let mut rest = text;
    'rest: while !rest.is_empty() {
        match talk.say(rest) {
            Ok(count) if count > 0 => rest = &rest[count..],
            _ => return Err(WriteFailed),
        }
    }
    Ok(())
}

/// Goes on with a conversation to its end. What has to be dropped is the caller's, so that no way out of the loop
/// drops it.
fn converse_on<T: Talk>(
    alloc: Global,
    talk: &mut T,
    conversation: &mut Conversation,
    answers: &mut EventText,
    chunk: &mut [u8],
) -> Result<(), ReplayFault>
    requires conversing { Conversing (T.heard talk.old) (T.said talk.old) conversation.old }
    requires room { length chunk.old ≡ CHUNK }
    ensures { HasEnded (T.heard talk.new) (T.said talk.new) (T.ended talk.new) (T.failed_reads talk.old) (T.failed_reads talk.new)
        (T.failed_writes talk.old) (T.failed_writes talk.new) result }
{
    // Its clauses say which fault a text has that is read so.
    one_reading();
    'reads: loop {
        let room = (MOST_BYTES - conversation.heard()).min(CHUNK - 1) + 1;
        let place = &mut chunk[..room];
        let Ok(count) = talk.hear(place) else {
            return Err(ReplayFault::Read);
        };
        if count == 0 {
            conversation.end()?;
            return Ok(());
        }
        answers.clear();
        let fault = conversation.hear(alloc, &place[..count], answers)?;
        say_whole(talk, answers.text())?;
        if let Some(fault) = fault {
            return Err(ReplayFault::Text(fault));
        }
    }
}

/// Hears a journal to its end, and says the event text of its whole lines each time that some have come. Nothing is
/// tried again.
///
/// At each read what was said is the event text of the whole lines that were heard; at each write the piece is all that
/// is missing in it. So the answers to what one read gave go out in one write, where the device takes it whole.
pub fn converse<T: Talk>(alloc: Global, talk: &mut T) -> Result<(), ReplayFault>
    requires heard { T.heard talk.old [] }
    requires said { T.said talk.old [] }
    ensures ok { OnOk result (HasConversed (T.heard talk.new) (T.said talk.new)
        × T.ended talk.new) }

    // Nothing is said of a faulty line or behind it.
    ensures text { (fault : TextFault) → IsErrOf result (ReplayFault.Text fault)
        → HasNamed (T.heard talk.new) (T.said talk.new) (T.ended talk.new) fault }
    ensures read { IsErrOf result ReplayFault.Read
        → Failed (T.failed_reads talk.old) (T.failed_reads talk.new)
        × HasAnswered (T.heard talk.new) (T.said talk.new) }
    ensures write { IsErrOf result ReplayFault.Write
        → Failed (T.failed_writes talk.old) (T.failed_writes talk.new)
        × HasBegun (T.heard talk.new) (T.said talk.new) }
    ensures memory { IsErrOf result ReplayFault.NoMemory
        → HasStopped (T.heard talk.new) (T.said talk.new) }

    // At most one byte more is heard than a journal may have, whatever the answer is.
    ensures few { HasHeardAtMost (T.heard talk.new) (MOST_BYTES + 1) }

    // No other call failed.
    ensures reads_once { ¬ IsErrOf result ReplayFault.Read
        → T.failed_reads talk.new ≡ T.failed_reads talk.old }
    ensures writes_once { ¬ IsErrOf result ReplayFault.Write
        → T.failed_writes talk.new ≡ T.failed_writes talk.old }
{
    let mut conversation = Conversation::open(alloc);
    let mut answers = EventText::new(alloc);
    let mut chunk = [0; CHUNK];
    converse_on(alloc, talk, &mut conversation, &mut answers, &mut chunk)
}
