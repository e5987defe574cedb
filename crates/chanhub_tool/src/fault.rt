//! Why a journal was not explained.

ghost use Rattle.std.specs.Prelude.{◌≡◌};
ghost use Rattle.hub_replay.specs.declared.fault.ReplayFault.{ReplayFault};
ghost use Rattle.chanhub_tool.specs.declared.fault.StoryFault.TheVariants as story;
ghost use Rattle.chanhub_tool.specs.Faults.{fault_line, status_of};

pub(crate) use hub_replay::tell_fault as tell;
use hub_replay::{ProgramFault, ReplayFault, Sink, WriteFailed, write_pieces};

/// Why a journal was not explained. Nothing was written, but for a beginning where a write failed, or memory was refused.
#[derive(Clone, Copy, Debug, PartialEq, Eq)]
pub enum StoryFault {
    /// The first step that is asked for stands behind the last.
    Backward,
    /// The journal has no such steps.
    Outside,
    /// A picture of the whole journal is too long; one of a part of it is not.
    TooLong,
    /// A sequence diagram of so many steps is too long.
    TooMany,
    /// As a replay tells it: a malformed journal, a device or memory.
    Replay(ReplayFault),
}

impl ProgramFault for StoryFault {
    ghost line = { fault_line };

    ghost status = { status_of };

    /// 1 for a device or memory, 2 for a malformed journal or steps that it does not have.
    fn status(self) -> u8 {
        match self {
            StoryFault::Backward
            | StoryFault::Outside
            | StoryFault::TooLong
            | StoryFault::TooMany => 2,
            StoryFault::Replay(fault) => fault.status(),
        }
    }

    fn write_line<W: Sink>(self, errors: &mut W) -> Result<(), WriteFailed> {
        match self {
            StoryFault::Backward => write_pieces(errors, &["chanhub: FROM is above TO\n"]),
            StoryFault::Outside => write_pieces(errors, &["chanhub: no such steps\n"]),
            StoryFault::TooLong => write_pieces(
                errors,
                &["chanhub: too long for a picture, which shows FROM to TO\n"],
            ),
            StoryFault::TooMany => write_pieces(
                errors,
                &["chanhub: too long for a diagram, which shows 200 steps at most\n"],
            ),
            StoryFault::Replay(fault) => fault.write_line(errors),
        }
    }
}

/// What ends a replay early ends an explanation.
impl<C: Into<ReplayFault>> From<C> for StoryFault {
    ghost from_gives = { λ cause given. (fault : ReplayFault)
        × C.converts cause fault × (given ≡ story.Replay fault) };

    fn from(cause: C) -> StoryFault {
        StoryFault::Replay(cause.into())
    }
}
