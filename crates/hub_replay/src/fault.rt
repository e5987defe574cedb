//! Why bytes were not read or not written, and why a replay ended early.

ghost use Rattle.std.specs.Prelude.{◌≡◌};
ghost use Rattle.hub_replay.specs.declared.fault.SourceFault.TheVariants as source;
ghost use Rattle.hub_replay.specs.declared.fault.ReplayFault.TheVariants as replay;
ghost use Rattle.hub_replay.specs.Replay.{replay_fault, fault_of_read};

use hub_base::{NoMemory, ReadFault, TextFault};
use std::alloc::AllocError;
use thiserror::Error;

/// Why the bytes of a source did not come.
#[derive(Clone, Copy, Debug, PartialEq, Eq, Error)]
pub enum SourceFault {
    /// A read failed. What had come before it is lost.
    #[error("read failed")]
    Read,
    /// A growth was refused. What had come before it is lost.
    #[error("out of memory")]
    NoMemory,
}

/// A write failed, or took no byte of a piece that is not empty. No later byte was written.
#[derive(Clone, Copy, Debug, PartialEq, Eq, Error)]
#[error("write failed")]
pub struct WriteFailed;

/// Why a replay ended early, and what was written by then; or a conversation, which answers a journal's lines as they
/// come.
#[derive(Clone, Copy, Debug, PartialEq, Eq, Error)]
pub enum ReplayFault {
    /// 1: the journal is malformed; its first faulty line. Nothing was written. A conversation has answered the lines
    /// before it.
    #[error("line {}: {}", .0.line, .0.kind.text())]
    Text(TextFault),
    /// 2: a read failed. Nothing was written. A conversation has answered all whole lines that were read.
    #[error("read failed")]
    Read,
    /// 3: a write failed, or took no byte of a piece that is not empty. What was written is a beginning of
    /// the event text.
    #[error("write failed")]
    Write,
    /// 4: a growth was refused. Nothing was written. A conversation has answered some of the whole lines, from the first
    /// on.
    #[error("out of memory")]
    NoMemory,
}

impl From<AllocError> for SourceFault {
    ghost from_gives = { λ _ fault. fault ≡ source.NoMemory };

    fn from(_: AllocError) -> SourceFault {
        SourceFault::NoMemory
    }
}

impl From<TextFault> for ReplayFault {
    ghost from_gives = { λ text fault. fault ≡ replay.Text text };

    fn from(fault: TextFault) -> ReplayFault {
        ReplayFault::Text(fault)
    }
}

impl From<SourceFault> for ReplayFault {
    ghost from_gives = { λ source fault. fault ≡ replay_fault source };

    fn from(fault: SourceFault) -> ReplayFault {
        match fault {
            SourceFault::Read => ReplayFault::Read,
            SourceFault::NoMemory => ReplayFault::NoMemory,
        }
    }
}

impl From<ReadFault> for ReplayFault {
    ghost from_gives = { λ read fault. fault ≡ fault_of_read read };

    fn from(fault: ReadFault) -> ReplayFault {
        match fault {
            ReadFault::Text(fault) => fault.into(),
            ReadFault::NoMemory => NoMemory.into(),
        }
    }
}

impl From<WriteFailed> for ReplayFault {
    ghost from_gives = { λ _ fault. fault ≡ replay.Write };

    fn from(_: WriteFailed) -> ReplayFault {
        ReplayFault::Write
    }
}

/// As a source tells it.
impl From<NoMemory> for ReplayFault {
    ghost from_gives = { λ _ fault. fault ≡ replay_fault source.NoMemory };

    fn from(_: NoMemory) -> ReplayFault {
        SourceFault::NoMemory.into()
    }
}
