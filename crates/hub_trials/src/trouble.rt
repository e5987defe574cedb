//! Why a trial ended early.

use hub_base::Fault;
use hub_core::OpenFault;
use std::alloc::AllocError;
use std::io;
use thiserror::Error;

/// Why a trial ended early.
#[derive(Clone, Copy, Debug, Error)]
pub enum Trouble {
    #[error("the words are soak SECONDS SEED, or times [CALLS [RUNS]]")]
    BadWords,
    #[error("out of memory")]
    NoMemory,
    /// No hub was opened.
    #[error("no hub: {0}")]
    Open(#[from] OpenFault),
    /// Memory, a thread or a clock was refused.
    #[error("the threads could not be started")]
    NotStarted,
    /// A clock, an output or the words.
    #[error("a device failed")]
    Device,
    /// A step was refused.
    #[error("a step was refused: {0}")]
    Refused(#[from] Fault),
    /// A step was not answered as it is meant to be.
    #[error("a step was not answered as it is meant to be")]
    Unanswered,
    /// The replay refused the journal.
    #[error("the journal has no replay")]
    NoReplay,
    /// A process was not answered as the replay answers it.
    #[error("process {pid}: its answer {place}, counted from 0, is not the replay's")]
    Differs { pid: u8, place: usize },
    /// A process saw less of a port than it had seen before.
    #[error("process {pid}: its look at port {port} shows less than one before")]
    LookFell { pid: u8, port: u16 },
    /// In the end a process saw something else of the ports than the replay has.
    #[error("process {pid}: its last looks are not the replay's")]
    LooksDiffer { pid: u8 },
}

impl Trouble {
    /// The exit status.
    pub fn status(self) -> u8 {
        match self {
            Trouble::BadWords => 2,
            _ => 1,
        }
    }
}

impl From<AllocError> for Trouble {
    fn from(_error: AllocError) -> Trouble {
        Trouble::NoMemory
    }
}

impl From<io::Error> for Trouble {
    fn from(_error: io::Error) -> Trouble {
        Trouble::Device
    }
}
