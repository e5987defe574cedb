//! Cuts: a hub hands out its journal and goes on from a checkpoint, and whatever follows is answered as before. And
//! chains, which check that such chapters are one history: each is the text of a legal journal, and each but the first
//! begins with the checkpoint of the one before.
//!
//! A checkpoint is written from what a hub shows of its ports, its processes and its open calls, so a cut takes as
//! long as the checkpoint is, however long the journal. Why nobody can tell is said in `hub_chapters`. A recorder cuts
//! itself, so it never ends. A chain holds one chapter at a time; of those before it keeps only the last checkpoint.
#![tactic(auto)]

mod beginnings;
mod chains;
mod checkpoint_texts;
mod checkpoints;
mod cuts;
mod fault;
mod limits;
mod making;
mod recorder;
mod renewals;
mod replays;
mod texts;
mod totals;

pub use beginnings::is_same_entry;
pub use chains::Chain;
pub use checkpoint_texts::checkpoint_text;
pub use checkpoints::{checkpoint_of, has_gone};
pub use cuts::{cut, cut_journal};
pub use fault::ChainFault;
pub use limits::MOST_KEEP;
pub use recorder::Recorder;
pub use renewals::{hub_after, step_admitted};
pub use replays::read_hub;
pub use totals::Totals;
