//! Replays a journal: from bytes that are read to the events of its steps, which are written, or compared with given
//! bytes. And converses over one: reads its lines as they come, and answers the whole lines of each read.
//!
//! Bytes come and go through devices, which may fail at any call. What a device does to its bytes is said in
//! `specs/Devices` and `specs/Talks`, what a whole replay does to both ends in `specs/Replay`, what a comparison says in
//! `specs/Verify`, and what a conversation comes to in `specs/Serve`.
#![tactic(auto)]

mod args;
mod comparison;
mod conversation;
mod device;
mod fault;
mod fault_lines;
mod lines;
mod pair;
mod pieces;
mod replayer;
mod running;
mod server;
mod steps;
mod talk;
mod verifier;
mod view_fault;

pub use args::arguments;
pub use device::{Counted, Sink, Source};
pub use fault::{ReplayFault, SourceFault, WriteFailed};
pub use fault_lines::{ProgramFault, tell_fault, write_pieces};
pub use pair::{Opening, Pair};
pub use pieces::{CHUNK, read_up_to, write_many, write_whole};
pub use replayer::replay;
pub use server::converse;
pub use talk::Talk;
pub use verifier::{Compared, verify};
pub use view_fault::ViewFault;
