//! A journal explained: which event answers or ends which entry, who passed which value to whom, and who waits.
//!
//! A story is a function of a journal. Each event is told with the entry that it answers, or whose call it ends, and
//! with the entry by whose step it came; all else is a filter of that list.
#![tactic(auto)]

mod by_clock;
mod by_port;
mod clock;
mod counts;
mod ends;
mod exits;
mod guess;
mod last_calls;
mod last_moves;
mod late_ends;
mod laws;
mod levels;
mod lives;
mod moved;
mod moves;
mod outline;
mod outside;
mod partners;
mod passing;
mod port_moves;
mod receivers;
mod story;
mod told;
mod told_list;
mod walk;
mod window;

pub use by_clock::{Part, clock_in, is_by_clock, is_clock, other_outsiders, part_of, to_others};
pub use by_port::{ByPort, PORT_NUMBERS};
pub use clock::clock_of;
pub use counts::{count_at, count_one};
pub use exits::{comes_back, leaves};
pub use guess::whom;
pub use last_moves::{AtPort, LastMoves, Mover};
pub use late_ends::LateEnds;
pub use laws::stories_are_so;
pub use levels::{Level, Levels};
pub use lives::{closed_port, most_room, reopened_port};
pub use moved::{Moved, Passage};
pub use moves::{Move, move_of};
pub use outline::Outline;
pub use outside::{Outsider, outside_of};
pub use partners::partners_of;
pub use passing::moved_by;
pub use port_moves::{PortMove, PortMoves};
pub use receivers::Receivers;
pub use story::{Story, story_of};
pub use told::Told;
pub use told_list::ToldList;
pub use walk::Walk;
pub use window::Window;
