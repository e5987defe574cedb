//! The picture of a journal: its story as shapes, and those as SVG.
//!
//! A drawing says what is shown, in processes and steps. Where that stands on a page, and how it is spelled, is left to
//! the text of the picture.
#![tactic(auto)]

mod arrows;
mod asked;
mod drawing;
mod frame;
mod label;
mod lanes;
mod laws;
mod levels;
mod moves;
mod outside;
mod pen;
mod piece;
mod shapes;
mod stalls;
mod strips;
mod svg;
mod waiters;

pub use arrows::Arrow;
pub use asked::Asked;
pub use drawing::{Drawing, drawing_of};
pub use hub_story::Window;
pub use lanes::Lane;
pub use laws::ends_are_told;
pub use levels::Held;
pub use strips::Strip;
pub use svg::write_svg;
pub use waiters::Waiter;
