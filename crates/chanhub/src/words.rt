//! The arguments, read by `clap`.

mod grammar;
mod options;
mod parser;
mod request;

pub use parser::read_words;
pub use request::{ArgumentsFault, Request};
