//! Tests through the public calls. Expected values are worked out by hand from the rules.

mod faults;
mod reader;
mod stories;
mod values;
mod written;
