//! Tests through the public calls. Expected values are worked out by hand from the rules.

mod queues;
mod rings;
