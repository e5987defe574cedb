//! Tests of the crates that share nothing between threads, through their public calls.
#![tactic(auto)]

#[cfg(test)]
mod compare;
#[cfg(test)]
mod parts;
#[cfg(test)]
mod schedules;
#[cfg(test)]
mod steps;
#[cfg(test)]
mod texts;
