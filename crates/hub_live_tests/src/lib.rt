//! Tests of what threads share, through the public calls: of the live hub and of crews, of their uses, of what no
//! report tells of the threads of a run, and of the texts of what refuses one.
#![tactic(auto)]

#[cfg(test)]
mod compare;
#[cfg(test)]
mod faults;
#[cfg(test)]
mod gates;
#[cfg(test)]
mod live;
#[cfg(test)]
mod uses;
