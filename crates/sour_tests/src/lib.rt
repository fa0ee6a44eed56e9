//! The tests of the libraries: each of their public calls, where it succeeds and at its edges. The
//! rows of a table go through one helper, which says what is done with each.
//!
//! A crate with tests is proved twice, without them and with them, so the tests stand in a crate of
//! their own, above the libraries. What a whole run writes is told by rows of data, and not here.
#![tactic(auto)]

#[cfg(test)]
mod bodies;
#[cfg(test)]
mod commands;
#[cfg(test)]
mod exits;
#[cfg(test)]
mod faults;
#[cfg(test)]
mod heaps;
#[cfg(test)]
mod jobs;
#[cfg(test)]
mod ports;
#[cfg(test)]
mod printing;
#[cfg(test)]
mod programs;
#[cfg(test)]
mod reader;
#[cfg(test)]
mod runs;
#[cfg(test)]
mod scope;
#[cfg(test)]
mod syntax;
#[cfg(test)]
mod tokens;
#[cfg(test)]
mod values;
