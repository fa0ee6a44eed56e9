//! Bundles: what optimisation makes for a function and a table publishes.
//!
//! A bundle holds its program, its function and one to 32 bodies, of which a call enters the last.
//! It is lawful: entered in place of the text version of its function it shows nothing that the
//! text version doesn't show, wherever its anchors leave.
#![tactic(auto)]

mod bundle;
mod entry;
mod refused;

pub use bundle::{Bundle, body_numbered};
pub use entry::Entry;
pub use refused::Refused;
