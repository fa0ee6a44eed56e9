//! Canonical text: a program is written as the text that `laws_printing` defines, and so is a
//! bundle. Each function puts one production of the grammar behind the bytes that are there. Where
//! memory is wanting, a front of it may have been put.
#![tactic(auto)]

mod bodies;
mod bundle;
mod exits;
mod expressions;
mod functions;
mod instructions;
mod lines;
mod names;
mod program;

pub use bundle::print_bundle;
pub use program::print_program;
