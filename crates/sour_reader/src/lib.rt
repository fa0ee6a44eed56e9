//! The reader: it makes a raw job of the bytes of a text, or tells their first fault. `sour_lexer` splits
//! the bytes into tokens. Each function here reads one production of the grammar from the front of the tokens,
//! and gives what the reading of that production in `sour_raw` gives.
//!
//! Whether the names are known and where variables are in scope isn't looked at here.
#![tactic(auto)]

mod exits;
mod expressions;
mod fault;
mod functions;
mod inputs;
mod instructions;
mod items;
mod job;
mod lines;
mod literals;
mod passes;
mod paths;
mod plan;
mod predicates;
mod sections;
mod stop;
mod tokens;
mod variables;
mod words;

pub use fault::TextFault;
pub use job::read_job;
