//! What is written of runs: the block of a report. It goes to any sink, and takes no memory.
#![tactic(auto)]

mod blocks;
mod line;

pub use blocks::write_block;
pub use line::{ShortLine, put};
