//! Tables of published versions: what was published for each function of a program, in order, and
//! which version is active.
//!
//! `Versions` is what a run or a pass asks for the active version of a function. `PlainTable` is a
//! table of one thread: what is published is seen at once.
#![tactic(auto)]

mod active;
mod history_entry;
mod plain_table;
mod versions;

pub use history_entry::HistoryEntry;
pub use plain_table::{PlainTable, PublishRefused};
pub use versions::Versions;
