//! The commands of the program `sourir`, over any source and any sink: what the words on a command
//! line ask for is done, its output goes to the sink, and the exit status says how it went. The
//! contract of [`sourir`] says what each answer means, and when it comes.
#![tactic(auto)]

mod accept;
mod check;
mod command;
mod fault;
mod output;
mod program;
mod run;
mod serving;
mod show;
mod tally;
mod words;

pub use check::command_check;
pub use command::Command;
pub use fault::{Fault, write_fault};
pub use program::sourir;
pub use run::command_run;
pub use show::command_show;
