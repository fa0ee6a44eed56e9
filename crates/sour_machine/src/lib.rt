//! The interpreter: it runs the text of a program, step by step as the language defines, and reports
//! what the run wrote and how it ended.
#![tactic(auto)]

mod act;
mod activation;
mod advance;
mod arithmetic;
mod arrays;
mod calls;
mod comparison;
mod env;
mod evaluation;
mod evaluations;
mod frame;
mod heap;
mod landing;
mod leaving;
mod moment;
mod output;
mod predicates;
mod report;
mod run;
mod spare_rows;
mod text;
mod truths;
mod waiting_frames;

pub use env::Env;
pub use evaluation::eval;
pub use frame::{Frame, FrameCode};
pub use heap::Heap;
pub use landing::{LeaveStop, leave};
pub use report::{End, Report};
pub use run::{Advance, Run};
pub use text::{value_head, value_middle, value_tail, value_text};
