//! The check of names and scopes: it takes a text with names as they are written, and gives the program
//! that it means, where it means one.
//!
//! A text is accepted where no two functions, no two versions of one function, no two parameters of one
//! function and no two labels of one version have the same name; each label that an instruction goes to
//! is there; the last instruction of each version is `return`, `stop`, `goto` or `branch`; each variable
//! is in scope where it is used, and isn't where it is declared, with one scope for each label whatever
//! path leads to it; each function that an instruction, an input, a job of the plan or a predicate in it names is
//! there; each target of an `assume` names a function, a version of it and a label there, and its map names
//! variables of that version, each once, which fit the scope at that label where a path leads to the `assume`; and
//! there is a function `main`, without parameters. The labels and the variables that a plan names aren't looked at.
#![tactic(auto)]

mod bodies;
mod exit_numbers;
mod exits;
mod expression_lists;
mod expressions;
mod fault;
mod first_stage;
mod function_outline;
mod functions;
mod inputs;
mod instructions;
mod job;
mod joining;
mod landings;
mod lines;
mod main_function;
mod names;
mod numbered;
mod numbers;
mod outline;
mod outlining;
mod plan;
mod repeats;
mod unnumbered;
mod variables;
mod version_lines;
mod version_outline;

pub use fault::ScopeFault;
pub use job::check;
