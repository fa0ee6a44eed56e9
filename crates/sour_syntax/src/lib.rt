//! What a program is made of: literals, expressions, instructions, bodies, versions and functions, and
//! the program, the plan and the job that they make up. Both the code and the definitions of the
//! language name these types.
#![tactic(auto)]

mod body;
mod body_fault;
mod exit;
mod exit_places;
mod expression;
mod instruction;
mod job;
mod jump;
mod jump_places;
mod label;
mod labels;
mod list;
mod literal;
mod names;
mod parts;
mod place_state;
mod places;
mod plan;
mod program;
mod scope_lists;
mod scopes;
mod taking;
mod trap;

pub use body::Body;
pub use body_fault::BodyFault;
pub use exit::{Bind, Code, Exit, Extra, Target};
pub use expression::{Expr, Op, Simple};
pub use instruction::{Instr, Line};
pub use job::Job;
pub use jump::Jump;
pub use label::Label;
pub use labels::Labels;
pub use list::List;
pub use literal::{ArrayId, FunId, Literal, Value, VarId};
pub use names::Names;
pub use place_state::PlaceState;
pub use plan::{Pass, PlanJob, PlanPredicate, PlanSimple, Start};
pub use program::{Function, Program, Version, body_named};
pub use scope_lists::names_of;
pub use trap::Trap;
