use crate::list::List;
use crate::literal::Literal;
use crate::plan::PlanJob;
use crate::program::Program;
use std::sync::Arc;

/// What a text asks for: a program, the plan of jobs that make versions of its functions, and the inputs
/// to run it on, each a list of values.
#[derive(Drop)]
pub struct Job {
    pub program: Arc<Program>,
    pub plan: List<PlanJob>,
    pub inputs: List<List<Literal>>,
}
