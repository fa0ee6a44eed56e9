//! A job with numbers in place of names: what the first stage makes of a text, and what the later
//! ones look at.

use sour_syntax::{FunId, Label, Labels, Line, List, Literal, Names, PlanJob};

/// A version with numbers in place of names: what its body is made of, and the line of the text on
/// which each of its instructions stands.
#[derive(Drop)]
pub(crate) struct NumberedVersion {
    pub(crate) name: Label,
    pub(crate) function: FunId,
    pub(crate) parameters: u32,
    pub(crate) variables: Names,
    pub(crate) labels: Labels,
    pub(crate) lines: List<Line>,
    pub(crate) line_numbers: List<u64>,
}

/// A function with such versions.
#[derive(Drop)]
pub(crate) struct NumberedFunction {
    pub(crate) name: Label,
    pub(crate) versions: List<NumberedVersion>,
}

/// A job with such functions. Each function that the plan or an input names is one of them.
#[derive(Drop)]
pub(crate) struct NumberedJob {
    pub(crate) functions: List<NumberedFunction>,
    pub(crate) main: FunId,
    pub(crate) plan: List<PlanJob>,
    pub(crate) inputs: List<List<Literal>>,
}
