//! The lines of versions with numbers in place of names.

use sour_syntax::{Line, List, Literal, PlanJob};

/// The lines of a version, and the line of the text on which each of them stands.
#[derive(Drop)]
pub(crate) struct VersionLines {
    pub(crate) lines: List<Line>,
    pub(crate) line_numbers: List<u64>,
}

/// The lines of the versions of a function, and how many parameters it has.
#[derive(Drop)]
pub(crate) struct FunctionLines {
    pub(crate) parameters: u32,
    pub(crate) versions: List<VersionLines>,
}

/// The lines of the functions of a text, and its plan and its inputs.
#[derive(Drop)]
pub(crate) struct TextLines {
    pub(crate) functions: List<FunctionLines>,
    pub(crate) plan: List<PlanJob>,
    pub(crate) inputs: List<List<Literal>>,
}
