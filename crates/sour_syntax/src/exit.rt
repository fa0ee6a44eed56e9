//! Where an `assume` leaves for.

use crate::expression::Expr;
use crate::label::Label;
use crate::list::List;
use crate::literal::{FunId, VarId};

/// Which code a continuation goes on in.
#[derive(Clone, Copy, Debug, PartialEq, Eq)]
pub enum Code {
    /// A version of the text: its function, and its place among the versions, counted from 0.
    Text(FunId, u32),
    /// A body of the same bundle, counted from 1.
    Made(u32),
}

/// A label of some code.
#[derive(Drop)]
pub struct Target {
    pub code: Code,
    pub label: Label,
}

/// The value that a variable of the target gets. The expression is one of the body that has the exit.
#[derive(Drop)]
pub struct Bind {
    pub name: VarId,
    pub value: Expr,
}

/// A further frame that an exit makes. It waits for the result of the frame above it.
#[derive(Drop)]
pub struct Extra {
    pub target: Target,
    /// The variable of the target that gets the result.
    pub result: VarId,
    pub map: List<Bind>,
}

/// Where an `assume` goes on when it leaves: in a frame at its target, and below it one for each of the
/// extras, in this order.
#[derive(Drop)]
pub struct Exit {
    pub target: Target,
    pub map: List<Bind>,
    pub extras: List<Extra>,
}
