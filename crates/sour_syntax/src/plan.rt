use crate::label::Label;
use crate::list::List;
use crate::literal::{FunId, Literal};

/// What a job of a plan starts from.
#[derive(Clone, Copy, Debug, PartialEq, Eq)]
pub enum Start {
    /// The text version of the job's function.
    Text,
    /// What a call of the function enters when the job begins.
    Active,
}

/// A side of a predicate in a plan.
#[derive(Drop)]
pub enum PlanSimple {
    Lit(Literal),
    /// A variable by its name, which is looked at when the pass begins.
    Name(Label),
}

/// A predicate in a plan: both sides are the same.
#[derive(Drop)]
pub struct PlanPredicate {
    pub left: PlanSimple,
    pub right: PlanSimple,
}

/// A pass of a job. The anchor `@L` is named by the label `L`. The labels are looked at when the pass
/// begins.
#[derive(Drop)]
pub enum Pass {
    /// Adds the predicate to the anchor.
    Inject(Label, PlanPredicate),
    /// Replaces variables and operations by the literals that they are known to be.
    Constprop,
    /// Removes what no run reaches.
    Unreachable,
    /// Puts the code of its callee in place of the call at the label.
    Inline(Label, Start),
    /// Moves the anchor behind the next line.
    Move(Label),
    /// Removes the predicate from the first anchor and adds it to the second.
    Hoist(Label, Label, PlanPredicate),
    /// Makes the anchor leave to where the anchor that it leaves to does.
    Compose(Label),
    /// Removes bodies that no exit leads to.
    Prune,
}

/// A job of a plan: the function that it makes a version of, what it starts from, and the passes in
/// their order.
#[derive(Drop)]
pub struct PlanJob {
    pub function: FunId,
    pub start: Start,
    pub passes: List<Pass>,
}
