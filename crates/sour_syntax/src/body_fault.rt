//! Why lines are no body.

use crate::label::Label;
use crate::list::List;

/// The first fault of the scopes of some lines. Places are taken in turn, each time the smallest that
/// has a scope and wasn't taken; the place of a fault is that of the instruction that was taken.
/// Places count from 0.
#[derive(Drop)]
pub enum BodyFault {
    /// A variable that must be in scope at this place isn't.
    NotInScope(usize),
    /// A variable that is declared at this place is in scope there.
    InScope(usize),
    /// From the instruction at a place a scope comes to a place that has another one: the names in
    /// the scope that it had, and those in the other one.
    ScopesDiffer(usize, List<Label>, List<Label>),
}
