//! Laws about the first fault of the names and scopes of a text, and about what a text is accepted
//! as. Each is the contract of a function that does nothing; the proofs go by the definitions of
//! `sour_checked` and those below it alone.
//!
//! `Right` says what holds of a text in which a stage finds nothing, in the words of the program
//! that it is, and `TextOrder` lists the rules that the names of a text break in the order of the
//! text.
#![tactic(auto)]

ghost use Rattle.laws_scope.specs.Laws.{FaultsOnce, NamesExactly, MainExactly, ScopesExactly, ExitsExactly, FaultExactly, SameInOrder, FirstInOrder, CheckedOnce, CheckedProgram};

/// A text has one first fault at most.
pub fn faults_once()
    ensures { FaultsOnce }
{}

/// The first stage finds no fault of names exactly where names are right.
pub fn names_exactly()
    ensures { NamesExactly }
{}

/// The first stage finds no fault of `main` exactly where there is one without parameters.
pub fn main_exactly()
    ensures { MainExactly }
{}

/// The second stage finds no fault exactly where each version has scopes.
pub fn scopes_exactly()
    ensures { ScopesExactly }
{}

/// The third stage finds no fault exactly where the exits of the program are right.
pub fn exits_exactly()
    ensures { ExitsExactly }
{}

/// A text has a first fault exactly where it isn't accepted.
pub fn fault_exactly()
    ensures { FaultExactly }
{}

/// No rule of names is broken exactly where none is in the order of the text.
pub fn same_in_order()
    ensures { SameInOrder }
{}

/// Where the lines of a text ascend, the first rule that is broken in its order is the first fault
/// of names.
pub fn first_in_order()
    ensures { FirstInOrder }
{}

/// A text in which no stage finds anything is accepted as its own program, plan and inputs, and as
/// no others.
pub fn checked_once()
    ensures { CheckedOnce }
{}

/// What a text is accepted as is a program, with a plan and inputs that name its functions.
pub fn checked_program()
    ensures { CheckedProgram }
{}
