//! Laws about runs. Each is the contract of a function that does nothing; the proofs go by the
//! definitions of `sour_semantics` alone.
#![tactic(auto)]

ghost use Rattle.laws_runs.specs.Laws.{TakesAtMostOneTurn, RestsOnce, RestsSomewhere, AdvancesAdd, TurnsComeSoon, TextTurnsComeSoon};

/// Turns never fall, and a step takes at most one.
pub fn turns()
    ensures { TakesAtMostOneTurn }
{}

/// For a program, an input and a budget there is one state at most at which the run of the text rests.
pub fn one_rest()
    ensures { RestsOnce }
{}

/// A run of a checked program on a valid input rests in some state at each budget.
pub fn some_rest()
    ensures { RestsSomewhere }
{}

/// To go on by some turns and then by others is to go on by all of them.
pub fn advances_add()
    ensures { AdvancesAdd }
{}

/// In a run of a checked program no more than 135,168 steps follow one another without a turn, whatever
/// they may choose.
pub fn turns_come_soon()
    ensures { TurnsComeSoon }
{}

/// In a run of a checked program that enters text versions alone no more than 135,168 steps follow one another
/// without a turn.
pub fn text_turns_come_soon()
    ensures { TextTurnsComeSoon }
{}
