//! Laws about the states of a run. Each is the contract of a function that does nothing; the proofs go
//! by the definitions of `sour_semantics` alone.
#![tactic(auto)]

ghost use Rattle.laws_validity.specs.Laws.{CallStartsValid, StartsValid, StaysValid, NeverGetsStuckBy, NeverGetsStuck};

/// A run of any version or made body, with values for its parameters, starts in a valid state.
pub fn call_start()
    ensures { CallStartsValid }
{}

/// A run of a checked program starts in a valid state.
pub fn start()
    ensures { StartsValid }
{}

/// A step from a valid state gives a valid state, whatever it may choose.
pub fn step()
    ensures { StaysValid }
{}

/// A run of a checked program from a valid state stays valid and never gets stuck, whatever its steps may choose.
pub fn never_stuck_by()
    ensures { NeverGetsStuckBy }
{}

/// A run of a checked program that enters text versions alone never gets stuck.
pub fn never_stuck()
    ensures { NeverGetsStuck }
{}
