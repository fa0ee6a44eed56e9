//! What an instruction does apart from the frames below its own, and that a step is this, applied. Laws that go by
//! it have a clause for each deed, and none for each instruction. Each law is the contract of a function that does
//! nothing; the proofs go by the definitions of `sour_semantics` alone.
#![tactic(auto)]

ghost use Rattle.laws_effects.specs.Laws.{ActsByEffect, StepsByEffect, HasItsEffect};

/// An instruction is its effect, applied: what it does to its own frame and to the world, apart from the frames
/// below.
pub fn acts_by_effect()
    ensures { ActsByEffect }
{}

/// A step is the effect of what the run does next, applied; a run that has ended does nothing more.
pub fn steps_by_effect()
    ensures { StepsByEffect }
{}

/// What an instruction does to its frame is one of the deeds that it may do: if the frame goes on, then at a
/// label that may follow, with the environment that the instruction makes; if it takes no turn, then at the next
/// line or by the exit of an anchor.
pub fn has_its_effect()
    ensures { HasItsEffect }
{}
