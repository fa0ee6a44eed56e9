//! How a pass is shown to keep a bundle lawful: what it owes of the lines that it changes, and that by this the
//! runs of the new bundle are followed by runs of the old one. Laws that hold of relations on states or frames
//! are lemmas, which passes cite; each of the others is the contract of a function that does nothing.
#![tactic(auto)]

ghost use Rattle.laws_simulation.specs.Laws.{CarriesEffect, AlikeLandsBack};
ghost use Rattle.laws_simulation.specs.Inject.{InjectedIsLawful};
ghost use Rattle.laws_simulation.specs.Renumbered.{RenumberedIsCarried};

/// Code that differs from other code in labels and exits alone, by a map of both, does what that code does.
pub fn carries_effect()
    ensures { CarriesEffect }
{}

/// Exits whose continuations agree but for such a map make the same frames but for it.
pub fn alike_lands_back()
    ensures { AlikeLandsBack }
{}

/// A lawful bundle stays lawful with one test of equality more at an anchor of its top, if it keeps its shape.
pub fn injected_is_lawful()
    ensures { InjectedIsLawful }
{}

/// Bodies under other numbers run as they did, beside others: their instructions are carried back to the old ones.
pub fn renumbered_is_carried()
    ensures { RenumberedIsCarried }
{}
