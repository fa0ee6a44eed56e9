//! Laws about the grammar. Each is the contract of a function that does nothing; the proofs go by the
//! definitions of `sour_lexer` and `sour_raw` alone.
#![tactic(auto)]

ghost use Rattle.laws_grammar.specs.Laws.{ReadsOnce, FaultsOnce, NeverBoth, ReadsOrFaults, ReadsExactly, ReadIsWritten, LinesInOrder};

/// A text reads as one raw job at most.
pub fn reads_once()
    ensures { ReadsOnce }
{}

/// A text has one first fault at most.
pub fn faults_once()
    ensures { FaultsOnce }
{}

/// A text that reads as a raw job has no fault.
pub fn never_both()
    ensures { NeverBoth }
{}

/// Each text reads as a raw job or has a first fault.
pub fn reads_or_faults()
    ensures { ReadsOrFaults }
{}

/// The reading of a job gives exactly what the tokens spell, or else exactly their fault.
pub fn reads_exactly()
    ensures { ReadsExactly }
{}

/// What a text reads as is written as a text must be, and within the limits.
pub fn read_is_written()
    ensures { ReadIsWritten }
{}

/// The items of what a text reads as stand on lines that ascend in the order of the text.
pub fn lines_in_order()
    ensures { LinesInOrder }
{}
