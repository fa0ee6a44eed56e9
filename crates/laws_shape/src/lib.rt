//! How a pass is shown to keep the shape of a bundle: what it owes of the lines that it changes, of the paths
//! between them and of the bodies among which its own stands. Each law is the contract of a function that does
//! nothing; the proofs go by the definitions alone.
#![tactic(auto)]

ghost use Rattle.laws_shape.specs.Laws.{MadeOfLines, LinesOfMade, AppendedHasShape, TopHasShape, RelinedIsMade, RelinedHasShape, ContinuationStands, RenumberedIsMade, RenumberedAreMade, PathsComeBack, PathsGoOn, SplicedDiffer, SplicedEnd};

/// A body is one of a bundle if each of its lines may be one, a path leads to each, and they are few enough.
pub fn made_of_lines()
    ensures { MadeOfLines }
{}

/// Each line of a body of a bundle is one that may be.
pub fn lines_of_made()
    ensures { LinesOfMade }
{}

/// A bundle has its shape with one body more, if that is one of its function that may stand after the others.
pub fn appended_has_shape()
    ensures { AppendedHasShape }
{}

/// A bundle has its shape with another top, if that is one of the same function that may stand after the others.
pub fn top_has_shape()
    ensures { TopHasShape }
{}

/// A body whose lines change alike, their labels and paths aside, stays a body of a bundle, perhaps after others.
pub fn relined_is_made()
    ensures { RelinedIsMade }
{}

/// A bundle keeps its shape if each line of its top changes to one that may stand there, and labels and paths stay.
pub fn relined_has_shape()
    ensures { RelinedHasShape }
{}

/// A continuation whose values are mapped names what is there, and lands, if its code is mapped to that of the like.
pub fn continuation_stands()
    ensures { ContinuationStands }
{}

/// A body whose exits lead to bodies under other numbers stays a body of a bundle, where those stand under these.
pub fn renumbered_is_made()
    ensures { RenumberedIsMade }
{}

/// The bodies of a bundle may stand after those of another, if their exits lead to numbers that are as much higher.
pub fn renumbered_are_made()
    ensures { RenumberedAreMade }
{}

/// The paths of a new body are those of an old one, if each step of a path is one there or stays where it is.
pub fn paths_come_back()
    ensures { PathsComeBack }
{}

/// The paths of an old body are those of a new one, if each step of a path is some steps there.
pub fn paths_go_on()
    ensures { PathsGoOn }
{}

/// Where lines give way to some each, labels differ if those of each piece do and stand for that of the old line.
pub fn spliced_differ()
    ensures { SplicedDiffer }
{}

/// Where lines give way to some each, the last ends the body if no piece runs on into one that is left out.
pub fn spliced_end()
    ensures { SplicedEnd }
{}
