//! Laws about the canonical text of functions, and of a program. Each is the contract of a function
//! that does nothing; the proofs go by the definitions of `sour_lexer`, `sour_raw` and
//! `sour_checked`, and by the pieces that this crate defines. `Bundles` defines the text of a
//! bundle in the same manner.
#![tactic(auto)]

ghost use Rattle.laws_printing.specs.BundleExamples.{AreBundlesWrittenSo};
ghost use Rattle.laws_printing.specs.Examples.{AreSpelledSo, IsTextSpelledSo};
ghost use Rattle.laws_printing.specs.Laws.{BytesAreJoined, PiecesAreTokens, PiecesAreApart, PiecesSpell, ReadsAsItself, ProgramsAreWritten, ProgramsAreShort, ProgramsAreCanonical, ProgramsAreRead, ProgramsAreChecked};

/// The bytes of pieces are those of their parts, one after the other, and so are those of lines.
pub fn bytes_are_joined()
    ensures { BytesAreJoined }
{}

/// Pieces of which none is made longer by what is written after it are read as their tokens, at the
/// places that the text gives.
pub fn pieces_are_tokens()
    ensures { PiecesAreTokens }
{}

/// The pieces of a raw job that is written as a text must be are such pieces.
pub fn pieces_are_apart()
    ensures { PiecesAreApart }
{}

/// The tokens of the canonical text of a raw job spell it, if it is written as a text must be, is
/// within the limits, has functions alone, and has the line numbers of that text.
pub fn pieces_spell()
    ensures { PiecesSpell }
{}

/// The canonical text of a raw job reads as that raw job, if it is written as a text must be, is
/// within the limits, has functions alone, and has the line numbers of that text.
pub fn reads_as_itself()
    ensures { ReadsAsItself }
{}

/// A program with names in place of numbers is written as a text must be.
pub fn programs_are_written()
    ensures { ProgramsAreWritten }
{}

/// It is within the limits.
pub fn programs_are_short()
    ensures { ProgramsAreShort }
{}

/// It has functions alone, and the line numbers of the canonical text.
pub fn programs_are_canonical()
    ensures { ProgramsAreCanonical }
{}

/// So the canonical text of a program reads as the program with names in place of numbers.
pub fn programs_are_read()
    ensures { ProgramsAreRead }
{}

/// And that is accepted as this very program, without a plan and without inputs.
pub fn programs_are_checked()
    ensures { ProgramsAreChecked }
{}

/// The blanks of the canonical text stand where the examples have them.
pub fn instructions_are_spelled_so()
    ensures { AreSpelledSo }
{}

/// So do its lines; their numbers are those that the raw job has, and the text reads as that raw
/// job.
pub fn text_is_spelled_so()
    ensures { IsTextSpelledSo }
{}

/// The text of a bundle is that of the example.
pub fn bundles_are_written_so()
    ensures { AreBundlesWrittenSo }
{}
