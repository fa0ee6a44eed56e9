//! Laws about runs that agree. Each is the contract of a function that does nothing; the proofs go by
//! the definitions of `sour_semantics` alone.
#![tactic(auto)]

ghost use Rattle.laws_agreement.specs.Laws.{KeepsLater, StepsAbove, RunsAbove, AgreesAbove, CallAgrees, RunsAgree, TextAgrees, RunsAreShown, TextAloneAgrees, TextAloneIsLawful};

/// A run that begins with more turns is the same run with as many turns more at each moment.
pub fn keeps_later()
    ensures { KeepsLater }
{}

/// A step above further frames is the same step, or returns its value into the first of them.
pub fn steps_above()
    ensures { StepsAbove }
{}

/// Free steps above further frames are the same steps, or some of them return a value into these frames and the
/// others go on there.
pub fn runs_above()
    ensures { RunsAbove }
{}

/// If one state agrees with another, then above further frames it agrees with whatever the other agrees with
/// there.
pub fn agrees_above()
    ensures { AgreesAbove }
{}

/// If a state agrees with one of the text, so does the state after a step in which a call may enter a lawful
/// bundle instead of the text version.
pub fn call_agrees()
    ensures { CallAgrees }
{}

/// If a state agrees with one of the text, so does the state after a run each of whose calls enters the text
/// version or a lawful bundle, another one each time.
pub fn runs_agree()
    ensures { RunsAgree }
{}

/// Where each frame runs a version of the text, free steps show nothing that the run of the text doesn't show.
pub fn text_agrees()
    ensures { TextAgrees }
{}

/// What a run of a checked program shows that enters `main`, and each function that it calls, by the text
/// version or a lawful bundle, the run of the text shows.
pub fn runs_are_shown()
    ensures { RunsAreShown }
{}

/// The first version of a function, as a bundle of one body, shows nothing that it doesn't show as the text.
pub fn text_alone_agrees()
    ensures { TextAloneAgrees }
{}

/// The first version of a function, as a bundle of one body, is lawful if each of its lines has a scope.
pub fn text_alone_is_lawful()
    ensures { TextAloneIsLawful }
{}
