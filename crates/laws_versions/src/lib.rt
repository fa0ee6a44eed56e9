//! Laws about runs whose calls enter the versions that they are answered. Each is the contract of a
//! function that does nothing; the proofs go by the definitions alone.
#![tactic(auto)]

ghost use Rattle.laws_versions.specs.RunLaws.{TurnsWhateverEntered, CountsWhatIsEntered};
ghost use Rattle.laws_versions.specs.RunLaws.{RunsOverNothing, VersionGoesOnAdds, TextGoesOnAdds};
ghost use Rattle.laws_versions.specs.RunLaws.{VersionRestsOnce, VersionRunsAreValid};
ghost use Rattle.laws_versions.specs.RunLaws.{VersionTurnsComeSoon, VersionRestsSomewhere};
ghost use Rattle.laws_versions.specs.RunLaws.{CallsOfRuns};
ghost use Rattle.laws_versions.specs.ShownLaws.{LawfulAnswers, VersionRunsAreShown};
ghost use Rattle.laws_versions.specs.ShownLaws.{VersionRunsMayShow, TextMayShow, AllTextMayShow};
ghost use Rattle.laws_versions.specs.ShownLaws.{CutShowsText};
ghost use Rattle.laws_versions.specs.ReadLaws.{FitsOfParts, NumbersTell, NumbersNeverFall, ReadsOfJobs};
ghost use Rattle.laws_versions.specs.LogLaws.{NotesAreTrue, UsedAreLawful};
ghost use Rattle.laws_versions.specs.GoesOnLaws.{GoesOnByParts, AdvancesOverAdd, CallsFit};
ghost use Rattle.laws_versions.specs.GoesOnLaws.{RoundsEnterActive, RoundsOverNothing, RunsSoFar};
ghost use Rattle.laws_versions.specs.Examples.{ExampleRuns};

/// How many turns a step takes doesn't depend on what a call enters.
pub fn turns_whatever_entered()
    ensures { TurnsWhateverEntered }
{}

/// A function is counted if its version is entered, and else a step looks at no version.
pub fn counts_what_is_entered()
    ensures { CountsWhatIsEntered }
{}

/// If nothing was published, a run is the run of the text.
pub fn runs_over_nothing()
    ensures { RunsOverNothing }
{}

/// To go on by some turns and then by others is to go on by all of them, if what was answered to the
/// calls of the first part is kept.
pub fn version_goes_on_adds()
    ensures { VersionGoesOnAdds }
{}

/// For a run of the text to go on by some turns and then by others is to go on by all of them.
pub fn text_goes_on_adds()
    ensures { TextGoesOnAdds }
{}

/// The moment at which a run rests at a budget is determined by what its calls are answered.
pub fn version_rests_once()
    ensures { VersionRestsOnce }
{}

/// A run of a checked program on a valid input is valid at each moment, whatever each call enters that has
/// its shape.
pub fn version_runs_are_valid()
    ensures { VersionRunsAreValid }
{}

/// At most 135,168 steps of a run of a checked program follow one another without a turn, whatever each call
/// enters that has its shape.
pub fn version_turns_come_soon()
    ensures { VersionTurnsComeSoon }
{}

/// A run of a checked program on a valid input rests at some moment at each budget, whatever each call enters
/// that has its shape.
pub fn version_rests_somewhere()
    ensures { VersionRestsSomewhere }
{}

/// The calls of a run are those of its parts.
pub fn calls_of_runs()
    ensures { CallsOfRuns }
{}

/// Calls are answered by lawful versions if the bundles that a log or a history has are lawful, and a
/// lawful version may be entered.
pub fn lawful_answers()
    ensures { LawfulAnswers }
{}

/// The run of the text shows what a run shows that enters lawful versions, with as many turns or more.
pub fn version_runs_are_shown()
    ensures { VersionRunsAreShown }
{}

/// The block of such a run is one that may be shown, whether it has ended, is cut or was out of memory.
pub fn version_runs_may_show()
    ensures { VersionRunsMayShow }
{}

/// What a run of the text alone shows may be shown.
pub fn text_may_show()
    ensures { TextMayShow }
{}

/// What runs of the text alone show for all inputs may be shown for all inputs.
pub fn all_text_may_show()
    ensures { AllTextMayShow }
{}

/// What a cut block shows begins with the output of the text at the budget.
pub fn cut_shows_text()
    ensures { CutShowsText }
{}

/// Reads fit a history, and find all of it, if those of their parts do.
pub fn fits_of_parts()
    ensures { FitsOfParts }
{}

/// Reads that fit a history are told by their numbers.
pub fn numbers_tell()
    ensures { NumbersTell }
{}

/// No read that fits a history finds an older version of its function than one before it.
pub fn numbers_never_fall()
    ensures { NumbersNeverFall }
{}

/// Reads of jobs fit histories as calls do, and are told by what is listed of them.
pub fn reads_of_jobs()
    ensures { ReadsOfJobs }
{}

/// What a log keeps of a call is what the table answered, and what it says of the calls before stays.
pub fn notes_are_true()
    ensures { NotesAreTrue }
{}

/// Used bundles are lawful ones of their functions if a history of lawful bundles has them.
pub fn used_are_lawful()
    ensures { UsedAreLawful }
{}

/// A run goes on while a table answers by what its parts do, one after the other.
pub fn goes_on_by_parts()
    ensures { GoesOnByParts }
{}

/// To advance by some turns and then by others, over the same table, is to advance by all of them.
pub fn advances_over_add()
    ensures { AdvancesOverAdd }
{}

/// The calls of a run fit the history of the table that answered them, which has what they used.
pub fn calls_fit()
    ensures { CallsFit }
{}

/// If nothing is published while a run goes on, each of its calls enters what is active.
pub fn rounds_enter_active()
    ensures { RoundsEnterActive }
{}

/// If nothing was published at all, a run goes on as the run of the text.
pub fn rounds_over_nothing()
    ensures { RoundsOverNothing }
{}

/// What holds of a run holds of it again after it has gone on, and tells what its block may show.
pub fn runs_so_far()
    ensures { RunsSoFar }
{}

/// A run of three calls, of which the last enters a bundle, evaluated.
pub fn example_runs()
    ensures { ExampleRuns }
{}
