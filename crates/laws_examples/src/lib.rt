//! Examples of what the definitions say: small programs and bundles, written down once in `specs`, and theorems
//! about them. Each is the contract of a function that does nothing; most are proved by evaluation.
//!
//! The bundle of `area` is told in `specs/Area`, the text with `bill` in `specs/Bill`.
#![tactic(auto)]

ghost use Rattle.laws_examples.specs.AreaSteps.{PassesAnchor, LeavesWhenTold};
ghost use Rattle.laws_examples.specs.AreaSteps.{LeavesForEarlierBody, LeavesForText};
ghost use Rattle.laws_examples.specs.AreaRuns.{EntersBundle, OtherBundleIsNotEntered, RunsEndAlike};
ghost use Rattle.laws_examples.specs.AreaShapes.{BundleHasShape, OrderIsRefused, ShortMapIsRefused};
ghost use Rattle.laws_examples.specs.AreaShapes.{ExitToItselfIsRefused, UnreachedLineIsRefused};
ghost use Rattle.laws_examples.specs.AreaLaws.{BundleIsLawful, WrongValueIsUnlawful, WrongExitIsUnlawful};
ghost use Rattle.laws_examples.specs.BillRuns.{MakesThreeFrames, ShowsWholeRun, ShowsCutRun, ShowsShortRun};

/// Body 2 of the bundle of `area` assumes that the arguments are 2 and 3. They are: its frame goes on to the
/// line after the anchor, and takes no turn.
pub fn passes_anchor()
    ensures { PassesAnchor }
{}

/// The same frame is told to leave. It leaves for body 1 with the same arguments, although both predicates
/// hold, and takes no turn.
pub fn leaves_when_told()
    ensures { LeavesWhenTold }
{}

/// The arguments are 2 and 5, so that the second predicate of body 2 is false. The frame leaves for an earlier
/// body of its bundle, body 1, which assumes less: there it stands at an anchor again.
pub fn leaves_for_earlier_body()
    ensures { LeavesForEarlierBody }
{}

/// The arguments are 7 and 5, so that both bodies assume what isn't so. In two steps the frame leaves for body
/// 1, and from there for the text version of `area`. It has taken no turn until then.
pub fn leaves_for_text()
    ensures { LeavesForText }
{}

/// `main` calls `area(2, 5)`, and the choice of the step is the bundle. The new frame runs the last body of the
/// bundle; `main` stands at its next line and waits for `a`.
pub fn enters_bundle()
    ensures { EntersBundle }
{}

/// The choice of the step is the same bodies, as a bundle of `main`. That isn't the function called, so the call
/// enters the text version of `area`.
pub fn other_bundle_is_not_entered()
    ensures { OtherBundleIsNotEntered }
{}

/// One run enters the text version of `area`. Another one enters the bundle: body 2 leaves for body 1, whose
/// anchor it passes, which is two steps more. Both end in the same state: the output is 10, after two turns.
pub fn runs_end_alike()
    ensures { RunsEndAlike }
{}

/// The bundle of `area` has the shape of a bundle: two bodies that are bodies of its function, and an anchor in
/// each, of which one leads to the text and one to the body before.
pub fn bundle_has_shape()
    ensures { BundleHasShape }
{}

/// An anchor that compares by `<` is refused: it would trap if the argument is no number, and an anchor never
/// traps.
pub fn order_is_refused()
    ensures { OrderIsRefused }
{}

/// An anchor whose map leaves out `height` is refused: that is in scope where the exit leads, too.
pub fn short_map_is_refused()
    ensures { ShortMapIsRefused }
{}

/// An anchor that leads to its own body is refused: exits go down, so that leaving comes to an end.
pub fn exit_to_itself_is_refused()
    ensures { ExitToItselfIsRefused }
{}

/// A line after the last `return` is refused: no path leads to it.
pub fn unreached_line_is_refused()
    ensures { UnreachedLineIsRefused }
{}

/// The bundle of `area` is lawful: for all arguments, numbers or not, and wherever its anchors leave, it shows
/// nothing that the text version doesn't show, and takes no more turns.
pub fn bundle_is_lawful()
    ensures { BundleIsLawful }
{}

/// A body that adds in place of multiplying has its shape too, but it isn't lawful: for 2 and 3 it returns 5.
pub fn wrong_value_is_unlawful()
    ensures { WrongValueIsUnlawful }
{}

/// The code of a body is right, but its anchor leaves with `width` for `height`. It has no predicate that could
/// fail, so no frame leaves unless it is told to; all the same the body isn't lawful.
pub fn wrong_exit_is_unlawful()
    ensures { WrongExitIsUnlawful }
{}

/// `bill` is called with 12, which isn't below 10 as its code assumes. The exit makes the three frames that
/// there would have been without that assumption, each with what it needs to go on, above the one of `main`. It
/// is written by hand, so it takes a turn.
pub fn makes_three_frames()
    ensures { MakesThreeFrames }
{}

/// A whole run of the text, on the input 12: each of the three frames returns into the one below it, 125 is
/// printed, and the run ends with 0 after 6 turns.
pub fn shows_whole_run()
    ensures { ShowsWholeRun }
{}

/// The same run at a budget of 5 turns: it has printed all that it prints, but it hasn't ended, so it is cut.
pub fn shows_cut_run()
    ensures { ShowsCutRun }
{}

/// The run on the input 5, for which the assumption holds: it takes 3 turns, since no frame is left and none of
/// the other functions is called.
pub fn shows_short_run()
    ensures { ShowsShortRun }
{}
