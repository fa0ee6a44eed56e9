//! Bodies, made of their parts.

ghost use Rattle.std.specs.Prelude.{◌≡◌, [], ◌∷◌, IfOk};
ghost use Rattle.sour_syntax.specs.Labels.{automatic_label};

use crate::jobs::{body_of, seen};
use sour_syntax::{
    Body, Code, FunId, Instr, Job, Label, Labels, Line, List, Names, VarId, body_named,
};
use std::alloc::{AllocError, Global};
use std::test::Fail;

/// A version that reads into a variable, goes to `d` past a line that no path leads to, and returns
/// the variable there.
const TEXT: &[u8] = b"fun main()
ver base
a: read x
b: goto d
c: stop
d: return x
end
";

/// The function of a body, and how many parameters, variables and lines it has.
fn counts(body: &Body) -> (FunId, u32, usize, usize) {
    (
        body.function(),
        body.parameters(),
        body.variables().len(),
        body.lines().len(),
    )
}

/// The place of a label in the body of that version.
fn place_in(alloc: Global, job: &Job, name: &str) -> Result<Option<usize>, AllocError> {
    let label = Label::from_bytes(Vec::from_slice(alloc, name.as_bytes())?);
    Ok(body_of(job, 0).and_then(|body| body.place(&label)))
}

#[test]
fn a_body_knows_its_labels(rt: HostRuntime) -> Result<(), Fail> {
    for (name, place) in [("a", Some(0)), ("d", Some(3)), ("e", None)] {
        let found = seen(rt.alloc(), TEXT, |job| place_in(rt.alloc(), job, name))?;
        assert!(rt; found? == place, "of {name}");
    }
    Ok(())
}

/// Where the second line of a body goes, and how many variables are in scope at a place and which is
/// the first.
fn paths_in(body: &Body, place: usize) -> (Option<usize>, Option<(usize, Option<VarId>)>) {
    let goes = body.jumps().get(1).map(|jump| jump.first);
    if place >= body.lines().len() {
        return (goes, None);
    }
    let scope = body.scope(place);
    (
        goes,
        scope.map(|variables| (variables.len(), variables.first().copied())),
    )
}

#[test]
fn a_body_knows_its_scopes(rt: HostRuntime) -> Result<(), Fail> {
    let x = Some(VarId(0));
    for (place, scope) in [
        (0, Some((0, None))),
        (1, Some((1, x))),
        (2, None),
        (3, Some((1, x))),
    ] {
        let found = seen(rt.alloc(), TEXT, |job| {
            body_of(job, 0).map(|body| paths_in(body, place))
        })?;
        assert!(rt; found == Some((Some(3), scope)), "at {place}");
    }
    Ok(())
}

/// The function of the body that a code names, and how many lines that has.
fn named(job: &Job, code: Code) -> Option<(FunId, usize)> {
    let body = body_named(job.program.functions(), code)?;
    Some((body.function(), body.lines().len()))
}

#[test]
fn a_code_names_a_body(rt: HostRuntime) -> Result<(), Fail> {
    for (code, body) in [
        (Code::Text(FunId(0), 0), Some((FunId(0), 4))),
        (Code::Text(FunId(0), 1), None),
        (Code::Text(FunId(1), 0), None),
        (Code::Made(1), None),
    ] {
        let found = seen(rt.alloc(), TEXT, |job| named(job, code))?;
        assert!(rt; found == body, "{code:?}");
    }
    Ok(())
}

/// A line that stops.
fn stop(alloc: Global) -> Result<List<Line>, AllocError>
    ensures { IfOk result (λ lines. lines ≡ record {
      label = automatic_label 0;
      instr = Instr.Stop;
    } ∷ []) }
{
    let label = Label::automatic(alloc, 0)?;
    let instr = Instr::Stop;
    Ok(List::from_vec(vec![in alloc; Line { label, instr }]?))
}

/// Its label.
fn label_of_stop(alloc: Global) -> Result<Labels, AllocError>
    ensures { IfOk result (λ labels. labels ≡ automatic_label 0 ∷ []) }
{
    let label = Label::automatic(alloc, 0)?;
    let mut labels = Labels::new(alloc);
    labels.add(Vec::from_slice(alloc, label.as_bytes())?)?;
    Ok(labels)
}

/// A body that stops, of parts that are known to be those of a body.
fn body_that_stops(alloc: Global) -> Result<Option<Body>, AllocError> {
    let names = Names::new(alloc);
    let checked = Body::checked(
        alloc,
        FunId(2),
        0,
        names,
        label_of_stop(alloc)?,
        stop(alloc)?,
    )?;
    let Ok(body) = checked else {
        return Ok(None);
    };
    // What these two ensure is all that holds of every body.
    let _ = body.lines();
    let _ = body.parameters();
    Ok(Some(Body::new(alloc, FunId(2), 0, Names::new(alloc), stop(alloc)?)?))
}

#[test]
fn a_body_is_made_of_its_parts(rt: HostRuntime) -> Result<(), Fail> {
    let parts = body_that_stops(rt.alloc())?.map(|body| counts(&body));
    assert!(rt; parts == Some((FunId(2), 0, 0, 1)));
    Ok(())
}
