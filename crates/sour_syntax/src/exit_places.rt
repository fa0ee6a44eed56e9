//! The places to which exits lead, so that leaving looks no label up.

ghost use Rattle.std.specs.Prelude.{List as Listed, IfOk, IfSome};
ghost use Rattle.std.specs.List.{AllZip};
ghost use Rattle.sour_syntax.specs.declared.program.Function.{Function};
ghost use Rattle.sour_syntax.specs.Exits.{continuations, continuations_of};
ghost use Rattle.sour_syntax.specs.ExitPlaces.{LeadsTo, KeepsPlace, KeepsOfLine, KeepsOfVersion, KeepsOfFunction, KeepsOfEach, IsExitPlace};

use crate::exit::{Exit, Target};
use crate::instruction::{Instr, Line};
use crate::list::List;
use crate::literal::FunId;
use crate::program::{Function, Version, body_named};
use std::alloc::{AllocError, Global};

/// For each function, for each of its versions and for each line of that: the places, counted from 0, to
/// which the frames go that the line may make by leaving.
pub(crate) type ExitPlaces = List<List<List<List<Option<usize>>>>>;

/// The place of the line that a target names.
fn place_of(functions: &[Function], target: &Target) -> Option<usize>
    ensures { IfSome result (LeadsTo functions.now target.now) }
{
    body_named(functions, target.code)?.place(&target.label)
}

/// The places to which the frames of an exit go.
fn places_of_exit(
    alloc: Global,
    functions: &[Function],
    exit: &Exit,
) -> Result<List<Option<usize>>, AllocError>
    ensures { IfOk result (AllZip (KeepsPlace functions.now) (continuations exit.now)) }
{
    let mut places = List::new(alloc);
    places.push(place_of(functions, &exit.target))?;
    for extra in exit.extras.as_slice() {
        places.push(place_of(functions, &extra.target))?;
    }
    Ok(places)
}

/// The places to which the frames go that an instruction may make by leaving.
fn places_of_instruction(
    alloc: Global,
    functions: &[Function],
    instr: &Instr,
) -> Result<List<Option<usize>>, AllocError>
    ensures { IfOk result (AllZip (KeepsPlace functions.now) (continuations_of instr.now)) }
{
    match instr {
        Instr::Var(_, _) => Ok(List::new(alloc)),
        Instr::Drop(_) => Ok(List::new(alloc)),
        Instr::Assign(_, _) => Ok(List::new(alloc)),
        Instr::ArrayLength(_, _) => Ok(List::new(alloc)),
        Instr::ArrayList(_, _) => Ok(List::new(alloc)),
        Instr::Store(_, _, _) => Ok(List::new(alloc)),
        Instr::Print(_) => Ok(List::new(alloc)),
        Instr::Read(_) => Ok(List::new(alloc)),
        Instr::Branch(_, _, _) => Ok(List::new(alloc)),
        Instr::Goto(_) => Ok(List::new(alloc)),
        Instr::Call(_, _, _) => Ok(List::new(alloc)),
        Instr::Return(_) => Ok(List::new(alloc)),
        Instr::Stop => Ok(List::new(alloc)),
        Instr::Assume(_, exit) => places_of_exit(alloc, functions, exit),
    }
}

/// The same for each line of a version.
fn places_of_lines(
    alloc: Global,
    functions: &[Function],
    lines: &[Line],
) -> Result<List<List<Option<usize>>>, AllocError>
    ensures { IfOk result (AllZip (KeepsOfLine functions.now) lines.now) }
{
    let mut rows = List::new(alloc);
    for line in lines {
        let places = places_of_instruction(alloc, functions, &line.instr)?;
        rows.push(places)?;
    }
    Ok(rows)
}

/// The same for each version of a function.
fn places_of_versions(
    alloc: Global,
    functions: &[Function],
    versions: &[Version],
) -> Result<List<List<List<Option<usize>>>>, AllocError>
    ensures { IfOk result (AllZip (KeepsOfVersion functions.now) versions.now) }
{
    let mut rows = List::new(alloc);
    for version in versions {
        let places = places_of_lines(alloc, functions, version.body.lines())?;
        rows.push(places)?;
    }
    Ok(rows)
}

/// The places to which the exits of these functions lead.
pub(crate) fn exit_places_of(
    alloc: Global,
    functions: &[Function],
) -> Result<ExitPlaces, AllocError>
    ensures { IfOk result (KeepsOfEach functions.now functions.now) }
{
    let mut rows = List::new(alloc);
    for function in functions {
        let places = places_of_versions(alloc, functions, function.versions.as_slice())?;
        rows.push(places)?;
    }
    Ok(rows)
}

/// The place to which the frame with this number goes, of those that the line at a place of a version may
/// make by leaving; none where it isn't kept.
pub(crate) fn exit_place_in(
    exits: &ExitPlaces,
    function: FunId,
    version: u32,
    place: usize,
    number: usize,
) -> Option<usize>
    ensures { (functions : Listed Function) → KeepsOfEach functions functions exits.now → IfSome result (IsExitPlace functions function.0 version place number) }
{
    let versions = exits.get(function.0 as usize)?;
    let rows = versions.get(version as usize)?;
    let row = rows.get(place)?;
    match row.get(number) {
        Some(Some(found)) => Some(*found),
        Some(None) => None,
        None => None,
    }
}
