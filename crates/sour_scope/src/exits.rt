//! Whether the continuations of exits fit their targets.

ghost use Rattle.std.specs.Prelude.{slice_get};
ghost use Rattle.std.specs.List.{zip};
ghost use Rattle.sour_syntax.specs.Exits.{extra_continuation, continuations, continuations_of};
ghost use Rattle.sour_syntax.specs.Taking.{place_scope};
ghost use Rattle.sour_checked.specs.Fault.{first_fault_of};
ghost use Rattle.sour_scope.specs.Landings.{places_of, continuation_fault, instr_fault};
ghost use Rattle.sour_scope.specs.Landings.{version_fault, functions_fault};
ghost use Rattle.sour_scope.specs.Told.{Finds};

use crate::fault::ScopeFault;
use crate::landings::{continuation_fits, scope_at_place};
use sour_syntax::{Body, Exit, Extra, Function, Instr, List, Version};
use std::alloc::Global;

/// Whether the further continuations of an exit on a line fit.
fn extras_fit(
    alloc: Global,
    functions: &[Function],
    line: u64,
    extras: &[Extra],
) -> Result<(), ScopeFault>
    ensures { Finds (first_fault_of
        (λ extra. continuation_fault functions.now line (extra_continuation extra))
        extras.now) result }
{
    for extra in extras {
        let waits = Some(extra.result.0);
        continuation_fits(
            alloc,
            functions,
            line,
            &extra.target,
            extra.map.as_slice(),
            waits,
        )?;
    }
    Ok(())
}

/// Whether each continuation of an exit on a line fits.
fn exit_fits(
    alloc: Global,
    functions: &[Function],
    line: u64,
    exit: &Exit,
) -> Result<(), ScopeFault>
    ensures { Finds (first_fault_of
        (continuation_fault functions.now line) (continuations exit.now)) result }
{
    continuation_fits(
        alloc,
        functions,
        line,
        &exit.target,
        exit.map.as_slice(),
        None,
    )?;
    extras_fit(alloc, functions, line, exit.extras.as_slice())
}

/// Whether each continuation of an instruction on a line fits.
fn instruction_fits(
    alloc: Global,
    functions: &[Function],
    line: u64,
    instr: &Instr,
) -> Result<(), ScopeFault>
    ensures { Finds (first_fault_of
        (continuation_fault functions.now line) (continuations_of instr.now)) result }
{
    match instr {
        Instr::Var(_, _) => Ok(()),
        Instr::Drop(_) => Ok(()),
        Instr::Assign(_, _) => Ok(()),
        Instr::ArrayLength(_, _) => Ok(()),
        Instr::ArrayList(_, _) => Ok(()),
        Instr::Store(_, _, _) => Ok(()),
        Instr::Print(_) => Ok(()),
        Instr::Read(_) => Ok(()),
        Instr::Branch(_, _, _) => Ok(()),
        Instr::Goto(_) => Ok(()),
        Instr::Call(_, _, _) => Ok(()),
        Instr::Return(_) => Ok(()),
        Instr::Stop => Ok(()),
        Instr::Assume(_, exit) => exit_fits(alloc, functions, line, exit),
    }
}

/// Whether each continuation of the instruction at a place of a body fits, which stands on this
/// line. Where no path leads there none is looked at.
fn place_fits(
    alloc: Global,
    functions: &[Function],
    line: u64,
    body: &Body,
    place: usize,
    instr: &Instr,
) -> Result<(), ScopeFault>
    ensures { Finds (instr_fault functions.now line instr.now
        (place_scope (slice_get (places_of body.now) place))) result }
{
    match scope_at_place(body, place) {
        Some(_) => instruction_fits(alloc, functions, line, instr),
        None => Ok(()),
    }
}

/// Whether the exits of a version fit whose instructions stand on these lines.
fn version_fits(
    alloc: Global,
    functions: &[Function],
    version: &Version,
    line_numbers: &[u64],
) -> Result<(), ScopeFault>
    ensures { Finds (version_fault functions.now (version.now, line_numbers.now)) result }
{
    let lines = version.body.lines();
    for (place, (line, number)) in lines.iter().zip(line_numbers).enumerate() {
        place_fits(alloc, functions, *number, &version.body, place, &line.instr)?;
    }
    Ok(())
}

/// Whether the exits of some versions fit.
fn versions_fit(
    alloc: Global,
    functions: &[Function],
    versions: &[Version],
    line_numbers: &[List<u64>],
) -> Result<(), ScopeFault>
    ensures { Finds (first_fault_of
        (version_fault functions.now) (zip versions.now line_numbers.now)) result }
{
    for (version, numbers) in versions.iter().zip(line_numbers) {
        version_fits(alloc, functions, version, numbers.as_slice())?;
    }
    Ok(())
}

/// Whether the exits of each version of these functions fit, where each instruction stands on its
/// line of the text.
pub(crate) fn exits_fit(
    alloc: Global,
    functions: &[Function],
    line_numbers: &[List<List<u64>>],
) -> Result<(), ScopeFault>
    ensures { Finds (functions_fault functions.now line_numbers.now) result }
{
    for (function, numbers) in functions.iter().zip(line_numbers) {
        versions_fit(
            alloc,
            functions,
            function.versions.as_slice(),
            numbers.as_slice(),
        )?;
    }
    Ok(())
}
