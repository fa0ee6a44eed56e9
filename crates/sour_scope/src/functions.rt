//! The functions of a text and their versions, gone through in order.

ghost use Rattle.std.specs.Prelude.{◌≡◌, ◌≤◌, [], Some, length, slice_get, map, List as Listed};
ghost use Rattle.std.specs.Prelude.{IfOk, OnOk, IfErr};
ghost use Rattle.std.specs.List.{AllByRecursion};
ghost use Rattle.sour_raw.specs.declared.raw.RawFunction.{RawFunction as Written};
ghost use Rattle.sour_raw.specs.Limits.{IsShortFunction};
ghost use Rattle.laws_scope.specs.TextOrder.{first_broken, each_in_order, version_in_order};
ghost use Rattle.laws_scope.specs.TextOrder.{function_in_order};
ghost use Rattle.sour_scope.specs.InText.{FunctionIn, VersionIn, version_lines, function_lines};
ghost use Rattle.sour_scope.specs.Outlined.{outlined, outlined_function};
ghost use Rattle.sour_scope.specs.Told.{Tells};

use crate::fault::{FALLS_OFF, ScopeFault, TWICE};
use crate::function_outline::FunctionOutline;
use crate::lines::lines_of;
use crate::outline::Outline;
use crate::repeats::are_distinct;
use crate::version_lines::{FunctionLines, VersionLines};
use sour_raw::{RawFunction, RawVersion};
use sour_syntax::List;
use std::alloc::Global;

/// The lines of the version at a place of its function; or the first rule that it breaks.
fn version_of(
    alloc: Global,
    raw: RawVersion,
    place: usize,
    outline: &Outline,
    own: &FunctionOutline,
) -> Result<VersionLines, ScopeFault>
    ghost within: { VersionIn }
    requires outline { outline.now ≡ outlined within.functions }
    requires own { own.now ≡ outlined_function within.function }
    requires version { raw ≡ within.version }
    requires there { slice_get within.function.versions place ≡ Some within.version }
    requires few { length raw.lines ≤ 4096 }
    ensures ok { IfOk result (λ made.
        made ≡ version_lines within.functions within.function.parameters within.version) }
    ensures none { OnOk result (version_in_order within.functions within.number within.function
        place within.version ≡ []) }
    ensures fault { IfErr result (Tells (λ fault.
        first_broken (version_in_order within.functions within.number within.function place
        within.version) ≡ Some fault)) }
{
    if own.stands_before(&raw.name, place) {
        return Err(ScopeFault::nameless(alloc, TWICE, raw.line));
    }
    if raw.lines.len() == 0 {
        return Err(ScopeFault::nameless(alloc, FALLS_OFF, raw.line));
    }
    let version = own.get(place).unwrap();
    lines_of(alloc, raw.lines, outline, version)
}

/// The lines of the versions of a function; or the first rule that one of them breaks.
fn versions_of(
    alloc: Global,
    raw: List<RawVersion>,
    outline: &Outline,
    own: &FunctionOutline,
) -> Result<List<VersionLines>, ScopeFault>
    ghost within: { FunctionIn }
    requires outline { outline.now ≡ outlined within.functions }
    requires own { own.now ≡ outlined_function within.function }
    requires versions { raw ≡ within.function.versions }
    requires short { IsShortFunction within.function }
    ensures ok { IfOk result (λ made. made
        ≡ map (version_lines within.functions within.function.parameters) within.function.versions) }
    ensures none { OnOk result (each_in_order (version_in_order within.functions within.number
        within.function) 0 within.function.versions ≡ []) }
    ensures fault { IfErr result (Tells (λ fault.
        first_broken (each_in_order (version_in_order within.functions within.number
        within.function) 0 within.function.versions) ≡ Some fault)) }
{
    let mut versions = List::new(alloc);
    for version in raw.into_vec() {
        let place = versions.len();
        versions.push(version_of(alloc, version, place, outline, own)?)?;
    }
    Ok(versions)
}

/// The lines of the function that has this number; or the first rule that it breaks.
fn function_of(
    alloc: Global,
    raw: RawFunction,
    number: usize,
    outline: &Outline,
) -> Result<FunctionLines, ScopeFault>
    ghost within: { FunctionIn }
    requires outline { outline.now ≡ outlined within.functions }
    requires function { raw ≡ within.function }
    requires number { number ≡ within.number }
    requires there { slice_get within.functions within.number ≡ Some within.function }
    requires short { IsShortFunction within.function }
    ensures ok { IfOk result (λ made. made ≡ function_lines within.functions within.function) }
    ensures none { OnOk result (function_in_order within.functions within.number within.function
        ≡ []) }
    ensures fault { IfErr result (Tells (λ fault.
        first_broken (function_in_order within.functions within.number within.function)
        ≡ Some fault)) }
{
    if outline.stands_before(&raw.name, number)
        || !are_distinct(alloc, raw.parameters.as_slice())?
    {
        return Err(ScopeFault::nameless(alloc, TWICE, raw.line));
    }
    let parameters = raw.parameters.len() as u32;
    let own = outline.get(number).unwrap();
    let versions = versions_of(alloc, raw.versions, outline, own)?;
    Ok(FunctionLines {
        parameters,
        versions,
    })
}

/// The lines of the functions of a text; or the first rule that one of them breaks.
pub(crate) fn functions_of(
    alloc: Global,
    raw: List<RawFunction>,
    outline: &Outline,
) -> Result<List<FunctionLines>, ScopeFault>
    ghost functions: { Listed Written }
    requires raw { raw ≡ functions }
    requires outline { outline.now ≡ outlined functions }
    requires short { AllByRecursion IsShortFunction functions }
    ensures ok { IfOk result (λ made. made ≡ map (function_lines functions) functions) }
    ensures none { OnOk result (each_in_order (function_in_order functions) 0 functions ≡ []) }
    ensures fault { IfErr result (Tells (λ fault.
        first_broken (each_in_order (function_in_order functions) 0 functions) ≡ Some fault)) }
{
    let mut functions = List::new(alloc);
    for function in raw.into_vec() {
        let number = functions.len();
        functions.push(function_of(alloc, function, number, outline)?)?;
    }
    Ok(functions)
}
