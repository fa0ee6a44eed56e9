//! The outline of a text and the lines of its functions, put together.

ghost use Rattle.std.specs.Prelude.{◌≡◌, ◌≤◌, length, IfOk};
ghost use Rattle.sour_scope.specs.Joined.{joined_version, joined_versions};
ghost use Rattle.sour_scope.specs.Joined.{joined_function, joined_functions};

use crate::function_outline::FunctionOutline;
use crate::numbered::{NumberedFunction, NumberedVersion};
use crate::version_lines::{FunctionLines, VersionLines};
use crate::version_outline::VersionOutline;
use sour_syntax::{FunId, List};
use std::alloc::{AllocError, Global};

/// A version of the function that has this number and so many parameters.
fn joined_version(
    function: FunId,
    parameters: u32,
    outline: VersionOutline,
    made: VersionLines,
) -> NumberedVersion
    ensures { result ≡ joined_version function.0 parameters (outline, made) }
{
    NumberedVersion {
        name: outline.name,
        function,
        parameters,
        variables: outline.variables.into_names(),
        labels: outline.labels,
        lines: made.lines,
        line_numbers: made.line_numbers,
    }
}

/// The versions of the function, each of its outline and its lines.
fn joined_versions(
    alloc: Global,
    function: FunId,
    parameters: u32,
    outlines: List<VersionOutline>,
    made: List<VersionLines>,
) -> Result<List<NumberedVersion>, AllocError>
    ensures { IfOk result (λ versions. versions
        ≡ joined_versions function.0 parameters outlines made) }
{
    let mut versions = List::new(alloc);
    for (outline, lines) in outlines.into_vec().into_iter().zip(made.into_vec()) {
        versions.push(joined_version(function, parameters, outline, lines))?;
    }
    Ok(versions)
}

/// The function that has this number.
fn joined_function(
    alloc: Global,
    number: FunId,
    outline: FunctionOutline,
    made: FunctionLines,
) -> Result<NumberedFunction, AllocError>
    ensures { IfOk result (λ function. function ≡ joined_function (number.0, (outline, made))) }
{
    let (name, outlines) = outline.into_parts();
    let versions = joined_versions(alloc, number, made.parameters, outlines, made.versions)?;
    Ok(NumberedFunction { name, versions })
}

/// The functions, each of its outline and its lines.
pub(crate) fn joined_functions(
    alloc: Global,
    outlines: List<FunctionOutline>,
    made: List<FunctionLines>,
) -> Result<List<NumberedFunction>, AllocError>
    requires { length outlines ≤ 256 }
    ensures { IfOk result (λ functions. functions ≡ joined_functions 0 outlines made) }
{
    let mut functions = List::new(alloc);
    let pairs = outlines.into_vec().into_iter().zip(made.into_vec());
    for (number, (outline, lines)) in pairs.enumerate() {
        let number = FunId(number as u32);
        functions.push(joined_function(alloc, number, outline, lines)?)?;
    }
    Ok(functions)
}
