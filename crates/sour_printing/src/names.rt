//! Names by their numbers. Where nothing has the number the name is the empty one, which is none.

ghost use Rattle.std.specs.Prelude.{◌≡◌, map, slice_get};
ghost use Rattle.std.specs.Arc.{arc_value};
ghost use Rattle.std.specs.Option.{option_copied};
ghost use Rattle.sour_syntax.specs.Targets.{named_body};
ghost use Rattle.laws_printing.specs.Named.{variable_name, function_name, name_in_function, code_variables};

use sour_bundle::body_numbered;
use sour_syntax::{Body, Code, FunId, Function, Names, VarId, body_named};
use std::sync::Arc;

/// The name of a variable of a body whose variables have these names.
pub(crate) fn variable_name(names: &Names, x: VarId) -> &[u8]
    ensures { result.now ≡ variable_name names.now x }
{
    names.get(x.0 as usize).unwrap_or(b"")
}

/// The name of a function.
pub(crate) fn function_name(functions: &[Function], function: FunId) -> &[u8]
    ensures { result.now ≡ function_name functions.now function }
{
    match functions.get(function.0 as usize) {
        Some(function) => function.name.as_bytes(),
        None => b"",
    }
}

/// The name of a version of a function.
pub(crate) fn version_name(functions: &[Function], function: FunId, version: u32) -> &[u8]
    ensures { result.now ≡ name_in_function (slice_get functions.now function.0) version }
{
    let Some(function) = functions.get(function.0 as usize) else {
        return b"";
    };
    match function.versions.get(version as usize) {
        Some(version) => version.name.as_bytes(),
        None => b"",
    }
}

/// What a code names among the versions of these functions and these bodies of a bundle.
fn code_body<'a>(functions: &'a [Function], bodies: &'a [Arc<Body>], code: Code) -> Option<&'a Body>
    ensures { option_copied result ≡ named_body functions.now (map arc_value bodies.now) code }
{
    match code {
        Code::Text(_, _) => body_named(functions, code),
        Code::Made(number) => body_numbered(bodies, number),
    }
}

/// The name of a variable of what a code names.
pub(crate) fn code_variable<'a>(
    functions: &'a [Function],
    bodies: &'a [Arc<Body>],
    code: Code,
    x: VarId,
) -> &'a [u8]
    ensures { result.now
        ≡ variable_name (code_variables functions.now (map arc_value bodies.now) code) x }
{
    match code_body(functions, bodies, code) {
        Some(body) => variable_name(body.variables(), x),
        None => b"",
    }
}
