//! Versions and functions, on whichever line of the text they begin.

ghost use Rattle.std.specs.Prelude.{◌≡◌, ◌≤◌, ℕ, [], ◌∷◌, ◌++◌, length, take, OnOk};
ghost use Rattle.laws_printing.specs.Named.{parameter_names, raw_version, raw_versions, raw_function, raw_functions};
ghost use Rattle.laws_printing.specs.Pieces.{listed_pieces, parameter_pieces, version_lines, versions_lines, function_lines, functions_lines};
ghost use Rattle.laws_printing.specs.Text.{bytes_of, text_of};

use crate::lines::put_lines;
use crate::names::variable_name;
use sour_syntax::{Function, Names, VarId, Version};
use std::alloc::AllocError;

/// Puts a version.
fn put_version(
    text: &mut Vec<u8>,
    functions: &[Function],
    version: &Version,
) -> Result<(), AllocError>
    ensures { (number : ℕ) → OnOk result (text.new.items ≡ text.old.items
        ++ text_of (version_lines (raw_version functions.now number version.now))) }
{
    text.extend_from_slice(b"ver ")?;
    text.extend_from_slice(version.name.as_bytes())?;
    text.extend_from_slice(b"\n")?;
    put_lines(
        text,
        functions,
        version.body.variables(),
        version.body.lines(),
    )
}

/// Puts versions.
fn put_versions(
    text: &mut Vec<u8>,
    functions: &[Function],
    versions: &[Version],
) -> Result<(), AllocError>
    ensures { (number : ℕ) → OnOk result (text.new.items ≡ text.old.items
        ++ text_of (versions_lines (raw_versions functions.now number versions.now))) }
{
    for version in versions {
        put_version(text, functions, version)?;
    }
    Ok(())
}

/// Puts the first of these names, with a comma between two of them.
fn put_names(text: &mut Vec<u8>, names: &Names, count: u32) -> Result<(), AllocError>
    requires { count ≤ length names.now }
    ensures { OnOk result (text.new.items ≡ text.old.items
        ++ bytes_of (listed_pieces parameter_pieces (take count names.now))) }
{
    if count == 0 {
        return Ok(());
    }
    text.extend_from_slice(variable_name(names, VarId(0)))?;
    for x in 1..count {
        text.extend_from_slice(b", ")?;
        text.extend_from_slice(variable_name(names, VarId(x)))?;
    }
    Ok(())
}

/// Puts the parameters of these versions.
fn put_parameters(text: &mut Vec<u8>, versions: &[Version]) -> Result<(), AllocError>
    ensures { OnOk result (text.new.items ≡ text.old.items
        ++ bytes_of (listed_pieces parameter_pieces (parameter_names versions.now))) }
{
    match versions.first() {
        Some(version) => put_names(text, version.body.variables(), version.body.parameters()),
        None => Ok(()),
    }
}

/// Puts a function.
fn put_function(
    text: &mut Vec<u8>,
    functions: &[Function],
    function: &Function,
) -> Result<(), AllocError>
    ensures { (number : ℕ) → OnOk result (text.new.items ≡ text.old.items
        ++ text_of (function_lines (raw_function functions.now number function.now))) }
{
    text.extend_from_slice(b"fun ")?;
    text.extend_from_slice(function.name.as_bytes())?;
    text.extend_from_slice(b"(")?;
    put_parameters(text, function.versions.as_slice())?;
    text.extend_from_slice(b")\n")?;
    put_versions(text, functions, function.versions.as_slice())?;
    text.extend_from_slice(b"end\n")
}

/// Puts all of the functions.
pub(crate) fn put_functions(text: &mut Vec<u8>, functions: &[Function]) -> Result<(), AllocError>
    ensures { (number : ℕ) → OnOk result (text.new.items ≡ text.old.items
        ++ text_of (functions_lines (raw_functions functions.now number functions.now))) }
{
    for function in functions {
        put_function(text, functions, function)?;
    }
    Ok(())
}
