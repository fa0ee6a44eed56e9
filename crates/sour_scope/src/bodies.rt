//! The bodies of versions, each with its scopes: what the second stage makes of a numbered job.

ghost use Rattle.std.specs.Prelude.{◌≡◌, length, map, get_or, IfOk};
ghost use Rattle.std.specs.List.{AllByRecursion};
ghost use Rattle.sour_checked.specs.Fault.{first_fault_of};
ghost use Rattle.sour_checked.specs.FirstFault.{fault_of};
ghost use Rattle.sour_scope.specs.Bodies.{IsReady, AreReady, body_fault, bodies_fault};
ghost use Rattle.sour_scope.specs.Bodies.{made_version, made_function, line_numbers_in};
ghost use Rattle.sour_scope.specs.Told.{Tells, Finds};

use crate::fault::{IN_SCOPE, NOT_IN_SCOPE, SCOPES_DIFFER, ScopeFault};
use crate::numbered::{NumberedFunction, NumberedVersion};
use sour_syntax::{Body, BodyFault, Function, List, Version};
use std::alloc::Global;

/// Functions with the bodies of their versions, and beside them for each version the line of the
/// text on which each of its instructions stands.
#[derive(Drop)]
pub(crate) struct Bodies {
    pub(crate) functions: List<Function>,
    pub(crate) line_numbers: List<List<List<u64>>>,
}

/// The line of the instruction at a place.
fn line_at(line_numbers: &[u64], place: usize) -> u64
    ensures { result ≡ get_or line_numbers.now place 0 }
{
    line_numbers.get(place).copied().unwrap_or(0)
}

/// The fault of a text that the fault of a body is, whose instructions stand on these lines.
fn told(alloc: Global, fault: BodyFault, line_numbers: &[u64]) -> ScopeFault
    ensures { Tells (λ told. told ≡ fault_of line_numbers.now fault) result }
{
    match fault {
        BodyFault::NotInScope(place) => {
            ScopeFault::nameless(alloc, NOT_IN_SCOPE, line_at(line_numbers, place))
        }
        BodyFault::InScope(place) => {
            ScopeFault::nameless(alloc, IN_SCOPE, line_at(line_numbers, place))
        }
        BodyFault::ScopesDiffer(place, first, second) => ScopeFault::At {
            kind: SCOPES_DIFFER,
            line: line_at(line_numbers, place),
            first,
            second,
        },
    }
}

/// A version with its body, and the lines of its instructions.
fn version_of(alloc: Global, numbered: NumberedVersion) -> Result<(Version, List<u64>), ScopeFault>
    requires { IsReady numbered }
    ensures version { IfOk result (λ made. made.0 ≡ made_version numbered) }
    ensures lines { IfOk result (λ made. made.1 ≡ numbered.line_numbers) }
    ensures found { Finds (body_fault numbered) result }
{
    let NumberedVersion {
        name,
        function,
        parameters,
        variables,
        labels,
        lines,
        line_numbers,
    } = numbered;
    match Body::checked(alloc, function, parameters, variables, labels, lines)? {
        Ok(body) => Ok((Version { name, body }, line_numbers)),
        Err(fault) => Err(told(alloc, fault, line_numbers.as_slice())),
    }
}

/// The same for each of some versions.
fn versions_of(
    alloc: Global,
    numbered: List<NumberedVersion>,
) -> Result<(List<Version>, List<List<u64>>), ScopeFault>
    requires { AllByRecursion IsReady numbered }
    ensures versions { IfOk result (λ made. made.0 ≡ map made_version numbered) }
    ensures lines { IfOk result (λ made. made.1 ≡ map (λ version. version.line_numbers) numbered) }
    ensures found { Finds (first_fault_of body_fault numbered) result }
{
    let mut versions = List::new(alloc);
    let mut line_numbers = List::new(alloc);
    for version in numbered.into_vec() {
        let (version, lines) = version_of(alloc, version)?;
        versions.push(version)?;
        line_numbers.push(lines)?;
    }
    Ok((versions, line_numbers))
}

/// The functions with the bodies of their versions, or the first fault of their scopes.
pub(crate) fn bodies_of(
    alloc: Global,
    numbered: List<NumberedFunction>,
) -> Result<Bodies, ScopeFault>
    requires { AreReady numbered }
    ensures functions { IfOk result (λ bodies. bodies.functions ≡ map made_function numbered) }
    ensures lines { IfOk result (λ bodies. bodies.line_numbers ≡ map line_numbers_in numbered) }
    ensures found { Finds (bodies_fault numbered) result }
{
    let mut functions = List::new(alloc);
    let mut line_numbers = List::new(alloc);
    for function in numbered.into_vec() {
        let NumberedFunction { name, versions } = function;
        let (versions, lines) = versions_of(alloc, versions)?;
        functions.push(Function { name, versions })?;
        line_numbers.push(lines)?;
    }
    Ok(Bodies {
        functions,
        line_numbers,
    })
}
