//! The outline of a text, made of its functions.

ghost use Rattle.std.specs.Prelude.{◌≡◌, ◌≤◌, [], length, IfOk};
ghost use Rattle.std.specs.List.{AllByRecursion};
ghost use Rattle.sour_raw.specs.Limits.{IsShortFunction};
ghost use Rattle.sour_raw.specs.Mentions.{with_names};
ghost use Rattle.sour_checked.specs.Numbered.{label_of};
ghost use Rattle.sour_checked.specs.Texts.{labels_from};
ghost use Rattle.sour_scope.specs.Outlined.{outlined, outlined_function, outlined_version};

use crate::function_outline::FunctionOutline;
use crate::numbers::Numbers;
use crate::outline::Outline;
use crate::variables::variables_of;
use crate::version_outline::VersionOutline;
use sour_raw::{RawFunction, RawLine, RawVersion};
use sour_syntax::{Label, Labels, List};
use std::alloc::{AllocError, Global};

/// The bytes of a label.
fn bytes_of(alloc: Global, label: &Label) -> Result<Vec<u8>, AllocError>
    ensures { IfOk result (λ bytes. bytes.items ≡ label.now) }
{
    Vec::from_slice(alloc, label.as_bytes())
}

/// The bytes of the label of the line at a place.
fn label_bytes(alloc: Global, place: u32, label: &Option<Label>) -> Result<Vec<u8>, AllocError>
    ensures { IfOk result (λ bytes. bytes.items ≡ label_of place label.now) }
{
    match label {
        Some(label) => bytes_of(alloc, label),
        None => {
            let label = Label::automatic(alloc, place)?;
            bytes_of(alloc, &label)
        }
    }
}

/// The labels of lines, each once.
fn labels_of(alloc: Global, lines: &[RawLine]) -> Result<Labels, AllocError>
    requires few { length lines.now ≤ 4096 }
    ensures { IfOk result (λ labels. labels ≡ with_names [] (labels_from 0 lines.now)) }
{
    let mut labels = Labels::new(alloc);
    for (place, line) in lines.iter().enumerate() {
        labels.add(label_bytes(alloc, place as u32, &line.label)?)?;
    }
    Ok(labels)
}

/// The outline of a version of a function with these parameters.
fn version_outline(
    alloc: Global,
    parameters: &[Label],
    raw: &RawVersion,
) -> Result<VersionOutline, AllocError>
    requires few { length raw.now.lines ≤ 4096 }
    ensures { IfOk result (λ version. version ≡ outlined_version parameters.now raw.now) }
{
    let name = Label::from_bytes(bytes_of(alloc, &raw.name)?);
    let variables = variables_of(alloc, parameters, raw.lines.as_slice())?;
    let labels = labels_of(alloc, raw.lines.as_slice())?;
    Ok(VersionOutline {
        name,
        variables,
        labels,
    })
}

/// The outline of a function.
fn function_outline(alloc: Global, raw: &RawFunction) -> Result<FunctionOutline, AllocError>
    requires short { IsShortFunction raw.now }
    ensures { IfOk result (λ function. function ≡ outlined_function raw.now) }
{
    let mut numbers = Numbers::new(alloc);
    let mut versions = List::new(alloc);
    for (number, version) in raw.versions.as_slice().iter().enumerate() {
        numbers.put(bytes_of(alloc, &version.name)?, number as u32)?;
        versions.push(version_outline(alloc, raw.parameters.as_slice(), version)?)?;
    }
    let name = Label::from_bytes(bytes_of(alloc, &raw.name)?);
    Ok(FunctionOutline::of_versions(name, numbers, versions))
}

/// The outline of a text of these functions.
pub(crate) fn outline_of(alloc: Global, raw: &[RawFunction]) -> Result<Outline, AllocError>
    requires count { length raw.now ≤ 256 }
    requires short { AllByRecursion IsShortFunction raw.now }
    ensures { IfOk result (λ outline. outline ≡ outlined raw.now) }
{
    let mut numbers = Numbers::new(alloc);
    let mut functions = List::new(alloc);
    for (number, function) in raw.iter().enumerate() {
        numbers.put(bytes_of(alloc, &function.name)?, number as u32)?;
        functions.push(function_outline(alloc, function)?)?;
    }
    Ok(Outline::of_functions(numbers, functions))
}
