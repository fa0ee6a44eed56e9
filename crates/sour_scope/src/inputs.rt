//! The inputs of a text, with numbers in place of the names of functions.

ghost use Rattle.std.specs.Prelude.{◌≡◌, [], Some, map, List as Listed, IfOk, OnOk, IfErr, IsErrOf};
ghost use Rattle.std.specs.List.{AllByRecursion};
ghost use Rattle.sour_raw.specs.declared.raw.RawFunction.{RawFunction};
ghost use Rattle.sour_checked.specs.Numbered.{literal_of, inputs_of};
ghost use Rattle.sour_checked.specs.Texts.{function_names as names_of_text};
ghost use Rattle.laws_scope.specs.TextOrder.{first_broken, each_in_order, input_broken};
ghost use Rattle.sour_scope.specs.Known.{IsKnownLiteral};
ghost use Rattle.sour_scope.specs.Outlined.{outlined, function_names};
ghost use Rattle.sour_scope.specs.Told.{Tells};

use crate::expressions::literal_of;
use crate::fault::{ScopeFault, UNKNOWN};
use crate::outline::Outline;
use crate::unnumbered::Unnumbered;
use sour_raw::{RawInput, RawLiteral};
use sour_syntax::{List, Literal};
use std::alloc::Global;

/// The values that are written.
fn values_of(
    alloc: Global,
    raw: &[RawLiteral],
    outline: &Outline,
) -> Result<List<Literal>, Unnumbered>
    ensures ok { IfOk result (λ values. values
        ≡ map (literal_of (function_names outline.now)) raw.now) }
    ensures known { OnOk result
        (AllByRecursion (IsKnownLiteral (function_names outline.now)) raw.now) }
    ensures unknown { IsErrOf result Unnumbered.Unknown
        → AllByRecursion (IsKnownLiteral (function_names outline.now)) raw.now → ⊥ }
{
    let mut values = List::new(alloc);
    for value in raw {
        values.push(literal_of(value, outline)?)?;
    }
    Ok(values)
}

/// The input that is written; or the rule that it breaks.
fn input_of(alloc: Global, raw: &RawInput, outline: &Outline) -> Result<List<Literal>, ScopeFault>
    ghost functions: { Listed RawFunction }
    requires outline { outline.now ≡ outlined functions }
    ensures ok { IfOk result (λ values. values
        ≡ map (literal_of (names_of_text functions)) raw.now.values) }
    ensures none { OnOk result (input_broken functions raw.now ≡ []) }
    ensures fault { IfErr result (Tells (λ fault.
        first_broken (input_broken functions raw.now) ≡ Some fault)) }
{
    match values_of(alloc, raw.values.as_slice(), outline) {
        Ok(values) => Ok(values),
        Err(Unnumbered::Unknown) => Err(ScopeFault::nameless(alloc, UNKNOWN, raw.line)),
        Err(Unnumbered::Memory) => Err(ScopeFault::Memory),
    }
}

/// The inputs that are written; or the first rule that one of them breaks.
pub(crate) fn inputs_of(
    alloc: Global,
    raw: &[RawInput],
    outline: &Outline,
) -> Result<List<List<Literal>>, ScopeFault>
    ghost functions: { Listed RawFunction }
    requires outline { outline.now ≡ outlined functions }
    ensures ok { IfOk result (λ inputs. inputs ≡ inputs_of (names_of_text functions) raw.now) }
    ensures none { OnOk result (each_in_order (λ place. input_broken functions) 0 raw.now ≡ []) }
    ensures fault { IfErr result (Tells (λ fault.
        first_broken (each_in_order (λ place. input_broken functions) 0 raw.now) ≡ Some fault)) }
{
    let mut inputs = List::new(alloc);
    for input in raw {
        inputs.push(input_of(alloc, input, outline)?)?;
    }
    Ok(inputs)
}
