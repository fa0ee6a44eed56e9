//! The first stage: names become numbers, or the first rule of names that the text breaks is told.

ghost use Rattle.std.specs.Prelude.{◌≡◌, ◌⊎◌, [], Some, map, IfOk, OnOk, IfErr};
ghost use Rattle.sour_raw.specs.declared.raw.RawJob.{RawJob as Written};
ghost use Rattle.sour_raw.specs.Limits.{IsShort};
ghost use Rattle.sour_raw.specs.Order.{IsInOrder};
ghost use Rattle.sour_raw.specs.Written.{IsWritten};
ghost use Rattle.sour_checked.specs.FirstFault.{HasRightNames, IsNamesFault, IsMainFault};
ghost use Rattle.sour_checked.specs.Numbered.{plan_of, inputs_of};
ghost use Rattle.sour_checked.specs.Texts.{function_names};
ghost use Rattle.laws_scope.specs.TextOrder.{first_broken, names_in_order};
ghost use Rattle.sour_scope.specs.InText.{function_lines};
ghost use Rattle.sour_scope.specs.NumberedJob.{IsNumbered};
ghost use Rattle.sour_scope.specs.Outlined.{outlined};
ghost use Rattle.sour_scope.specs.Told.{Tells};

use crate::fault::ScopeFault;
use crate::functions::functions_of;
use crate::inputs::inputs_of;
use crate::joining::joined_functions;
use crate::main_function::main_of;
use crate::numbered::NumberedJob;
use crate::outline::Outline;
use crate::outlining::outline_of;
use crate::plan::plan_of;
use crate::version_lines::TextLines;
use sour_raw::{RawFunction, RawInput, RawJob, RawPlanJob};
use sour_syntax::List;
use std::alloc::Global;

/// The parts of a text gone through in order; or the first rule that its names break, but for that
/// of `main`.
fn lines_of_text(
    alloc: Global,
    functions: List<RawFunction>,
    plan: List<RawPlanJob>,
    inputs: List<RawInput>,
    outline: &Outline,
) -> Result<TextLines, ScopeFault>
    ghost raw: { Written }
    requires functions { functions ≡ raw.functions }
    requires plan { plan ≡ raw.plan }
    requires inputs { inputs ≡ raw.inputs }
    requires outline { outline.now ≡ outlined raw.functions }
    requires short { IsShort raw }
    ensures functions { IfOk result (λ made. made.functions
        ≡ map (function_lines raw.functions) raw.functions) }
    ensures plan { IfOk result (λ made. made.plan
        ≡ plan_of (function_names raw.functions) raw.plan) }
    ensures inputs { IfOk result (λ made. made.inputs
        ≡ inputs_of (function_names raw.functions) raw.inputs) }
    ensures none { OnOk result (names_in_order raw ≡ []) }
    ensures fault { IfErr result (Tells (λ fault. first_broken (names_in_order raw) ≡ Some fault)) }
{
    let functions = functions_of(alloc, functions, outline)?;
    let plan = plan_of(alloc, plan, outline)?;
    let inputs = inputs_of(alloc, inputs.as_slice(), outline)?;
    Ok(TextLines {
        functions,
        plan,
        inputs,
    })
}

/// The text with numbers in place of names; or the first rule that its names break. That of `main`
/// comes where no other is broken.
pub(crate) fn numbered(alloc: Global, raw: RawJob) -> Result<NumberedJob, ScopeFault>
    requires written { IsWritten raw }
    requires short { IsShort raw }
    requires ordered { IsInOrder raw }
    ensures numbered { IfOk result (IsNumbered raw) }
    ensures right { IfOk result (λ job. HasRightNames raw) }
    ensures fault { IfErr result (Tells (λ fault. IsNamesFault raw fault ⊎ IsMainFault raw fault)) }
{
    let RawJob {
        functions,
        plan,
        inputs,
    } = raw;
    let outline = outline_of(alloc, functions.as_slice())?;
    let main = main_of(alloc, functions.as_slice(), &outline);
    let TextLines {
        functions,
        plan,
        inputs,
    } = lines_of_text(alloc, functions, plan, inputs, &outline)?;
    let main = main?;
    let functions = joined_functions(alloc, outline.into_functions(), functions)?;
    Ok(NumberedJob {
        functions,
        main,
        plan,
        inputs,
    })
}
