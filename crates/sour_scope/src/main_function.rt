//! The function that a run enters first.

ghost use Rattle.std.specs.Prelude.{◌≡◌, [], Some, slice_get, codes, IfOk, OnOk, IfErr};
ghost use Rattle.sour_checked.specs.Names.{main_is_broken};
ghost use Rattle.sour_checked.specs.Outline.{function_number};
ghost use Rattle.sour_checked.specs.Texts.{function_names, number_in};
ghost use Rattle.laws_scope.specs.TextOrder.{first_broken};
ghost use Rattle.sour_scope.specs.Outlined.{outlined};
ghost use Rattle.sour_scope.specs.Told.{Tells};

use crate::fault::{NO_MAIN, ScopeFault};
use crate::outline::Outline;
use sour_raw::RawFunction;
use sour_syntax::FunId;
use std::alloc::Global;

/// The number of the function `main`; or the rule that is broken where there is none, or has
/// parameters.
pub(crate) fn main_of(
    alloc: Global,
    raw: &[RawFunction],
    outline: &Outline,
) -> Result<FunId, ScopeFault>
    requires outline { outline.now ≡ outlined raw.now }
    ensures number { IfOk result (λ number. number
        ≡ function_number (function_names raw.now) (codes "main")) }
    ensures none { OnOk result (main_is_broken (slice_get raw.now
        (number_in (function_names raw.now) (codes "main"))) ≡ []) }
    ensures fault { IfErr result (Tells (λ fault. first_broken (main_is_broken (slice_get raw.now
        (number_in (function_names raw.now) (codes "main")))) ≡ Some fault)) }
{
    let Ok(number) = outline.function(b"main") else {
        return Err(ScopeFault::nameless(alloc, NO_MAIN, 1));
    };
    let Some(function) = raw.get(number.0 as usize) else {
        return Err(ScopeFault::nameless(alloc, NO_MAIN, 1));
    };
    if function.parameters.len() > 0 {
        return Err(ScopeFault::nameless(alloc, NO_MAIN, function.line));
    }
    Ok(number)
}
