//! Lists of expressions, with numbers in place of names.

ghost use Rattle.std.specs.Prelude.{◌≡◌, map, IfOk, OnOk, IsErrOf};
ghost use Rattle.sour_checked.specs.Numbered.{expr_of};
ghost use Rattle.sour_scope.specs.Known.{AreKnownExprs};
ghost use Rattle.sour_scope.specs.Outlined.{function_names};

use crate::expressions::expr_of;
use crate::names::DistinctNames;
use crate::outline::Outline;
use crate::unnumbered::Unnumbered;
use sour_raw::RawExpr;
use sour_syntax::{Expr, List};
use std::alloc::Global;

/// The expressions that are written, where the variables have these names.
pub(crate) fn each_of(
    alloc: Global,
    raw: &[RawExpr],
    outline: &Outline,
    names: &DistinctNames,
) -> Result<List<Expr>, Unnumbered>
    ensures ok { IfOk result (λ each.
        each ≡ map (expr_of (function_names outline.now) names.now) raw.now) }
    ensures known { OnOk result (AreKnownExprs (function_names outline.now) names.now raw.now) }
    ensures unknown { IsErrOf result Unnumbered.Unknown
        → AreKnownExprs (function_names outline.now) names.now raw.now → ⊥ }
{
    let mut each = List::new(alloc);
    for e in raw {
        each.push(expr_of(e, outline, names)?)?;
    }
    Ok(each)
}
