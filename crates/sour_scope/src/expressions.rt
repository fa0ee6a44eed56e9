//! Literals and expressions, with numbers in place of names.

ghost use Rattle.std.specs.Prelude.{◌≡◌, IfOk, OnOk, OnErr};
ghost use Rattle.sour_checked.specs.Numbered.{literal_of, simple_of, expr_of};
ghost use Rattle.sour_scope.specs.Known.{IsKnownLiteral, IsKnownSimple, IsKnownExpr};
ghost use Rattle.sour_scope.specs.Outlined.{function_names};

use crate::names::DistinctNames;
use crate::outline::Outline;
use crate::unnumbered::Unnumbered;
use sour_raw::{RawExpr, RawLiteral, RawSimple};
use sour_syntax::{Expr, Literal, Simple};

/// The value that is written.
pub(crate) fn literal_of(raw: &RawLiteral, outline: &Outline) -> Result<Literal, Unnumbered>
    ensures ok { IfOk result (λ literal.
        literal ≡ literal_of (function_names outline.now) raw.now) }
    ensures known { OnOk result (IsKnownLiteral (function_names outline.now) raw.now) }
    ensures unknown { OnErr result (IsKnownLiteral (function_names outline.now) raw.now → ⊥) }
{
    match raw {
        RawLiteral::Number(number) => Ok(Literal::Number(*number)),
        RawLiteral::Truth(truth) => Ok(Literal::Truth(*truth)),
        RawLiteral::Nil => Ok(Literal::Nil),
        RawLiteral::Function(name) => Ok(Literal::Function(outline.function(name.as_bytes())?)),
    }
}

/// The operand that is written, where the variables have these names.
pub(crate) fn simple_of(
    raw: &RawSimple,
    outline: &Outline,
    names: &DistinctNames,
) -> Result<Simple, Unnumbered>
    ensures ok { IfOk result (λ operand.
        operand ≡ simple_of (function_names outline.now) names.now raw.now) }
    ensures known { OnOk result (IsKnownSimple (function_names outline.now) names.now raw.now) }
    ensures unknown { OnErr result (IsKnownSimple (function_names outline.now) names.now raw.now
        → ⊥) }
{
    match raw {
        RawSimple::Lit(literal) => Ok(Simple::Lit(literal_of(literal, outline)?)),
        RawSimple::Name(name) => Ok(Simple::Var(names.number(name)?)),
    }
}

/// The expression that is written, in the same way.
pub(crate) fn expr_of(
    raw: &RawExpr,
    outline: &Outline,
    names: &DistinctNames,
) -> Result<Expr, Unnumbered>
    ensures ok { IfOk result (λ e. e ≡ expr_of (function_names outline.now) names.now raw.now) }
    ensures known { OnOk result (IsKnownExpr (function_names outline.now) names.now raw.now) }
    ensures unknown { OnErr result (IsKnownExpr (function_names outline.now) names.now raw.now
        → ⊥) }
{
    match raw {
        RawExpr::Plain(operand) => Ok(Expr::Plain(simple_of(operand, outline, names)?)),
        RawExpr::Cell(name, index) => {
            let array = names.number(name)?;
            Ok(Expr::Cell(array, simple_of(index, outline, names)?))
        }
        RawExpr::Length(operand) => Ok(Expr::Length(simple_of(operand, outline, names)?)),
        RawExpr::Not(operand) => Ok(Expr::Not(simple_of(operand, outline, names)?)),
        RawExpr::Binary(op, left, right) => {
            let left = simple_of(left, outline, names)?;
            Ok(Expr::Binary(*op, left, simple_of(right, outline, names)?))
        }
    }
}
