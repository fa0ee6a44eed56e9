ghost use Rattle.std.specs.Prelude.{◌≡◌, ◌&&◌, ◌||◌, Bool, Ok, Result};
ghost use Rattle.sour_syntax.specs.declared.literal.Value.{Value};
ghost use Rattle.sour_syntax.specs.declared.trap.Trap.{Trap};
ghost use Rattle.sour_semantics.specs.Evaluation.{truth, truth_in, on_truths, negated};
ghost use Rattle.sour_machine.specs.Operands.{with_truths};

use sour_syntax::{Literal, Trap, Value};

/// A truth value.
#[inline(always)]
pub(crate) fn truth(b: bool) -> Value
    ensures { truth b ≡ Ok result }
{
    Value::Plain(Literal::Truth(b))
}

/// The truth values that two values are, or the trap where one is none.
#[inline(always)]
fn truths(a: Value, b: Value) -> Result<(bool, bool), Trap>
    ensures { (f : Bool → Bool → Bool) → on_truths f (truth_in a) (truth_in b) ≡ with_truths f result }
{
    match (a, b) {
        (Value::Plain(Literal::Truth(a)), Value::Plain(Literal::Truth(b))) => Ok((a, b)),
        _ => Err(Trap::BadType),
    }
}

/// Whether both are true.
#[inline(always)]
pub(crate) fn both(a: Value, b: Value) -> Result<Value, Trap>
    ensures { on_truths (λ x y. x && y) (truth_in a) (truth_in b) ≡ result }
{
    let (a, b) = truths(a, b)?;
    Ok(truth(a && b))
}

/// Whether one of them is true, or both.
#[inline(always)]
pub(crate) fn either(a: Value, b: Value) -> Result<Value, Trap>
    ensures { on_truths (λ x y. x || y) (truth_in a) (truth_in b) ≡ result }
{
    let (a, b) = truths(a, b)?;
    Ok(truth(a || b))
}

/// The other truth value.
#[inline(always)]
pub(crate) fn negated(a: Value) -> Result<Value, Trap>
    ensures { negated (truth_in a) ≡ result }
{
    match a {
        Value::Plain(Literal::Truth(b)) => Ok(truth(!b)),
        _ => Err(Trap::BadType),
    }
}
