ghost use Rattle.std.specs.Prelude.{◌≡◌, ℤ, ◌-ℤ◌, ◌*ℤ◌, int_div, FitsSigned, SomeIff};
ghost use Rattle.std.specs.Int.{w64};
ghost use Rattle.sour_syntax.specs.declared.literal.Literal.TheVariants.{Number};
ghost use Rattle.sour_syntax.specs.declared.literal.Value.TheVariants.{Plain};
ghost use Rattle.sour_semantics.specs.Evaluation.{applied, number, divided};

use crate::truths::truth;
use sour_syntax::{Literal, Op, Trap, Value};

/// What an operator gives on two numbers.
#[inline(always)]
pub(crate) fn on_numbers(op: Op, a: i64, b: i64) -> Result<Value, Trap>
    ensures { applied op (Plain (Number a)) (Plain (Number b)) ≡ result }
{
    match op {
        Op::Add => number_of(a.checked_add(b)),
        Op::Sub => number_of(a.checked_sub(b)),
        Op::Mul => number_of(a.checked_mul(b)),
        Op::Div => divide(a, b),
        Op::Rem => left_over(a, b),
        Op::Eq => Ok(truth(a == b)),
        Op::Ne => Ok(truth(a != b)),
        Op::Lt => Ok(truth(a < b)),
        Op::Le => Ok(truth(a <= b)),
        Op::Gt => Ok(truth(a > b)),
        Op::Ge => Ok(truth(a >= b)),
        Op::And | Op::Or => Err(Trap::BadType),
    }
}

/// The value of a number, or the trap where it lies outside i64.
#[inline(always)]
fn number_of(whole: Option<i64>) -> Result<Value, Trap>
    ensures { (z : ℤ) → SomeIff whole (FitsSigned w64 z) z → number z ≡ result }
{
    match whole {
        Some(number) => Ok(Value::Plain(Literal::Number(number))),
        None => Err(Trap::Overflow),
    }
}

/// The quotient of two numbers, rounded toward zero.
#[inline(always)]
fn divide(a: i64, b: i64) -> Result<Value, Trap>
    ensures { divided b (int_div a b) ≡ result }
{
    if b == 0 {
        return Err(Trap::ZeroDivisor);
    }
    number_of(a.checked_div(b))
}

/// What the quotient of two numbers leaves. It lies in i64 even where the quotient doesn't.
#[inline(always)]
fn left_over(a: i64, b: i64) -> Result<Value, Trap>
    ensures { divided b (a -ℤ (b *ℤ int_div a b)) ≡ result }
{
    if b == 0 {
        return Err(Trap::ZeroDivisor);
    }
    Ok(Value::Plain(Literal::Number(a.wrapping_rem(b))))
}
