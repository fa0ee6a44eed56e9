ghost use Rattle.std.specs.Prelude.{◌≡◌};
ghost use Rattle.sour_semantics.specs.Evaluation.{is_same};

use sour_syntax::{Literal, Value};

/// Whether two values are of one kind and have the same content. Arrays are the same by reference.
#[inline(always)]
pub(crate) fn is_same(a: Value, b: Value) -> bool
    ensures { is_same a b ≡ result }
{
    match (a, b) {
        (Value::Plain(Literal::Number(a)), Value::Plain(Literal::Number(b))) => a == b,
        (Value::Plain(Literal::Truth(a)), Value::Plain(Literal::Truth(b))) => a == b,
        (Value::Plain(Literal::Nil), Value::Plain(Literal::Nil)) => true,
        (Value::Plain(Literal::Function(a)), Value::Plain(Literal::Function(b))) => a == b,
        (Value::Array(a), Value::Array(b)) => a == b,
        _ => false,
    }
}
