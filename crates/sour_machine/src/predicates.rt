//! The predicates of an assume.

ghost use Rattle.std.specs.Prelude.{◌≡◌};
ghost use Rattle.sour_semantics.specs.Evaluation.{holds_each};
ghost use Rattle.sour_machine.specs.Scope.{HasValuesOfEach};

use crate::env::Env;
use crate::evaluation::eval;
use crate::heap::Heap;
use sour_syntax::{Expr, Literal, Trap, Value};

/// Whether all predicates hold: they are evaluated from the left up to the first that is false or traps.
/// It takes no memory.
pub(crate) fn holds_each(env: &Env, heap: &Heap, es: &[Expr]) -> Result<bool, Trap>
    requires { HasValuesOfEach env.now es.now }
    ensures { holds_each env.now heap.now es.now ≡ result }
{
    for e in es {
        match eval(env, heap, e)? {
            Value::Plain(Literal::Truth(true)) => {}
            Value::Plain(Literal::Truth(false)) => return Ok(false),
            _ => return Err(Trap::BadType),
        }
    }
    Ok(true)
}
