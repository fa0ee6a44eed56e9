//! The values of several expressions, from left to right.

ghost use Rattle.std.specs.Prelude.{◌≡◌, [], IfOk};
ghost use Rattle.sour_semantics.specs.Evaluation.{eval_each};
ghost use Rattle.sour_machine.specs.Scope.{HasValuesOfEach};
ghost use Rattle.sour_machine.specs.Operands.{row_of};

use crate::env::Env;
use crate::evaluation::eval;
use crate::heap::Heap;
use sour_syntax::{Expr, List, Trap, Value};
use std::alloc::{AllocError, Global};

/// The values of some expressions, or the first trap.
pub(crate) fn values_of(
    alloc: Global,
    env: &Env,
    heap: &Heap,
    es: &[Expr],
) -> Result<Result<List<Value>, Trap>, AllocError>
    requires { HasValuesOfEach env.now es.now }
    ensures { IfOk result (λ values. eval_each env.now heap.now es.now ≡ values) }
{
    let mut values = Vec::with_capacity(alloc, es.len())?;
    for e in es {
        match eval(env, heap, e) {
            Ok(value) => values.push(value)?,
            Err(trap) => return Ok(Err(trap)),
        }
    }
    Ok(Ok(List::from_vec(values)))
}

/// A row without variables, with one put in for each of the values; or the first trap.
pub(crate) fn row_of(
    env: &Env,
    heap: &Heap,
    es: &[Expr],
    row: Env,
) -> Result<Result<Env, Trap>, AllocError>
    requires values { HasValuesOfEach env.now es.now }
    requires empty { row ≡ [] }
    ensures { IfOk result (λ filled. row_of (eval_each env.now heap.now es.now) ≡ filled) }
{
    let mut row = row;
    for e in es {
        match eval(env, heap, e) {
            Ok(value) => row.push(value)?,
            Err(trap) => return Ok(Err(trap)),
        }
    }
    Ok(Ok(row))
}
