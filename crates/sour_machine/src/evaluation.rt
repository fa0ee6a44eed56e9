ghost use Rattle.std.specs.Prelude.{◌≡◌, None};
ghost use Rattle.std.specs.List.{AllByRecursion};
ghost use Rattle.std.specs.Option.{option_copied, option_zip};
ghost use Rattle.sour_syntax.specs.declared.expression.Simple.{Simple};
ghost use Rattle.sour_syntax.specs.Scopes.{IsInScope, simple_variables};
ghost use Rattle.sour_semantics.specs.Evaluation.{number_in, cells_of, cell, cell_at, within_bounds, length_of, eval, operand, applied};
ghost use Rattle.sour_semantics.specs.Validity.{scope_of};
ghost use Rattle.sour_machine.specs.Scope.{HasValues};

use crate::arithmetic::on_numbers;
use crate::comparison::is_same;
use crate::env::Env;
use crate::heap::Heap;
use crate::truths::{both, either, negated, truth};
use sour_syntax::{Expr, Literal, Op, Simple, Trap, Value, VarId};

/// The value of an expression, or its trap. It takes no memory.
#[inline(always)]
pub fn eval(env: &Env, heap: &Heap, expr: &Expr) -> Result<Value, Trap>
    requires { HasValues env.now expr.now }
    ensures { eval env.now heap.now expr.now ≡ result }
{
    match expr {
        Expr::Plain(a) => Ok(operand(env, a)),
        Expr::Cell(x, index) => cell(env, heap, *x, index),
        Expr::Length(a) => length_of(env, heap, a),
        Expr::Not(a) => negated(operand(env, a)),
        Expr::Binary(op, a, b) => applied(env, *op, a, b),
    }
}

/// The value of an operand.
#[inline(always)]
pub(crate) fn operand(env: &Env, simple: &Simple) -> Value
    requires { AllByRecursion (IsInScope (scope_of env.now)) (simple_variables simple.now) }
    ensures { operand env.now simple.now ≡ result }
{
    match simple {
        Simple::Lit(literal) => Value::Plain(*literal),
        Simple::Var(x) => *env.value(*x),
    }
}

/// The number that an operand is, if it is one.
#[inline(always)]
pub(crate) fn number_at(env: &Env, simple: &Simple) -> Option<i64>
    requires { AllByRecursion (IsInScope (scope_of env.now)) (simple_variables simple.now) }
    ensures { number_in (operand env.now simple.now) ≡ result }
{
    match simple {
        Simple::Lit(Literal::Number(number)) => Some(*number),
        Simple::Lit(_) => None,
        Simple::Var(x) => match env.value(*x) {
            Value::Plain(Literal::Number(number)) => Some(*number),
            _ => None,
        },
    }
}

/// The cells of the array to which a value refers, if it refers to one.
#[inline(always)]
fn cells_of(value: Value, heap: &Heap) -> Option<&[Value]>
    ensures { option_copied result ≡ cells_of heap.now value }
{
    match value {
        Value::Array(array) => heap.cells(array),
        Value::Plain(_) => None,
    }
}

/// The cell of an array at an index.
#[inline(always)]
fn cell(env: &Env, heap: &Heap, x: VarId, index: &Simple) -> Result<Value, Trap>
    requires array { IsInScope (scope_of env.now) x }
    requires index { AllByRecursion (IsInScope (scope_of env.now)) (simple_variables index.now) }
    ensures { cell (cells_of heap.now (operand env.now (Simple.Var x))) (number_in (operand env.now index.now)) ≡ result }
{
    let Some(cells) = cells_of(*env.value(x), heap) else {
        return Err(Trap::BadType);
    };
    let Some(index) = number_at(env, index) else {
        return Err(Trap::BadType);
    };
    cell_at(cells, index)
}

/// The cell at an index.
#[inline(always)]
fn cell_at(cells: &[Value], index: i64) -> Result<Value, Trap>
    ensures { within_bounds (cell_at cells.now index) ≡ result }
{
    if index < 0 {
        return Err(Trap::Bounds);
    }
    match cells.get(index as usize) {
        Some(value) => Ok(*value),
        None => Err(Trap::Bounds),
    }
}

/// How many cells the array has that an operand is.
#[inline(always)]
fn length_of(env: &Env, heap: &Heap, a: &Simple) -> Result<Value, Trap>
    requires { AllByRecursion (IsInScope (scope_of env.now)) (simple_variables a.now) }
    ensures { length_of (cells_of heap.now (operand env.now a.now)) ≡ result }
{
    match cells_of(operand(env, a), heap) {
        Some(cells) => Ok(Value::Plain(Literal::Number(cells.len() as i64))),
        None => Err(Trap::BadType),
    }
}

/// The numbers that two operands are, if both are numbers.
#[inline(always)]
fn numbers_at(env: &Env, a: &Simple, b: &Simple) -> Option<(i64, i64)>
    requires first { AllByRecursion (IsInScope (scope_of env.now)) (simple_variables a.now) }
    requires second { AllByRecursion (IsInScope (scope_of env.now)) (simple_variables b.now) }
    ensures { option_zip (number_in (operand env.now a.now)) (number_in (operand env.now b.now)) ≡ result }
{
    let first = number_at(env, a)?;
    let second = number_at(env, b)?;
    Some((first, second))
}

/// What an operator gives on two operands. Most are numbers, so it looks for those first.
#[inline(always)]
fn applied(env: &Env, op: Op, a: &Simple, b: &Simple) -> Result<Value, Trap>
    requires first { AllByRecursion (IsInScope (scope_of env.now)) (simple_variables a.now) }
    requires second { AllByRecursion (IsInScope (scope_of env.now)) (simple_variables b.now) }
    ensures { applied op (operand env.now a.now) (operand env.now b.now) ≡ result }
{
    match numbers_at(env, a, b) {
        Some((first, second)) => on_numbers(op, first, second),
        None => on_others(op, operand(env, a), operand(env, b)),
    }
}

/// What an operator gives on two values that aren't both numbers.
#[inline(always)]
fn on_others(op: Op, a: Value, b: Value) -> Result<Value, Trap>
    requires { option_zip (number_in a) (number_in b) ≡ None }
    ensures { applied op a b ≡ result }
{
    match op {
        Op::Eq => Ok(truth(is_same(a, b))),
        Op::Ne => Ok(truth(!is_same(a, b))),
        Op::And => both(a, b),
        Op::Or => either(a, b),
        Op::Add | Op::Sub | Op::Mul | Op::Div | Op::Rem => Err(Trap::BadType),
        Op::Lt | Op::Le | Op::Gt | Op::Ge => Err(Trap::BadType),
    }
}
