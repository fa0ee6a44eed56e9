//! Values and what expressions make of them.

use crate::jobs::seen;
use itoa::Buffer;
use sour_machine::{Env, Heap, eval, value_head, value_middle, value_tail, value_text};
use sour_syntax::{ArrayId, Expr, FunId, List, Literal, Op, Program, Simple, Trap, Value, VarId};
use std::alloc::{AllocError, Global};
use std::test::Fail;

/// A text whose one function is `main`.
const STOPS: &[u8] = b"fun main()\nver base\nstop\nend\n";

fn number(n: i64) -> Value {
    Value::Plain(Literal::Number(n))
}

fn truth(holds: bool) -> Value {
    Value::Plain(Literal::Truth(holds))
}

fn function(f: u32) -> Value {
    Value::Plain(Literal::Function(FunId(f)))
}

const NIL: Value = Value::Plain(Literal::Nil);

const TRUE: Value = Value::Plain(Literal::Truth(true));

const FALSE: Value = Value::Plain(Literal::Truth(false));

const ARRAY: Value = Value::Array(ArrayId(0));

const OTHER_ARRAY: Value = Value::Array(ArrayId(1));

/// A heap with the array `[7, true]`.
fn heap_of_one(alloc: Global) -> Result<Heap, AllocError> {
    let mut heap = Heap::new(alloc);
    heap.add(List::from_vec(vec![in alloc; number(7), truth(true)]?))?;
    Ok(heap)
}

/// The forms of expressions over the variables `x` and `y`.
#[derive(Clone, Copy, Debug)]
enum Form {
    /// `x`
    Plain,
    /// `x[y]`
    Cell,
    /// `length x`
    Length,
    /// `!x`
    Not,
    /// `x` and `y` with an operator between them.
    Binary(Op),
}

/// What an expression of a form gives for these values of `x` and `y`, where there is the array `[7, true]`.
fn given(alloc: Global, form: Form, x: Value, y: Value) -> Result<Result<Value, Trap>, AllocError> {
    let heap = heap_of_one(alloc)?;
    let mut env = Env::new(alloc);
    env.push(x)?;
    env.push(y)?;
    let (x, y) = (VarId(0), VarId(1));
    Ok(match form {
        Form::Plain => eval(&env, &heap, &Expr::Plain(Simple::Var(x))),
        Form::Cell => eval(&env, &heap, &Expr::Cell(x, Simple::Var(y))),
        Form::Length => eval(&env, &heap, &Expr::Length(Simple::Var(x))),
        Form::Not => eval(&env, &heap, &Expr::Not(Simple::Var(x))),
        Form::Binary(op) => eval(
            &env,
            &heap,
            &Expr::Binary(op, Simple::Var(x), Simple::Var(y)),
        ),
    })
}

#[test]
fn calculates_at_the_edges(rt: HostRuntime) -> Result<(), Fail> {
    for (op, x, y, result) in [
        (Op::Div, i64::MIN, -1, Err(Trap::Overflow)),
        (Op::Rem, i64::MIN, -1, Ok(0)),
        (Op::Div, -7, 2, Ok(-3)),
        (Op::Rem, -7, 2, Ok(-1)),
        (Op::Div, 7, 0, Err(Trap::ZeroDivisor)),
        (Op::Rem, 7, 0, Err(Trap::ZeroDivisor)),
        (Op::Add, i64::MAX, 1, Err(Trap::Overflow)),
        (Op::Add, i64::MAX, i64::MIN, Ok(-1)),
        (Op::Sub, i64::MIN, 1, Err(Trap::Overflow)),
        (Op::Sub, 2, 3, Ok(-1)),
        (Op::Mul, i64::MIN, -1, Err(Trap::Overflow)),
        (Op::Mul, -2, 3, Ok(-6)),
    ] {
        let found = given(rt.alloc(), Form::Binary(op), number(x), number(y))?;
        assert!(rt; found == result.map(number), "{x} {op:?} {y}");
    }
    Ok(())
}

#[test]
fn compares_and_combines(rt: HostRuntime) -> Result<(), Fail> {
    for (op, x, y, holds) in [
        (Op::Lt, number(i64::MIN), number(i64::MAX), true),
        (Op::Lt, number(-1), number(-1), false),
        (Op::Lt, number(0), number(-1), false),
        (Op::Le, number(i64::MIN), number(i64::MAX), true),
        (Op::Le, number(-1), number(-1), true),
        (Op::Le, number(0), number(-1), false),
        (Op::Gt, number(i64::MIN), number(i64::MAX), false),
        (Op::Gt, number(-1), number(-1), false),
        (Op::Gt, number(0), number(-1), true),
        (Op::Ge, number(i64::MIN), number(i64::MAX), false),
        (Op::Ge, number(-1), number(-1), true),
        (Op::Ge, number(0), number(-1), true),
        (Op::And, FALSE, FALSE, false),
        (Op::And, FALSE, TRUE, false),
        (Op::And, TRUE, FALSE, false),
        (Op::And, TRUE, TRUE, true),
        (Op::Or, FALSE, FALSE, false),
        (Op::Or, FALSE, TRUE, true),
        (Op::Or, TRUE, FALSE, true),
        (Op::Or, TRUE, TRUE, true),
    ] {
        let found = given(rt.alloc(), Form::Binary(op), x, y)?;
        assert!(rt; found == Ok(truth(holds)), "{x:?} {op:?} {y:?}");
    }
    Ok(())
}

#[test]
fn refuses_values_of_another_kind(rt: HostRuntime) -> Result<(), Fail> {
    for (op, x, y) in [
        (Op::Add, number(7), TRUE),
        (Op::Sub, ARRAY, ARRAY),
        (Op::Mul, number(0), NIL),
        (Op::Div, TRUE, number(0)),
        (Op::Rem, NIL, number(0)),
        (Op::Lt, NIL, NIL),
        (Op::Le, FALSE, TRUE),
        (Op::Gt, number(1), NIL),
        (Op::Ge, function(0), function(0)),
        (Op::And, FALSE, number(7)),
        (Op::And, number(7), FALSE),
        (Op::Or, TRUE, NIL),
        (Op::Or, number(7), TRUE),
    ] {
        let found = given(rt.alloc(), Form::Binary(op), x, y)?;
        assert!(rt; found == Err(Trap::BadType), "{x:?} {op:?} {y:?}");
    }
    Ok(())
}

#[test]
fn tells_values_apart(rt: HostRuntime) -> Result<(), Fail> {
    let values = [
        number(0),
        number(1),
        FALSE,
        TRUE,
        NIL,
        function(0),
        function(1),
        ARRAY,
        OTHER_ARRAY,
    ];
    for i in 0..9 {
        for j in 0..9 {
            let found = given(rt.alloc(), Form::Binary(Op::Eq), values[i], values[j])?;
            assert!(rt; found == Ok(truth(i == j)), "{i} and {j}");
            let found = given(rt.alloc(), Form::Binary(Op::Ne), values[i], values[j])?;
            assert!(rt; found == Ok(truth(i != j)), "{i} and {j}");
        }
    }
    Ok(())
}

#[test]
fn gives_cells_lengths_and_other_truth_values(rt: HostRuntime) -> Result<(), Fail> {
    for (form, x, y, result) in [
        (Form::Plain, OTHER_ARRAY, NIL, Ok(OTHER_ARRAY)),
        (Form::Cell, ARRAY, number(0), Ok(number(7))),
        (Form::Cell, ARRAY, number(1), Ok(TRUE)),
        (Form::Cell, ARRAY, number(2), Err(Trap::Bounds)),
        (Form::Cell, ARRAY, number(-1), Err(Trap::Bounds)),
        (Form::Cell, ARRAY, number(i64::MIN), Err(Trap::Bounds)),
        (Form::Cell, ARRAY, NIL, Err(Trap::BadType)),
        (Form::Cell, NIL, number(0), Err(Trap::BadType)),
        (Form::Length, ARRAY, NIL, Ok(number(2))),
        (Form::Length, number(2), NIL, Err(Trap::BadType)),
        (Form::Not, TRUE, NIL, Ok(FALSE)),
        (Form::Not, FALSE, NIL, Ok(TRUE)),
        (Form::Not, number(0), NIL, Err(Trap::BadType)),
        (Form::Not, NIL, NIL, Err(Trap::BadType)),
        (Form::Not, function(0), NIL, Err(Trap::BadType)),
    ] {
        let found = given(rt.alloc(), form, x, y)?;
        assert!(rt; found == result, "{form:?} of {x:?} and {y:?}");
    }
    Ok(())
}

/// Whether the parts of what a value prints as are these, where an array has two cells.
fn has_parts(program: &Program, value: Value, head: &str, middle: &str, tail: &str) -> bool {
    let mut digits = Buffer::new();
    value_head(value) == head.as_bytes()
        && value_middle(value, program, 2, &mut digits) == middle.as_bytes()
        && value_tail(value) == tail.as_bytes()
}

/// What a value prints as, where there is the array `[7, true]`.
fn text_of(alloc: Global, program: &Program, value: Value) -> Result<Vec<u8>, AllocError> {
    value_text(alloc, &value, program, &heap_of_one(alloc)?)
}

#[test]
fn gives_the_text_of_values(rt: HostRuntime) -> Result<(), Fail> {
    for (value, head, middle, tail, text) in [
        (number(-70), "", "-70", "", "-70"),
        (
            number(i64::MIN),
            "",
            "-9223372036854775808",
            "",
            "-9223372036854775808",
        ),
        (TRUE, "", "true", "", "true"),
        (FALSE, "", "false", "", "false"),
        (NIL, "", "nil", "", "nil"),
        (function(0), "&", "main", "", "&main"),
        (ARRAY, "array(", "2", ")", "array(2)"),
    ] {
        let alloc = rt.alloc();
        let there = seen(
            alloc,
            STOPS,
            |job| has_parts(&job.program, value, head, middle, tail),
        )?;
        assert!(rt; there, "the parts of {text}");
        let written = seen(alloc, STOPS, |job| text_of(alloc, &job.program, value))??;
        assert!(rt; written.as_slice() == text.as_bytes(), "{text}");
    }
    Ok(())
}
