//! Literals, operands and expressions.

ghost use Rattle.std.specs.Prelude.{◌≡◌, ◌++◌, map, OnOk};
ghost use Rattle.sour_lexer.specs.Front.{spelling};
ghost use Rattle.sour_raw.specs.Keys.{op_token};
ghost use Rattle.laws_printing.specs.Named.{raw_literal, raw_simple, raw_expr};
ghost use Rattle.laws_printing.specs.Pieces.{literal_pieces, simple_pieces, expr_pieces, listed_pieces};
ghost use Rattle.laws_printing.specs.Text.{bytes_of};

use crate::names::{function_name, variable_name};
use itoa::Buffer;
use sour_syntax::{Expr, Function, Literal, Names, Op, Simple};
use std::alloc::AllocError;

/// Puts a literal.
fn put_literal(
    text: &mut Vec<u8>,
    functions: &[Function],
    literal: Literal,
) -> Result<(), AllocError>
    ensures { OnOk result (text.new.items ≡ text.old.items
        ++ bytes_of (literal_pieces (raw_literal functions.now literal))) }
{
    match literal {
        Literal::Number(number) => {
            let mut digits = Buffer::new();
            text.extend_from_slice(digits.format(number).as_bytes())
        }
        Literal::Truth(true) => text.extend_from_slice(b"true"),
        Literal::Truth(false) => text.extend_from_slice(b"false"),
        Literal::Nil => text.extend_from_slice(b"nil"),
        Literal::Function(function) => {
            text.extend_from_slice(b"&")?;
            text.extend_from_slice(function_name(functions, function))
        }
    }
}

/// Puts an operand.
pub(crate) fn put_simple(
    text: &mut Vec<u8>,
    functions: &[Function],
    names: &Names,
    operand: Simple,
) -> Result<(), AllocError>
    ensures { OnOk result (text.new.items ≡ text.old.items
        ++ bytes_of (simple_pieces (raw_simple functions.now names.now operand))) }
{
    match operand {
        Simple::Lit(literal) => put_literal(text, functions, literal),
        Simple::Var(x) => text.extend_from_slice(variable_name(names, x)),
    }
}

/// How a binary operator is spelled.
fn op_bytes(op: Op) -> &'static [u8]
    ensures { result.now ≡ spelling (op_token op) }
{
    match op {
        Op::Add => b"+",
        Op::Sub => b"-",
        Op::Mul => b"*",
        Op::Div => b"/",
        Op::Rem => b"%",
        Op::Eq => b"==",
        Op::Ne => b"!=",
        Op::Lt => b"<",
        Op::Le => b"<=",
        Op::Gt => b">",
        Op::Ge => b">=",
        Op::And => b"&&",
        Op::Or => b"||",
    }
}

/// Puts an expression.
pub(crate) fn put_expr(
    text: &mut Vec<u8>,
    functions: &[Function],
    names: &Names,
    expr: Expr,
) -> Result<(), AllocError>
    ensures { OnOk result (text.new.items ≡ text.old.items
        ++ bytes_of (expr_pieces (raw_expr functions.now names.now expr))) }
{
    match expr {
        Expr::Plain(operand) => put_simple(text, functions, names, operand),
        Expr::Cell(array, index) => {
            text.extend_from_slice(variable_name(names, array))?;
            text.extend_from_slice(b"[")?;
            put_simple(text, functions, names, index)?;
            text.extend_from_slice(b"]")
        }
        Expr::Length(operand) => {
            text.extend_from_slice(b"length ")?;
            put_simple(text, functions, names, operand)
        }
        Expr::Not(operand) => {
            text.extend_from_slice(b"!")?;
            put_simple(text, functions, names, operand)
        }
        Expr::Binary(op, left, right) => {
            put_simple(text, functions, names, left)?;
            text.extend_from_slice(b" ")?;
            text.extend_from_slice(op_bytes(op))?;
            text.extend_from_slice(b" ")?;
            put_simple(text, functions, names, right)
        }
    }
}

/// Puts expressions, with a comma between two of them.
pub(crate) fn put_exprs(
    text: &mut Vec<u8>,
    functions: &[Function],
    names: &Names,
    exprs: &[Expr],
) -> Result<(), AllocError>
    ensures { OnOk result (text.new.items ≡ text.old.items
        ++ bytes_of (listed_pieces expr_pieces
        (map (raw_expr functions.now names.now) exprs.now))) }
{
    let Some((first, others)) = exprs.split_first() else {
        return Ok(());
    };
    put_expr(text, functions, names, *first)?;
    for expr in others {
        text.extend_from_slice(b", ")?;
        put_expr(text, functions, names, *expr)?;
    }
    Ok(())
}
