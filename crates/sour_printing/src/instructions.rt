//! Instructions.

ghost use Rattle.std.specs.Prelude.{◌≡◌, [], ◌∷◌, ◌++◌, map, codes, OnOk};
ghost use Rattle.std.specs.Arc.{arc_value};
ghost use Rattle.laws_printing.specs.Named.{variable_name, raw_simple, raw_expr, raw_exit, raw_instr};
ghost use Rattle.laws_printing.specs.Pieces.{expr_pieces, simple_pieces, listed_pieces, predicates_pieces, exit_pieces, instr_pieces};
ghost use Rattle.laws_printing.specs.Bundles.{made_instr_pieces};
ghost use Rattle.laws_printing.specs.Text.{bytes_of};

use crate::exits::put_exit;
use crate::expressions::{put_expr, put_exprs, put_simple};
use crate::names::variable_name;
use sour_syntax::{Body, Exit, Expr, Function, Instr, Label, Names, Simple, VarId};
use std::alloc::AllocError;
use std::sync::Arc;

/// Puts a word, and a variable behind it.
fn put_word(text: &mut Vec<u8>, names: &Names, word: &[u8], x: VarId) -> Result<(), AllocError>
    ensures { OnOk result (text.new.items ≡ text.old.items
        ++ (word.now ++ variable_name names.now x)) }
{
    text.extend_from_slice(word)?;
    text.extend_from_slice(variable_name(names, x))
}

/// Puts a word, a variable, a sign, and an expression behind them.
fn put_set(
    text: &mut Vec<u8>,
    functions: &[Function],
    names: &Names,
    word: &[u8],
    x: VarId,
    sign: &[u8],
    expr: Expr,
) -> Result<(), AllocError>
    ensures { OnOk result (text.new.items ≡ text.old.items
        ++ (word.now ++ variable_name names.now x ++ sign.now
        ++ bytes_of (expr_pieces (raw_expr functions.now names.now expr)))) }
{
    put_word(text, names, word, x)?;
    text.extend_from_slice(sign)?;
    put_expr(text, functions, names, expr)
}

/// Puts a word, and an expression behind it.
fn put_value(
    text: &mut Vec<u8>,
    functions: &[Function],
    names: &Names,
    word: &[u8],
    expr: Expr,
) -> Result<(), AllocError>
    ensures { OnOk result (text.new.items ≡ text.old.items ++ (word.now
        ++ bytes_of (expr_pieces (raw_expr functions.now names.now expr)))) }
{
    text.extend_from_slice(word)?;
    put_expr(text, functions, names, expr)
}

/// Puts a new array of these values.
fn put_array(
    text: &mut Vec<u8>,
    functions: &[Function],
    names: &Names,
    x: VarId,
    values: &[Expr],
) -> Result<(), AllocError>
    ensures { OnOk result (text.new.items ≡ text.old.items
        ++ bytes_of (instr_pieces
        (raw_instr functions.now names.now (Instr.ArrayList x values.now)))) }
{
    put_word(text, names, b"array ", x)?;
    text.extend_from_slice(b" = [")?;
    put_exprs(text, functions, names, values)?;
    text.extend_from_slice(b"]")
}

/// Puts the writing of a cell.
fn put_store(
    text: &mut Vec<u8>,
    functions: &[Function],
    names: &Names,
    x: VarId,
    index: Simple,
    value: Expr,
) -> Result<(), AllocError>
    ensures { OnOk result (text.new.items ≡ text.old.items
        ++ bytes_of (instr_pieces
        (raw_instr functions.now names.now (Instr.Store x index value)))) }
{
    text.extend_from_slice(variable_name(names, x))?;
    text.extend_from_slice(b"[")?;
    put_simple(text, functions, names, index)?;
    put_value(text, functions, names, b"] <- ", value)
}

/// Puts a branch.
fn put_branch(
    text: &mut Vec<u8>,
    functions: &[Function],
    names: &Names,
    test: Expr,
    first: &Label,
    second: &Label,
) -> Result<(), AllocError>
    ensures { OnOk result (text.new.items ≡ text.old.items
        ++ bytes_of (instr_pieces
        (raw_instr functions.now names.now (Instr.Branch test first.now second.now)))) }
{
    put_value(text, functions, names, b"branch ", test)?;
    text.extend_from_slice(b" ")?;
    text.extend_from_slice(first.as_bytes())?;
    text.extend_from_slice(b" ")?;
    text.extend_from_slice(second.as_bytes())
}

/// Puts a call.
fn put_call(
    text: &mut Vec<u8>,
    functions: &[Function],
    names: &Names,
    x: VarId,
    callee: Simple,
    arguments: &[Expr],
) -> Result<(), AllocError>
    ensures { OnOk result (text.new.items ≡ text.old.items
        ++ bytes_of (instr_pieces
        (raw_instr functions.now names.now (Instr.Call x callee arguments.now)))) }
{
    put_word(text, names, b"call ", x)?;
    text.extend_from_slice(b" = ")?;
    put_simple(text, functions, names, callee)?;
    text.extend_from_slice(b"(")?;
    put_exprs(text, functions, names, arguments)?;
    text.extend_from_slice(b")")
}

/// Puts predicates, and a blank behind them where there are some.
fn put_predicates(
    text: &mut Vec<u8>,
    functions: &[Function],
    names: &Names,
    predicates: &[Expr],
) -> Result<(), AllocError>
    ensures { OnOk result (text.new.items ≡ text.old.items
        ++ bytes_of (predicates_pieces
        (map (raw_expr functions.now names.now) predicates.now) [])) }
{
    if predicates.is_empty() {
        return Ok(());
    }
    put_exprs(text, functions, names, predicates)?;
    text.extend_from_slice(b" ")
}

/// Puts an anchor.
fn put_assume(
    text: &mut Vec<u8>,
    functions: &[Function],
    bodies: &[Arc<Body>],
    names: &Names,
    predicates: &[Expr],
    exit: &Exit,
) -> Result<(), AllocError>
    ensures { OnOk result (text.new.items ≡ text.old.items
        ++ bytes_of (made_instr_pieces functions.now (map arc_value bodies.now) names.now
        (Instr.Assume predicates.now exit.now))) }
{
    text.extend_from_slice(b"assume ")?;
    put_predicates(text, functions, names, predicates)?;
    text.extend_from_slice(b"else ")?;
    put_exit(text, functions, bodies, names, exit)
}

/// Puts an instruction of a body of a bundle with these bodies; of a program where there are none.
pub(crate) fn put_instr(
    text: &mut Vec<u8>,
    functions: &[Function],
    bodies: &[Arc<Body>],
    names: &Names,
    instr: &Instr,
) -> Result<(), AllocError>
    ensures { OnOk result (text.new.items ≡ text.old.items ++ bytes_of
        (made_instr_pieces functions.now (map arc_value bodies.now) names.now instr.now)) }
{
    match instr {
        Instr::Var(x, value) => put_set(text, functions, names, b"var ", *x, b" = ", *value),
        Instr::Drop(x) => put_word(text, names, b"drop ", *x),
        Instr::Assign(x, value) => put_set(text, functions, names, b"", *x, b" <- ", *value),
        Instr::ArrayLength(x, count) => {
            put_set(text, functions, names, b"array ", *x, b"[", *count)?;
            text.extend_from_slice(b"]")
        }
        Instr::ArrayList(x, values) => put_array(text, functions, names, *x, values.as_slice()),
        Instr::Store(x, index, value) => put_store(text, functions, names, *x, *index, *value),
        Instr::Print(value) => put_value(text, functions, names, b"print ", *value),
        Instr::Read(x) => put_word(text, names, b"read ", *x),
        Instr::Branch(test, first, second) => {
            put_branch(text, functions, names, *test, first, second)
        }
        Instr::Goto(label) => {
            text.extend_from_slice(b"goto ")?;
            text.extend_from_slice(label.as_bytes())
        }
        Instr::Call(x, callee, arguments) => {
            put_call(text, functions, names, *x, *callee, arguments.as_slice())
        }
        Instr::Return(value) => put_value(text, functions, names, b"return ", *value),
        Instr::Stop => text.extend_from_slice(b"stop"),
        Instr::Assume(predicates, exit) => {
            put_assume(text, functions, bodies, names, predicates.as_slice(), exit)
        }
    }
}
