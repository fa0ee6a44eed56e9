//! The variables of a version, by their names.

ghost use Rattle.std.specs.Prelude.{◌≡◌, ◌∷◌, ◌++◌, IfOk, OnOk};
ghost use Rattle.sour_raw.specs.Mentions.{simple_names, expr_names, each_names, map_names};
ghost use Rattle.sour_raw.specs.Mentions.{extra_names, all_names, exit_names, instr_names};
ghost use Rattle.sour_raw.specs.Mentions.{with_names, with_lines, variables_of};

use crate::names::DistinctNames;
use sour_raw::{RawBind, RawExit, RawExpr, RawExtra, RawInstr, RawLine, RawSimple};
use sour_syntax::{Label, List};
use std::alloc::{AllocError, Global};

/// Puts the name in an operand behind the others, where it isn't there yet.
fn put_simple(alloc: Global, raw: &RawSimple, names: &mut DistinctNames) -> Result<(), AllocError>
    ensures { OnOk result (names.new ≡ with_names names.old (simple_names raw.now)) }
{
    match raw {
        RawSimple::Lit(_) => Ok(()),
        RawSimple::Name(name) => names.put(alloc, name),
    }
}

/// Puts each name in an expression behind the others, where it isn't there yet, in the order in which
/// they are written.
fn put_expr(alloc: Global, raw: &RawExpr, names: &mut DistinctNames) -> Result<(), AllocError>
    ensures { OnOk result (names.new ≡ with_names names.old (expr_names raw.now)) }
{
    match raw {
        RawExpr::Plain(operand) => put_simple(alloc, operand, names),
        RawExpr::Cell(name, index) => {
            names.put(alloc, name)?;
            put_simple(alloc, index, names)
        }
        RawExpr::Length(operand) => put_simple(alloc, operand, names),
        RawExpr::Not(operand) => put_simple(alloc, operand, names),
        RawExpr::Binary(_, left, right) => {
            put_simple(alloc, left, names)?;
            put_simple(alloc, right, names)
        }
    }
}

/// Puts each name in some expressions behind the others, where it isn't there yet.
fn put_each(alloc: Global, raw: &[RawExpr], names: &mut DistinctNames) -> Result<(), AllocError>
    ensures { OnOk result (names.new ≡ with_names names.old (each_names raw.now)) }
{
    for value in raw {
        put_expr(alloc, value, names)?;
    }
    Ok(())
}

/// Puts each name in the values of a map behind the others, where it isn't there yet.
fn put_map(alloc: Global, raw: &[RawBind], names: &mut DistinctNames) -> Result<(), AllocError>
    ensures { OnOk result (names.new ≡ with_names names.old (map_names raw.now)) }
{
    for bind in raw {
        put_expr(alloc, &bind.value, names)?;
    }
    Ok(())
}

/// Puts each name in the maps of further frames behind the others, where it isn't there yet.
fn put_extras(alloc: Global, raw: &[RawExtra], names: &mut DistinctNames) -> Result<(), AllocError>
    ensures { OnOk result (names.new ≡ with_names names.old (all_names extra_names raw.now)) }
{
    for extra in raw {
        put_map(alloc, extra.map.as_slice(), names)?;
    }
    Ok(())
}

/// Puts each name in the maps of an exit behind the others, where it isn't there yet.
fn put_exit(alloc: Global, raw: &RawExit, names: &mut DistinctNames) -> Result<(), AllocError>
    ensures { OnOk result (names.new ≡ with_names names.old (exit_names raw.now)) }
{
    put_map(alloc, raw.map.as_slice(), names)?;
    put_extras(alloc, raw.extras.as_slice(), names)
}

/// Puts the variable that a call sets, and each name in its callee and its arguments, behind the
/// others, where it isn't there yet.
fn put_call(
    alloc: Global,
    name: &Label,
    callee: &RawSimple,
    arguments: &[RawExpr],
    names: &mut DistinctNames,
) -> Result<(), AllocError>
    ensures { OnOk result (names.new
        ≡ with_names names.old (name.now ∷ simple_names callee.now ++ each_names arguments.now)) }
{
    names.put(alloc, name)?;
    put_simple(alloc, callee, names)?;
    put_each(alloc, arguments, names)
}

/// Puts an array, and each name in the index and the value of a cell that is written, behind the others,
/// where it isn't there yet.
fn put_store(
    alloc: Global,
    name: &Label,
    index: &RawSimple,
    value: &RawExpr,
    names: &mut DistinctNames,
) -> Result<(), AllocError>
    ensures { OnOk result (names.new
        ≡ with_names names.old (name.now ∷ simple_names index.now ++ expr_names value.now)) }
{
    names.put(alloc, name)?;
    put_simple(alloc, index, names)?;
    put_expr(alloc, value, names)
}

/// Puts a variable, and each name in the expression that it gets the value of, behind the others, where
/// it isn't there yet.
fn put_both(
    alloc: Global,
    name: &Label,
    value: &RawExpr,
    names: &mut DistinctNames,
) -> Result<(), AllocError>
    ensures { OnOk result (names.new ≡ with_names names.old (name.now ∷ expr_names value.now)) }
{
    names.put(alloc, name)?;
    put_expr(alloc, value, names)
}

/// Puts each name of a variable in an instruction behind the others, where it isn't there yet.
fn put_instr(alloc: Global, raw: &RawInstr, names: &mut DistinctNames) -> Result<(), AllocError>
    ensures { OnOk result (names.new ≡ with_names names.old (instr_names raw.now)) }
{
    match raw {
        RawInstr::Var(name, value) => put_both(alloc, name, value, names),
        RawInstr::Drop(name) => names.put(alloc, name),
        RawInstr::Assign(name, value) => put_both(alloc, name, value, names),
        RawInstr::ArrayLength(name, count) => put_both(alloc, name, count, names),
        RawInstr::ArrayList(name, values) => {
            names.put(alloc, name)?;
            put_each(alloc, values.as_slice(), names)
        }
        RawInstr::Store(name, index, value) => put_store(alloc, name, index, value, names),
        RawInstr::Print(value) => put_expr(alloc, value, names),
        RawInstr::Read(name) => names.put(alloc, name),
        RawInstr::Branch(test, _, _) => put_expr(alloc, test, names),
        RawInstr::Goto(_) => Ok(()),
        RawInstr::Call(name, callee, arguments) => {
            put_call(alloc, name, callee, arguments.as_slice(), names)
        }
        RawInstr::Return(value) => put_expr(alloc, value, names),
        RawInstr::Stop => Ok(()),
        RawInstr::Assume(predicates, exit) => {
            put_each(alloc, predicates.as_slice(), names)?;
            put_exit(alloc, exit, names)
        }
    }
}

/// Puts each name of a variable in some lines behind the others, where it isn't there yet.
fn put_lines(alloc: Global, raw: &[RawLine], names: &mut DistinctNames) -> Result<(), AllocError>
    ensures { OnOk result (names.new ≡ with_lines names.old raw.now) }
{
    for line in raw {
        put_instr(alloc, &line.instr, names)?;
    }
    Ok(())
}

/// Puts each of these names behind the others, where it isn't there yet.
fn put_names(alloc: Global, raw: &[Label], names: &mut DistinctNames) -> Result<(), AllocError>
    ensures { OnOk result (names.new ≡ with_names names.old raw.now) }
{
    for name in raw {
        names.put(alloc, name)?;
    }
    Ok(())
}

/// The variables of a version with these parameters and these lines.
pub(crate) fn variables_of(
    alloc: Global,
    parameters: &[Label],
    lines: &[RawLine],
) -> Result<DistinctNames, AllocError>
    ensures { IfOk result (λ names. names ≡ variables_of parameters.now lines.now) }
{
    let mut names = DistinctNames::new(alloc);
    put_names(alloc, parameters, &mut names)?;
    put_lines(alloc, lines, &mut names)?;
    Ok(names)
}
