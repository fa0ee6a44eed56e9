//! The instructions that make arrays and write into them.

ghost use Rattle.std.specs.Prelude.{◌≡◌, ◌+◌, ◌^◌, ◌<◌, ◌∷◌, [], List as Listed, Some, length, OnOk, OnErr};
ghost use Rattle.std.specs.List.{AllByRecursion};
ghost use Rattle.sour_syntax.specs.declared.expression.Expr.{Expr};
ghost use Rattle.sour_syntax.specs.declared.instruction.Instr.TheVariants.{ArrayLength, ArrayList, Store};
ghost use Rattle.sour_syntax.specs.declared.literal.Literal.{Literal};
ghost use Rattle.sour_syntax.specs.Labels.{label_at};
ghost use Rattle.sour_syntax.specs.Program.{ProgramView};
ghost use Rattle.sour_syntax.specs.Scopes.{IsInScope, simple_variables};
ghost use Rattle.sour_semantics.specs.Evaluation.{number_in, operand};
ghost use Rattle.sour_semantics.specs.Step.{makes, makes_empty, writes};
ghost use Rattle.sour_semantics.specs.Validity.{scope_of};
ghost use Rattle.sour_machine.specs.Cells.{place_of};
ghost use Rattle.sour_machine.specs.Frame.{frame_lines};
ghost use Rattle.sour_machine.specs.Moment.{state_at};
ghost use Rattle.sour_machine.specs.Scope.{HasValues, HasValuesOfEach};
ghost use Rattle.sour_machine.specs.Instruction.{ActsAs, ComesTo, ComesDeclaring, StaysInFrame};

use crate::evaluation::{eval, number_at};
use crate::evaluations::values_of;
use crate::heap::Heap;
use crate::moment::Moment;
use crate::report::End;
use sour_syntax::{ArrayId, Expr, List, Literal, Simple, Trap, Value, VarId};
use std::alloc::{AllocError, Global};

/// Declares a variable with a new array of these cells, if the heap has room for them.
fn make(moment: &mut Moment, x: VarId, cells: List<Value>) -> Result<(), AllocError>
    requires going { moment.old.end ≡ End.Cut }
    requires place { moment.old.frame.place + 1 < 2 ^ 64 }
    requires there { x.0 < length moment.old.frame.env }
    ensures makes { OnOk result ((program : ProgramView) (input : Listed Literal) → state_at program input moment.new ≡ makes x cells (label_at (frame_lines program moment.old.frame) (moment.old.frame.place + 1)) (state_at program input moment.old)) }
    ensures comes { OnOk result (ComesDeclaring x ((moment.old.frame.place + 1) ∷ []) moment.old.frame.env moment.new moment.new.end) }
    ensures stays { StaysInFrame moment.old moment.new }
    ensures turns { moment.new.turns ≡ moment.old.turns }
    ensures reads { moment.new.read ≡ moment.old.read }
    ensures err { OnErr result (moment.new ≡ moment.old) }
{
    if moment.heap.room() < cells.len() {
        moment.end = End::Trapped(Trap::HeapFull);
        return Ok(());
    }
    let array = moment.heap.add(cells)?;
    moment.frame.env.set(x, Value::Array(array));
    moment.frame.place += 1;
    Ok(())
}

/// Declares a variable with a new array of this many cells, each `nil`, if the heap has room for them.
/// Memory is taken only for cells that it has room for.
fn make_nils(alloc: Global, moment: &mut Moment, x: VarId, count: i64) -> Result<(), AllocError>
    requires going { moment.old.end ≡ End.Cut }
    requires place { moment.old.frame.place + 1 < 2 ^ 64 }
    requires there { x.0 < length moment.old.frame.env }
    ensures makes { OnOk result ((program : ProgramView) (input : Listed Literal) → state_at program input moment.new ≡ makes_empty x (Some count) (label_at (frame_lines program moment.old.frame) (moment.old.frame.place + 1)) (state_at program input moment.old)) }
    ensures comes { OnOk result (ComesDeclaring x ((moment.old.frame.place + 1) ∷ []) moment.old.frame.env moment.new moment.new.end) }
    ensures stays { StaysInFrame moment.old moment.new }
    ensures turns { moment.new.turns ≡ moment.old.turns }
    ensures reads { moment.new.read ≡ moment.old.read }
    ensures err { OnErr result (moment.new ≡ moment.old) }
{
    if count < 0 {
        moment.end = End::Trapped(Trap::Bounds);
        return Ok(());
    }
    let count = count as usize;
    if moment.heap.room() < count {
        moment.end = End::Trapped(Trap::HeapFull);
        return Ok(());
    }
    let cells = Vec::from_elem(alloc, Value::Plain(Literal::Nil), count)?;
    make(moment, x, List::from_vec(cells))
}

/// Declares a variable with a new array of as many cells as an expression says, each `nil`.
#[inline(never)]
pub(crate) fn make_empty(
    alloc: Global,
    moment: &mut Moment,
    x: VarId,
    expr: &Expr,
) -> Result<(), AllocError>
    requires going { moment.old.end ≡ End.Cut }
    requires place { moment.old.frame.place + 1 < 2 ^ 64 }
    requires values { HasValues moment.old.frame.env expr.now }
    requires there { x.0 < length moment.old.frame.env }
    ensures acts { OnOk result ((program : ProgramView) (input : Listed Literal) → ActsAs program input (ArrayLength x expr.now) moment.old moment.new) }
    ensures comes { OnOk result (ComesTo (ArrayLength x expr.now) ((moment.old.frame.place + 1) ∷ []) moment.old.frame.env moment.new moment.new.end) }
    ensures stays { StaysInFrame moment.old moment.new }
    ensures turns { moment.new.turns ≡ moment.old.turns }
    ensures reads { moment.new.read ≡ moment.old.read }
    ensures err { OnErr result (moment.new ≡ moment.old) }
{
    match eval(&moment.frame.env, &moment.heap, expr) {
        Ok(Value::Plain(Literal::Number(count))) => make_nils(alloc, moment, x, count)?,
        Ok(_) => moment.end = End::Trapped(Trap::BadType),
        Err(trap) => moment.end = End::Trapped(trap),
    }
    Ok(())
}

/// Declares a variable with a new array of these values.
#[inline(never)]
pub(crate) fn make_list(
    alloc: Global,
    moment: &mut Moment,
    x: VarId,
    exprs: &[Expr],
) -> Result<(), AllocError>
    requires going { moment.old.end ≡ End.Cut }
    requires place { moment.old.frame.place + 1 < 2 ^ 64 }
    requires values { HasValuesOfEach moment.old.frame.env exprs.now }
    requires there { x.0 < length moment.old.frame.env }
    ensures acts { OnOk result ((program : ProgramView) (input : Listed Literal) → ActsAs program input (ArrayList x exprs.now) moment.old moment.new) }
    ensures comes { OnOk result (ComesTo (ArrayList x exprs.now) ((moment.old.frame.place + 1) ∷ []) moment.old.frame.env moment.new moment.new.end) }
    ensures stays { StaysInFrame moment.old moment.new }
    ensures turns { moment.new.turns ≡ moment.old.turns }
    ensures reads { moment.new.read ≡ moment.old.read }
    ensures err { OnErr result (moment.new ≡ moment.old) }
{
    match values_of(alloc, &moment.frame.env, &moment.heap, exprs)? {
        Ok(cells) => make(moment, x, cells)?,
        Err(trap) => moment.end = End::Trapped(trap),
    }
    Ok(())
}

/// The place of the cell at an index of an array: a trap where there is no array, or no index, or no
/// such cell.
fn place_of(heap: &Heap, array: Value, index: Option<i64>) -> Result<(ArrayId, usize), Trap>
    ensures { place_of heap.now array index ≡ result }
{
    let Value::Array(array) = array else {
        return Err(Trap::BadType);
    };
    let Some(cells) = heap.cells(array) else {
        return Err(Trap::BadType);
    };
    let Some(index) = index else {
        return Err(Trap::BadType);
    };
    if index < 0 || cells.len() <= index as usize {
        return Err(Trap::Bounds);
    }
    Ok((array, index as usize))
}

/// Writes a value into the cell of an array at an index.
fn write(moment: &mut Moment, x: VarId, index: &Simple, value: Value)
    requires going { moment.old.end ≡ End.Cut }
    requires place { moment.old.frame.place + 1 < 2 ^ 64 }
    requires array { IsInScope (scope_of moment.old.frame.env) x }
    requires index { AllByRecursion (IsInScope (scope_of moment.old.frame.env)) (simple_variables index.now) }
    ensures writes { (program : ProgramView) (input : Listed Literal) → state_at program input moment.new
        ≡ writes (operand moment.old.frame.env (Simple.Var x)) (number_in (operand moment.old.frame.env index.now)) value (label_at (frame_lines program moment.old.frame) (moment.old.frame.place + 1)) (state_at program input moment.old) }
    ensures comes { (expr : Expr) → ComesTo (Store x index.now expr) ((moment.old.frame.place + 1) ∷ []) moment.old.frame.env moment.new moment.new.end }
    ensures stays { StaysInFrame moment.old moment.new }
    ensures turns { moment.new.turns ≡ moment.old.turns }
    ensures reads { moment.new.read ≡ moment.old.read }
{
    let array = *moment.frame.env.value(x);
    let index = number_at(&moment.frame.env, index);
    match place_of(&moment.heap, array, index) {
        Ok((array, place)) => {
            moment.heap.write(array, place, value);
            moment.frame.place += 1;
        }
        Err(trap) => moment.end = End::Trapped(trap),
    }
}

/// Writes the value of an expression into the cell of an array at an index.
#[inline(never)]
pub(crate) fn store(moment: &mut Moment, x: VarId, index: &Simple, expr: &Expr)
    requires going { moment.old.end ≡ End.Cut }
    requires place { moment.old.frame.place + 1 < 2 ^ 64 }
    requires array { IsInScope (scope_of moment.old.frame.env) x }
    requires index { AllByRecursion (IsInScope (scope_of moment.old.frame.env)) (simple_variables index.now) }
    requires values { HasValues moment.old.frame.env expr.now }
    ensures acts { (program : ProgramView) (input : Listed Literal) → ActsAs program input (Store x index.now expr.now) moment.old moment.new }
    ensures comes { ComesTo (Store x index.now expr.now) ((moment.old.frame.place + 1) ∷ []) moment.old.frame.env moment.new moment.new.end }
    ensures stays { StaysInFrame moment.old moment.new }
    ensures turns { moment.new.turns ≡ moment.old.turns }
    ensures reads { moment.new.read ≡ moment.old.read }
{
    let value = eval(&moment.frame.env, &moment.heap, expr);
    match value {
        Ok(value) => write(moment, x, index, value),
        Err(trap) => moment.end = End::Trapped(trap),
    }
}
