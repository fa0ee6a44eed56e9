//! The instructions that enter a frame or leave one.

ghost use Rattle.std.specs.Prelude.{◌≡◌, ◌⊎◌, ◌+◌, ◌^◌, ◌<◌, ◌≤◌, List, [], Some, false, length, map, IsTrue, OnOk, OnErr};
ghost use Rattle.std.specs.List.{AllByRecursion};
ghost use Rattle.std.specs.Option.{option_copied};
ghost use Rattle.sour_syntax.specs.declared.literal.FunId.{FunId};
ghost use Rattle.sour_syntax.specs.declared.literal.Literal.{Literal};
ghost use Rattle.sour_syntax.specs.declared.literal.Value.{Value};
ghost use Rattle.sour_syntax.specs.Exits.{continuations_of};
ghost use Rattle.sour_syntax.specs.Labels.{label_at};
ghost use Rattle.sour_syntax.specs.Program.{ProgramView};
ghost use Rattle.sour_syntax.specs.Scopes.{IsInScope, simple_variables};
ghost use Rattle.sour_syntax.specs.Targets.{IsNamed, Lands};
ghost use Rattle.sour_semantics.specs.Evaluation.{function_in};
ghost use Rattle.sour_semantics.specs.State.{text};
ghost use Rattle.sour_semantics.specs.Step.{text_version, is_anchor, body_at, takes_turn, enters, calls, returns};
ghost use Rattle.sour_semantics.specs.Validity.{scope_of};
ghost use Rattle.sour_machine.specs.Scope.{HasValues, HasValuesOfEach};
ghost use Rattle.sour_machine.specs.Frame.{code_of, frame_lines};
ghost use Rattle.sour_machine.specs.Moment.{state_at};
ghost use Rattle.sour_machine.specs.Run.{is_call};
ghost use Rattle.sour_semantics.specs.Shape.{IsCallOrReturn};
ghost use Rattle.sour_machine.specs.Instruction.{IsReady, ActsAs, LeadsOut, EntersOr, HasPlaces, Leaves, CrossesTo};
ghost use Rattle.sour_machine.specs.Leaving.{StandsAtInstr};

use crate::activation::{Activation, Waiting};
use crate::env::Env;
use crate::evaluation::{eval, operand};
use crate::evaluations::row_of;
use crate::frame::FrameCode;
use crate::leaving::leave_by;
use crate::moment::Moment;
use crate::report::End;
use crate::spare_rows::SpareRows;
use sour_syntax::{Body, Expr, FunId, Instr, Literal, Program, Simple, Trap, Value, VarId};
use std::alloc::{AllocError, Global};
use std::mem;

/// The function to which a value refers, if it refers to one.
fn function_in(value: Value) -> Option<FunId>
    ensures { function_in value ≡ result }
{
    match value {
        Value::Plain(Literal::Function(function)) => Some(function),
        _ => None,
    }
}

/// The body that a call of a value enters: that of the text version of the function to which it refers.
fn called_body<'a>(program: &'a Program, value: Value) -> Option<&'a Body>
    ensures { (function : FunId) → function_in value ≡ Some function → option_copied result ≡ body_at program.now (text function 0) }
{
    let function = function_in(value)?;
    FrameCode::Text(function, 0).body(program)
}

/// How many places the row of a call needs, whether or not the call enters the body.
fn room_for(body: Option<&Body>, arguments: &[Expr]) -> usize {
    match body {
        Some(body) => body.variables().len().max(arguments.len()),
        None => arguments.len(),
    }
}

/// Puts a frame on top that runs this code with this row, in which the parameters have their values. The
/// one that was on top waits at its next line. It takes a turn.
fn push_frame(
    moment: &mut Moment,
    x: VarId,
    code: FrameCode,
    body: &Body,
    row: Env,
) -> Result<(), AllocError>
    requires going { moment.old.end ≡ End.Cut }
    requires place { moment.old.frame.place + 1 < 2 ^ 64 }
    requires turns { moment.old.turns + 1 < 2 ^ 64 }
    requires calls { moment.old.calls + 1 < 2 ^ 64 }
    requires parameters { length row ≡ body.now.parameters }
    requires within { body.now.parameters ≤ length body.now.variables }
    ensures enters { OnOk result ((program : ProgramView) (input : List Literal) (values : List Value) → body_at program (code_of code) ≡ Some body.now → row ≡ map Some values
        → state_at program input moment.new ≡ enters x (code_of code) (Some body.now) values (label_at (frame_lines program moment.old.frame) (moment.old.frame.place + 1)) (takes_turn (state_at program input moment.old))) }
    ensures stands { OnOk result ((program : ProgramView) (values : List Value) → body_at program (code_of code) ≡ Some body.now → row ≡ map Some values
        → EntersOr program x moment.old moment.new moment.new.end) }
    ensures reads { moment.new.read ≡ moment.old.read }
    ensures err { OnErr result (moment.new ≡ moment.old) }
{
    let mut env = row;
    env.extend_to(body.variables().len())?;
    let callee = Activation {
        code,
        place: 0,
        env,
    };
    moment.below.push(&mut moment.frame, callee, x)?;
    moment.turns += 1;
    moment.calls += 1;
    Ok(())
}

/// Enters the text version of a function, whose body this is, with a row that has the values of the
/// arguments, if the value refers to a function that takes so many.
fn enter(
    program: &Program,
    moment: &mut Moment,
    x: VarId,
    value: Value,
    body: Option<&Body>,
    row: Env,
) -> Result<(), AllocError>
    requires going { moment.old.end ≡ End.Cut }
    requires place { moment.old.frame.place + 1 < 2 ^ 64 }
    requires turns { moment.old.turns + 1 < 2 ^ 64 }
    requires calls { moment.old.calls + 1 < 2 ^ 64 }
    requires body { (function : FunId) → function_in value ≡ Some function → option_copied body ≡ body_at program.now (text function 0) }
    ensures calls { OnOk result ((input : List Literal) (values : List Value) → row ≡ map Some values
        → state_at program.now input moment.new ≡ calls program.now text_version x (function_in value) values (label_at (frame_lines program.now moment.old.frame) (moment.old.frame.place + 1)) (takes_turn (state_at program.now input moment.old))) }
    ensures enters { OnOk result ((values : List Value) → row ≡ map Some values → EntersOr program.now x moment.old moment.new moment.new.end) }
    ensures reads { moment.new.read ≡ moment.old.read }
    ensures err { OnErr result (moment.new ≡ moment.old) }
{
    let Some(function) = function_in(value) else {
        trap_in_call(moment, Trap::NotFunction);
        return Ok(());
    };
    let Some(body) = body else {
        trap_in_call(moment, Trap::NotFunction);
        return Ok(());
    };
    if row.len() != body.parameters() as usize {
        trap_in_call(moment, Trap::ArgCount);
        return Ok(());
    }
    push_frame(moment, x, FrameCode::Text(function, 0), body, row)
}

/// Ends the run with a trap of a call, which takes its turn.
fn trap_in_call(moment: &mut Moment, trap: Trap)
    requires going { moment.old.end ≡ End.Cut }
    requires turns { moment.old.turns + 1 < 2 ^ 64 }
    ensures { moment.new ≡ record moment.old { turns = moment.old.turns + 1; end = End.Trapped trap } }
{
    moment.turns += 1;
    moment.end = End::Trapped(trap);
}

/// Calls what an operand refers to with the values of the arguments: it gets a row that a frame left
/// behind, if there is one. The row gets room for all variables at once, before the values are put in. Where
/// memory is wanting nothing is done.
#[inline(never)]
fn call(
    alloc: Global,
    program: &Program,
    moment: &mut Moment,
    rows: &mut SpareRows,
    x: VarId,
    callee: &Simple,
    arguments: &[Expr],
) -> Result<(), AllocError>
    requires going { moment.old.end ≡ End.Cut }
    requires place { moment.old.frame.place + 1 < 2 ^ 64 }
    requires turns { moment.old.turns + 1 < 2 ^ 64 }
    requires calls { moment.old.calls + 1 < 2 ^ 64 }
    requires callee { AllByRecursion (IsInScope (scope_of moment.old.frame.env)) (simple_variables callee.now) }
    requires arguments { HasValuesOfEach moment.old.frame.env arguments.now }
    ensures acts { OnOk result ((input : List Literal) → ActsAs program.now input (Instr.Call x callee.now arguments.now) moment.old moment.new) }
    ensures enters { OnOk result (EntersOr program.now x moment.old moment.new moment.new.end) }
    ensures reads { moment.new.read ≡ moment.old.read }
    ensures err { OnErr result (moment.new ≡ moment.old) }
{
    let value = operand(&moment.frame.env, callee);
    let body = called_body(program, value);
    let mut row = rows.take(alloc);
    row.reserve(room_for(body, arguments))?;
    match row_of(&moment.frame.env, &moment.heap, arguments, row)? {
        Ok(row) => enter(program, moment, x, value, body, row),
        Err(trap) => {
            trap_in_call(moment, trap);
            Ok(())
        }
    }
}

/// Ends the top frame with a value: the frame below gets it and goes on, or else the run ends with it.
/// The row of the frame is kept for another.
fn resume(moment: &mut Moment, rows: &mut SpareRows, value: Value)
    requires going { moment.old.end ≡ End.Cut }
    requires places { AllByRecursion HasPlaces moment.old.below }
    ensures returns { (program : ProgramView) (input : List Literal) → state_at program input moment.new
        ≡ returns value (state_at program input moment.old).frames (state_at program input moment.old) }
    ensures leaves { (program : ProgramView) → Leaves program moment.old moment.new }
    ensures has_memory { ¬ (moment.new.end ≡ End.Memory) }
    ensures reads { moment.new.read ≡ moment.old.read }
{
    match moment.below.pop() {
        Some(waiting) => {
            let Waiting { frame, result } = waiting;
            let ended = mem::replace(&mut moment.frame, frame);
            rows.give(ended.env);
            moment.frame.env.set(result, value);
        }
        None => moment.end = End::Returned(value),
    }
}

/// Returns the value of an expression from the top frame.
#[inline(never)]
fn return_value(moment: &mut Moment, rows: &mut SpareRows, expr: &Expr)
    requires going { moment.old.end ≡ End.Cut }
    requires turns { moment.old.turns + 1 < 2 ^ 64 }
    requires values { HasValues moment.old.frame.env expr.now }
    requires places { AllByRecursion HasPlaces moment.old.below }
    ensures acts { (program : ProgramView) (input : List Literal) → ActsAs program input (Instr.Return expr.now) moment.old moment.new }
    ensures leaves { (program : ProgramView) → Leaves program moment.old moment.new }
    ensures has_memory { ¬ (moment.new.end ≡ End.Memory) }
    ensures reads { moment.new.read ≡ moment.old.read }
{
    moment.turns += 1;
    match eval(&moment.frame.env, &moment.heap, expr) {
        Ok(value) => resume(moment, rows, value),
        Err(trap) => moment.end = End::Trapped(trap),
    }
}

/// Carries out a `call` or a `return`, or leaves by the exit of an assume whose predicates lead there. Where
/// memory is wanting nothing is done; a `return` never answers that it is.
pub(crate) fn cross(
    alloc: Global,
    program: &Program,
    moment: &mut Moment,
    rows: &mut SpareRows,
    instr: &Instr,
) -> Result<(), AllocError>
    requires going { moment.old.end ≡ End.Cut }
    requires place { moment.old.frame.place + 1 < 2 ^ 64 }
    requires turns { moment.old.turns + 1 < 2 ^ 64 }
    requires calls { moment.old.calls + 1 < 2 ^ 64 }
    requires crossing { IsCallOrReturn instr.now ⊎ LeadsOut instr.now moment.old.frame.env moment.old.heap }
    requires ready { IsReady instr.now moment.old.frame.env }
    requires stands { StandsAtInstr program.now moment.old.frame instr.now }
    requires no_anchor { is_anchor (label_at (frame_lines program.now moment.old.frame) moment.old.frame.place) ≡ false }
    requires named { AllByRecursion (IsNamed program.now.functions []) (continuations_of instr.now) }
    requires lands { AllByRecursion (Lands program.now.functions []) (continuations_of instr.now) }
    requires places { AllByRecursion HasPlaces moment.old.below }
    ensures acts { OnOk result ((input : List Literal) → ActsAs program.now input instr.now moment.old moment.new) }
    ensures stands { OnOk result (CrossesTo program.now instr.now moment.old moment.new) }
    ensures has_memory { ¬ (moment.new.end ≡ End.Memory) }
    ensures reads { moment.new.read ≡ moment.old.read }
    ensures err { OnErr result (moment.new ≡ moment.old) }
    ensures wants { OnErr result (IsTrue (is_call instr.now) ⊎ LeadsOut instr.now moment.old.frame.env moment.old.heap) }
{
    match instr {
        Instr::Call(x, callee, arguments) => {
            call(
                alloc,
                program,
                moment,
                rows,
                *x,
                callee,
                arguments.as_slice(),
            )?;
        }
        Instr::Return(expr) => return_value(moment, rows, expr),
        Instr::Assume(_, exit) => leave_by(alloc, program, moment, rows, exit)?,
        _ => {}
    }
    Ok(())
}
