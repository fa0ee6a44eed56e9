//! Leaving a frame by an exit.

ghost use Rattle.std.specs.Prelude.{◌≡◌, ℕ, ◌+◌, ◌^◌, ◌<◌, List, [], ◌++◌, Option, None, Contains, map, reverse, IfOk, IfSome, OnOk, OnErr};
ghost use Rattle.std.specs.List.{AllByRecursion};
ghost use Rattle.sour_syntax.specs.declared.exit.Target.{Target};
ghost use Rattle.sour_syntax.specs.declared.expression.Expr.{Expr};
ghost use Rattle.sour_syntax.specs.declared.instruction.Instr.TheVariants.{Assume};
ghost use Rattle.sour_syntax.specs.declared.literal.Literal.{Literal};
ghost use Rattle.sour_syntax.specs.ExitPlaces.{LeadsTo};
ghost use Rattle.sour_syntax.specs.Exits.{extra_continuation, continuations, bound_names, bound_values, extras_values, exit_values};
ghost use Rattle.sour_syntax.specs.Labels.{labels_of, IsPlaceOf};
ghost use Rattle.sour_syntax.specs.Targets.{IsNamed, Lands};
ghost use Rattle.sour_semantics.specs.Evaluation.{eval_each};
ghost use Rattle.sour_semantics.specs.Step.{exit_code, landed, landed_frames, leaves, takes_turn};
ghost use Rattle.sour_machine.specs.Scope.{HasValuesOfEach};
ghost use Rattle.sour_machine.specs.Frame.{code_of, frame_at, StandsAtLine, StandsWaiting};
ghost use Rattle.sour_machine.specs.Moment.{state_at};
ghost use Rattle.sour_machine.specs.Instruction.{LeavesBy};
ghost use Rattle.sour_machine.specs.Leaving.{bound_row, StandsAtInstr, LeavesFor, LeavesForEach};
ghost use Rattle.sour_machine.specs.Landing.{continuation, made_frame, made_waiting, made_frames, StandsFor};

use crate::activation::{Activation, Waiting};
use crate::env::Env;
use crate::evaluation::eval;
use crate::frame::FrameCode;
use crate::heap::Heap;
use crate::moment::Moment;
use crate::report::End;
use crate::spare_rows::SpareRows;
use sour_syntax::{Bind, Body, Code, Exit, Extra, Label, List, Program, Target, Trap};
use std::alloc::{AllocError, Global};
use std::mem;

/// The frames that an exit makes.
#[derive(Drop)]
pub(crate) struct Landed {
    pub(crate) top: Activation,
    /// The frames below it, the one next to it first.
    pub(crate) extras: List<Waiting>,
}

/// A row of so many variables, in which those that a map names have its values; or the first trap. It is
/// made of a row without variables.
pub(crate) fn bound_row(
    env: &Env,
    heap: &Heap,
    binds: &[Bind],
    count: usize,
    row: Env,
) -> Result<Result<Env, Trap>, AllocError>
    requires values { HasValuesOfEach env.now (bound_values binds.now) }
    requires names { AllByRecursion (λ x. x.0 < count) (bound_names binds.now) }
    requires empty { row ≡ [] }
    ensures { IfOk result (λ filled. bound_row count (bound_names binds.now) (eval_each env.now heap.now (bound_values binds.now)) ≡ filled) }
{
    let mut row = row;
    row.extend_to(count)?;
    for bind in binds {
        match eval(env, heap, &bind.value) {
            Ok(value) => row.set(bind.name, value),
            Err(trap) => return Ok(Err(trap)),
        }
    }
    Ok(Ok(row))
}

/// The code that an exit of this code names.
pub(crate) fn exit_code(code: FrameCode, target: Code) -> FrameCode
    ensures { exit_code (code_of code) target ≡ code_of result }
{
    match target {
        Code::Text(function, version) => FrameCode::Text(function, version),
        Code::Made(_) => code,
    }
}

/// The place to which the frame with this number goes, of those that a frame makes by leaving, if the
/// program keeps it.
fn kept_place(program: &Program, frame: &Activation, number: usize) -> Option<usize>
    ensures { IfSome result (λ place. (target : Target) → LeavesFor program.now frame.now number target → LeadsTo program.now.functions target place) }
{
    let FrameCode::Text(function, version) = frame.code;
    program.exit_place(function, version, frame.place, number)
}

/// The place of a label of a body, which is looked up only where it isn't known.
fn place_in(body: &Body, label: &Label, known: Option<usize>) -> usize
    requires there { Contains (labels_of body.now.lines) label.now }
    requires known { IfSome known (IsPlaceOf body.now.lines label.now) }
    ensures { IsPlaceOf body.now.lines label.now result }
{
    if let Some(place) = known {
        return place;
    }
    let Some(place) = body.place(label) else {
        unreachable!();
    };
    place
}

/// The frame with this number of those that an exit makes out of another frame; or the first trap of its
/// map.
fn land(
    alloc: Global,
    program: &Program,
    frame: &Activation,
    heap: &Heap,
    rows: &mut SpareRows,
    number: usize,
    target: &Target,
    binds: &[Bind],
) -> Result<Result<Activation, Trap>, AllocError>
    requires leaves { LeavesFor program.now frame.now number target.now }
    requires values { HasValuesOfEach frame.now.env (bound_values binds.now) }
    requires named { IsNamed program.now.functions [] (continuation target.now binds.now None) }
    ensures lands { IfOk result (λ made. (waits : Option ℕ)
        → landed program.now (code_of frame.now.code) (continuation target.now binds.now waits) (eval_each frame.now.env heap.now (bound_values binds.now)) ≡ made_frame program.now waits made) }
    ensures stands { IfOk result (λ made. IfOk made (λ landed. (waits : Option ℕ)
        → IsNamed program.now.functions [] (continuation target.now binds.now waits) → Lands program.now.functions [] (continuation target.now binds.now waits)
        → StandsFor program.now waits landed)) }
{
    let code = exit_code(frame.code, target.code);
    let Some(body) = code.body(program) else {
        unreachable!();
    };
    let known = kept_place(program, frame, number);
    let place = place_in(body, &target.label, known);
    let count = body.variables().len();
    match bound_row(&frame.env, heap, binds, count, rows.take(alloc))? {
        Ok(env) => Ok(Ok(Activation { code, place, env })),
        Err(trap) => Ok(Err(trap)),
    }
}

/// The further frames that an exit makes, in order; or the first trap of their maps.
fn land_extras(
    alloc: Global,
    program: &Program,
    frame: &Activation,
    heap: &Heap,
    rows: &mut SpareRows,
    extras: &[Extra],
) -> Result<Result<List<Waiting>, Trap>, AllocError>
    requires leaves { LeavesForEach program.now frame.now extras.now }
    requires values { HasValuesOfEach frame.now.env (extras_values extras.now) }
    requires named { AllByRecursion (IsNamed program.now.functions []) (map extra_continuation extras.now) }
    requires lands { AllByRecursion (Lands program.now.functions []) (map extra_continuation extras.now) }
    ensures lands { IfOk result (λ made. landed_frames program.now (frame_at program.now frame.now None) heap.now (map extra_continuation extras.now) ≡ made_waiting program.now made) }
    ensures stand { IfOk result (λ made. IfOk made (λ waiting. AllByRecursion (StandsWaiting program.now) waiting)) }
{
    let mut made = Vec::with_capacity(alloc, extras.len())?;
    for (number, extra) in extras.iter().enumerate() {
        let binds = extra.map.as_slice();
        match land(
            alloc,
            program,
            frame,
            heap,
            rows,
            number + 1,
            &extra.target,
            binds,
        )? {
            Ok(landed) => made.push(Waiting {
                frame: landed,
                result: extra.result,
            })?,
            Err(trap) => return Ok(Err(trap)),
        }
    }
    Ok(Ok(List::from_vec(made)))
}

/// The frames that an exit makes out of a frame; or the first trap of its maps.
fn land_exit(
    alloc: Global,
    program: &Program,
    frame: &Activation,
    heap: &Heap,
    rows: &mut SpareRows,
    exit: &Exit,
) -> Result<Result<Landed, Trap>, AllocError>
    requires stands { (es : List Expr) × StandsAtInstr program.now frame.now (Assume es exit.now) }
    requires values { HasValuesOfEach frame.now.env (exit_values exit.now) }
    requires named { AllByRecursion (IsNamed program.now.functions []) (continuations exit.now) }
    requires lands { AllByRecursion (Lands program.now.functions []) (continuations exit.now) }
    ensures lands { IfOk result (λ made. landed_frames program.now (frame_at program.now frame.now None) heap.now (continuations exit.now) ≡ made_frames program.now made) }
    ensures top { IfOk result (λ made. IfOk made (λ landed. StandsAtLine program.now landed.top None)) }
    ensures extras { IfOk result (λ made. IfOk made (λ landed. AllByRecursion (StandsWaiting program.now) landed.extras)) }
{
    let binds = exit.map.as_slice();
    let top = match land(alloc, program, frame, heap, rows, 0, &exit.target, binds)? {
        Ok(top) => top,
        Err(trap) => return Ok(Err(trap)),
    };
    match land_extras(alloc, program, frame, heap, rows, exit.extras.as_slice())? {
        Ok(extras) => Ok(Ok(Landed { top, extras })),
        Err(trap) => Ok(Err(trap)),
    }
}

/// Puts the frames of an exit in the place of the top one, whose row is kept for another. It takes a
/// turn.
fn replace_top(moment: &mut Moment, rows: &mut SpareRows, landed: Landed) -> Result<(), AllocError>
    requires turns { moment.old.turns + 1 < 2 ^ 64 }
    ensures ok { OnOk result (moment.new ≡ record moment.old { frame = landed.top; below = moment.old.below ++ reverse landed.extras; turns = moment.old.turns + 1 }) }
    ensures err { OnErr result (moment.new ≡ moment.old) }
{
    let Landed { top, extras } = landed;
    if extras.len() > 0 {
        moment.below.append_reversed(extras.into_vec())?;
    }
    let left = mem::replace(&mut moment.frame, top);
    rows.give(left.env);
    moment.turns += 1;
    Ok(())
}

/// Leaves the top frame by the exit of an `assume` of the text: its frames take the place of the top one, or
/// the first trap of its maps ends the run. It takes a turn. Where memory is wanting nothing is done.
#[inline(never)]
pub(crate) fn leave_by(
    alloc: Global,
    program: &Program,
    moment: &mut Moment,
    rows: &mut SpareRows,
    exit: &Exit,
) -> Result<(), AllocError>
    requires going { moment.old.end ≡ End.Cut }
    requires turns { moment.old.turns + 1 < 2 ^ 64 }
    requires stands { (es : List Expr) × StandsAtInstr program.now moment.old.frame (Assume es exit.now) }
    requires values { HasValuesOfEach moment.old.frame.env (exit_values exit.now) }
    requires named { AllByRecursion (IsNamed program.now.functions []) (continuations exit.now) }
    requires lands { AllByRecursion (Lands program.now.functions []) (continuations exit.now) }
    ensures leaves { OnOk result ((input : List Literal) → state_at program.now input moment.new
        ≡ leaves program.now (frame_at program.now moment.old.frame None) exit.now (takes_turn (state_at program.now input moment.old))) }
    ensures stands { OnOk result (LeavesBy program.now moment.old moment.new) }
    ensures has_memory { ¬ (moment.new.end ≡ End.Memory) }
    ensures reads { moment.new.read ≡ moment.old.read }
    ensures err { OnErr result (moment.new ≡ moment.old) }
{
    match land_exit(alloc, program, &moment.frame, &moment.heap, rows, exit)? {
        Ok(landed) => replace_top(moment, rows, landed),
        Err(trap) => {
            moment.turns += 1;
            moment.end = End::Trapped(trap);
            Ok(())
        }
    }
}
