//! Leaving a frame of the language by an exit.

ghost use Rattle.std.specs.Prelude.{◌≡◌, [], Ok, Err, IfOk};
ghost use Rattle.std.specs.List.{AllByRecursion};
ghost use Rattle.sour_syntax.specs.Exits.{continuations, bound_values, exit_values};
ghost use Rattle.sour_syntax.specs.Targets.{IsNamed};
ghost use Rattle.sour_semantics.specs.Evaluation.{eval_each};
ghost use Rattle.sour_semantics.specs.Step.{landed, landed_frames};
ghost use Rattle.sour_machine.specs.Scope.{HasValuesOfEach};
ghost use Rattle.sour_machine.specs.Landing.{continuation, number_of, frames_in};
ghost use Rattle.sour_syntax.specs.declared.trap.Trap.{Trap};
ghost use Rattle.sour_machine.specs.declared.landing.LeaveStop.TheVariants.{Memory};

use crate::env::Env;
use crate::frame::Frame;
use crate::heap::Heap;
use crate::leaving::{bound_row, exit_code};
use sour_syntax::{Bind, Exit, Label, Program, Target, Trap, VarId};
use std::alloc::{AllocError, Global};

/// Why a frame wasn't left.
#[derive(Clone, Copy, Debug, PartialEq, Eq)]
pub enum LeaveStop {
    /// A value of a map traps.
    Trap(Trap),
    /// Memory was wanting.
    Memory,
}

impl From<AllocError> for LeaveStop {
    ghost use Rattle.std.specs.Prelude.{◌≡◌};

    ghost from_gives = { λ _ e. e ≡ Memory };

    fn from(_error: AllocError) -> LeaveStop {
        LeaveStop::Memory
    }
}

/// A frame that an exit makes, with the variable that waits for a result, if one does; or the first trap
/// of its map.
fn landed_frame(
    alloc: Global,
    program: &Program,
    frame: &Frame,
    heap: &Heap,
    target: &Target,
    binds: &[Bind],
    waits: Option<VarId>,
) -> Result<Result<Frame, Trap>, AllocError>
    requires values { HasValuesOfEach frame.now.environment (bound_values binds.now) }
    requires named { IsNamed program.now.functions [] (continuation target.now binds.now (number_of waits)) }
    ensures { IfOk result (λ made. landed program.now frame.now.code (continuation target.now binds.now (number_of waits)) (eval_each frame.now.environment heap.now (bound_values binds.now)) ≡ made) }
{
    let code = exit_code(*frame.code(), target.code);
    let Some(body) = code.body(program) else {
        unreachable!();
    };
    let count = body.variables().len();
    match bound_row(frame.env(), heap, binds, count, Env::new(alloc))? {
        Ok(env) => {
            let label = Label::from_bytes(Vec::from_slice(alloc, target.label.as_bytes())?);
            Ok(Ok(Frame::new(code, label, env, waits)))
        }
        Err(trap) => Ok(Err(trap)),
    }
}

/// The frames that an exit makes, the top one first; or the first trap of its maps.
fn frames_of(
    alloc: Global,
    program: &Program,
    frame: &Frame,
    heap: &Heap,
    exit: &Exit,
) -> Result<Result<Vec<Frame>, Trap>, AllocError>
    requires values { HasValuesOfEach frame.now.environment (exit_values exit.now) }
    requires named { AllByRecursion (IsNamed program.now.functions []) (continuations exit.now) }
    ensures { IfOk result (λ made. landed_frames program.now frame.now heap.now (continuations exit.now) ≡ frames_in made) }
{
    let mut frames = Vec::with_capacity(alloc, 1)?;
    let binds = exit.map.as_slice();
    match landed_frame(alloc, program, frame, heap, &exit.target, binds, None)? {
        Ok(top) => frames.push(top)?,
        Err(trap) => return Ok(Err(trap)),
    }
    for extra in exit.extras.as_slice() {
        let binds = extra.map.as_slice();
        let waits = Some(extra.result);
        match landed_frame(alloc, program, frame, heap, &extra.target, binds, waits)? {
            Ok(below) => frames.push(below)?,
            Err(trap) => return Ok(Err(trap)),
        }
    }
    Ok(Ok(frames))
}

/// The frames that take the place of a frame that leaves by an exit of its code, the top one first.
pub fn leave(
    alloc: Global,
    program: &Program,
    frame: &Frame,
    heap: &Heap,
    exit: &Exit,
) -> Result<Vec<Frame>, LeaveStop>
    requires values { HasValuesOfEach frame.now.environment (exit_values exit.now) }
    requires named { AllByRecursion (IsNamed program.now.functions []) (continuations exit.now) }
    ensures ok { IfOk result (λ frames. landed_frames program.now frame.now heap.now (continuations exit.now) ≡ Ok frames.items) }
    ensures trap { (trap : Trap) → result ≡ Err (LeaveStop.Trap trap) → landed_frames program.now frame.now heap.now (continuations exit.now) ≡ Err trap }
{
    match frames_of(alloc, program, frame, heap, exit)? {
        Ok(frames) => Ok(frames),
        Err(trap) => Err(LeaveStop::Trap(trap)),
    }
}
