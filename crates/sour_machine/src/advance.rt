ghost use Rattle.std.specs.Prelude.{◌≡◌, ◌≢◌, ◌<◌, ◌≤◌, List, Ok, Some, true, IsSome, IfOk, OnOk, OnErr};
ghost use Rattle.sour_syntax.specs.declared.literal.Literal.{Literal};
ghost use Rattle.sour_syntax.specs.Program.{IsProgram};
ghost use Rattle.sour_semantics.specs.Step.{body_at};
ghost use Rattle.sour_machine.specs.Frame.{code_of};
ghost use Rattle.sour_machine.specs.Moment.{run_at, Stands};
ghost use Rattle.sour_machine.specs.Run.{GoesOn, IsAtTurns, Tells};
ghost use Rattle.sour_machine.specs.Instruction.{StandsCrossing};
ghost use Rattle.sour_machine.specs.Want.{WantsMemory};

use crate::act::{Acted, act};
use crate::calls::cross;
use crate::moment::Moment;
use crate::report::End;
use crate::run::Advance;
use crate::spare_rows::SpareRows;
use sour_syntax::{Body, Literal, Program};
use std::alloc::{AllocError, Global};

/// Why a run stopped going on in its top frame.
#[derive(Clone, Copy, Debug, PartialEq, Eq)]
pub(crate) enum Pause {
    /// The run has ended.
    Ended,
    /// The turns were taken, and the next instruction would take another.
    MoreTurns,
    /// A frame is entered or left.
    Crossing,
}

/// Goes on with the run on this input in its top frame, whose body this is, until it has ended or would
/// take a turn beyond this number of them or stands at an instruction that enters a frame or leaves one.
fn advance_in_frame(
    alloc: Global,
    program: &Program,
    body: &Body,
    input: &[Literal],
    moment: &mut Moment,
    budget: u64,
) -> Result<Pause, AllocError>
    requires checked { IsProgram program.now }
    requires limit { budget ≤ 10000000 }
    requires within { moment.old.turns ≤ budget }
    requires going { moment.old.end ≡ End.Cut }
    requires stands { Stands program.now input.now moment.old }
    requires runs { body_at program.now (code_of moment.old.frame.code) ≡ Some body.now }
    ensures goes_on { GoesOn (run_at program.now input.now true moment.old) (run_at program.now input.now true moment.new) }
    ensures code { moment.new.frame.code ≡ moment.old.frame.code }
    ensures within { moment.new.turns ≤ budget }
    ensures turns { moment.old.turns ≤ moment.new.turns }
    ensures has_memory { moment.new.end ≢ End.Memory }
    ensures stands { Stands program.now input.now moment.new }
    ensures ended { result ≡ Ok Pause.Ended → IsSome (run_at program.now input.now true moment.new).state.ending }
    ensures more_turns { result ≡ Ok Pause.MoreTurns → (moment.new.end ≡ End.Cut) × IsAtTurns budget (run_at program.now input.now true moment.new) }
    ensures crossing { result ≡ Ok Pause.Crossing → StandsCrossing program.now budget moment.new }
    ensures wants { OnErr result ((moment.new.end ≡ End.Cut) × WantsMemory budget (run_at program.now input.now true moment.new)) }
{
    let lines = body.lines();
    let jumps = body.jumps();
    while let End::Cut = moment.end {
        let instr = &lines[moment.frame.place].instr;
        match act(alloc, program, moment, input, instr, jumps, budget)? {
            Acted::Inside => {}
            Acted::Crossing => return Ok(Pause::Crossing),
            Acted::MoreTurns => return Ok(Pause::MoreTurns),
        }
    }
    Ok(Pause::Ended)
}

/// The same, and then enters the frame or leaves it.
fn advance_frame(
    alloc: Global,
    program: &Program,
    input: &[Literal],
    moment: &mut Moment,
    rows: &mut SpareRows,
    budget: u64,
) -> Result<Pause, AllocError>
    requires checked { IsProgram program.now }
    requires limit { budget ≤ 10000000 }
    requires within { moment.old.turns ≤ budget }
    requires going { moment.old.end ≡ End.Cut }
    requires stands { Stands program.now input.now moment.old }
    ensures goes_on { GoesOn (run_at program.now input.now true moment.old) (run_at program.now input.now true moment.new) }
    ensures within { moment.new.turns ≤ budget }
    ensures has_memory { moment.new.end ≢ End.Memory }
    ensures stands { Stands program.now input.now moment.new }
    ensures ended { result ≡ Ok Pause.Ended → IsSome (run_at program.now input.now true moment.new).state.ending }
    ensures more_turns { result ≡ Ok Pause.MoreTurns → (moment.new.end ≡ End.Cut) × IsAtTurns budget (run_at program.now input.now true moment.new) }
    ensures crossing { result ≡ Ok Pause.Crossing → moment.old.turns < moment.new.turns }
    ensures wants { OnErr result ((moment.new.end ≡ End.Cut) × WantsMemory budget (run_at program.now input.now true moment.new)) }
{
    let Some(body) = moment.frame.code.body(program) else {
        unreachable!();
    };
    let pause = advance_in_frame(alloc, program, body, input, moment, budget)?;
    if pause == Pause::Crossing {
        let instr = &body.lines()[moment.frame.place].instr;
        cross(alloc, program, moment, rows, instr)?;
    }
    Ok(pause)
}

/// Goes on with the run on this input until it has ended or would take a turn beyond this number of them,
/// all of its turns counted.
#[inline(never)]
pub(crate) fn advance(
    alloc: Global,
    program: &Program,
    input: &[Literal],
    moment: &mut Moment,
    rows: &mut SpareRows,
    budget: u64,
) -> Advance
    requires limit { budget ≤ 10000000 }
    requires within { moment.old.turns ≤ budget }
    requires has_memory { moment.old.end ≢ End.Memory }
    requires stands { Stands program.now input.now moment.old }
    ensures goes_on { GoesOn (run_at program.now input.now true moment.old) (run_at program.now input.now true moment.new) }
    ensures within { moment.new.turns ≤ budget }
    ensures tells { Tells result budget (run_at program.now input.now true moment.new) }
    ensures stands { Stands program.now input.now moment.new }
    ensures memory { result ≡ Advance.Memory → WantsMemory budget (run_at program.now input.now true moment.new) }
{
    // What this ensures is that the program is checked.
    let _ = program.main();
    while let End::Cut = moment.end {
        match advance_frame(alloc, program, input, moment, rows, budget) {
            Ok(Pause::MoreTurns) => return Advance::MoreTurns,
            Ok(Pause::Ended) | Ok(Pause::Crossing) => {}
            Err(_) => {
                moment.end = End::Memory;
                return Advance::Memory;
            }
        }
    }
    Advance::Ended
}
