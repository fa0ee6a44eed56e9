ghost use Rattle.std.specs.Prelude.{◌≡◌, ◌≢◌, ◌+◌, ◌≤◌, ◌↔◌, ◌⊎◌, true, false, length, IsTrue, IfOk};
ghost use Rattle.sour_semantics.specs.Run.{start};
ghost use Rattle.sour_machine.specs.End.{ending_of, returned_cells};
ghost use Rattle.sour_machine.specs.Run.{GoesOn, Tells, IsAtRest, main_entered};
ghost use Rattle.sour_machine.specs.Want.{WantsMemory};

use crate::activation::Activation;
use crate::advance::advance;
use crate::heap::Heap;
use crate::moment::Moment;
use crate::output::Output;
use crate::report::{End, Report};
use crate::spare_rows::SpareRows;
use crate::waiting_frames::WaitingFrames;
use sour_syntax::{List, Literal, Program};
use std::alloc::{AllocError, Global};
use std::marker::Model;
use std::sync::Arc;

/// Why a run stopped going on.
#[derive(Clone, Copy, Debug, PartialEq, Eq)]
pub enum Advance {
    /// The run has ended.
    Ended,
    /// The turns were taken, and the next instruction would take another.
    MoreTurns,
    /// Memory was wanting.
    Memory,
}

/// A run of a program on an input.
///
/// Where memory is wanting, the run stays as it was before the instruction that wanted it, and from
/// then on it answers `Memory` alone.
#[derive(Drop)]
pub struct Run {
    program: Arc<Program>,
    input: List<Literal>,
    /// Whether it has entered `main`.
    entered: bool,
    moment: Moment,
    alloc: Global,
    rows: SpareRows,
}

impl Model for Run {
    ghost use Rattle.sour_machine.specs.Run.{RunView};

    ghost Value = { RunView };

    ghost use Rattle.sour_machine.specs.Moment.{run_at, IsRun};

    ghost view = { λ run. run_at run.program.value run.input run.entered run.moment };

    ghost invariant = { λ run. IsRun run.program.value run.input run.entered run.moment };
}

impl Run {
    /// A run that hasn't entered `main` yet. It keeps a copy of the input.
    pub fn start(alloc: Global, program: Arc<Program>, input: &[Literal]) -> Result<Run, AllocError>
        ensures { IfOk result (λ run. run ≡ record {
          program = program.value;
          input = input.now;
          state = start program.value input.now;
          entered = false;
          wanting = false;
          calls = 0;
        }) }
    {
        let input = List::from_vec(Vec::from_slice(alloc, input)?);
        let frame = Activation::of_main(alloc, &program)?;
        let moment = Moment {
            frame,
            below: WaitingFrames::new(alloc),
            heap: Heap::new(alloc),
            read: 0,
            output: Output::new(alloc),
            turns: 0,
            calls: 0,
            end: End::Cut,
        };
        Ok(Run {
            program,
            input,
            entered: false,
            moment,
            alloc,
            rows: SpareRows::new(alloc),
        })
    }

    /// The turns taken so far.
    pub fn turns(&self) -> u64
        ensures { result ≡ self.now.state.turns }
    {
        self.moment.turns
    }

    /// Enters `main`, if that hasn't been done.
    fn enter_main(&mut self)
        ensures same { self.new ≡ record self.old { entered = true; calls = self.old.calls + main_entered self.old.entered true } }
    {
        if !self.entered {
            self.entered = true;
            self.moment.calls += 1;
        }
    }

    /// Goes on with `turns` further turns. It enters `main` first, if that hasn't been done, which takes
    /// no turn. Each call enters the text version of its function.
    pub fn advance_text(&mut self, turns: u64) -> Advance
        requires { self.old.state.turns + turns ≤ 10000000 }
        ensures goes_on { GoesOn self.old self.new }
        ensures within { self.new.state.turns ≤ self.old.state.turns + turns }
        ensures tells { Tells result (self.old.state.turns + turns) self.new }
        ensures rests { IsAtRest self.new }

        // Want of memory is for good.
        ensures wanting { IsTrue self.old.wanting → self.new ≡ self.old }

        // No other instructions want memory than those that print, make an array or call, and an assume whose
        // predicates lead to its exit; and none wants any whose turn is not left.
        ensures memory { result ≡ Advance.Memory → IsTrue self.old.wanting ⊎ WantsMemory (self.old.state.turns + turns) self.new }
    {
        if let End::Memory = self.moment.end {
            return Advance::Memory;
        }
        self.enter_main();
        let budget = self.moment.turns + turns;
        advance(
            self.alloc,
            &self.program,
            self.input.as_slice(),
            &mut self.moment,
            &mut self.rows,
            budget,
        )
    }

    /// The report on this run, as that of the input with this number, counted from 1. It takes no memory.
    pub fn finish(self, input: u64) -> Report
        requires { IsAtRest self }
        ensures input { result.input ≡ input }
        ensures output { result.output ≡ self.state.output }
        ensures memory { (result.end ≡ End.Memory) ↔ IsTrue self.wanting }
        ensures end { ending_of result.end ≡ self.state.ending }
        ensures read { result.read + length self.state.rest ≡ length self.input }
        ensures turns { result.turns ≡ self.state.turns }
        ensures calls { result.calls ≡ self.calls }
        ensures cells { result.cells ≡ returned_cells self.state.heap result.end }
    {
        let Run { moment, .. } = self;
        let cells = moment.cells_returned();
        let Moment {
            read,
            output,
            turns,
            calls,
            end,
            ..
        } = moment;
        Report {
            input,
            output: output.into_list(),
            end,
            read: read as u64,
            turns,
            calls,
            cells,
        }
    }
}
