ghost use Rattle.std.specs.Prelude.{◌≡◌, ◌≤◌, ℕ, List, length};
ghost use Rattle.sour_semantics.specs.Block.{BlockEnd, RunShows, RunShowsAll};
ghost use Rattle.sour_report.specs.Report.{end_kind, report_block};
ghost use Rattle.sour_commands.specs.Answer.{output, IsGiven};
ghost use Rattle.sour_commands.specs.Accepted.{job_view};
ghost use Rattle.sour_commands.specs.Writes.{WritesBlocks};
ghost use Rattle.sour_commands.specs.Ports.{sink_moves};

use crate::output::SINK_FAILED;
use crate::tally::Tally;
use sour_machine::{Report, Run};
use sour_ports::Sink;
use sour_report::write_block;
use sour_syntax::{Job, Literal, Program};
use std::alloc::Global;
use std::sync::Arc;

/// Runs the program on one input.
fn run_input(
    alloc: Global,
    program: &Arc<Program>,
    input: &[Literal],
    number: u64,
    budget: u64,
) -> Report
    requires { budget ≤ 10000000 }
    ensures { RunShows program.now.value input.now number budget
        (end_kind result.end) (report_block program.now.value result) }
{
    let Ok(program) = program.clone() else {
        return Report::wanting(alloc, number);
    };
    let Ok(mut run) = Run::start(alloc, program, input) else {
        return Report::wanting(alloc, number);
    };
    run.advance_text(budget);
    run.finish(number)
}

/// Runs each input and writes its block, in order, and gives the status.
pub fn write_blocks<K: Sink>(alloc: Global, sink: &mut K, job: &Job, budget: u64) -> u8
    requires { budget ≤ 10000000 }
    ensures { (status : ℕ) × (bytes : List ℕ) × WritesBlocks budget (job_view job.now) status bytes
        × IsGiven (output status bytes) (sink_moves K.taken K.faults sink.old sink.new) result }
{
    let mut tally = Tally::new();
    for (place, input) in job.inputs.as_slice().iter().enumerate() {
        let number = place as u64 + 1;
        let report = run_input(alloc, &job.program, input.as_slice(), number, budget);
        let Ok(()) = write_block(sink, &job.program, &report) else {
            return SINK_FAILED;
        };
        tally.count(report.end);
    }
    tally.status()
}
