ghost use Rattle.std.specs.Prelude.{◌≡◌};
ghost use Rattle.sour_commands.specs.declared.command.Command.TheVariants as command;
ghost use Rattle.sour_commands.specs.Accepted.{job_view};
ghost use Rattle.sour_commands.specs.Due.{ServesBy};
ghost use Rattle.sour_commands.specs.Writes.{counts_line};
ghost use Rattle.sour_commands.specs.Ports.{source_moves, sink_moves};

use crate::accept::accept;
use crate::fault::write_fault;
use crate::output::write_output;
use itoa::Buffer;
use sour_ports::{Sink, Source};
use sour_report::{ShortLine, put};
use sour_syntax::Job;
use std::alloc::Global;

/// The line that counts what a job has.
fn counts_of(job: &Job) -> ShortLine
    ensures { result.items ≡ counts_line (job_view job.now) }
{
    let functions = job.program.functions();
    let mut digits = Buffer::new();
    let mut line = ShortLine::new();
    put(&mut line, b"accepted functions ");
    put(&mut line, digits.format(functions.len()).as_bytes());
    put(&mut line, b" jobs ");
    put(&mut line, digits.format(job.plan.len()).as_bytes());
    put(&mut line, b" inputs ");
    put(&mut line, digits.format(job.inputs.len()).as_bytes());
    put(&mut line, b"\n");
    line
}

/// Serves the word `check`: writes what an accepted text has, and gives the status.
pub fn command_check<S: Source, K: Sink>(alloc: Global, source: &mut S, sink: &mut K) -> u8
    ensures { ServesBy command.Check (source_moves S.left S.faults source.old source.new)
        (sink_moves K.taken K.faults sink.old sink.new) result }
{
    match accept(alloc, source) {
        Ok(job) => write_output(sink, counts_of(&job).as_slice(), 0),
        Err(fault) => write_fault(sink, fault),
    }
}
