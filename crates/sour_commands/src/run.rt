ghost use Rattle.std.specs.Prelude.{◌≤◌};
ghost use Rattle.sour_commands.specs.declared.command.Command.TheVariants as command;
ghost use Rattle.sour_commands.specs.Due.{ServesBy};
ghost use Rattle.sour_commands.specs.Ports.{source_moves, sink_moves};

use crate::accept::accept;
use crate::fault::write_fault;
use crate::serving::write_blocks;
use sour_ports::{Sink, Source};
use std::alloc::Global;

/// Serves the word `run`: writes the block of each input, run by the text alone with a budget of
/// turns, and gives the status.
pub fn command_run<S: Source, K: Sink>(
    alloc: Global,
    source: &mut S,
    sink: &mut K,
    budget: u64,
) -> u8
    requires { budget ≤ 10000000 }
    ensures { ServesBy (command.Run budget) (source_moves S.left S.faults source.old source.new)
        (sink_moves K.taken K.faults sink.old sink.new) result }
{
    match accept(alloc, source) {
        Ok(job) => write_blocks(alloc, sink, &job, budget),
        Err(fault) => write_fault(sink, fault),
    }
}
