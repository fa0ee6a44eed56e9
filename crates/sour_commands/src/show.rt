ghost use Rattle.sour_commands.specs.declared.command.Command.TheVariants as command;
ghost use Rattle.sour_commands.specs.Due.{ServesBy};
ghost use Rattle.sour_commands.specs.Ports.{source_moves, sink_moves};

use crate::accept::accept;
use crate::fault::{Fault, write_fault};
use crate::output::write_output;
use sour_ports::{Sink, Source};
use sour_printing::print_program;
use std::alloc::Global;

/// Serves the word `show`: writes the canonical text of the program of an accepted text, and gives
/// the status. That text is made whole before any of it is written.
pub fn command_show<S: Source, K: Sink>(alloc: Global, source: &mut S, sink: &mut K) -> u8
    ensures { ServesBy command.Show (source_moves S.left S.faults source.old source.new)
        (sink_moves K.taken K.faults sink.old sink.new) result }
{
    let job = match accept(alloc, source) {
        Ok(job) => job,
        Err(fault) => return write_fault(sink, fault),
    };
    match print_program(alloc, &job.program) {
        Ok(text) => write_output(sink, text.as_slice(), 0),
        Err(_) => write_fault(sink, Fault::Memory),
    }
}
