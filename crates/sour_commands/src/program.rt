ghost use Rattle.std.specs.Prelude.{◌≡◌, map};
ghost use Rattle.std.specs.String.{string_bytes};
ghost use Rattle.sour_commands.specs.declared.command.Command.{Command};
ghost use Rattle.sour_commands.specs.Words.{AskFor};
ghost use Rattle.sour_commands.specs.Due.{Serves};
ghost use Rattle.sour_commands.specs.Ports.{source_moves, sink_moves};

use crate::check::command_check;
use crate::command::Command;
use crate::fault::{Fault, write_fault};
use crate::run::command_run;
use crate::show::command_show;
use crate::words::command_of;
use sour_ports::{Sink, Source};
use std::alloc::Global;

/// Does what the words ask for, and gives the exit status. `words` are without the program's name.
///
/// | status | comes |
/// |---|---|
/// | 0 | each block ends in `end` or `stopped`, or there are none; `check` or `show` wrote all |
/// | 1 | a block ends in `trap`, and none in `cut` or `memory` |
/// | 2 | the words ask for nothing that there is: `fault words` |
/// | 3 | the text is no job, or too long: `fault text ..`; or isn't accepted: `fault scope ..` |
/// | 4 | the source failed: `fault read` |
/// | 5 | the sink failed; what it took is a front of what was due |
/// | 6 | there was no memory: `fault memory`, or all blocks, one or more of which end in `memory` |
/// | 7 | a block ends in `cut`, and none in `memory` |
pub fn sourir<S: Source, K: Sink>(
    alloc: Global,
    words: &[String],
    source: &mut S,
    sink: &mut K,
) -> u8
    ensures serves { Serves (map string_bytes words.now)
        (source_moves S.left S.faults source.old source.new)
        (sink_moves K.taken K.faults sink.old sink.new) result }

    // The words come first: where they ask for nothing that there is, the source isn't read.
    ensures unread { ((command : Command) → AskFor (map string_bytes words.now) command → ⊥)
        → source.new ≡ source.old }
{
    match command_of(words) {
        Some(Command::Run { budget }) => command_run(alloc, source, sink, budget),
        Some(Command::Check) => command_check(alloc, source, sink),
        Some(Command::Show) => command_show(alloc, source, sink),
        None => write_fault(sink, Fault::Words),
    }
}
