ghost use Rattle.sour_commands.specs.Answer.{output, IsGiven};
ghost use Rattle.sour_commands.specs.Ports.{sink_moves};

use sour_ports::{Sink, write_all};

/// The status where the sink failed.
pub const SINK_FAILED: u8 = 5;

/// Writes all that is due, and gives the status: this one, if the sink didn't fail.
pub fn write_output<K: Sink>(sink: &mut K, bytes: &[u8], status: u8) -> u8
    ensures { IsGiven (output status bytes.now)
        (sink_moves K.taken K.faults sink.old sink.new) result }
{
    match write_all(sink, bytes) {
        Ok(()) => status,
        Err(_) => SINK_FAILED,
    }
}
