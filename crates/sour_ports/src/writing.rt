// Writing all of some bytes.

ghost use Rattle.std.specs.Prelude.{◌≡◌, ◌≤◌, [], OnOk, OnErr};
ghost use Rattle.std.specs.Io.KnownBytes.{Appends};
ghost use Rattle.sour_ports.specs.Cause.{HasCause};
ghost use Rattle.sour_ports.specs.Told.{AppendsFront};

use crate::fault::Failed;
use crate::sink::Sink;

/// Writes all of `bytes`. Where the sink fails, it has taken the first of them. No call is made for
/// an empty piece.
pub fn write_all<K: Sink>(sink: &mut K, bytes: &[u8]) -> Result<(), Failed>
    ensures all { OnOk result (Appends (K.taken sink.old) (K.taken sink.new) bytes.now) }
    ensures front { OnErr result (AppendsFront (K.taken sink.old) (K.taken sink.new) bytes.now) }
    ensures nothing { bytes.now ≡ [] → sink.new ≡ sink.old }
    ensures cause { OnErr result (HasCause (K.faults sink.old) (K.faults sink.new)) }
    ensures count { K.faults sink.old ≤ K.faults sink.new }
{
    let mut at = 0;
    while at < bytes.len() {
        at += sink.write(&bytes[at..])?;
    }
    Ok(())
}
