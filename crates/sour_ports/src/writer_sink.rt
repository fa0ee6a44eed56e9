// A sink over std's writer.

ghost use Rattle.std.specs.Prelude.{◌≡◌, ◌<◌, ◌≤◌, length, take, OnOk, OnErr, IfOk};
ghost use Rattle.std.specs.Io.KnownBytes.{Appends, Keeps};
ghost use Rattle.sour_ports.specs.Cause.{HasCause, counted};

use crate::fault::Failed;
use crate::sink::Sink;
use std::io::Write;

/// A sink that writes to std's writer, and tells what that tells. Each error of the writer is a
/// fault, and so is a write that takes none of some bytes.
#[derive(Drop)]
pub struct WriterSink<W> {
    inner: W,
    faults: u64,
}

impl<W: Write> WriterSink<W> {
    /// A sink that passes all on to `inner`.
    pub fn new(inner: W) -> WriterSink<W>
        ensures told { ⟦<WriterSink<W> as Sink>⟧.taken result ≡ W.contents inner }
        ensures sound { ⟦<WriterSink<W> as Sink>⟧.faults result ≡ 0 }
    {
        WriterSink { inner, faults: 0 }
    }
}

impl<W: Write> Sink for WriterSink<W> {
    ghost taken = { λ s. W.contents s.inner };

    ghost faults = { λ s. s.faults };

    fn write(&mut self, from: &[u8]) -> Result<usize, Failed>
        // It counts a fault exactly where it answers one.
        ensures sound { OnOk result (self.new.faults ≡ self.old.faults) }
        ensures failed { OnErr result (self.new.faults ≡ counted self.old.faults) }

        // As each sink.
        ensures bound { IfOk result (λ n. n ≤ length from.now) }
        ensures progress { IfOk result (λ n. 0 < length from.now → 0 < n) }
        ensures appended { IfOk result (λ n. Appends (W.contents self.old.inner) (W.contents self.new.inner) (take n from.now)) }
        ensures kept { OnErr result (Keeps (W.contents self.old.inner) (W.contents self.new.inner)) }
        ensures cause { OnErr result (HasCause self.old.faults self.new.faults) }
        ensures count { self.old.faults ≤ self.new.faults }
    {
        match self.inner.write(from) {
            Ok(n) if n > 0 || from.is_empty() => Ok(n),
            _ => {
                self.faults = self.faults.saturating_add(1);
                Err(Failed)
            }
        }
    }
}
