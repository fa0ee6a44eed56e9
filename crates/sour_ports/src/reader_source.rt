// A source over std's reader.

ghost use Rattle.std.specs.Prelude.{◌≡◌, ◌≤◌, length, take, OnOk, OnErr, IfOk};
ghost use Rattle.std.specs.Io.KnownBytes.{Consumes, Keeps};
ghost use Rattle.sour_ports.specs.Cause.{HasCause, counted};
ghost use Rattle.sour_ports.specs.Told.{IsEmptyAtEnd};

use crate::fault::Failed;
use crate::source::Source;
use std::io::Read;

/// A source that reads from std's reader, and tells what that tells. Each error of the reader is a
/// fault.
#[derive(Drop)]
pub struct ReaderSource<R> {
    inner: R,
    faults: u64,
}

impl<R: Read> ReaderSource<R> {
    /// A source of what `inner` gives.
    pub fn new(inner: R) -> ReaderSource<R>
        ensures told { ⟦<ReaderSource<R> as Source>⟧.left result ≡ R.remaining inner }
        ensures sound { ⟦<ReaderSource<R> as Source>⟧.faults result ≡ 0 }
    {
        ReaderSource { inner, faults: 0 }
    }
}

impl<R: Read> Source for ReaderSource<R> {
    ghost left = { λ s. R.remaining s.inner };

    ghost faults = { λ s. s.faults };

    fn read(&mut self, into: &mut [u8]) -> Result<usize, Failed>
        // It counts a fault exactly where it answers one.
        ensures sound { OnOk result (self.new.faults ≡ self.old.faults) }
        ensures failed { OnErr result (self.new.faults ≡ counted self.old.faults) }

        // As each source.
        ensures bound { IfOk result (λ n. n ≤ length into.new) }
        ensures given { IfOk result (λ n. Consumes (R.remaining self.old.inner) (R.remaining self.new.inner) (take n into.new)) }
        ensures end { IfOk result (IsEmptyAtEnd (R.remaining self.old.inner) (length into.new)) }
        ensures kept { OnErr result (Keeps (R.remaining self.old.inner) (R.remaining self.new.inner)) }
        ensures cause { OnErr result (HasCause self.old.faults self.new.faults) }
        ensures count { self.old.faults ≤ self.new.faults }
    {
        match self.inner.read(into) {
            Ok(n) => Ok(n),
            Err(_) => {
                self.faults = self.faults.saturating_add(1);
                Err(Failed)
            }
        }
    }
}
