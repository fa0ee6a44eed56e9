// Where bytes go to.

ghost use Rattle.std.specs.Prelude.{ℕ, ◌<◌, ◌≤◌, List, Option, length, take, IfOk, OnErr};
ghost use Rattle.std.specs.Io.KnownBytes.{Appends, Keeps};
ghost use Rattle.sour_ports.specs.Cause.{HasCause};

use crate::fault::Failed;

/// A sink for bytes.
pub trait Sink {
    // The bytes taken, where the sink tells them.
    ghost taken: { Self → Option (List ℕ) };

    // How many calls failed. It stands still at the greatest `u64`.
    ghost faults: { Self → ℕ };

    /// Takes some of the first bytes of `from`, and answers how many: at least one where there is
    /// one.
    fn write(&mut self, from: &[u8]) -> Result<usize, Failed>
        ensures bound { IfOk result (λ n. n ≤ length from.now) }
        ensures progress { IfOk result (λ n. 0 < length from.now → 0 < n) }

        // Where the bytes are told, those that were taken come behind the earlier ones.
        ensures appended { IfOk result (λ n. Appends (taken self.old) (taken self.new) (take n from.now)) }

        // A fault takes nothing told, and has a cause.
        ensures kept { OnErr result (Keeps (taken self.old) (taken self.new)) }
        ensures cause { OnErr result (HasCause (faults self.old) (faults self.new)) }
        ensures count { faults self.old ≤ faults self.new };
}
