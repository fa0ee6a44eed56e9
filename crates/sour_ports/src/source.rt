// Where bytes come from.

ghost use Rattle.std.specs.Prelude.{ℕ, ◌≤◌, List, Option, length, take, IfOk, OnErr};
ghost use Rattle.std.specs.Io.KnownBytes.{Consumes, Keeps};
ghost use Rattle.sour_ports.specs.Cause.{HasCause};
ghost use Rattle.sour_ports.specs.Told.{IsEmptyAtEnd};

use crate::fault::Failed;

/// A source of bytes.
pub trait Source {
    // The bytes to come, where the source tells them.
    ghost left: { Self → Option (List ℕ) };

    // How many calls failed. It stands still at the greatest `u64`.
    ghost faults: { Self → ℕ };

    /// Puts the next bytes at the front of `into`, and answers how many: fewer than there is room
    /// for where the source gives no more at once, and 0 for an `into` with room at the end alone.
    fn read(&mut self, into: &mut [u8]) -> Result<usize, Failed>
        ensures bound { IfOk result (λ n. n ≤ length into.new) }

        // Where the bytes are told, those that were given are the first, and are taken.
        ensures given { IfOk result (λ n. Consumes (left self.old) (left self.new) (take n into.new)) }
        ensures end { IfOk result (IsEmptyAtEnd (left self.old) (length into.new)) }

        // A fault takes nothing told, and has a cause.
        ensures kept { OnErr result (Keeps (left self.old) (left self.new)) }
        ensures cause { OnErr result (HasCause (faults self.old) (faults self.new)) }
        ensures count { faults self.old ≤ faults self.new };
}
