// A sink that never fails and keeps no bytes.

ghost use Rattle.std.specs.Prelude.{◌≡◌, ℕ, ◌+◌, None, Ok, length, min};

use crate::fault::Failed;
use crate::sink::Sink;
use std::marker::Model;

/// A sink that takes all bytes, never fails, and keeps only their number, which stands still at the
/// greatest `u64`. It tells no bytes. Contracts see the number.
#[derive(Drop)]
pub struct SureSink {
    count: u64,
}

impl Model for SureSink {
    ghost use Rattle.std.specs.Prelude.{ℕ};

    ghost Value = { ℕ };

    ghost view = { λ s. s.count };
}

impl SureSink {
    /// A sink that has taken nothing.
    pub fn new() -> SureSink
        ensures { result ≡ 0 }
    {
        SureSink { count: 0 }
    }

    /// How many bytes were taken so far.
    pub fn count(&self) -> u64
        ensures { result ≡ self.now }
    {
        self.count
    }
}

impl Sink for SureSink {
    ghost taken = { λ _. None };

    ghost faults = { λ _. 0 };

    fn write(&mut self, from: &[u8]) -> Result<usize, Failed>
        ensures amount { result ≡ Ok (length from.now) }
        ensures after { self.new ≡ min (self.old + length from.now) 18446744073709551615 }
    {
        self.count = self.count.saturating_add(from.len() as u64);
        Ok(from.len())
    }
}
