// A source over memory that never fails.

ghost use Rattle.std.specs.Prelude.{◌≡◌, ℕ, ◌≤◌, ◌++◌, Some, Ok, length, take, min, IfOk};
ghost use Rattle.sour_ports.specs.Told.{IsEmptyAtEnd};

use crate::copying::copy_front;
use crate::fault::Failed;
use crate::source::Source;
use std::marker::Model;

/// A source that gives bytes of memory, and never fails. Contracts see the bytes to come.
#[derive(Drop)]
pub struct SureSource {
    bytes: Vec<u8>,
    at: usize,
}

impl Model for SureSource {
    ghost use Rattle.std.specs.Prelude.{ℕ, ◌≤◌, List, drop, vec_len};

    ghost Value = { List ℕ };

    ghost view = { λ s. drop s.at s.bytes.items };

    ghost invariant = { λ s. s.at ≤ vec_len s.bytes };
}

impl SureSource {
    /// A source of these bytes.
    pub fn new(bytes: Vec<u8>) -> SureSource
        ensures { result ≡ bytes.items }
    {
        SureSource { bytes, at: 0 }
    }
}

impl Source for SureSource {
    ghost left = { λ bytes. Some bytes };

    ghost faults = { λ _. 0 };

    fn read(&mut self, into: &mut [u8]) -> Result<usize, Failed>
        // It gives all that there is room for.
        ensures amount { result ≡ Ok (min (length self.old) (length into.new)) }
        ensures given { IfOk result (λ n. self.old ≡ take n into.new ++ self.new) }

        // As each source.
        ensures bound { IfOk result (λ n. n ≤ length into.new) }
        ensures end { IfOk result (IsEmptyAtEnd (Some self.old) (length into.new)) }
    {
        let left = self.bytes.len() - self.at;
        let count = left.min(into.len());
        copy_front(&self.bytes[self.at..], into, count);
        self.at += count;
        Ok(count)
    }
}
