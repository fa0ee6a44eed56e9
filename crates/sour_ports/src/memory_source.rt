// A source over memory, that fails where it is told to.

ghost use Rattle.std.specs.Prelude.{◌≡◌, ℕ, ◌≤◌, ◌↔◌, Some, [], ◌++◌, length, take, IsErr, IfOk, OnErr, Contains};
ghost use Rattle.sour_ports.specs.Cause.{HasCause, counted};
ghost use Rattle.sour_ports.specs.Told.{IsEmptyAtEnd};
ghost use Rattle.sour_ports.specs.MemorySource.{MemorySourceState, given_count, after_giving, after_fault};

use crate::copying::copy_front;
use crate::fault::Failed;
use crate::source::Source;
use std::marker::Model;

/// A source that gives bytes of memory in pieces, and fails at listed calls. Its numbers of calls and
/// of faults stand still at the greatest `u64`. Reading takes no memory.
#[derive(Drop)]
pub struct MemorySource {
    bytes: Vec<u8>,
    at: usize,
    piece: usize,
    fails: Vec<u64>,
    calls: u64,
    faults: u64,
}

impl Model for MemorySource {
    ghost use Rattle.std.specs.Prelude.{◌≤◌, drop, vec_len};
    ghost use Rattle.sour_ports.specs.MemorySource.{MemorySourceState};

    ghost Value = { MemorySourceState };

    ghost view = { λ s. record {
      left = drop s.at s.bytes.items;
      piece = s.piece;
      fails = s.fails.items;
      calls = s.calls;
      faults = s.faults;
    } };

    ghost invariant = { λ s. (s.at ≤ vec_len s.bytes) × (1 ≤ s.piece) };
}

impl MemorySource {
    /// A source of `bytes`, of which a call gives at most `piece`. It fails at the calls whose
    /// numbers, from 1, are in `fails`.
    pub fn new(bytes: Vec<u8>, piece: usize, fails: Vec<u64>) -> MemorySource
        requires { 1 ≤ piece }
        ensures { result ≡ record {
          left = bytes.items;
          piece = piece;
          fails = fails.items;
          calls = 0;
          faults = 0;
        } }
    {
        MemorySource {
            bytes,
            at: 0,
            piece,
            fails,
            calls: 0,
            faults: 0,
        }
    }
}

impl Source for MemorySource {
    ghost left = { λ s. Some s.left };

    ghost faults = { λ s. s.faults };

    fn read(&mut self, into: &mut [u8]) -> Result<usize, Failed>
        // It fails at the listed calls alone.
        ensures fails { IsErr result ↔ Contains self.old.fails (counted self.old.calls) }
        ensures failed { OnErr result (self.new ≡ after_fault self.old) }

        // Else it gives as much as the piece, the bytes left and the room allow.
        ensures amount { IfOk result (λ n. n ≡ given_count self.old (length into.new)) }
        ensures after { IfOk result (λ n. self.new ≡ after_giving self.old n) }

        // As each source.
        ensures bound { IfOk result (λ n. n ≤ length into.new) }
        ensures given { IfOk result (λ n. self.old.left ≡ take n into.new ++ self.new.left) }
        ensures end { IfOk result (IsEmptyAtEnd (Some self.old.left) (length into.new)) }
        ensures kept { OnErr result (self.new.left ≡ self.old.left) }
        ensures cause { OnErr result (HasCause self.old.faults self.new.faults) }
        ensures count { self.old.faults ≤ self.new.faults }
    {
        self.calls = self.calls.saturating_add(1);
        if self.fails.contains(&self.calls) {
            self.faults = self.faults.saturating_add(1);
            return Err(Failed);
        }
        let left = self.bytes.len() - self.at;
        let count = self.piece.min(left).min(into.len());
        copy_front(&self.bytes[self.at..], into, count);
        self.at += count;
        Ok(count)
    }
}
