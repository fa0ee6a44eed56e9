// A sink in memory, that fails where it is told to.

ghost use Rattle.std.specs.Prelude.{◌≡◌, ℕ, ◌<◌, ◌≤◌, ◌↔◌, Some, [], ◌++◌, length, take, IsErr, IfOk, OnErr};
ghost use Rattle.sour_ports.specs.Cause.{HasCause};
ghost use Rattle.sour_ports.specs.MemorySink.{MemorySinkState, FailsNext, taken_count, after_taking, after_fault};

use crate::Memory;
use crate::fault::Failed;
use crate::sink::Sink;
use std::alloc::Global;
use std::marker::Model;

/// A sink that keeps bytes in memory, takes them in pieces, and fails at listed calls and where
/// its room is taken. Its numbers of calls and of faults stand still at the greatest `u64`.
#[derive(Drop)]
pub struct MemorySink {
    kept: Vec<u8>,
    room: usize,
    piece: usize,
    fails: Vec<u64>,
    calls: u64,
    faults: u64,
}

impl Model for MemorySink {
    ghost use Rattle.std.specs.Prelude.{◌≤◌, vec_len, vec_capacity};
    ghost use Rattle.sour_ports.specs.MemorySink.{MemorySinkState};

    ghost Value = { MemorySinkState };

    ghost view = { λ s. record {
      taken = s.kept.items;
      room = s.room;
      piece = s.piece;
      fails = s.fails.items;
      calls = s.calls;
      faults = s.faults;
    } };

    ghost invariant = { λ s. (vec_len s.kept ≤ s.room) × (s.room ≤ vec_capacity s.kept) × (1 ≤ s.piece) };
}

impl MemorySink {
    /// A sink with room for `room` bytes, of which a call takes at most `piece`. It fails at the
    /// calls whose numbers, from 1, are in `fails`, and where there are bytes and no room. The room
    /// is taken from memory here, and no later call takes any.
    pub fn new(
        alloc: Global,
        room: usize,
        piece: usize,
        fails: Vec<u64>,
    ) -> Result<MemorySink, Memory>
        requires { 1 ≤ piece }
        ensures { IfOk result (λ s. s ≡ record {
          taken = [];
          room = room;
          piece = piece;
          fails = fails.items;
          calls = 0;
          faults = 0;
        }) }
    {
        Ok(MemorySink {
            kept: Vec::with_capacity(alloc, room)?,
            room,
            piece,
            fails,
            calls: 0,
            faults: 0,
        })
    }

    /// The bytes taken so far.
    pub fn taken(&self) -> &[u8]
        ensures { result.now ≡ self.now.taken }
    {
        self.kept.as_slice()
    }
}

impl Sink for MemorySink {
    ghost taken = { λ s. Some s.taken };

    ghost faults = { λ s. s.faults };

    fn write(&mut self, from: &[u8]) -> Result<usize, Failed>
        // It fails at the listed calls, and where there are bytes and no room.
        ensures fails { IsErr result ↔ FailsNext self.old (length from.now) }
        ensures failed { OnErr result (self.new ≡ after_fault self.old) }

        // Else it takes as much as the piece and the room allow.
        ensures amount { IfOk result (λ n. n ≡ taken_count self.old (length from.now)) }
        ensures after { IfOk result (λ n. self.new ≡ after_taking self.old (take n from.now)) }

        // As each sink.
        ensures bound { IfOk result (λ n. n ≤ length from.now) }
        ensures progress { IfOk result (λ n. 0 < length from.now → 0 < n) }
        ensures appended { IfOk result (λ n. self.new.taken ≡ self.old.taken ++ take n from.now) }
        ensures kept { OnErr result (self.new.taken ≡ self.old.taken) }
        ensures cause { OnErr result (HasCause self.old.faults self.new.faults) }
        ensures count { self.old.faults ≤ self.new.faults }
    {
        self.calls = self.calls.saturating_add(1);
        let left = self.room - self.kept.len();
        if self.fails.contains(&self.calls) || (left == 0 && !from.is_empty()) {
            self.faults = self.faults.saturating_add(1);
            return Err(Failed);
        }
        let count = self.piece.min(left).min(from.len());
        self.kept.extend_from_slice(&from[..count]).unwrap();
        Ok(count)
    }
}
