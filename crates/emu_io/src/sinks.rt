// Where bytes go to, and a sink in memory.
ghost use Rattle.std.specs.Prelude.{◌≡◌, ◌-◌, ◌<◌, ◌≤◌, ◌↔◌, ◌⊎◌, ◌+◌, ◌^◌, min, [], length, Some, IfOk, IsErr, MatchResult, Contains};
ghost use Rattle.std.specs.Io.KnownBytes.{WriteAppends};
ghost use Rattle.emu_io.specs.Causes.{HasCause};
ghost use Rattle.emu_io.specs.Ends.{SinkEnd};

use crate::Failed;
use crate::faults::Faults;
use std::alloc::{AllocError as NoMemory, Global};
use std::marker::Model;

/// Where bytes go to.
pub trait Sink {
    /// The bytes that were written, where the sink tells them, and how often a write has failed.
    ghost end: { Self → SinkEnd };

    /// Writes the first bytes of `piece`, at least one, and answers how many.
    ///
    /// `Failed` writes no byte, and the count of faults rose by just one; an `Ok` leaves the count as it was.
    fn write(&mut self, piece: &[u8]) -> Result<usize, Failed>
        requires { 0 < length piece.now }
        ensures bound { IfOk result (λ n. (1 ≤ n) × (n ≤ length piece.now)) }
        ensures bytes { WriteAppends (end self.old).written (end self.new).written result piece.now }
        ensures cause { HasCause (end self.old).faults (end self.new).faults result };
}

/// Memory of a fixed capacity in bytes, which tells what was written. The writes with the numbers in `fails` fail.
#[derive(Drop)]
pub struct MemSink {
    bytes: Vec<u8>,
    capacity: usize,
    piece: u32,
    writes: u64,
    fails: Vec<u64>,
    faults: Faults,
}

impl Model for MemSink {
    ghost use Rattle.std.specs.Prelude.{◌≤◌, length, vec_capacity};
    ghost use Rattle.emu_io.specs.Memory.{MemoryWritten};

    ghost Value = { MemoryWritten };

    ghost view = { λ s. record {
      written = s.bytes.items;
      capacity = s.capacity;
      piece = s.piece;
      writes = s.writes;
      fails = s.fails.items;
      faults = s.faults.count;
    } };

    ghost invariant = { λ s. (length s.bytes.items ≤ s.capacity) × (s.capacity ≤ vec_capacity s.bytes) × (1 ≤ s.piece) };
}

impl MemSink {
    /// An empty sink for `capacity` bytes, whose room is taken here. Each write takes at most `piece` bytes, and the
    /// writes with the numbers in `fails`, counted from 0, fail.
    pub fn new(
        alloc: Global,
        capacity: usize,
        piece: u32,
        fails: Vec<u64>,
    ) -> Result<MemSink, NoMemory>
        requires { 1 ≤ piece }
        ensures { IfOk result (λ s. s
            ≡ record { written = []; capacity = capacity; piece = piece; writes = 0; fails = fails.items; faults = 0 }) }
    {
        Ok(MemSink {
            bytes: Vec::with_capacity(alloc, capacity)?,
            capacity,
            piece,
            writes: 0,
            fails,
            faults: Faults::none(),
        })
    }

    /// What was written.
    pub fn bytes(&self) -> &[u8]
        ensures { result.now ≡ self.now.written }
    {
        &self.bytes
    }
}

impl Sink for MemSink {
    ghost end = { λ s. record { written = Some s.written; faults = s.faults } };

    /// Takes no memory.
    fn write(&mut self, piece: &[u8]) -> Result<usize, Failed>
        requires { 0 < length piece.now }
        ensures bound { IfOk result (λ n. (1 ≤ n) × (n ≤ length piece.now)) }
        ensures bytes { WriteAppends (Some self.old.written) (Some self.new.written) result piece.now }
        ensures cause { HasCause self.old.faults self.new.faults result }
        // It fails exactly where its number was named or the sink is full, and else takes as many bytes as it may.
        ensures fails { IsErr result ↔ (Contains self.old.fails self.old.writes
            ⊎ (length self.old.written ≡ self.old.capacity)) }
        ensures count { IfOk result (λ n. n
            ≡ min (min (length piece.now) (self.old.capacity - length self.old.written)) self.old.piece) }
        ensures fits { length self.new.written ≤ self.new.capacity }
        ensures faults { MatchResult result (λ _. self.new.faults ≡ self.old.faults) (λ _. self.new.faults
            ≡ self.old.faults + 1) }
        ensures writes { self.new.writes ≡ min (self.old.writes + 1) (2 ^ 64 - 1) }
        ensures keeps { (self.new.capacity ≡ self.old.capacity) × (self.new.piece ≡ self.old.piece)
            × (self.new.fails ≡ self.old.fails) }
    {
        let number = self.writes;
        self.writes = self.writes.saturating_add(1);
        let room = self.capacity - self.bytes.len();
        let count = piece.len().min(room).min(self.piece as usize);
        if self.fails.contains(&number) || room == 0 {
            self.faults = Faults::one_more(&self.faults);
            return Err(Failed);
        }
        match self.bytes.extend_from_slice(&piece[..count]) {
            Ok(()) => Ok(count),
            Err(_) => unreachable!(),
        }
    }
}
