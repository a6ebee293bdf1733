// Where bytes come from, and a source in memory.
ghost use Rattle.std.specs.Prelude.{◌≡◌, ◌<◌, ◌≤◌, ◌↔◌, ◌+◌, ◌-◌, ◌^◌, min, length, take, Some, IfOk, IsErr, MatchResult, Contains};
ghost use Rattle.std.specs.Io.{ReadsAtMost};
ghost use Rattle.std.specs.Io.KnownBytes.{ReadConsumes};
ghost use Rattle.emu_io.specs.Causes.{HasCause};
ghost use Rattle.emu_io.specs.Ends.{SourceEnd};

use crate::Failed;
use crate::faults::Faults;
use std::marker::Model;

/// Where bytes come from.
pub trait Source {
    /// The bytes that are left, where the source tells them, and how often a read has failed.
    ghost end: { Self → SourceEnd };

    /// Reads bytes into the front of `into`, and answers how many. 0 is the end of input.
    ///
    /// `Failed` takes no byte, and the count of faults rose by just one; an `Ok` leaves the count as it was.
    fn read(&mut self, into: &mut [u8]) -> Result<usize, Failed>
        requires { 0 < length into.old }
        ensures bound { ReadsAtMost result into.new }
        ensures bytes { ReadConsumes (end self.old).left (end self.new).left result into.new }
        ensures cause { HasCause (end self.old).faults (end self.new).faults result };
}

/// Bytes in memory, which tell what is left of them. The reads with the numbers in `fails` fail.
#[derive(Drop)]
pub struct MemSource {
    bytes: Vec<u8>,
    at: usize,
    piece: u32,
    reads: u64,
    fails: Vec<u64>,
    faults: Faults,
}

impl Model for MemSource {
    ghost use Rattle.std.specs.Prelude.{◌≤◌, drop, length};
    ghost use Rattle.emu_io.specs.Memory.{MemoryLeft};

    ghost Value = { MemoryLeft };

    ghost view = { λ s. record {
      left = drop s.at s.bytes.items;
      piece = s.piece;
      reads = s.reads;
      fails = s.fails.items;
      faults = s.faults.count;
    } };

    ghost invariant = { λ s. (s.at ≤ length s.bytes.items) × (1 ≤ s.piece) };
}

impl MemSource {
    /// A source of these bytes. Each read gives at most `piece` of them, and the reads with the numbers in `fails`,
    /// counted from 0, fail.
    pub fn new(bytes: Vec<u8>, piece: u32, fails: Vec<u64>) -> MemSource
        requires { 1 ≤ piece }
        ensures { result ≡ record { left = bytes.items; piece = piece; reads = 0; fails = fails.items; faults = 0 } }
    {
        MemSource {
            bytes,
            at: 0,
            piece,
            reads: 0,
            fails,
            faults: Faults::none(),
        }
    }
}

// Copies the front of one slice to the front of another, at most so many bytes, and answers how many.
fn copy_front(from: &[u8], into: &mut [u8], most: usize) -> usize
    ensures count { result ≡ min (min (length from.now) (length into.old)) most }
    ensures bytes { take result into.new ≡ take result from.now }
{
    let count = from.len().min(into.len()).min(most);
    into[..count].copy_from_slice(&from[..count]);
    count
}

impl Source for MemSource {
    ghost end = { λ s. record { left = Some s.left; faults = s.faults } };

    fn read(&mut self, into: &mut [u8]) -> Result<usize, Failed>
        requires { 0 < length into.old }
        ensures bound { ReadsAtMost result into.new }
        ensures bytes { ReadConsumes (Some self.old.left) (Some self.new.left) result into.new }
        ensures cause { HasCause self.old.faults self.new.faults result }
        // It fails exactly where its number was named, and else gives as many bytes as it may.
        ensures fails { IsErr result ↔ Contains self.old.fails self.old.reads }
        ensures count { IfOk result (λ n. n ≡ min (min (length self.old.left) (length into.old)) self.old.piece) }
        ensures faults { MatchResult result (λ _. self.new.faults ≡ self.old.faults) (λ _. self.new.faults
            ≡ self.old.faults + 1) }
        ensures reads { self.new.reads ≡ min (self.old.reads + 1) (2 ^ 64 - 1) }
        ensures keeps { (self.new.piece ≡ self.old.piece) × (self.new.fails ≡ self.old.fails) }
    {
        let number = self.reads;
        self.reads = self.reads.saturating_add(1);
        if self.fails.contains(&number) {
            self.faults = Faults::one_more(&self.faults);
            return Err(Failed);
        }
        let count = copy_front(&self.bytes[self.at..], into, self.piece as usize);
        self.at += count;
        Ok(count)
    }
}
