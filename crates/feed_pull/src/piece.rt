// The piece of a stream that was read last.
ghost use Rattle.std.specs.Prelude.{◌≡◌, ℕ, ◌<◌, ◌≤◌, List, [], length, take, drop, OnErr, OnOk, IfOk};
ghost use Rattle.feed_pull.specs.Imports.{Consumes, HasCause, IsAtEnd};

use emu_io::{Failed, Source};
use std::alloc::{AllocError as NoMemory, Global};
use std::marker::Model;

// The most bytes of one read.
const READ: usize = 65536;

/// The bytes of one read, of which those from `at` to `end` are not used yet. A contract sees these.
#[derive(Drop)]
pub struct Piece {
    bytes: Vec<u8>,
    at: usize,
    end: usize,
}

impl Model for Piece {
    ghost use Rattle.std.specs.Prelude.{◌≡◌, ◌≤◌, ◌-◌, ℕ, List, take, drop, length};

    ghost Value = { List ℕ };

    ghost view = { λ p. take (p.end - p.at) (drop p.at p.bytes.items) };

    ghost invariant = { λ p. (p.at ≤ p.end) × (p.end ≤ 65536) × (length p.bytes.items ≡ 65536) };
}

// So much room.
fn room_of(alloc: Global, size: usize) -> Result<Vec<u8>, NoMemory>
    ensures { IfOk result (λ room. length room.items ≡ size) }
{
    Ok(vec![in alloc; 0u8; size]?)
}

// Copies these bytes to the front of `room`.
fn put_front(room: &mut [u8], bytes: &[u8])
    requires { length bytes.now ≤ length room.old }
    ensures { take (length bytes.now) room.new ≡ bytes.now }
{
    room[..bytes.len()].copy_from_slice(bytes);
}

impl Piece {
    /// A piece of these bytes.
    pub fn of(alloc: Global, bytes: &[u8]) -> Result<Piece, NoMemory>
        requires { length bytes.now ≤ 65536 }
        ensures { IfOk result (λ piece. piece ≡ bytes.now) }
    {
        let mut room = room_of(alloc, READ)?;
        put_front(&mut room, bytes);
        Ok(Piece {
            bytes: room,
            at: 0,
            end: bytes.len(),
        })
    }

    /// The bytes that are not used yet.
    pub fn rest(&self) -> &[u8]
        ensures bytes { result.now ≡ self.now }
        ensures fits { length self.now ≤ 65536 }
    {
        &self.bytes[self.at..self.end]
    }

    /// So many bytes are used.
    pub fn pass(&mut self, count: usize)
        requires { count ≤ length self.old }
        ensures { self.new ≡ drop count self.old }
    {
        self.at += count;
    }

    /// Reads a piece where no byte is left.
    pub fn read<S: Source>(&mut self, source: &mut S) -> Result<usize, Failed>
        requires { self.old ≡ [] }
        ensures fits { length self.new ≤ 65536 }
        ensures bytes { Consumes (S.end source.old).left (S.end source.new).left self.new }
        ensures count { IfOk result (λ n. n ≡ length self.new) }
        ensures end { IfOk result (λ n. n ≡ 0 → IsAtEnd (S.end source.new).left) }
        ensures failed { OnErr result (self.new ≡ []) }
        ensures cause { HasCause (S.end source.old).faults (S.end source.new).faults result }
    {
        self.at = 0;
        self.end = 0;
        self.end = source.read(&mut self.bytes)?;
        Ok(self.end)
    }
}
