// The session of a number, run in memory.
ghost use Rattle.std.specs.Prelude.{◌≡◌, ℕ, ◌<◌, ◌≤◌, min, List, length, take, Some, IfOk, IfErr};
ghost use Rattle.emu_top.specs.Imports.{HasCause, Option, ReadConsumes, ReadsAtMost};
ghost use Rattle.emu_top.specs.Session.{IsSums};

use crate::Status;
use crate::session::ran_of;
use emu_io::{Failed, Source};
use report_text::summary;
use std::alloc::Global;
use ts_make::session;
use ts_packet::PacketSize;

// Bytes that are read to their end. No read fails.
#[derive(Drop)]
struct Whole<'a> {
    rest: &'a [u8],
}

// Copies the front of one slice to the front of another, and answers how many bytes.
fn copy_front(from: &[u8], into: &mut [u8]) -> usize
    ensures count { result ≡ min (length from.now) (length into.old) }
    ensures bytes { take result into.new ≡ take result from.now }
{
    let count = from.len().min(into.len());
    into[..count].copy_from_slice(&from[..count]);
    count
}

impl Source for Whole<'_> {
    ghost end = { λ s. record { left = Some s.rest.now; faults = 0 } };

    fn read(&mut self, into: &mut [u8]) -> Result<usize, Failed>
        requires { 0 < length into.old }
        ensures bound { ReadsAtMost result into.new }
        ensures bytes { ReadConsumes (Some self.old.rest.now) (Some self.new.rest.now) result into.new }
        ensures cause { HasCause 0 0 result }
    {
        let count = copy_front(self.rest, into);
        self.rest = &self.rest[count..];
        Ok(count)
    }
}

/// The line of sums over the run of the session of this number, in batches of this size.
pub fn sums_of(alloc: Global, number: u64, batch: u32) -> Result<Vec<u8>, Status>
    requires some { 1 ≤ batch }
    requires few { batch ≤ 64 }
    ensures sums { IfOk result (λ text. IsSums number batch text.items) }
    ensures refuses { IfErr result (λ status. status ≡ Status.NoMemory) }
{
    let Ok(bytes) = session(alloc, number) else {
        return Err(Status::NoMemory);
    };
    let mut source = Whole { rest: &bytes };
    let ran = match ran_of(alloc, &mut source, batch, PacketSize::Of188) {
        Ok(ran) => ran,
        Err(status) => return Err(status),
    };
    match summary(alloc, &ran.head, &ran.histories) {
        Ok(text) => Ok(text),
        Err(_) => Err(Status::NoMemory),
    }
}
