//! What `emulate` answers and writes over a source and a sink in memory, by a clock that counts or another.
ghost use Rattle.std.specs.Prelude.{true};

use super::report_lines::text_of;
use emu_io::{Clock, Gate, MemSink, MemSource, Source};
use emu_top::{Status, emulate};
use std::alloc::{AllocError as NoMemory, Global};
use std::sync::atomic::AtomicU64;
use std::sync::atomic::Ordering::SeqCst;
use std::sync::{Arc, Wait};
use std::thread::Threads;

/// A part of a stream: some bytes, and behind them so many bytes of one kind.
pub type Part = (&'static [u8], usize, u8);

/// Packets whose payload is zeros: PID 256 with the counters 0 and 1.
pub const FIRST: Part = (b"\x47\x01\x00\x10", 184, 0);

pub const SECOND: Part = (b"\x47\x01\x00\x11", 184, 0);

/// Both ends of a session: the most that a read gives and a write takes, which of them fail, and what the sink holds.
#[derive(Clone, Copy)]
pub struct TestEnds {
    pub piece: u32,
    pub reads: &'static [u64],
    pub capacity: usize,
    pub width: u32,
    pub writes: &'static [u64],
}

/// A clock that gives a count and adds 1 to it, or gives the greatest moment less the count.
#[derive(Drop)]
pub struct CountingClock {
    pub count: Arc<AtomicU64>,
    pub is_backwards: bool,
}

impl Clock for CountingClock {
    ghost may_give = { λ c n. true };

    ghost may_give_behind = { λ c end n. true };

    fn now(&self) -> u64 {
        let count = self.count.fetch_add(1, SeqCst);
        if self.is_backwards {
            u64::MAX - count
        } else {
            count
        }
    }

    fn now_behind<S: Source>(&self, _source: &S) -> u64 {
        self.now()
    }
}

/// The input of a script, as `text_of` reads it, and a stream.
pub fn input_of(alloc: Global, script: &str, stream: &[Part]) -> Result<Vec<u8>, NoMemory> {
    let mut input = text_of(alloc, script)?;
    for (bytes, count, byte) in stream {
        input.extend_from_slice(bytes)?;
        input.resize(input.len().saturating_add(*count), *byte)?;
    }
    Ok(input)
}

fn words_of(alloc: Global, words: &str) -> Result<Vec<String>, NoMemory> {
    let mut all = Vec::new(alloc);
    for word in words.split_whitespace() {
        all.push(String::from_str(alloc, word)?)?;
    }
    Ok(all)
}

// The source of an input, and a sink.
fn opened(
    alloc: Global,
    input: Vec<u8>,
    ends: &TestEnds,
) -> Result<(MemSource, MemSink), NoMemory> {
    let (reads, writes) = (ends.reads.to_vec(alloc)?, ends.writes.to_vec(alloc)?);
    let sink = MemSink::new(alloc, ends.capacity, ends.width.max(1), writes)?;
    Ok((MemSource::new(input, ends.piece.max(1), reads), sink))
}

/// What `emulate` answers and writes for these words and an input.
pub fn told<R: AllocGlobal + Threads + Wait + Sync, C: Clock + Sync, G: Gate + Sync>(
    rt: &R,
    words: &str,
    input: Vec<u8>,
    ends: &TestEnds,
    clock: &C,
    gate: &G,
) -> Result<(Status, Vec<u8>), NoMemory> {
    let alloc = rt.alloc();
    let words = words_of(alloc, words)?;
    let (mut source, mut sink) = opened(alloc, input, ends)?;
    let status = emulate(rt, alloc, &words, &mut source, &mut sink, clock, gate);
    Ok((status, sink.bytes().to_vec(alloc)?))
}
