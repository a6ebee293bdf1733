// Text that goes to a sink in pieces, out of a buffer.
ghost use Rattle.std.specs.Prelude.{◌≡◌, ℕ, ◌+◌, ◌<◌, ◌≤◌, [], length, take, IfOk, OnErr, OnOk, vec_len, vec_capacity};
ghost use Rattle.report_text.specs.Imports.{Appends, HasCause};
ghost use Rattle.report_text.specs.Inside.Pieces.{Adds, AddsPart};

use emu_io::{Failed, Sink};
use std::alloc::{AllocError as NoMemory, Global};
use std::marker::Model;

// The fewest bytes of a piece but the last, and the most bytes of one write.
const PIECE: usize = 65536;

// The most bytes of a line: a client's, with 65,536 bytes of data in two digits each.
const LONGEST_LINE: usize = 134000;

/// The text that waits to be written: less than a piece, with room for a longest line behind it. A contract sees its bytes.
#[derive(Drop)]
pub struct Waiting {
    /// These bytes.
    pub bytes: Vec<u8>,
}

impl Model for Waiting {
    ghost use Rattle.std.specs.Prelude.{ℕ, List, ◌<◌, ◌≤◌, vec_len, vec_capacity};

    ghost Value = { List ℕ };

    ghost view = { λ w. w.bytes.items };

    ghost invariant = { λ w. (vec_len w.bytes < 65536) × (199536 ≤ vec_capacity w.bytes) };
}

impl Waiting {
    /// No text, with the room for all that ever waits.
    pub fn new(alloc: Global) -> Result<Waiting, NoMemory>
        ensures { IfOk result (λ waiting. waiting ≡ []) }
    {
        let bytes = Vec::with_capacity(alloc, PIECE + LONGEST_LINE)?;
        Ok(Waiting { bytes })
    }
}

/// Writes all the bytes, at most 65,536 at a time.
///
/// # Errors
///
/// `Failed` where a write failed. A part of the bytes was written, from the front on, and after the failed write nothing more.
pub fn write_all<K: Sink>(sink: &mut K, bytes: &[u8]) -> Result<(), Failed>
    ensures whole { OnOk result (Appends (K.end sink.old).written (K.end sink.new).written bytes.now) }
    ensures front { OnErr result ((n : ℕ) × (n < length bytes.now)
        × Appends (K.end sink.old).written (K.end sink.new).written (take n bytes.now)) }
    ensures cause { HasCause (K.end sink.old).faults (K.end sink.new).faults result }
{
    let mut done = 0;
    'writing: while done < bytes.len() {
        let end = bytes.len().min(done + PIECE);
        let count = sink.write(&bytes[done..end])?;
        done += count;
    }
    Ok(())
}

/// Writes all that waits. Then nothing waits, after a failed write either.
pub fn flush<K: Sink>(sink: &mut K, out: &mut Vec<u8>) -> Result<(), Failed>
    ensures adds { OnOk result (Adds (K.end sink.old).written (K.end sink.new).written out.old.items out.new.items []) }
    ensures part { OnErr result (AddsPart (K.end sink.old).written (K.end sink.new).written out.old.items []) }
    ensures none { out.new.items ≡ [] }
    ensures room { vec_capacity out.old ≤ vec_capacity out.new }
    ensures cause { HasCause (K.end sink.old).faults (K.end sink.new).faults result }
{
    let written = write_all(sink, out);
    out.clear();
    written
}

/// Writes what waits, where it is a piece or more. Then less than a piece waits, after a failed write nothing.
pub fn write_piece<K: Sink>(sink: &mut K, out: &mut Vec<u8>) -> Result<(), Failed>
    ensures adds { OnOk result (Adds (K.end sink.old).written (K.end sink.new).written out.old.items out.new.items []) }
    ensures part { OnErr result (AddsPart (K.end sink.old).written (K.end sink.new).written out.old.items []) }
    ensures few { vec_len out.new < PIECE }
    ensures room { vec_capacity out.old ≤ vec_capacity out.new }
    ensures cause { HasCause (K.end sink.old).faults (K.end sink.new).faults result }
{
    if out.len() < PIECE {
        return Ok(());
    }
    flush(sink, out)
}
