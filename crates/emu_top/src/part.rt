// The script part of a source.
ghost use Rattle.std.specs.Prelude.{◌≡◌, ◌⊎◌, ℕ, ◌+◌, ◌<◌, ◌≤◌, List, length, None, OnErr, IfOk, IfSome, IsErrOf};
ghost use Rattle.emu_top.specs.Imports.{Consumes, IsAtEnd, most_bytes, script_len, whole_lines};
ghost use Rattle.emu_top.specs.Inside.Part.{HasReadCause, IsUnended};

use client_script::{MOST_BYTES, ScriptPart};
use emu_io::Source;
use std::alloc::Global;
use thiserror::Error;

// The most bytes of one read.
const READ: usize = 65536;

/// Why a script part isn't read.
#[derive(Debug, Drop, Error)]
pub enum PartError {
    /// A read failed.
    #[error("read failed")]
    Failed,
    /// Memory was refused.
    #[error("out of memory")]
    NoMemory,
}

/// The first bytes of a source, and how many reads took them.
#[derive(Drop)]
pub struct Front {
    pub part: ScriptPart,
    pub reads: u64,
}

/// Reads until the line `stream` is whole, until all bytes are read that are searched for it, or until the end of input. No
/// read asks for more than is searched.
pub fn read_front<S: Source>(alloc: Global, source: &mut S) -> Result<Front, PartError>
    ensures bytes { IfOk result (λ front. Consumes (S.end source.old).left (S.end source.new).left front.part) }
    ensures fits { IfOk result (λ front. length front.part ≤ most_bytes) }
    ensures reads { IfOk result (λ front. front.reads ≤ length front.part) }
    ensures ahead { IfOk result (λ front. IfSome (script_len (whole_lines front.part)) (λ n. length front.part ≤ n + 65535)) }
    ensures end { IfOk result (λ front. script_len (whole_lines front.part) ≡ None
        → (length front.part ≡ most_bytes) ⊎ IsAtEnd (S.end source.new).left) }
    ensures unended { IsErrOf result PartError.Failed → IsUnended (S.end source.old) (S.end source.new) }
    ensures cause { HasReadCause (S.end source.old).faults (S.end source.new).faults result }
{
    let mut part = ScriptPart::new(alloc);
    let mut chunk = [0u8; READ];
    let mut reads = 0;
    'reading: while part.end().is_none() && part.bytes().len() < MOST_BYTES {
        let want = (MOST_BYTES - part.bytes().len()).min(READ);
        match source.read(&mut chunk[..want]) {
            Err(_) => return Err(PartError::Failed),
            Ok(0) => break,
            Ok(count) => {
                let Ok(()) = part.add(&chunk[..count]) else {
                    return Err(PartError::NoMemory);
                };
                reads += 1;
            }
        }
    }
    Ok(Front { part, reads })
}
