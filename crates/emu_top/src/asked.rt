// The report in front of a session.
ghost use Rattle.std.specs.Prelude.{◌≡◌, ℕ, ◌+◌, ◌<◌, ◌≤◌, List, length, IfOk, IfErr, IfSome, IfNone, IsErrOf};
ghost use Rattle.emu_top.specs.Imports.{Consumes, IsAtEnd, Number as NumberKind};
ghost use Rattle.emu_top.specs.Checking.{Declines, EndsInLine, HasFirstFault, in_front, size_of};
ghost use Rattle.emu_top.specs.Inside.Asking.{AsksFor, Begins};
ghost use Rattle.emu_top.specs.Inside.Part.{HasReadCause};

use crate::Status;
use crate::part::PartError;
use client_script::{FaultKind, ScriptFault};
use emu_io::Source;
use std::alloc::Global;
use text_forms::{is_word, number_between};

// The most bytes of the first line, with its line feed.
const LINE: usize = 40;

// The most bytes of one read.
const READ: usize = 65536;

// How many bytes the report has, by the first line without its line feed.
#[tactic(auto, unfolding(crate::specs::Checking::size_of))]
fn size_in(line: &[u8]) -> Option<u32>
    ensures { result ≡ size_of line.now }
{
    let (word, number) = line.split_at(line.len().min(7));
    if !is_word(word, "report ") {
        return None;
    }
    match number_between(0, 4294967295, number) {
        Some(size) => Some(size as u32),
        None => None,
    }
}

// Reads the first line, byte by byte, so that nothing behind it is taken; and how many bytes the report has by it. None where
// it isn't such a line.
fn read_size<S: Source>(alloc: Global, source: &mut S) -> Result<Option<u32>, PartError>
    ensures some { IfOk result (λ size. IfSome size (λ n. AsksFor n (S.end source.old) (S.end source.new))) }
    ensures none { IfOk result
        (λ size. IfNone size (HasFirstFault (in_front NumberKind) (S.end source.old) (S.end source.new))) }
    ensures failed { IsErrOf result PartError.Failed → (bytes : List ℕ)
        × Consumes (S.end source.old).left (S.end source.new).left bytes × EndsInLine bytes }
    ensures cause { HasReadCause (S.end source.old).faults (S.end source.new).faults result }
{
    let mut line = Vec::new(alloc);
    let mut byte = [0u8; 1];
    'reading: while line.len() < LINE {
        match source.read(&mut byte) {
            Err(_) => return Err(PartError::Failed),
            Ok(0) => return Ok(None),
            Ok(_) => {}
        }
        if byte[0] == b'\n' {
            return Ok(size_in(&line));
        }
        let Ok(()) = line.push(byte[0]) else {
            return Err(PartError::NoMemory);
        };
    }
    Ok(None)
}

// Reads so many bytes, in pieces; fewer only where the input ends.
fn read_bytes<S: Source>(alloc: Global, source: &mut S, size: u32) -> Result<Vec<u8>, PartError>
    ensures bytes { IfOk result (λ bytes. Consumes (S.end source.old).left (S.end source.new).left bytes.items) }
    ensures fits { IfOk result (λ bytes. length bytes.items ≤ size) }
    ensures end { IfOk result (λ bytes. length bytes.items < size → IsAtEnd (S.end source.new).left) }
    ensures failed { IsErrOf result PartError.Failed → (bytes : List ℕ)
        × Consumes (S.end source.old).left (S.end source.new).left bytes × (length bytes < size) }
    ensures cause { HasReadCause (S.end source.old).faults (S.end source.new).faults result }
{
    let most = size as usize;
    let mut bytes = Vec::new(alloc);
    let mut chunk = [0u8; READ];
    'reading: while bytes.len() < most {
        let want = (most - bytes.len()).min(READ);
        match source.read(&mut chunk[..want]) {
            Err(_) => return Err(PartError::Failed),
            Ok(0) => break,
            Ok(count) => {
                let Ok(()) = bytes.extend_from_slice(&chunk[..count]) else {
                    return Err(PartError::NoMemory);
                };
            }
        }
    }
    Ok(bytes)
}

// The status of a fault in front of the session.
fn in_no_line(kind: FaultKind) -> Status
    ensures { result ≡ Status.Script (in_front kind) }
{
    Status::Script(ScriptFault {
        line: 0,
        kind,
        word: None,
    })
}

/// Reads the report in front of a session: the line `report N`, and N bytes. Nothing behind them is taken.
pub fn read_report<S: Source>(alloc: Global, source: &mut S) -> Result<Vec<u8>, Status>
    ensures begins { IfOk result (λ report. Begins report.items (S.end source.old) (S.end source.new)) }
    ensures short { IfOk result (λ report. length report.items ≤ 4294967295) }
    ensures declines { IfErr result (λ status. Declines (S.end source.old) (S.end source.new) status) }
    ensures once { (S.end source.new).faults ≤ (S.end source.old).faults + 1 }
{
    let size = match read_size(alloc, source) {
        Ok(Some(size)) => size,
        Ok(None) => return Err(in_no_line(FaultKind::Number)),
        Err(PartError::Failed) => return Err(Status::ReadFault),
        Err(PartError::NoMemory) => return Err(Status::NoMemory),
    };
    let report = match read_bytes(alloc, source, size) {
        Ok(report) => report,
        Err(PartError::Failed) => return Err(Status::ReadFault),
        Err(PartError::NoMemory) => return Err(Status::NoMemory),
    };
    if report.len() < size as usize {
        return Err(in_no_line(FaultKind::NoStream));
    }
    Ok(report)
}
