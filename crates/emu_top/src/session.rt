// A session and its run on one thread.
ghost use Rattle.std.specs.Prelude.{◌≡◌, ℕ, ◌+◌, ◌≤◌, List, length, IfOk, IfErr, IfSome, IsErrOf};
ghost use Rattle.emu_top.specs.Imports.{Going, SourceEnd, most_bytes, script_len, whole_lines};
ghost use Rattle.emu_top.specs.Session.{Holds, IsFaultIn, Refuses, Runs, Takes, status_of_error, status_of_stop};

use crate::Status;
use crate::fitting::look_at;
use crate::part::{Front, PartError, read_front};
use client_core::Stop;
use client_script::{Script, ScriptError};
use emu_io::Source;
use feed_pull::Puller;
use serial_core::{Left, run_steps};
use std::alloc::Global;
use ts_packet::PacketSize;

/// A script, and the stream behind it.
#[derive(Drop)]
pub struct Session {
    pub script: Script,
    pub puller: Puller,
}

// The status of a script that isn't read.
fn status_of_script(error: ScriptError) -> Status
    ensures { result ≡ status_of_error error }
{
    match error {
        ScriptError::Fault(fault) => Status::Script(fault),
        ScriptError::NoMemory => Status::NoMemory,
    }
}

/// The status of a run that was given up.
pub fn status_of_run(stop: Stop) -> Status
    ensures { result ≡ status_of_stop stop }
{
    match stop {
        Stop::NoMemory => Status::NoMemory,
        Stop::TooLong { turns } => Status::TooLong { turns },
    }
}

// The script of these bytes, and the stream that begins with those behind it, if they hold the whole script part.
fn session_of(alloc: Global, front: Front, size: PacketSize) -> Result<Session, Status>
    requires few { length front.part ≤ most_bytes }
    requires reads { front.reads ≤ length front.part }
    requires ahead { IfSome (script_len (whole_lines front.part)) (λ n. length front.part ≤ n + 65535) }
    ensures begins { IfOk result (λ session. Holds front.part size session.script session.puller) }
    ensures going { IfOk result (λ session. (session.puller.reading ≡ Going) × (session.puller.given ≡ 0)) }
    ensures fault { IfErr result (λ status. IsFaultIn front.part status) }
{
    let bytes = front.part.bytes();
    let end = front.part.end().unwrap_or(bytes.len());
    let script = match Script::read(alloc, &bytes[..end]) {
        Ok(script) => script,
        Err(error) => return Err(status_of_script(error)),
    };
    let Ok(ahead) = bytes[end..].to_vec(alloc) else {
        return Err(Status::NoMemory);
    };
    match Puller::new(alloc, ahead, front.reads, size) {
        Ok(puller) => Ok(Session { script, puller }),
        Err(_) => Err(Status::NoMemory),
    }
}

/// Reads the script part of a source: its script, and the stream behind it, whose packets take up `size` each.
pub fn read_session<S: Source>(
    alloc: Global,
    source: &mut S,
    size: PacketSize,
) -> Result<Session, Status>
    ensures begins { IfOk result (λ session. (first : List ℕ) × Takes (S.end source.old) (S.end source.new) first
        × Holds first size session.script session.puller) }
    ensures going { IfOk result (λ session. (session.puller.reading ≡ Going) × (session.puller.given ≡ 0)) }
    ensures steady { IfOk result (λ session. (S.end source.new).faults ≡ (S.end source.old).faults) }
    ensures refuses { IfErr result (λ status. Refuses (S.end source.old) (S.end source.new) status) }
    ensures not_too_long { (turns : ℕ) → IsErrOf result (Status.TooLong turns) → ⊥ }
    ensures once { (S.end source.new).faults ≤ (S.end source.old).faults + 1 }
{
    match read_front(alloc, source) {
        Ok(front) => session_of(alloc, front, size),
        Err(PartError::Failed) => Err(Status::ReadFault),
        Err(PartError::NoMemory) => Err(Status::NoMemory),
    }
}

// Runs a session that is begun.
fn run_session<S: Source>(
    alloc: Global,
    source: &mut S,
    session: Session,
    batch: u32,
) -> Result<Left, Status>
    requires some { 1 ≤ batch }
    requires few { batch ≤ 64 }
    requires going { session.puller.reading ≡ Going }
    requires fresh { session.puller.given ≡ 0 }
    ensures runs { IfOk result (λ ran. (begun : SourceEnd) (size : PacketSize) (first : List ℕ)
        → Takes begun (S.end source.old) first → Holds first size session.script session.puller
        → Runs batch size begun (S.end source.new) ran) }
    ensures refuses { IfErr result (λ status. (begun : SourceEnd) (size : PacketSize) (first : List ℕ)
        → Takes begun (S.end source.old) first → Holds first size session.script session.puller
        → Refuses begun (S.end source.new) status) }
    ensures once { (S.end source.new).faults ≤ (S.end source.old).faults + 1 }
{
    let Session { script, puller } = session;
    match run_steps(alloc, &script, source, puller, batch) {
        Ok(ran) => {
            look_at(&ran);
            Ok(ran)
        }
        Err(stop) => Err(status_of_run(stop)),
    }
}

/// Reads the session of a source, whose packets take up `size` each, and runs it, in batches of `batch`.
pub fn ran_of<S: Source>(
    alloc: Global,
    source: &mut S,
    batch: u32,
    size: PacketSize,
) -> Result<Left, Status>
    requires some { 1 ≤ batch }
    requires few { batch ≤ 64 }
    ensures runs { IfOk result (λ ran. Runs batch size (S.end source.old) (S.end source.new) ran) }
    ensures refuses { IfErr result (λ status. Refuses (S.end source.old) (S.end source.new) status) }
    ensures once { (S.end source.new).faults ≤ (S.end source.old).faults + 1 }
{
    match read_session(alloc, source, size) {
        Ok(session) => run_session(alloc, source, session, batch),
        Err(status) => Err(status),
    }
}
