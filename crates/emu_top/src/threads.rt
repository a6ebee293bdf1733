// The run of a session by threads.
ghost use Rattle.std.specs.Prelude.{◌≡◌, ℕ, ◌+◌, ◌≤◌, List, IfOk, IfErr};
ghost use Rattle.emu_top.specs.Imports.{Going, SourceEnd};
ghost use Rattle.emu_top.specs.Session.{Holds, IsThreadOutput, Makes, Refuses, Takes};
ghost use Rattle.emu_top.specs.Inside.Reporting.{report_over};

use crate::Status;
use crate::fitting::look_at;
use crate::session::{Session, read_session, status_of_run};
use adapter::Adapter;
use emu_io::{Clock, Gate, Source};
use serial_core::Left;
use std::alloc::Global;
use std::sync::Wait;
use std::thread::Threads;
use ts_packet::PacketSize;
use workers::{histories_of_run, work};

// Runs a session that is begun: a thread passes its stream, and each client has a thread of its own.
fn run_threads<R: Threads + Wait + Sync, S: Source + Send, C: Clock + Sync, G: Gate + Sync>(
    rt: &R,
    alloc: Global,
    source: &mut S,
    session: Session,
    batch: u32,
    clock: &C,
    gate: &G,
) -> Result<Left, Status>
    requires some { 1 ≤ batch }
    requires few { batch ≤ 64 }
    requires going { session.puller.reading ≡ Going }
    requires fresh { session.puller.given ≡ 0 }
    ensures makes { IfOk result (λ left. (begun : SourceEnd) (size : PacketSize) (first : List ℕ)
        → Takes begun (S.end source.old) first → Holds first size session.script session.puller
        → Makes (IsThreadOutput batch size (C.may_give clock.now)) begun (S.end source.new) left.head.read_fault
        (report_over left)) }
    ensures refuses { IfErr result (λ status. (begun : SourceEnd) (size : PacketSize) (first : List ℕ)
        → Takes begun (S.end source.old) first → Holds first size session.script session.puller
        → Refuses begun (S.end source.new) status) }
    ensures once { (S.end source.new).faults ≤ (S.end source.old).faults + 1 }
{
    let Session { script, puller } = session;
    let Ok((adapter, feeder, clients)) = Adapter::new(alloc, script.clients()) else {
        return Err(Status::NoMemory);
    };
    let left = match work(
        rt, alloc, &adapter, feeder, clients, &script, source, puller, batch, clock, gate,
    ) {
        Ok(left) => left,
        Err(stop) => return Err(status_of_run(stop)),
    };
    let workers::LeftByThreads {
        feeding,
        logs,
        outcomes,
        head,
        feeder,
        clients,
    } = left;
    match histories_of_run(alloc, adapter, feeder, clients, feeding, logs) {
        Ok(histories) => {
            let ran = Left {
                histories,
                outcomes,
                head,
            };
            look_at(&ran);
            Ok(ran)
        }
        Err(_) => Err(Status::NoMemory),
    }
}

/// Reads the session of a source, whose packets take up `size` each, and runs it by threads, in batches of `batch`.
pub fn left_by_threads<R: Threads + Wait + Sync, S: Source + Send, C: Clock + Sync, G: Gate + Sync>(
    rt: &R,
    alloc: Global,
    source: &mut S,
    batch: u32,
    size: PacketSize,
    clock: &C,
    gate: &G,
) -> Result<Left, Status>
    requires some { 1 ≤ batch }
    requires few { batch ≤ 64 }
    ensures makes { IfOk result (λ left. Makes (IsThreadOutput batch size (C.may_give clock.now)) (S.end source.old)
        (S.end source.new) left.head.read_fault (report_over left)) }
    ensures refuses { IfErr result (λ status. Refuses (S.end source.old) (S.end source.new) status) }
    ensures once { (S.end source.new).faults ≤ (S.end source.old).faults + 1 }
{
    let session = read_session(alloc, source, size)?;
    run_threads(rt, alloc, source, session, batch, clock, gate)
}
