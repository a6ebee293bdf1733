// What a server does from its first call to its last, for whatever its seats hand their calls over to.
ghost use Rattle.std.specs.Prelude.{◌≡◌, ◌≢◌, ◌≤◌, ◌++◌, ◌∷◌, [], map, vec_len, All, Err, IfOk, IsErrOf};
ghost use Rattle.serve_top.specs.Imports.{AreAllCallers, HasFedToEnd, HasPassed, HaveSat, IsDone, IsSend, IsSync, MayPass, is_in};
ghost use Rattle.serve_top.specs.Journaled.{AreServed, HasServedLines, IsLeftBy, IsNewFeeder};
ghost use Rattle.serve_top.specs.Read.{HasReadTooOften};

use crate::server::{NoReport, no_report};
use adapter::{Adapter, Client, Feeder};
use dmx_calls::limits::NODES;
use emu_io::{Clock, Gate, Sink, Source};
use feed_pull::Puller;
use seats::{Desk, Journal, JournalLine, Seat, Sitting, desks_of, sit_all};
use std::alloc::{AllocError as NoMemory, Global};
use std::sync::Wait;
use std::thread::{Threads, join_mut};
use ts_packet::PacketSize;
use ts_watch::Head;
use workers::{Batches, FeederWorker};

// The packets of a batch.
const BATCH: u32 = 64;

// The nodes that the stream passes: a program may open any of them.
const ALL: [bool; NODES as usize] = [true; NODES as usize];

/// What is left of a server.
#[derive(Drop)]
pub struct Handed<J: Drop> {
    /// What was found in the stream.
    pub head: Head,
    /// The journals of the lines, that of the last line first.
    pub journals: Vec<J>,
}

/// What is left of a server before its adapter ends.
#[derive(Drop)]
pub struct ReportParts<J: Drop> {
    /// The adapter, its feeder and its clients, that of the last line first.
    pub adapter: Adapter,
    /// The feeder.
    pub feeder: Feeder,
    /// The clients.
    pub clients: Vec<Client>,
    /// What is handed on.
    pub handed: Handed<J>,
}

// The worker of this feeder, before its first call, for a stream of packets of 188 bytes of which nothing was read.
fn feeder_of(alloc: Global, feeder: Feeder) -> Result<FeederWorker, NoMemory>
    ensures { IfOk result (IsNewFeeder feeder) }
{
    let puller = Puller::new(alloc, Vec::new(alloc), 0, PacketSize::Of188)?;
    Ok(FeederWorker {
        feeder,
        puller,
        count: 0,
        stop: None,
    })
}

// The stream passes these nodes in this thread, while each seat serves its line in another. Where no thread can be made for
// them, the seats come behind the stream.
fn sit_and_pass<
    R: Threads + Wait + Sync,
    S: Source + Send,
    D: Sitting + Send,
    B: Batches + Send,
    C: Clock + Sync,
    G: Gate + Sync,
>(
    rt: &R,
    alloc: Global,
    adapter: &Adapter,
    feeder: &mut FeederWorker,
    desks: &mut Vec<D>,
    source: &mut S,
    batches: &mut B,
    nodes: &[bool; NODES as usize],
    clock: &C,
    gate: &G,
)
    requires feeder { MayPass 64 adapter.now feeder.old }
    requires begun { HasPassed (is_in nodes.now) 64 (C.may_give clock.now) (C.may_give_behind clock.now) B.took (S.end source.old)
        (S.end source.old) feeder.old.puller batches.old batches.old feeder.old }
    requires desks { All (λ d. D.ready adapter.now d) desks.old.items }
    ensures feeder { HasFedToEnd (is_in nodes.now) 64 (C.may_give clock.now) (C.may_give_behind clock.now)
        B.took (S.end source.old)
        (S.end source.new) batches.old batches.new feeder.old feeder.new }
    ensures desks { HaveSat (D.sat (C.may_give clock.now) (C.may_give_behind clock.now)
        adapter.now) desks.old.items desks.new.items }
{
    let mut first = ||
        requires may { MayPass 64 adapter.now feeder.now }
        requires begun { HasPassed (is_in nodes.now) 64 (C.may_give clock.now) (C.may_give_behind clock.now)
            B.took (S.end source.now)
            (S.end source.now) feeder.now.puller batches.now batches.now feeder.now }
        ensures { HasFedToEnd (is_in nodes.entry.now) 64 (C.may_give clock.entry.now) (C.may_give_behind clock.entry.now)
            B.took (S.end source.entry.now)
            (S.end source.exit.now) batches.entry.now batches.exit.now feeder.entry.now feeder.exit.now }
    { feeder.work(rt, adapter, source, batches, BATCH, nodes, clock, gate) };
    let mut others = ||
        requires { IsSync R.row × IsSync C.row × IsSend D.row × All (λ d. D.ready adapter.now d) desks.now.items }
        ensures { HaveSat (D.sat (C.may_give clock.entry.now) (C.may_give_behind clock.entry.now)
            adapter.entry.now) desks.entry.now.items desks.exit.now.items }
    { sit_all(rt, alloc, adapter, clock, desks) };
    join_mut(rt, &mut others, &mut first);
}

// The clients and the journals of these desks, in their order.
fn parts_of<T: Drop, J: Drop>(
    alloc: Global,
    desks: Vec<Desk<JournalLine<T, J>>>,
) -> Result<(Vec<Client>, Vec<J>), NoMemory>
    ensures clients { IfOk result (λ r. r.0.items ≡ map (λ d. d.seat.client) desks.items) }
    ensures journals { IfOk result (λ r. r.1.items ≡ map (λ d. d.line.journal) desks.items) }
{
    let mut clients = Vec::new(alloc);
    let mut journals = Vec::new(alloc);
    'desks: for desk in desks {
        let Desk { seat, line } = desk;
        let Seat { client, .. } = seat;
        let JournalLine { journal, .. } = line;
        clients.push(client)?;
        journals.push(journal)?;
    }
    Ok((clients, journals))
}

// What is left of these.
fn left_by<T: Drop, J: Drop>(
    alloc: Global,
    adapter: Adapter,
    feeder: FeederWorker,
    desks: Vec<Desk<JournalLine<T, J>>>,
) -> Result<ReportParts<J>, NoMemory>
    requires done { IsDone feeder.puller }
    ensures { IfOk result (IsLeftBy adapter feeder desks.items) }
{
    let head = feeder.puller.head(alloc)?;
    let (clients, journals) = parts_of(alloc, desks)?;
    Ok(ReportParts {
        adapter,
        feeder: feeder.feeder,
        clients,
        handed: Handed { head, journals },
    })
}

/// The same as `serve_to`, before the adapter ends.
pub fn served<
    R: Threads + Wait + Sync,
    S: Source + Send,
    T: Source + Sink + Send + Drop,
    J: Journal + Send + Drop,
    B: Batches + Send,
    C: Clock + Sync,
    G: Gate + Sync,
>(
    rt: &R,
    alloc: Global,
    source: &mut S,
    lines: Vec<JournalLine<T, J>>,
    batches: &mut B,
    clock: &C,
    gate: &G,
) -> Result<ReportParts<J>, NoReport>
    requires few { vec_len lines ≤ 8 }
    ensures served { IfOk result (λ s. AreServed T.Source.end T.Sink.end
        J.took B.took lines.items (C.may_give clock.now) (C.may_give_behind clock.now)
        (S.end source.old) (S.end source.new) batches.old batches.new s.feeder s.clients.items s.handed) }
    ensures all { IfOk result (λ s. AreAllCallers s.adapter (s.clients.items ++ s.feeder ∷ [])) }
    ensures reads { IsErrOf result NoReport.TooLong → HasReadTooOften (S.end source.old) (S.end source.new) }
    ensures failed { result ≢ Err NoReport.Failed }
{
    let (adapter, feeder, clients) = Adapter::new(alloc, lines.len() as u32)?;
    let mut desks = desks_of(alloc, clients, lines)?;
    let mut feeder = feeder_of(alloc, feeder)?;
    sit_and_pass(
        rt,
        alloc,
        &adapter,
        &mut feeder,
        &mut desks,
        source,
        batches,
        &ALL,
        clock,
        gate,
    );
    if let Some(stop) = feeder.stop {
        return Err(no_report(stop));
    }
    Ok(left_by(alloc, adapter, feeder, desks)?)
}

/// Passes the stream of a source through the 33 nodes, in batches of 64 packets and then its end, while for each line a seat
/// answers its requests until it ends. Each line's journal is given its calls, and `batches` the batches, as they come; so where
/// these keep nothing the memory that it takes doesn't grow with time. Before each batch, and once more behind the end, it calls
/// the gate as caller 0.
///
/// # Errors
///
/// Why the stream hasn't passed: `TooLong` where as many bytes were taken from the source as the most reads, or `NoMemory`, for
/// which no clause has a cause. It is never `Failed`: a journal says itself whether it is whole.
pub fn serve_to<
    R: Threads + Wait + Sync,
    S: Source + Send,
    T: Source + Sink + Send + Drop,
    J: Journal + Send + Drop,
    B: Batches + Send,
    C: Clock + Sync,
    G: Gate + Sync,
>(
    rt: &R,
    alloc: Global,
    source: &mut S,
    lines: Vec<JournalLine<T, J>>,
    batches: &mut B,
    clock: &C,
    gate: &G,
) -> Result<Handed<J>, NoReport>
    requires few { vec_len lines ≤ 8 }
    // What was called is what the requests on the lines ask for, and the journals were given just that.
    ensures served { IfOk result (HasServedLines T.Source.end T.Sink.end
        J.took B.took lines.items (C.may_give clock.now) (C.may_give_behind clock.now)
        (S.end source.old) (S.end source.new) batches.old batches.new) }
    ensures reads { IsErrOf result NoReport.TooLong → HasReadTooOften (S.end source.old) (S.end source.new) }
    ensures failed { result ≢ Err NoReport.Failed }
{
    let ReportParts {
        adapter,
        feeder,
        clients,
        handed,
    } = served(rt, alloc, source, lines, batches, clock, gate)?;
    adapter.gather(feeder, clients);
    Ok(handed)
}
