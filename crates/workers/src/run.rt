// The run of a script by threads.
ghost use Rattle.std.specs.Prelude.{◌≡◌, false, ℕ, ◌+◌, ◌<◌, ◌≤◌, ◌↔◌, List, [], ◌∷◌, ◌++◌, map, All, IfOk, OnOk, OnErr, IsErrOf, IsTrue};
ghost use Rattle.workers.specs.Imports.{AreAllCallers, AreFreshCallers, AreOnNodes, Draws, Going, HaveHistories, IsAtEnd, IsDone, IsTooLong, OfStream, Pulling, clients_in};
ghost use Rattle.workers.specs.Inside.Leaving.{GoesFirst, StopsBy, IsLeftByWorkers};
ghost use Rattle.workers.specs.Left.{IsLeftBy};

use crate::client_worker::ClientWorker;
use crate::clients::{ClientsLeft, left_by_clients, workers_of};
use crate::feeder_worker::FeederWorker;
use crate::left::LeftByThreads;
use crate::script_nodes::named;
use crate::threads::work_all;
use adapter::{Adapter, Client, Feeder};
use client_core::Stop;
use client_script::Script;
use dmx_calls::Fed;
use emu_io::{Clock, Gate, Source};
use feed_pull::Puller;
use std::alloc::{AllocError as NoMemory, Global};
use std::sync::Wait;
use std::thread::Threads;

// Want of memory goes before too many calls or reads, and the first before the other.
fn graver(first: Option<Stop>, other: Option<Stop>) -> Option<Stop>
    ensures { GoesFirst first other result }
{
    match (first, other) {
        (None, _) | (_, Some(Stop::NoMemory)) => other,
        _ => first,
    }
}

// Why a run stops whose feeder stopped for this reason, if it did.
fn stop_of(feeder: Option<Stop>, clients: &[ClientWorker]) -> Option<Stop>
    ensures { StopsBy feeder clients.now result }
{
    let mut stop = feeder;
    'clients: for client in clients {
        stop = graver(stop, client.stop);
    }
    stop
}

// Brings together what all callers of a run that has stopped have seen: their calls then stand in histories.
fn gather(
    alloc: Global,
    adapter: &Adapter,
    feeder: FeederWorker,
    clients: Vec<ClientWorker>,
) -> Result<(), NoMemory>
    requires { AreAllCallers adapter.now (map (λ w. w.client) clients.items ++ feeder.feeder ∷ []) }
    ensures { OnOk result (HaveHistories (map (λ w. w.client) clients.items ++ feeder.feeder ∷ [])) }
{
    let ClientsLeft { clients, .. } = left_by_clients(alloc, clients)?;
    adapter.gather(feeder.feeder, clients);
    Ok(())
}

// What is left of workers that came to their end.
fn left_by(
    alloc: Global,
    feeder: FeederWorker,
    feeding: Vec<Fed>,
    clients: Vec<ClientWorker>,
) -> Result<LeftByThreads, NoMemory>
    requires { IsDone feeder.puller }
    ensures { IfOk result (IsLeftByWorkers feeder feeding.items clients.items) }
{
    let head = feeder.puller.head(alloc)?;
    let ClientsLeft {
        clients,
        logs,
        outcomes,
    } = left_by_clients(alloc, clients)?;
    Ok(LeftByThreads {
        feeding,
        logs,
        outcomes,
        head,
        feeder: feeder.feeder,
        clients,
    })
}

/// Does the commands of a script by a thread for each client, while one for the feeder passes the stream of the puller
/// through the nodes that the script can name, in batches of `batch` packets, 1 to 64, the last with what is left, and then its
/// end. No pull of the puller was made before, and it reads from this source. The feeder and the clients are the adapter's, and
/// none of them has made a call.
///
/// Lines `feed` and `tick` are passed over. A client whose read is repeated looks at the node until another caller's entry
/// stands behind its own last one; it may wait for ever, and so may each call. Before each of its calls a worker calls
/// `gate.at` with its caller number, 0 for the feeder and `c + 1` for client c, and the call's step; and once more behind
/// its last with the step after it. Each call that carries a moment reads the clock anew. Where a thread can't be made its
/// work is done behind that of another.
///
/// Where a read of the source fails the stream ends there, and the head says so.
///
/// # Errors
///
/// `NoMemory` where memory was refused; else `TooLong` where the puller stopped after 4,294,967,296 reads, or where a client
/// has made 549,755,813,888 calls. The feeder and the clients are gone then.
pub fn work<R: Threads + Wait + Sync, S: Source + Send, C: Clock + Sync, G: Gate + Sync>(
    rt: &R,
    alloc: Global,
    adapter: &Adapter,
    feeder: Feeder,
    clients: Vec<Client>,
    script: &Script,
    source: &mut S,
    puller: Puller,
    batch: u32,
    clock: &C,
    gate: &G,
) -> Result<LeftByThreads, Stop>
    requires fresh { AreFreshCallers adapter.now (clients_in script.now) feeder clients.items }
    requires all { AreAllCallers adapter.now (clients.items ++ feeder ∷ []) }
    requires some { 1 ≤ batch }
    requires few { batch ≤ 64 }
    requires going { puller.reading ≡ Going }
    requires given { puller.given ≡ 0 }
    // The whole stream has passed, and each client has done just its commands; the head is that of the stream.
    ensures left { IfOk result (λ left. OfStream (S.end source.old) (S.end source.new) puller
        (λ ahead taken. IsLeftBy script.now batch (C.may_give clock.now) puller.cutting.size (ahead ++ taken) left)) }
    // They are still the adapter's callers.
    ensures all { IfOk result (λ left. AreAllCallers adapter.now (left.clients.items ++ left.feeder ∷ [])) }
    ensures nodes { IfOk result (λ left. All (λ log. AreOnNodes log.items) left.logs.items) }
    // The source failed exactly where its count rose; else it has nothing left.
    ensures rose { IfOk result
        (λ left. IsTrue left.head.read_fault ↔ ((S.end source.old).faults < (S.end source.new).faults)) }
    ensures later { IfOk result (λ _. (S.end source.old).faults ≤ (S.end source.new).faults) }
    // At most one read has failed: after it nothing more is read, however the run ends.
    ensures once { (S.end source.new).faults ≤ (S.end source.old).faults + 1 }
    ensures end { IfOk result (λ left. left.head.read_fault ≡ false → IsAtEnd (S.end source.new).left) }
    // So many reads were made, or the commands and the bytes allow a client so many calls.
    ensures too_long { (turns : ℕ) → IsErrOf result (Stop.TooLong turns)
        → OfStream (S.end source.old) (S.end source.new) puller (IsTooLong script.now puller.start turns) }
    // What was taken of the source where the run stopped, as the puller's pulls tell it.
    ensures draws { OnErr result ((packets : List (List ℕ))
        × ((last : Pulling) × Draws (S.end source.old) (S.end source.new) puller last packets)) }
{
    let mut feeder = FeederWorker {
        feeder,
        puller,
        count: 0,
        stop: None,
    };
    let mut feeding = Vec::new(alloc);
    let mut workers = workers_of(alloc, clients, script)?;
    work_all(
        rt,
        alloc,
        adapter,
        &mut feeder,
        &mut feeding,
        &mut workers,
        source,
        batch,
        &named(script),
        clock,
        gate,
    );
    match stop_of(feeder.stop, &workers) {
        None => Ok(left_by(alloc, feeder, feeding, workers)?),
        Some(stop) => {
            gather(alloc, adapter, feeder, workers)?;
            Err(stop)
        }
    }
}
