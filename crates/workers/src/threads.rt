// The threads.
ghost use Rattle.std.specs.Prelude.{◌≡◌, ◌-◌, ◌<◌, ◌≤◌, ◌^◌, ℕ, All, length, slice_index_or};
ghost use Rattle.workers.specs.Imports.{IsSend, IsSync, is_in};
ghost use Rattle.workers.specs.Inside.Begun.{HaveCome};
ghost use Rattle.workers.specs.Inside.FeederWork.{MayPass, HasPassed, HasFedToEnd};
ghost use Rattle.workers.specs.Inside.Working.{MayWork, HasCome};

use crate::batches::Batches;
use crate::client_worker::ClientWorker;
use crate::feeder_worker::FeederWorker;
use adapter::Adapter;
use dmx_calls::limits::NODES;
use emu_io::{Clock, Gate, Source};
use std::alloc::Global;
use std::sync::Wait;
use std::thread;
use std::thread::{Threads, join_mut};

// Each of the clients at work, in a thread of its own.
fn work_each<R: Threads + Wait + Sync, C: Clock + Sync, G: Gate + Sync>(
    rt: &R,
    alloc: Global,
    adapter: &Adapter,
    clock: &C,
    gate: &G,
    clients: &mut Vec<ClientWorker>,
)
    requires clients { All (λ w. MayWork adapter.now w) clients.old.items }
    ensures { HaveCome (C.may_give clock.now) adapter.now clients.old.items clients.new.items }
{
    let call = |_: usize, worker: &mut ClientWorker|
        requires { MayWork adapter.now worker.old }
        ensures { HasCome (C.may_give clock.entry.now) adapter.entry.now worker.old worker.new }
    { worker.work(rt, alloc, adapter, clock, gate) };
    let threads = clients.len().max(1);
    thread::for_each_mut(rt, clients, threads, &call);
}

/// The feeder at work in this thread, and each of the clients in another. Where no thread can be made for them, they come behind
/// the feeder, so that none of them waits for what nobody passes.
pub fn work_all<
    R: Threads + Wait + Sync,
    S: Source + Send,
    B: Batches + Send,
    C: Clock + Sync,
    G: Gate + Sync,
>(
    rt: &R,
    alloc: Global,
    adapter: &Adapter,
    feeder: &mut FeederWorker,
    batches: &mut B,
    clients: &mut Vec<ClientWorker>,
    source: &mut S,
    batch: u32,
    nodes: &[bool; NODES as usize],
    clock: &C,
    gate: &G,
)
    requires feeder { MayPass batch adapter.now feeder.old }
    requires begun { HasPassed (is_in nodes.now) batch (C.may_give clock.now) (C.may_give_behind clock.now)
        B.took (S.end source.old)
        (S.end source.old) feeder.old.puller batches.old batches.old feeder.old }
    requires clients { All (λ w. MayWork adapter.now w) clients.old.items }
    ensures feeder { HasFedToEnd (is_in nodes.now) batch (C.may_give clock.now) (C.may_give_behind clock.now)
        B.took (S.end source.old)
        (S.end source.new) batches.old batches.new feeder.old feeder.new }
    ensures clients { HaveCome (C.may_give clock.now) adapter.now clients.old.items clients.new.items }
{
    let mut first = ||
        requires may { MayPass batch adapter.now feeder.now }
        requires begun { HasPassed (is_in nodes.now) batch (C.may_give clock.now) (C.may_give_behind clock.now)
            B.took (S.end source.now)
            (S.end source.now) feeder.now.puller batches.now batches.now feeder.now }
        ensures { HasFedToEnd (is_in nodes.entry.now) batch (C.may_give clock.entry.now) (C.may_give_behind clock.entry.now)
            B.took (S.end source.entry.now)
            (S.end source.exit.now) batches.entry.now batches.exit.now feeder.entry.now feeder.exit.now }
    { feeder.work(rt, adapter, source, batches, batch, nodes, clock, gate) };
    let mut others = ||
        requires { IsSync R.row × IsSync C.row × IsSync G.row × All (λ w. MayWork adapter.now w) clients.now.items }
        ensures { HaveCome (C.may_give clock.entry.now) adapter.entry.now clients.entry.now.items clients.exit.now.items }
    { work_each(rt, alloc, adapter, clock, gate, clients) };
    join_mut(rt, &mut others, &mut first);
}
