//! How the locks are made, and how their passes are dealt to the feeder and the clients.
ghost use Rattle.std.specs.Prelude.{◌≡◌, ℕ, ◌++◌, ◌∷◌, [], ◌+◌, ◌<◌, ◌≤◌, ◌^◌, length, vec_len, OnOk, IfOk, Some};
ghost use Rattle.adapter.specs.Imports.{AreFresh, DEMUX_NODES as nodes};
ghost use Rattle.adapter.specs.Rows.{AllDealt, AreFreshRows};
ghost use Rattle.adapter.specs.Inside.Making.{AreLastFirst, AreFreshClients};

use crate::boxed::Boxed;
use crate::client::Client;
use crate::passes::NodePasses;
use dmx_calls::limits::DEMUX_NODES;
use dvr_core::DvrCore;
use machine::Machine;
use node_core::NodeCore;
use node_lock::{NodeLock, Pass};
use std::alloc::{AllocError as NoMemory, Global};

// How many calls a client may make.
const CALLS: u64 = 1 << 40;

// An empty row for each caller.
pub(crate) fn empty_rows(
    alloc: Global,
    callers: u32,
) -> Result<Vec<Vec<Pass<Boxed<NodeCore>>>>, NoMemory>
    ensures { IfOk result (λ rows. AreFreshRows (λ r. r.items) callers [] rows.items) }
{
    let mut rows = Vec::with_capacity(alloc, callers as usize)?;
    for _ in 0..callers {
        rows.push(Vec::with_capacity(alloc, DEMUX_NODES as usize)?)?;
    }
    Ok(rows)
}

// A lock's passes go to the callers, one to each.
fn deal<M: Machine>(rows: &mut [Vec<Pass<M>>], mut passes: Vec<Pass<M>>) -> Result<(), NoMemory>
    requires long { length rows.old ≡ vec_len passes }
    ensures { OnOk result (AllDealt (λ r. r.items) rows.old passes.items rows.new) }
{
    while let Some(pass) = passes.pop() {
        let who = passes.len();
        rows[who].push(pass)?;
    }
    Ok(())
}

// The locks of the demux nodes, whose passes go to the callers.
pub(crate) fn build(
    alloc: Global,
    callers: u32,
    rows: &mut [Vec<Pass<Boxed<NodeCore>>>],
) -> Result<Vec<NodeLock<Boxed<NodeCore>>>, NoMemory>
    requires callers { (1 ≤ callers) × (callers ≤ 64) }
    requires rows { AreFreshRows (λ r. r.items) callers [] rows.old }
    ensures { IfOk result (λ locks. (vec_len locks ≡ nodes) × AreFreshRows (λ r. r.items) callers locks.items rows.new) }
{
    let mut locks = Vec::with_capacity(alloc, DEMUX_NODES as usize)?;
    'nodes: for node in 0..DEMUX_NODES {
        let core = Boxed::new(alloc, NodeCore::new(alloc, node))?;
        let Ok((lock, passes)) = NodeLock::new(alloc, core, callers) else {
            return Err(NoMemory);
        };
        deal(rows, passes)?;
        locks.push(lock)?;
    }
    Ok(locks)
}

// The passes of each caller, those of the last caller first.
pub(crate) fn with_dvr(
    alloc: Global,
    demux: &Vec<NodeLock<Boxed<NodeCore>>>,
    dvr: &NodeLock<Boxed<DvrCore>>,
    mut rows: Vec<Vec<Pass<Boxed<NodeCore>>>>,
    mut passes: Vec<Pass<Boxed<DvrCore>>>,
) -> Result<Vec<NodePasses>, NoMemory>
    requires locks { vec_len demux.now ≡ nodes }
    requires rows { AreFreshRows (λ r. r.items) (vec_len passes) demux.now.items rows.items }
    requires passes { AreFresh dvr.now (vec_len passes) passes.items }
    ensures { IfOk result (λ all. (vec_len all ≡ vec_len passes)
        × AreLastFirst (vec_len passes) (demux.now.items ++ dvr.now ∷ []) all.items) }
{
    let mut all = Vec::with_capacity(alloc, rows.len())?;
    while let Some(row) = rows.pop() {
        let pass = passes.pop().unwrap();
        all.push(NodePasses {
            demux: row,
            dvr: pass,
        })?;
    }
    Ok(all)
}

// The clients, in the order of their numbers, from the passes of all callers but the first.
pub(crate) fn make_clients(
    alloc: Global,
    demux: &Vec<NodeLock<Boxed<NodeCore>>>,
    dvr: &NodeLock<Boxed<DvrCore>>,
    mut rest: Vec<NodePasses>,
) -> Result<Vec<Client>, NoMemory>
    requires few { vec_len rest ≤ 8 }
    requires rest { AreLastFirst (vec_len rest + 1) (demux.now.items ++ dvr.now ∷ []) rest.items }
    ensures { IfOk result (λ clients. (vec_len clients ≡ vec_len rest)
        × AreFreshClients (vec_len rest + 1) (demux.now.items ++ dvr.now ∷ []) clients.items) }
{
    let mut clients = Vec::with_capacity(alloc, rest.len())?;
    while let Some(passes) = rest.pop() {
        let who = clients.len() as u32 + 1;
        clients.push(Client {
            who,
            left: CALLS,
            passes,
        })?;
    }
    Ok(clients)
}
