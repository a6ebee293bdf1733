// The histories of all nodes by place, made of what each caller told.
pub mod laws;

ghost use Rattle.std.specs.Prelude.{◌≡◌, ◌+◌, ◌<◌, ◌++◌, ℕ, [], length, map, get_or, IfOk, OnOk};
ghost use Rattle.adapter.specs.Imports.{All, DEMUX_NODES, histories_of};
ghost use Rattle.adapter.specs.Merging.{AreOnNodes, AreByPlace, IsDealt, AreDealt, AreSorted};

use dmx_calls::limits::NODES;
use dmx_calls::{Entry, Fed, Histories};
use std::alloc::{AllocError as NoMemory, Global};

// An empty list for each node.
fn empty_lists(alloc: Global) -> Result<Vec<Vec<Entry>>, NoMemory>
    ensures long { IfOk result (λ nodes. length nodes.items ≡ DEMUX_NODES + 1) }
    ensures empty { IfOk result (λ nodes. (node : ℕ) → get_or (map (λ calls. calls.items) nodes.items) node [] ≡ []) }
{
    let mut nodes: Vec<Vec<Entry>> = Vec::with_capacity(alloc, NODES as usize)?;
    'nodes: for _ in 0..NODES {
        nodes.push(Vec::new(alloc))?;
    }
    Ok(nodes)
}

// Puts the entries of a log to those of their nodes, the last one first.
fn deal(nodes: &mut Vec<Vec<Entry>>, log: Vec<Entry>) -> Result<(), NoMemory>
    requires nodes { length nodes.old.items ≡ DEMUX_NODES + 1 }
    requires log { AreOnNodes log.items }
    ensures { OnOk result (IsDealt log.items (map (λ calls. calls.items) nodes.old.items)
        (map (λ calls. calls.items) nodes.new.items)) }
{
    let mut left = log;
    'entries: while let Some(entry) = left.pop() {
        nodes[entry.node as usize].push(entry)?;
    }
    Ok(())
}

// The entries of all logs by node.
fn deal_all(alloc: Global, logs: Vec<Vec<Entry>>) -> Result<Vec<Vec<Entry>>, NoMemory>
    requires { All (λ log. AreOnNodes log.items) logs.items }
    ensures { IfOk result (λ nodes. AreDealt (map (λ log. log.items) logs.items) (map (λ calls. calls.items) nodes.items)) }
{
    let mut nodes = empty_lists(alloc)?;
    let mut left = logs;
    'logs: while let Some(log) = left.pop() {
        deal(&mut nodes, log)?;
    }
    Ok(nodes)
}

// Brings the entries of each node into the order of their places.
fn sort_all(nodes: &mut Vec<Vec<Entry>>) -> Result<(), NoMemory>
    ensures { OnOk result (AreSorted (map (λ calls. calls.items) nodes.old.items)
        (map (λ calls. calls.items) nodes.new.items)) }
{
    'nodes: for node in 0..nodes.len() {
        nodes[node].sort_by_key(|entry: &Entry| entry.place)?;
    }
    Ok(())
}

/// The histories of all nodes: the feeder's calls are these batches and then the end of the stream, and the clients' entries
/// are those of these logs, of which each names its place in its node's history.
///
/// # Errors
///
/// `NoMemory` where memory was refused; nothing is kept then.
pub fn histories(
    alloc: Global,
    feeding: Vec<Fed>,
    logs: Vec<Vec<Entry>>,
) -> Result<Histories, NoMemory>
    requires { All (λ log. AreOnNodes log.items) logs.items }
    ensures { IfOk result (λ all. (nodes : _) × AreByPlace (map (λ log. log.items) logs.items) nodes
        × (all ≡ histories_of feeding.items nodes)) }
{
    let mut nodes = deal_all(alloc, logs)?;
    sort_all(&mut nodes)?;
    Ok(Histories::new(feeding, nodes))
}
