// The nodes with their entries.
ghost use Rattle.std.specs.Prelude.{◌≡◌, ◌≤◌, map, IfOk, IfSome};
ghost use Rattle.report_read.specs.Imports.{All, DEMUX_NODES, option_map, told_entry};
ghost use Rattle.report_read.specs.Inside.Reading.{Reads};
ghost use Rattle.report_read.specs.Ranges.{IsNodeInRange};
ghost use Rattle.report_read.specs.Inside.Whole.{node_name_in, node_line_in, node_in, nodes_in};

use crate::bytes::Bytes;
use crate::entries::read_entries;
use dmx_calls::Entry;
use dmx_calls::limits::DEMUX_NODES;
use std::alloc::{AllocError as NoMemory, Global};

// The name of a node.
#[tactic(auto, unfolding(crate::specs::Inside::Whole::node_name_in))]
fn read_name(bytes: &mut Bytes<'_>) -> Option<u32>
    ensures value { Reads result bytes.new (node_name_in bytes.old) }
    ensures range { IfSome result (λ node. node ≤ DEMUX_NODES) }
{
    if bytes.passes(b"dvr") {
        return Some(DEMUX_NODES);
    }
    let node = bytes.number(0, 31)?;
    Some(node as u32)
}

// The line of a node.
fn read_node_line(bytes: &mut Bytes<'_>) -> Option<u32>
    ensures value { Reads result bytes.new (node_line_in bytes.old) }
    ensures range { IfSome result (λ node. node ≤ DEMUX_NODES) }
{
    bytes.past(b"node ")?;
    let node = read_name(bytes)?;
    bytes.past(b"\n")?;
    Some(node)
}

// A node with its entries.
#[tactic(auto, unfolding(crate::specs::Inside::Whole::node_in))]
fn read_node(alloc: Global, bytes: &mut Bytes<'_>) -> Result<Option<(u32, Vec<Entry>)>, NoMemory>
    ensures value { IfOk result
        (λ node. Reads (option_map (λ n. record { node = n.0; entries = map told_entry n.1.items }) node) bytes.new
        (node_in bytes.old)) }
    ensures range { IfOk result
        (λ node. IfSome node (λ n. IsNodeInRange (record { node = n.0; entries = map told_entry n.1.items }))) }
{
    let Some(node) = read_node_line(bytes) else {
        return Ok(None);
    };
    let Some(entries) = read_entries(alloc, node, bytes)? else {
        return Ok(None);
    };
    Ok(Some((node, entries)))
}

/// The nodes, as many as there are.
#[tactic(auto, using(crate::proofs::Many::many_steps))]
pub fn read_nodes(
    alloc: Global,
    bytes: &mut Bytes<'_>,
) -> Result<Option<Vec<(u32, Vec<Entry>)>>, NoMemory>
    ensures value { IfOk result
        (λ nodes. Reads (option_map (λ v. map (λ n. record { node = n.0; entries = map told_entry n.1.items }) v.items) nodes)
        bytes.new (nodes_in bytes.old)) }
    ensures range { IfOk result
        (λ nodes. IfSome nodes (λ v. All IsNodeInRange
        (map (λ n. record { node = n.0; entries = map told_entry n.1.items }) v.items))) }
{
    let mut nodes = Vec::new(alloc);
    let mut left = bytes.len();
    'nodes: while left > 0 {
        if !bytes.begins_with(b"node ") {
            return Ok(Some(nodes));
        }
        let Some(node) = read_node(alloc, bytes)? else {
            return Ok(None);
        };
        nodes.push(node)?;
        left -= 1;
    }
    Ok(Some(nodes))
}
