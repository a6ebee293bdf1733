// The histories of all nodes.

ghost use Rattle.std.specs.Prelude.{◌≡◌, ◌+◌, ◌≤◌, Some, length, map, slice_get};
ghost use Rattle.dmx_calls.specs.declared.limits.TheConstants.{DEMUX_NODES};
ghost use Rattle.dmx_calls.specs.Calls.{told_entry};
ghost use Rattle.dmx_calls.specs.Histories.{feeder_acts, histories_of, woven};

use crate::limits::DEMUX_NODES;
use crate::log::Entry;
use std::marker::Model;

/// One batch that the feeder passed through all nodes.
#[derive(Clone, Copy, Debug, PartialEq, Eq, Drop)]
pub struct Fed {
    /// The number of the batch's first packet in the stream, counted from 0.
    pub first: u64,
    /// How many packets the batch has.
    pub count: u32,
    /// The moment at which it passed, in milliseconds.
    pub now: u64,
}

/// The histories of nodes 0 to 32, the dvr node last. The feeder's calls are the same on each node, so they are kept once: a
/// contract sees each of the 33 lists whole, with the clients' entries at their places and the feeder's calls at all others.
#[derive(Drop)]
pub struct Histories {
    feeding: Vec<Fed>,
    nodes: Vec<Vec<Entry>>,
}

impl Model for Histories {
    ghost use Rattle.std.specs.Prelude.{◌≡◌, ◌+◌, List, length, map};
    ghost use Rattle.dmx_calls.specs.declared.limits.TheConstants.{DEMUX_NODES};
    ghost use Rattle.dmx_calls.specs.Histories.{histories_of};
    ghost use Rattle.dmx_calls.specs.Log.{LogEntry};

    ghost Value = { List (List LogEntry) };

    ghost view = { λ h. histories_of h.feeding.items (map (λ calls. calls.items) h.nodes.items) };

    ghost invariant = { λ h. length h.nodes.items ≡ DEMUX_NODES + 1 };
}

impl Histories {
    /// The histories in which the feeder passed these batches and then ended the stream, and the clients' entries are
    /// these: one list for each of the 33 nodes, each in order of place. It takes no memory.
    pub fn new(feeding: Vec<Fed>, nodes: Vec<Vec<Entry>>) -> Histories
        requires { length nodes.items ≡ DEMUX_NODES + 1 }
        ensures { result ≡ histories_of feeding.items (map (λ calls. calls.items) nodes.items) }
    {
        Histories { feeding, nodes }
    }

    /// The batches that passed every node, and the clients' entries on this node, 0 to 32, in order of place.
    pub fn node(&self, node: u32) -> (&[Fed], &[Entry])
        requires { node ≤ DEMUX_NODES }
        ensures history { slice_get self.now node ≡ Some (woven node (feeder_acts result.0.now) (map told_entry result.1.now)) }
        ensures nodes { length self.now ≡ DEMUX_NODES + 1 }
    {
        (&self.feeding, &self.nodes[node as usize])
    }
}
