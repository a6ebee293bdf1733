//! The end: all callers' passes are joined, and each node is looked at once more.
ghost use Rattle.std.specs.Prelude.{◌≡◌, ◌++◌, ◌∷◌, [], map};
ghost use Rattle.adapter.specs.Rows.{AreAllRows, AreGathered};
ghost use Rattle.adapter.specs.Ends.{AreHistories};

use crate::adapter::Adapter;
use crate::client::Client;
use crate::passes::NodePasses;
use dmx_calls::limits::NODES;

// All callers' passes in one row.
fn join_all(adapter: &Adapter, mut into: NodePasses, mut others: Vec<Client>) -> NodePasses
    requires all { AreAllRows adapter.now (map (λ c. c.passes) others.items ++ into ∷ []) }
    ensures { AreGathered adapter.now (map (λ c. c.passes) others.items ++ into ∷ []) result }
{
    while let Some(client) = others.pop() {
        into.take_in(adapter, client.into_passes());
    }
    into
}

// The lengths of the histories, once all passes are in one row.
pub(crate) fn measure(
    adapter: &Adapter,
    into: NodePasses,
    others: Vec<Client>,
) -> [u64; NODES as usize]
    requires all { AreAllRows adapter.now (map (λ c. c.passes) others.items ++ into ∷ []) }
    ensures { AreHistories (map (λ c. c.passes) others.items ++ into ∷ []) result }
{
    let mut all = join_all(adapter, into, others);
    let mut lengths = [0; NODES as usize];
    'nodes: for node in 0..NODES {
        lengths[node as usize] = all.len(adapter, node);
    }
    lengths
}
