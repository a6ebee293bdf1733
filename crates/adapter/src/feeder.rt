//! The feeder of the adapter: what passes the nodes comes from it.
ghost use Rattle.std.specs.Prelude.{◌≡◌, ℕ, ◌+◌, ◌*◌, ◌<◌, ◌≤◌, List, length};
ghost use Rattle.dmx_calls.specs.declared.limits.TheConstants.{DEMUX_NODES, NODES};
ghost use Rattle.adapter.specs.Rows.{Fits};
ghost use Rattle.adapter.specs.Nodes.{MakesEachEntry, is_in, fed, ended};
ghost use Rattle.adapter.specs.Callers.{IsSameCaller};

use crate::adapter::Adapter;
use crate::passes::NodePasses;
use dmx_calls::limits::NODES;
use machine::steps::Steps;
use std::marker::Model;
use std::sync::ledger::Ledger;
use std::sync::{Arc, Wait};
use ts_batch::Batch;

/// The feeder, with a pass of each node. Contracts see the record `Caller`, whose number is 0.
#[derive(Drop)]
pub struct Feeder {
    pub(crate) left: u64,
    pub(crate) passes: NodePasses,
}

impl Model for Feeder {
    ghost use Rattle.adapter.specs.Callers.{Caller};

    ghost Value = { Caller };

    ghost use Rattle.adapter.specs.Inside.Held.{feeder_view, FeederHolds};

    ghost view = { feeder_view };

    ghost invariant = { FeederHolds };
}

impl Feeder {
    /// Passes a batch of the frontend through the nodes for which `nodes` has true, from 0 to 32, and answers the places of the
    /// entries, by node. `now` is the moment, in milliseconds. Each node hands the batch back for the next, so it is never
    /// copied. It may wait.
    pub fn feed<L: Ledger, R: Wait>(
        &mut self,
        rt: &R,
        adapter: &Adapter,
        nodes: &[bool; NODES as usize],
        batch: Arc<Batch>,
        now: u64,
        steps: &mut Steps<L>,
    ) -> [u64; NODES as usize]
        requires own { Fits adapter.now self.old.passes }
        requires left { 1 ≤ self.old.left }
        ensures entries { MakesEachEntry (is_in nodes.now) (fed batch.value now) result self.old.passes self.new.passes }
        ensures cost { steps.new ≤ steps.old + NODES * length batch.value.packets }
        ensures left { self.new.left + 1 ≡ self.old.left }
        ensures same { IsSameCaller self.old self.new }
        ensures own { Fits adapter.now self.new.passes }
    {
        let places = self.passes.feed(rt, adapter, nodes, batch, now, steps);
        self.left -= 1;
        places
    }

    /// Tells the nodes for which `nodes` has true, from 0 to 32, that the stream has ended, and answers the places of the
    /// entries, by node. It may wait.
    pub fn end<L: Ledger, R: Wait>(
        &mut self,
        rt: &R,
        adapter: &Adapter,
        nodes: &[bool; NODES as usize],
        steps: &mut Steps<L>,
    ) -> [u64; NODES as usize]
        requires own { Fits adapter.now self.old.passes }
        requires left { 1 ≤ self.old.left }
        ensures entries { MakesEachEntry (is_in nodes.now) ended result self.old.passes self.new.passes }
        ensures nodes { length self.new.passes ≡ DEMUX_NODES + 1 }
        ensures cost { steps.new ≤ steps.old }
        ensures left { self.new.left + 1 ≡ self.old.left }
        ensures same { IsSameCaller self.old self.new }
        ensures own { Fits adapter.now self.new.passes }
    {
        // Its type says that it has a lock for each node.
        let _ = &adapter.demux;
        let places = self.passes.end(rt, adapter, nodes, steps);
        self.left -= 1;
        places
    }

    /// How many more times `feed` and `end` may be called: 2^44 at first, and each takes one.
    pub fn left(&self) -> u64
        ensures { result ≡ self.now.left }
    {
        self.left
    }

    // Its passes.
    pub(crate) fn into_passes(self) -> NodePasses
        ensures { result ≡ self.passes }
    {
        let Self { left: _, passes } = self;
        passes
    }
}
