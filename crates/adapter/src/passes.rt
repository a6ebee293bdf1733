//! The passes of one caller: one of each node.
ghost use Rattle.std.specs.Prelude.{◌≡◌, ℕ, ◌+◌, ◌*◌, ◌<◌, ◌≤◌, List, length, [], ◌∷◌, ◌++◌, map, IfOk, IfErr};
ghost use Rattle.adapter.specs.Imports.{DEMUX_NODES as nodes, Frontend, GivesBack, NODES, Passed, caller_of, entry_of, packets_of, told};
ghost use Rattle.dmx_calls.specs.Invocation as asks;
ghost use Rattle.adapter.specs.Rows.{Fits, MayCallAt, MayCall, OneCalls, OneMisses, OneLooks, AllCall, AllJoin};
ghost use Rattle.adapter.specs.Nodes.{IsLegalAt, is_in};

use crate::adapter::Adapter;
use crate::boxed::Boxed;
use crate::rows::{call_in, join_row, len_in, try_in};
use dmx_calls::limits::{DEMUX_NODES, NODES};
use dmx_calls::{Answer, Call, Input};
use dvr_core::DvrCore;
use machine::steps::Steps;
use node_core::NodeCore;
use node_lock::{Held, Pass};
use std::marker::Model;
use std::sync::ledger::Ledger;
use std::sync::{Arc, Wait};
use ts_batch::Batch;

// A pass of each node. Contracts see a list of passes, that of the dvr node last.
#[derive(Drop)]
pub(crate) struct NodePasses {
    pub(crate) demux: Vec<Pass<Boxed<NodeCore>>>,
    pub(crate) dvr: Pass<Boxed<DvrCore>>,
}

impl Model for NodePasses {
    ghost use Rattle.std.specs.Prelude.{◌≡◌, [], ◌∷◌, ◌++◌, List, length};
    ghost use Rattle.atomic_table.specs.Seated.{TableId};
    ghost use Rattle.node_lock.specs.declared.view.View.{View};
    ghost use Rattle.dmx_calls.specs.History.{Entry};
    ghost use Rattle.dmx_calls.specs.declared.limits.TheConstants.{DEMUX_NODES};

    ghost Value = { List (TableId × View Entry) };

    ghost view = { λ p. p.demux.items ++ p.dvr ∷ [] };

    ghost invariant = { λ p. length p.demux.items ≡ DEMUX_NODES };
}

impl NodePasses {
    // Makes a call on a node, 0 to 31 for a demux node and 32 for the dvr node. It may wait.
    pub(crate) fn call<L: Ledger, R: Wait>(
        &mut self,
        rt: &R,
        adapter: &Adapter,
        node: u32,
        call: Call,
        steps: &mut Steps<L>,
    ) -> (u64, Answer)
        requires node { node ≤ nodes }
        requires own { Fits adapter.now self.old }
        requires left { MayCallAt node self.old }
        ensures call { OneCalls caller_of (IsLegalAt node) node (λ who. told who call result.1) result.0 self.old self.new }
        ensures back { GivesBack call result.1 }
        ensures cost { steps.new ≤ steps.old + packets_of call }
    {
        if node < DEMUX_NODES {
            call_in(
                rt,
                &adapter.demux,
                &mut self.demux,
                node as usize,
                call,
                steps,
            )
        } else {
            adapter.dvr.call(rt, &mut self.dvr, call, steps)
        }
    }

    // Tries a call on a node. It waits for nobody.
    pub(crate) fn try_call<L: Ledger>(
        &mut self,
        adapter: &Adapter,
        node: u32,
        call: Call,
        steps: &mut Steps<L>,
    ) -> Result<(u64, Answer), (Call, Held)>
        requires node { node ≤ nodes }
        requires own { Fits adapter.now self.old }
        requires left { MayCallAt node self.old }
        ensures call { IfOk result
            (λ r. OneCalls caller_of (IsLegalAt node) node (λ who. told who call r.1) r.0 self.old self.new) }
        ensures back { IfOk result (λ r. GivesBack call r.1) }
        ensures cost { IfOk result (λ r. steps.new ≤ steps.old + packets_of call) }
        ensures held { IfErr result (λ e. OneMisses caller_of (IsLegalAt node) node e.1 self.old self.new) }
        ensures handed { IfErr result (λ e. (e.0 ≡ call) × (steps.new ≡ steps.old)) }
    {
        if node < DEMUX_NODES {
            try_in(&adapter.demux, &mut self.demux, node as usize, call, steps)
        } else {
            adapter.dvr.try_call(&mut self.dvr, call, steps)
        }
    }

    // A batch passes each of these nodes, and is handed on from one to the next. It answers the places, 0 at another node.
    pub(crate) fn feed<L: Ledger, R: Wait>(
        &mut self,
        rt: &R,
        adapter: &Adapter,
        nodes: &[bool; NODES as usize],
        batch: Arc<Batch>,
        now: u64,
        steps: &mut Steps<L>,
    ) -> [u64; NODES as usize]
        requires own { Fits adapter.now self.old }
        requires left { MayCall self.old }
        ensures entries { AllCall caller_of IsLegalAt (is_in nodes.now)
            (λ who. entry_of who (asks.Pass Frontend batch.value.first batch.value.packets now) Passed) result
            self.old self.new }
        ensures cost { steps.new ≤ steps.old + NODES * length batch.value.packets }
    {
        // Its type says that it has a lock for each node.
        let _ = &adapter.demux;
        let mut batch = batch;
        let mut places = [0; NODES as usize];
        'nodes: for node in 0..NODES {
            if !nodes[node as usize] {
                continue;
            }
            let call = Call::Pass {
                input: Input::Frontend,
                batch,
                now,
            };
            let (place, answer) = self.call(rt, adapter, node, call, steps);
            places[node as usize] = place;
            batch = answer.batch.unwrap();
        }
        places
    }

    // Tells each of these nodes that the stream has ended. It answers the places, 0 at another node.
    pub(crate) fn end<L: Ledger, R: Wait>(
        &mut self,
        rt: &R,
        adapter: &Adapter,
        nodes: &[bool; NODES as usize],
        steps: &mut Steps<L>,
    ) -> [u64; NODES as usize]
        requires own { Fits adapter.now self.old }
        requires left { MayCall self.old }
        ensures entries { AllCall caller_of IsLegalAt (is_in nodes.now)
            (λ who. entry_of who asks.End Passed) result self.old self.new }
        ensures cost { steps.new ≤ steps.old }
    {
        // Its type says that it has a lock for each node.
        let _ = &adapter.demux;
        let mut places = [0; NODES as usize];
        'nodes: for node in 0..NODES {
            if !nodes[node as usize] {
                continue;
            }
            let (place, _) = self.call(rt, adapter, node, Call::End, steps);
            places[node as usize] = place;
        }
        places
    }

    // How many entries a node's history has, by one look. It waits for nobody.
    pub(crate) fn len(&mut self, adapter: &Adapter, node: u32) -> u64
        requires node { node ≤ nodes }
        requires own { Fits adapter.now self.old }
        ensures { OneLooks caller_of (IsLegalAt node) node result self.old self.new }
    {
        if node < DEMUX_NODES {
            len_in(&adapter.demux, &mut self.demux, node as usize)
        } else {
            adapter.dvr.len(&mut self.dvr)
        }
    }

    // Takes in what another caller has seen, its numbers and its calls. It waits for nobody.
    pub(crate) fn take_in(&mut self, adapter: &Adapter, other: NodePasses)
        requires own { Fits adapter.now self.old }
        requires theirs { Fits adapter.now other }
        ensures { AllJoin self.old other self.new }
    {
        let NodePasses { demux, dvr } = other;
        join_row(&adapter.demux, &mut self.demux, demux);
        adapter.dvr.join(&mut self.dvr, dvr);
    }
}
