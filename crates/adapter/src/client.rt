//! A client of the adapter.
ghost use Rattle.std.specs.Prelude.{◌≡◌, ℕ, ◌+◌, ◌<◌, ◌≤◌, List, length, IfOk, IfErr};
ghost use Rattle.adapter.specs.Imports.{DEMUX_NODES as nodes, GivesBack, packets_of, told};
ghost use Rattle.adapter.specs.Rows.{Fits};
ghost use Rattle.adapter.specs.Nodes.{MakesEntry, MakesNoEntry, Looks};
ghost use Rattle.adapter.specs.Callers.{IsSameCaller};

use crate::adapter::Adapter;
use crate::passes::NodePasses;
use dmx_calls::{Answer, Call};
use machine::steps::Steps;
use node_lock::Held;
use std::marker::Model;
use std::sync::Wait;
use std::sync::ledger::Ledger;

/// A client, with a pass of each node. One call at a time is made with it.
///
/// Contracts see the record `Caller`: its number, how many calls it may make, and its passes.
#[derive(Drop)]
pub struct Client {
    pub(crate) who: u32,
    pub(crate) left: u64,
    pub(crate) passes: NodePasses,
}

impl Model for Client {
    ghost use Rattle.adapter.specs.Callers.{Caller};

    ghost Value = { Caller };

    ghost use Rattle.adapter.specs.Inside.Held.{client_view, ClientHolds};

    ghost view = { client_view };

    ghost invariant = { ClientHolds };
}

impl Client {
    /// Makes a call on a node, 0 to 31 for a demux node and 32 for the dvr node, and answers the place of its entry in the
    /// node's history and the node's answer there. It may wait.
    pub fn call<L: Ledger, R: Wait>(
        &mut self,
        rt: &R,
        adapter: &Adapter,
        node: u32,
        call: Call,
        steps: &mut Steps<L>,
    ) -> (u64, Answer)
        requires node { node ≤ nodes }
        requires own { Fits adapter.now self.old.passes }
        requires left { 1 ≤ self.old.left }
        ensures entry { MakesEntry node (told self.old.who call result.1) result.0 self.old.passes self.new.passes }
        ensures back { GivesBack call result.1 }
        ensures cost { steps.new ≤ steps.old + packets_of call }
        ensures left { self.new.left + 1 ≡ self.old.left }
        ensures same { IsSameCaller self.old self.new }
        ensures own { Fits adapter.now self.new.passes }
    {
        let called = self.passes.call(rt, adapter, node, call, steps);
        self.left -= 1;
        called
    }

    /// Makes a call on a node where no other call is on its way there, and waits for nobody.
    ///
    /// `Held` says why no call was made, by two numbers of that node: how many entries its history had, by one look, and
    /// how many tickets were drawn. The call is handed back.
    pub fn try_call<L: Ledger>(
        &mut self,
        adapter: &Adapter,
        node: u32,
        call: Call,
        steps: &mut Steps<L>,
    ) -> Result<(u64, Answer), (Call, Held)>
        requires node { node ≤ nodes }
        requires own { Fits adapter.now self.old.passes }
        requires left { 1 ≤ self.old.left }
        ensures entry { IfOk result (λ r. MakesEntry node (told self.old.who call r.1) r.0 self.old.passes self.new.passes) }
        ensures back { IfOk result (λ r. GivesBack call r.1) }
        ensures cost { IfOk result (λ r. steps.new ≤ steps.old + packets_of call) }
        ensures left { IfOk result (λ r. self.new.left + 1 ≡ self.old.left) }
        ensures held { IfErr result (λ e. MakesNoEntry node e.1 self.old.passes self.new.passes) }
        ensures handed { IfErr result (λ e. (e.0 ≡ call) × (self.new.left ≡ self.old.left) × (steps.new ≡ steps.old)) }
        ensures same { IsSameCaller self.old self.new }
        ensures own { Fits adapter.now self.new.passes }
    {
        let called = self.passes.try_call(adapter, node, call, steps);
        if called.is_ok() {
            self.left -= 1;
        }
        called
    }

    /// How many entries a node's history has, by one look. It waits for nobody.
    pub fn len(&mut self, adapter: &Adapter, node: u32) -> u64
        requires node { node ≤ nodes }
        requires own { Fits adapter.now self.old.passes }
        ensures looks { Looks node result self.old.passes self.new.passes }
        ensures left { self.new.left ≡ self.old.left }
        ensures same { IsSameCaller self.old self.new }
        ensures own { Fits adapter.now self.new.passes }
    {
        self.passes.len(adapter, node)
    }

    /// How many calls may still be made: 2^40 at first, and an entry takes one.
    pub fn left(&self) -> u64
        ensures { result ≡ self.now.left }
    {
        self.left
    }

    // Its passes.
    pub(crate) fn into_passes(self) -> NodePasses
        ensures { result ≡ self.passes }
    {
        let Self {
            who: _,
            left: _,
            passes,
        } = self;
        passes
    }
}
