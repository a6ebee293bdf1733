// The 33 nodes of a run, and the calls of its feeder.
ghost use Rattle.std.specs.Prelude.{◌≡◌, true, false, ℕ, ◌+◌, ◌-◌, ◌<◌, ◌≤◌, ◌^◌, List, [], ◌∷◌, ◌++◌, length, map, IfOk, OnOk, IsSome};
ghost use Rattle.serial_core.specs.Imports.{Act as ToldAct, DEMUX_NODES as nodes, End as EndAct, Frontend, IsAfter, IsRequestInRange, IsRequestOf, Response, Scripted, histories_of, passing, range_with_len};
ghost use Rattle.dmx_calls.specs.Invocation as asks;
ghost use Rattle.serial_core.specs.Nodes.{Node as RunNode, answered, uncalled};
ghost use Rattle.serial_core.specs.SerialRun.{Run, begun, ended, fed_to_all, made, reply_to};
ghost use Rattle.serial_core.specs.Inside.Standing.{AreCounted, AreUnder, IsNodes, IsSeat, Pairs};

use crate::node::AnyCore;
use crate::seat::SerialNode;
use client_core::{ClientCore, Event, call_of};
use dmx_calls::limits::DEMUX_NODES;
use dmx_calls::{Entry, Fed, Histories};
use dvr_core::DvrCore;
use machine::steps::Steps;
use node_core::NodeCore;
use std::alloc::{AllocError as NoMemory, Global};
use std::sync::Arc;
use std::sync::ledger::Ledger;
use ts_batch::Batch;

/// The demux nodes 0 to 31 and the dvr node, the batches that passed them, whether End has passed, and how many calls were
/// made, where a call of the feeder on all nodes is one.
#[derive(Drop)]
pub struct Nodes {
    pub alloc: Global,
    pub seats: Vec<SerialNode>,
    pub feeding: Vec<Fed>,
    pub has_ended: bool,
    pub made: u64,
}

// The 33 nodes before the first call.
fn fresh_seats(alloc: Global) -> Result<Vec<SerialNode>, NoMemory>
    ensures at { IfOk result (λ seats. Pairs (IsSeat []) seats.items (map uncalled (range_with_len 0 (nodes + 1)))) }
    ensures none { IfOk result (λ seats. AreUnder seats.items 0) }
{
    let mut seats = Vec::new(alloc);
    'nodes: for node in 0..DEMUX_NODES {
        let core = AnyCore::Demux(NodeCore::new(alloc, node));
        seats.push(SerialNode::new(alloc, node, core))?;
    }
    let core = AnyCore::Dvr(DvrCore::new(alloc));
    seats.push(SerialNode::new(alloc, DEMUX_NODES, core))?;
    Ok(seats)
}

// A batch passes each node.
fn pass_all<L: Ledger>(seats: &mut [SerialNode], batch: &Batch, now: u64, steps: &mut Steps<L>)
    requires few { AreUnder seats.old (2 ^ 50 - 1) }
    ensures at { (acts : List ToldAct) (ns : List RunNode) → Pairs (IsSeat acts) seats.old ns
        → Pairs (IsSeat (acts ++ passing Frontend batch.now.first (length batch.now.packets) now ∷ [])) seats.new
        (map (answered 0 (length acts) (asks.Pass Frontend batch.now.first batch.now.packets now)) ns) }
    ensures rises { (most : ℕ) → AreUnder seats.old most → AreUnder seats.new (most + 1) }
{
    'seats: for seat in seats.iter_mut() {
        seat.pass(batch, now, steps);
    }
}

// End passes each node.
fn end_all<L: Ledger>(seats: &mut [SerialNode], steps: &mut Steps<L>) -> Result<(), NoMemory>
    requires few { AreUnder seats.old (2 ^ 50 - 1) }
    ensures at { OnOk result ((acts : List ToldAct) (ns : List RunNode) → Pairs (IsSeat acts) seats.old ns
        → Pairs (IsSeat (acts ++ EndAct ∷ [])) seats.new (map (answered 0 (length acts) asks.End) ns)) }
    ensures rises { OnOk result ((most : ℕ) → AreUnder seats.old most → AreUnder seats.new (most + 1)) }
{
    'seats: for seat in seats.iter_mut() {
        seat.end(steps)?;
    }
    Ok(())
}

// The entries of the clients on all nodes.
fn entries_of(alloc: Global, seats: Vec<SerialNode>) -> Result<Vec<Vec<Entry>>, NoMemory>
    ensures { IfOk result (λ nodes. map (λ calls. calls.items) nodes.items ≡ map (λ seat. seat.entries.items) seats.items) }
{
    let mut nodes = Vec::new(alloc);
    'seats: for seat in seats {
        nodes.push(seat.entries)?;
    }
    Ok(nodes)
}

impl Nodes {
    /// The nodes before the first call.
    pub fn new(alloc: Global) -> Result<Nodes, NoMemory>
        ensures at { IfOk result (λ v. (packets : List (List ℕ)) → IsNodes v (begun packets)) }
        ensures counted { IfOk result AreCounted }
        ensures none { IfOk result (λ v. v.made ≡ 0) }
        ensures open { IfOk result (λ v. v.has_ended ≡ false) }
    {
        Ok(Nodes {
            alloc,
            seats: fresh_seats(alloc)?,
            feeding: Vec::new(alloc),
            has_ended: false,
            made: 0,
        })
    }

    /// A batch passes all nodes, at this moment.
    pub fn pass<L: Ledger>(
        &mut self,
        batch: Arc<Batch>,
        now: u64,
        steps: &mut Steps<L>,
    ) -> Result<(), NoMemory>
        requires few { self.old.made < 2 ^ 50 - 1 }
        requires counted { AreCounted self.old }
        requires open { self.old.has_ended ≡ false }
        ensures at { OnOk result ((r : Run) → IsNodes self.old r
            → IsNodes self.new (fed_to_all (asks.Pass Frontend batch.value.first batch.value.packets now) r)) }
        ensures counted { OnOk result (AreCounted self.new) }
        ensures made { OnOk result (self.new.made ≡ self.old.made + 1) }
        ensures open { OnOk result (self.new.has_ended ≡ false) }
    {
        let fed = Fed {
            first: batch.first(),
            count: batch.count(),
            now,
        };
        pass_all(&mut self.seats, &batch, now, steps);
        self.feeding.push(fed)?;
        self.made += 1;
        Ok(())
    }

    /// End passes all nodes.
    pub fn end<L: Ledger>(&mut self, steps: &mut Steps<L>) -> Result<(), NoMemory>
        requires few { self.old.made < 2 ^ 50 - 1 }
        requires counted { AreCounted self.old }
        requires open { self.old.has_ended ≡ false }
        ensures at { OnOk result ((r : Run) → IsNodes self.old r → IsNodes self.new (ended r)) }
        ensures counted { OnOk result (AreCounted self.new) }
        ensures made { OnOk result (self.new.made ≡ self.old.made + 1) }
        ensures ended { OnOk result (self.new.has_ended ≡ true) }
    {
        end_all(&mut self.seats, steps)?;
        self.has_ended = true;
        self.made += 1;
        Ok(())
    }

    /// A client makes its next call, at this moment, and takes the reply.
    pub fn call<L: Ledger>(
        &mut self,
        core: &mut ClientCore,
        client: u32,
        event: Event,
        now: u64,
        steps: &mut Steps<L>,
    ) -> Result<(), NoMemory>
        requires few { self.old.made < 2 ^ 50 - 1 }
        requires counted { AreCounted self.old }
        requires client { client < 8 }
        requires node { event.node ≤ nodes }
        requires range { IsRequestInRange event.want }
        requires played { IsRequestOf core.old.plays event.want }
        requires some { IsSome core.old.current }
        requires taken { core.old.step < 2 ^ 46 }
        ensures at { OnOk result ((r : Run) → now ≡ r.moment → IsNodes self.old r
            → IsNodes self.new (made client core.old.plays event r)) }
        ensures core { OnOk result ((r : Run) (script : Scripted) (replies : List Response) → now ≡ r.moment
            → IsNodes self.old r
            → IsAfter client script replies core.old
            → IsAfter client script (replies ++ reply_to client core.old.plays event r ∷ []) core.new) }
        ensures step { OnOk result (core.new.step ≡ core.old.step + 1) }
        ensures counted { OnOk result (AreCounted self.new) }
        ensures made { OnOk result (self.new.made ≡ self.old.made + 1) }
        ensures same { OnOk result (self.new.has_ended ≡ self.old.has_ended) }
    {
        let Event { step, node, want } = event;
        let call = call_of(self.alloc, core, &want, now)?;
        let alloc = self.alloc;
        self.seats[node as usize].call(alloc, core, client + 1, step, call, steps)?;
        self.made += 1;
        Ok(())
    }

    /// The histories of all nodes. End has passed.
    pub fn into_histories(self) -> Result<Histories, NoMemory>
        requires counted { AreCounted self }
        ensures { IfOk result (λ all. all
            ≡ histories_of self.feeding.items (map (λ seat. seat.entries.items) self.seats.items)) }
    {
        let Nodes {
            alloc,
            seats,
            feeding,
            ..
        } = self;
        let nodes = entries_of(alloc, seats)?;
        Ok(Histories::new(feeding, nodes))
    }
}
