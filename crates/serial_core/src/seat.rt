// A node of a run, with the entries of its clients.
ghost use Rattle.std.specs.Prelude.{◌≡◌, ℕ, ◌+◌, ◌<◌, ◌^◌, List, [], ◌∷◌, ◌++◌, length, IfOk, OnOk, IsSome};
ghost use Rattle.serial_core.specs.Imports.{Act as ToldAct, End as EndAct, Frontend, IsAfter, Response, Scripted, entry_of, invocation_of, passing, response_of};
ghost use Rattle.dmx_calls.specs.Invocation as asks;
ghost use Rattle.serial_core.specs.Nodes.{Node as RunNode, answer_by, answered, history_of};
ghost use Rattle.serial_core.specs.Inside.Standing.{IsSeat, StandsAt, entries_in};

use crate::node::AnyCore;
use client_core::{ClientCore, unless_no_memory};
use dmx_calls::{Call, Entry, KeptAct, Reply, SharedReply};
use machine::steps::Steps;
use std::alloc::{AllocError as NoMemory, Global};
use std::sync::ledger::Ledger;
use ts_batch::Batch;

/// A node, its number, which is 32 for the dvr node, and the entries of its clients, the oldest first.
#[derive(Drop)]
pub struct SerialNode {
    pub core: AnyCore,
    pub node: u32,
    pub entries: Vec<Entry>,
}

impl SerialNode {
    /// The node of this number with this core, on which no call was made.
    pub fn new(alloc: Global, node: u32, core: AnyCore) -> SerialNode
        ensures core { result.core ≡ core }
        ensures node { result.node ≡ node }
        ensures entries { result.entries.items ≡ [] }
    {
        SerialNode {
            core,
            node,
            entries: Vec::new(alloc),
        }
    }

    // The reply to a call, which isn't kept.
    fn hear<L: Ledger>(
        &mut self,
        who: u32,
        call: Call,
        steps: &mut Steps<L>,
    ) -> Result<Reply, NoMemory>
        requires few { entries_in self.old.core < 2 ^ 50 }
        ensures answer { IfOk result (λ reply. (n : RunNode) → StandsAt self.old.core n.number (history_of n)
            → (response_of reply ≡ answer_by who (invocation_of call) n)
            × StandsAt self.new.core n.number
            (entry_of who (invocation_of call) (answer_by who (invocation_of call) n) ∷ history_of n)) }
        ensures node { self.new.node ≡ self.old.node }
        ensures entries { self.new.entries ≡ self.old.entries }
        ensures rises { entries_in self.new.core ≡ entries_in self.old.core + 1 }
    {
        let answer = self.core.apply(who, call, steps);
        unless_no_memory(answer.reply)
    }

    /// A batch passes at this moment, which is no entry of a client.
    pub fn pass<L: Ledger>(&mut self, batch: &Batch, now: u64, steps: &mut Steps<L>)
        requires few { entries_in self.old.core < 2 ^ 50 }
        ensures at { (acts : List ToldAct) (n : RunNode) → IsSeat acts self.old n
            → IsSeat (acts ++ passing Frontend batch.now.first (length batch.now.packets) now ∷ []) self.new
            (answered 0 (length acts) (asks.Pass Frontend batch.now.first batch.now.packets now) n) }
        ensures node { self.new.node ≡ self.old.node }
        ensures entries { self.new.entries ≡ self.old.entries }
        ensures rises { entries_in self.new.core ≡ entries_in self.old.core + 1 }
    {
        self.core.pass(batch, now, steps);
    }

    /// End passes, which is no entry of a client.
    pub fn end<L: Ledger>(&mut self, steps: &mut Steps<L>) -> Result<(), NoMemory>
        requires few { entries_in self.old.core < 2 ^ 50 }
        ensures at { OnOk result ((acts : List ToldAct) (n : RunNode) → IsSeat acts self.old n
            → IsSeat (acts ++ EndAct ∷ []) self.new (answered 0 (length acts) asks.End n)) }
        ensures node { self.new.node ≡ self.old.node }
        ensures entries { self.new.entries ≡ self.old.entries }
        ensures rises { entries_in self.new.core ≡ entries_in self.old.core + 1 }
    {
        self.hear(0, Call::End, steps)?;
        Ok(())
    }

    /// A client makes a call, and takes its reply, which joins the entries; `nth` is its number among the client's.
    pub fn call<L: Ledger>(
        &mut self,
        alloc: Global,
        client: &mut ClientCore,
        who: u32,
        nth: u64,
        call: Call,
        steps: &mut Steps<L>,
    ) -> Result<(), NoMemory>
        requires few { entries_in self.old.core < 2 ^ 50 }
        requires some { IsSome client.old.current }
        requires taken { client.old.step < 2 ^ 46 }
        ensures at { OnOk result ((acts : List ToldAct) (n : RunNode) → IsSeat acts self.old n
            → IsSeat acts self.new (answered who nth (invocation_of call) n)) }
        ensures client { OnOk result ((acts : List ToldAct) (n : RunNode) (c : ℕ) (script : Scripted) (replies : List Response)
            → IsSeat acts self.old n → IsAfter c script replies client.old
            → IsAfter c script (replies ++ answer_by who (invocation_of call) n ∷ []) client.new) }
        ensures step { OnOk result (client.new.step ≡ client.old.step + 1) }
        ensures rises { entries_in self.new.core ≡ entries_in self.old.core + 1 }
    {
        let place = self.core.entries();
        let act = call.act();
        let reply = self.hear(who, call, steps)?;
        let act = KeptAct::keep(alloc, act)?;
        let kept = SharedReply::of(alloc, self.entries.last(), reply)?;
        client.take(kept.told());
        self.entries.push(Entry {
            place,
            step: nth,
            node: self.node,
            who,
            act,
            reply: kept,
        })?;
        Ok(())
    }
}
