// A client of a script at its work.
ghost use Rattle.std.specs.Prelude.{◌≡◌, ◌≢◌, ℕ, ◌+◌, ◌<◌, ◌≤◌, ◌^◌, Bool, List, [], ◌∷◌, ◌++◌, length, slice_get, Some, None, IsSome, IfOk, OnOk, IsErrOf};
ghost use Rattle.workers.specs.Imports.{DEMUX_NODES as nodes, Entry as HistoryEntry, IsGiven, IsRequestInRange, IsRequestOf, IsSameCaller, MOST_CALLS as most_calls, Scripted, TableId, View, act_of, call_of as call_at, next_event, next_of, replies, response_of};
ghost use Rattle.dmx_calls.specs.Response as response;
ghost use Rattle.workers.specs.Inside.Working.{IsFit, MayWork, IsWorking, MayCallNow, GoesOn, HasLooked, HasCome};

use crate::moment::moment_of;
use adapter::{Adapter, Client};
use client_core::{ClientCore, Event, MOST_CALLS, Stop, call_of, unless_no_memory};
use dmx_calls::{Answer, Entry, KeptAct, SharedReply};
use emu_io::{Clock, Gate};
use machine::steps::Steps;
use std::alloc::{AllocError as NoMemory, Global};
use std::marker::Brand;
use std::sync::Wait;
use std::sync::ledger::{Blank, Ledger};
use std::thread;

// How often a client that waits lets others go first, before it rests until the node is called: an entry mostly comes soon, and
// sleeping and waking take longer than that.
const TURNS: u32 = 32;

// Lets others go first who may call the node, which has `len` entries: by a yield so many times, and then by a rest.
fn give_way<R: Wait>(rt: &R, adapter: &Adapter, node: u32, len: u64, turns: u32)
    requires { node ≤ nodes }
{
    if turns < TURNS {
        thread::yield_now();
    } else {
        adapter.rest(rt, node, len);
    }
}

// A reply as the log keeps it: shared with that of the log's last entry, where this is the same. Want of memory isn't kept.
fn kept_of(alloc: Global, last: Option<&Entry>, answer: Answer) -> Result<SharedReply, NoMemory>
    ensures same { IfOk result (λ kept. response_of kept ≡ response_of answer.reply) }
    ensures some { IfOk result (λ kept. response_of kept ≢ response.NoMemory) }
{
    let reply = unless_no_memory(answer.reply)?;
    SharedReply::of(alloc, last, reply)
}

/// A client with the machine that says what it calls next, its calls so far, and why it stopped, if it did.
#[derive(Drop)]
pub struct ClientWorker {
    pub client: Client,
    /// Its number as a caller.
    pub who: u32,
    pub core: ClientCore,
    pub log: Vec<Entry>,
    pub stop: Option<Stop>,
}

impl ClientWorker {
    // Makes the client's next call, takes the reply, and keeps both in its log, which has room before the call.
    fn make<L: Ledger, R: Wait>(
        &mut self,
        rt: &R,
        alloc: Global,
        adapter: &Adapter,
        event: Event,
        now: u64,
        steps: &mut Steps<L>,
    ) -> Result<(), NoMemory>
        requires fit { IsFit adapter.now self.old }
        requires few { self.old.core.step < most_calls }
        requires next { next_of self.old.core ≡ Some event }
        requires some { IsSome self.old.core.current }
        requires node { event.node ≤ nodes }
        requires step { event.step ≡ self.old.core.step }
        requires range { IsRequestInRange event.want }
        requires played { IsRequestOf self.old.core.plays event.want }
        ensures same { IsSameCaller self.old.client self.new.client }
        ensures fit { OnOk result (IsFit adapter.now self.new) }
        ensures works { OnOk result ((may : ℕ → Bool) (script : Scripted) (client : ℕ)
            → IsGiven may (act_of (call_at self.old.core.plays event.want now)) → MayCallNow script client event.node self.old
            → IsWorking script client may self.old → IsWorking script client may self.new) }
        ensures step { OnOk result (self.new.core.step ≡ self.old.core.step + 1) }
    {
        self.log.reserve(1)?;
        let Event { step, node, want } = event;
        let call = call_of(alloc, &self.core, &want, now)?;
        let asked = call.act();
        let act = KeptAct::keep(alloc, asked)?;
        let (place, answer) = self.client.call(rt, adapter, node, call, steps);
        let kept = kept_of(alloc, self.log.last(), answer)?;
        self.core.take(kept.told());
        self.log.push_reserved(Entry {
            place,
            step,
            node,
            who: self.who,
            act,
            reply: kept,
        });
        Ok(())
    }

    // Looks at a node until an entry stands behind the one at this place.
    fn look_past<R: Wait>(&mut self, rt: &R, adapter: &Adapter, node: u32, place: u64)
        requires fit { IsFit adapter.now self.old }
        requires node { node ≤ nodes }
        ensures looked { HasLooked adapter.now self.old self.new }
        ensures past { (p : TableId × View HistoryEntry) → slice_get self.new.client.passes node ≡ Some p
            → place + 1 < length p.1.seen }
    {
        let mut turns = 0u32;
        'looks: for _ in rt.forever() {
            let len = self.client.len(adapter, node);
            if len > place.saturating_add(1) {
                return;
            }
            give_way(rt, adapter, node, len, turns);
            turns = turns.saturating_add(1);
        }
        unreachable!()
    }

    // Where the client waits, a read is repeated once an entry of another stands behind its last one.
    fn wait<R: Wait>(&mut self, rt: &R, adapter: &Adapter, node: u32)
        requires fit { IsFit adapter.now self.old }
        requires node { node ≤ nodes }
        ensures looked { HasLooked adapter.now self.old self.new }
        ensures may { (may : ℕ → Bool) (script : Scripted) (client : ℕ) → IsWorking script client may self.old
            → MayCallNow script client node self.new }
    {
        if self.core.waits().is_none() {
            return;
        }
        if let Some(last) = self.log.last() {
            let place = last.place;
            self.look_past(rt, adapter, node, place);
        }
    }

    // Makes the client's calls, one after another, until its commands are through.
    fn run<L: Ledger, R: Wait, C: Clock, G: Gate>(
        &mut self,
        rt: &R,
        alloc: Global,
        adapter: &Adapter,
        clock: &C,
        gate: &G,
        steps: &mut Steps<L>,
    ) -> Result<(), Stop>
        requires may { MayWork adapter.now self.old }
        ensures same { IsSameCaller self.old.client self.new.client }
        ensures fit { OnOk result (IsFit adapter.now self.new) }
        ensures works { OnOk result (GoesOn (C.may_give clock.now) self.old self.new) }
        ensures ends { OnOk result (next_of self.new.core ≡ None) }
        ensures too_long { (turns : ℕ) → IsErrOf result (Stop.TooLong turns)
            → (turns ≡ most_calls) × (self.new.core.step ≡ most_calls)
            × IsFit adapter.now self.new × GoesOn (C.may_give clock.now) self.old self.new }
    {
        'calls: while let Some(event) = self.core.next() {
            if event.step >= MOST_CALLS {
                return Err(Stop::TooLong { turns: MOST_CALLS });
            }
            gate.at(self.who, event.step);
            self.wait(rt, adapter, event.node);
            let now = moment_of(clock, &event.want);
            self.make(rt, alloc, adapter, event, now, steps)?;
        }
        Ok(())
    }

    // The same with a counter of steps of its own; the gate is told once more behind the last call.
    fn work_counted<L: Ledger, R: Wait, C: Clock, G: Gate>(
        &mut self,
        rt: &R,
        alloc: Global,
        adapter: &Adapter,
        clock: &C,
        gate: &G,
        blank: Blank,
    )
        requires ledger { (blank.name ≡ L.name) × (blank.parts ≡ L.parts) × (0 < L.parts) }
        requires may { MayWork adapter.now self.old }
        ensures { HasCome (C.may_give clock.now) adapter.now self.old self.new }
    {
        let mut steps: Steps<L> = Steps::new(blank);
        self.stop = self.run(rt, alloc, adapter, clock, gate, &mut steps).err();
        gate.at(self.who, self.core.steps());
    }

    /// Does the client's commands to their end, unless memory is refused or it has made the most calls.
    pub fn work<R: Wait, C: Clock, G: Gate>(
        &mut self,
        rt: &R,
        alloc: Global,
        adapter: &Adapter,
        clock: &C,
        gate: &G,
    )
        requires may { MayWork adapter.now self.old }
        ensures { HasCome (C.may_give clock.now) adapter.now self.old self.new }
    {
        self.work_counted::<Brand, R, C, G>(rt, alloc, adapter, clock, gate, Blank::new(1))
    }
}
