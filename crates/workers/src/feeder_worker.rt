// The feeder at its work.
ghost use Rattle.std.specs.Prelude.{◌≡◌, ◌≢◌, true, false, ℕ, ◌+◌, ◌-◌, ◌<◌, ◌≤◌, ◌^◌, List, None, Some, IsOk, IfOk, OnOk};
ghost use Rattle.workers.specs.Imports.{Draws, IsDone, IsSameCaller, NoMemory as WantOfMemory, Pulling, SourceEnd, TooMany, is_in};
ghost use Rattle.workers.specs.Inside.FeederWork.{IsFitFeeder, LeavesOthers, MayPass, HasPassed, HasFedToEnd};

use crate::batches::Batches;
use adapter::{Adapter, Feeder};
use client_core::Stop;
use dmx_calls::Fed;
use dmx_calls::limits::NODES;
use emu_io::{Clock, Gate, Source};
use feed_pull::{PullFault, Puller};
use machine::steps::Steps;
use std::alloc::AllocError as NoMemory;
use std::marker::Brand;
use std::sync::Wait;
use std::sync::ledger::{Blank, Ledger};

// The caller number of the feeder.
const FEEDER: u32 = 0;

/// The feeder with the stream that it passes, how many batches have passed, and why it stopped, if it did.
#[derive(Drop)]
pub struct FeederWorker {
    /// The feeder of the adapter.
    pub feeder: Feeder,
    /// What cuts the stream into batches.
    pub puller: Puller,
    /// How many batches have passed.
    pub count: u64,
    /// Why it has stopped before the stream's end, if it has.
    pub stop: Option<Stop>,
}

impl FeederWorker {
    // The next batch passes these nodes, at a moment of the clock, and is told; or none is left.
    fn turn<S: Source, B: Batches, L: Ledger, R: Wait, C: Clock, G: Gate>(
        &mut self,
        rt: &R,
        adapter: &Adapter,
        source: &mut S,
        batches: &mut B,
        most: u32,
        nodes: &[bool; NODES as usize],
        clock: &C,
        gate: &G,
        steps: &mut Steps<L>,
    ) -> Result<bool, NoMemory>
        requires may { MayPass most adapter.now self.old }
        ensures fit { IsFitFeeder adapter.now self.new }
        ensures same { IsSameCaller self.old.feeder self.new.feeder }
        ensures others { LeavesOthers (is_in nodes.now) self.old.feeder.passes self.new.feeder.passes }
        ensures draws { (packets : List (List ℕ))
            × Draws (S.end source.old) (S.end source.new) self.old.puller self.new.puller packets }
        ensures passed { OnOk result ((before : SourceEnd) (first : Pulling) (was : B)
            → HasPassed (is_in nodes.now) most (C.may_give clock.now) (C.may_give_behind clock.now) B.took before
            (S.end source.old) first was batches.old self.old
            → HasPassed (is_in nodes.now) most (C.may_give clock.now) (C.may_give_behind clock.now) B.took before
            (S.end source.new) first was batches.new self.new) }
        ensures done { IfOk result (λ some. some ≡ false → IsDone self.new.puller) }
        ensures rises { IfOk result (λ some. some ≡ true → self.old.puller.given < self.new.puller.given) }
    {
        gate.at(FEEDER, self.count);
        let Some(batch) = self.puller.pull(source, most)? else {
            return Ok(false);
        };
        let now = clock.now_behind(source);
        let fed = Fed {
            first: batch.first(),
            count: batch.count(),
            now,
        };
        batches.begin(&batch);
        let places = self.feeder.feed(rt, adapter, nodes, batch, now, steps);
        batches.take(fed, &places)?;
        self.count += 1;
        Ok(true)
    }

    // The whole stream passes, batch by batch.
    fn pass_all<S: Source, B: Batches, L: Ledger, R: Wait, C: Clock, G: Gate>(
        &mut self,
        rt: &R,
        adapter: &Adapter,
        source: &mut S,
        batches: &mut B,
        most: u32,
        nodes: &[bool; NODES as usize],
        clock: &C,
        gate: &G,
        steps: &mut Steps<L>,
    ) -> Result<(), NoMemory>
        requires may { MayPass most adapter.now self.old }
        ensures fit { IsFitFeeder adapter.now self.new }
        ensures same { IsSameCaller self.old.feeder self.new.feeder }
        ensures others { LeavesOthers (is_in nodes.now) self.old.feeder.passes self.new.feeder.passes }
        ensures draws { (packets : List (List ℕ))
            × Draws (S.end source.old) (S.end source.new) self.old.puller self.new.puller packets }
        ensures passed { OnOk result ((before : SourceEnd) (first : Pulling) (was : B)
            → HasPassed (is_in nodes.now) most (C.may_give clock.now) (C.may_give_behind clock.now) B.took before
            (S.end source.old) first was batches.old self.old
            → HasPassed (is_in nodes.now) most (C.may_give clock.now) (C.may_give_behind clock.now) B.took before
            (S.end source.new) first was batches.new self.new) }
        ensures done { OnOk result (IsDone self.new.puller) }
    {
        'batches: while self.turn(
            rt, adapter, source, batches, most, nodes, clock, gate, steps,
        )? {}
        Ok(())
    }

    // Why the feeder stops that has passed the stream or not: want of memory goes before too many reads.
    fn stop_of(&self, passed: Result<(), NoMemory>) -> Option<Stop>
        ensures memory { result ≢ Some WantOfMemory → IsOk passed }
        ensures none { result ≡ None → self.now.puller.reading ≢ TooMany }
        ensures too_long { (turns : ℕ) → result ≡ Some (Stop.TooLong turns)
            → (turns ≡ 2 ^ 32) × (2 ^ 32 ≤ self.now.puller.start + self.now.puller.taken) }
    {
        if passed.is_err() {
            return Some(Stop::NoMemory);
        }
        match self.puller.fault() {
            Some(PullFault::TooLong { turns }) => Some(Stop::TooLong { turns }),
            _ => None,
        }
    }

    // The stream passes and then its end, with a counter of steps of its own. The end passes too where memory was refused,
    // so that clients which wait for bytes go on.
    fn work_counted<S: Source, B: Batches, L: Ledger, R: Wait, C: Clock, G: Gate>(
        &mut self,
        rt: &R,
        adapter: &Adapter,
        source: &mut S,
        batches: &mut B,
        most: u32,
        nodes: &[bool; NODES as usize],
        clock: &C,
        gate: &G,
        blank: Blank,
    )
        requires ledger { (blank.name ≡ L.name) × (blank.parts ≡ L.parts) × (0 < L.parts) }
        requires may { MayPass most adapter.now self.old }
        requires begun { HasPassed (is_in nodes.now) most (C.may_give clock.now) (C.may_give_behind clock.now)
            B.took (S.end source.old)
            (S.end source.old) self.old.puller batches.old batches.old self.old }
        ensures { HasFedToEnd (is_in nodes.now) most (C.may_give clock.now) (C.may_give_behind clock.now)
            B.took (S.end source.old)
            (S.end source.new) batches.old batches.new self.old self.new }
    {
        let mut steps: Steps<L> = Steps::new(blank);
        let passed = self.pass_all(
            rt, adapter, source, batches, most, nodes, clock, gate, &mut steps,
        );
        let places = self.feeder.end(rt, adapter, nodes, &mut steps);
        batches.finish(&places);
        gate.at(FEEDER, self.count.saturating_add(1));
        self.stop = self.stop_of(passed);
    }

    /// Passes the stream through these nodes in batches of so many packets, the last one with what is left, and then its end.
    /// Each batch is told as it passes. Before each batch, and once more behind the end, it calls the gate as caller 0. Where
    /// memory is refused the end passes all the same: whatever stops the feeder, its last call on each of them is End.
    pub fn work<S: Source, B: Batches, R: Wait, C: Clock, G: Gate>(
        &mut self,
        rt: &R,
        adapter: &Adapter,
        source: &mut S,
        batches: &mut B,
        most: u32,
        nodes: &[bool; NODES as usize],
        clock: &C,
        gate: &G,
    )
        requires may { MayPass most adapter.now self.old }
        requires begun { HasPassed (is_in nodes.now) most (C.may_give clock.now) (C.may_give_behind clock.now)
            B.took (S.end source.old)
            (S.end source.old) self.old.puller batches.old batches.old self.old }
        ensures { HasFedToEnd (is_in nodes.now) most (C.may_give clock.now) (C.may_give_behind clock.now)
            B.took (S.end source.old)
            (S.end source.new) batches.old batches.new self.old self.new }
    {
        self.work_counted::<S, B, Brand, R, C, G>(
            rt,
            adapter,
            source,
            batches,
            most,
            nodes,
            clock,
            gate,
            Blank::new(1),
        )
    }
}
