// A seat at its line: it hands its calls over to a journal, and keeps none.
ghost use Rattle.std.specs.Prelude.{◌≡◌, ◌<◌, ◌≤◌, ◌+◌, ◌^◌, [], ℕ, List, OnOk, OnErr};
ghost use Rattle.atomic_table.specs.Seated.{TableId};
ghost use Rattle.seats.specs.Seated.{calls_made, commands_done, log_of, IsFit, HasRoom, IsReadyToHand};
ghost use Rattle.seats.specs.Served.{HasServed};

use crate::journal::{Journal, JournalLine};
use crate::seat::{HandedOver, Seat};
use adapter::Adapter;
use emu_io::{Clock, Sink, Source};
use machine::steps::Steps;
use std::alloc::{AllocError as NoMemory, Global};
use std::marker::Brand;
use std::mem;
use std::sync::Wait;
use std::sync::ledger::{Blank, Ledger};

impl Seat {
    // Hands over the calls that it keeps, and what became of its commands.
    fn hand_over<J: Journal>(&mut self, alloc: Global, journal: &mut J) -> Result<(), NoMemory>
        requires few { (calls_made self.old ≤ 2 ^ 40) × (commands_done self.old ≤ 2 ^ 40) }
        ensures took { OnOk result (J.took (log_of self.old) self.old.outcomes.items journal.old journal.new) }
        ensures none { OnOk result ((log_of self.new ≡ []) × (self.new.outcomes.items ≡ [])) }
        ensures kept { OnErr result (J.took [] [] journal.old journal.new × (log_of self.new ≡ log_of self.old)
            × (self.new.outcomes.items ≡ self.old.outcomes.items) × (self.new.handed ≡ self.old.handed)) }
        ensures count { (calls_made self.new ≡ calls_made self.old) × (commands_done self.new ≡ commands_done self.old) }
        ensures client { self.new.client ≡ self.old.client }
        ensures fit { (locks : List TableId) → IsFit locks self.old → IsFit locks self.new }
        ensures held { self.new.held ≡ self.old.held }
        ensures room { (calls : ℕ) → HasRoom calls self.old → HasRoom calls self.new }
    {
        journal.hear(&self.made);
        self.settle(alloc, journal.last())?;
        let now = HandedOver {
            calls: self.handed.calls + self.log.len() as u64,
            commands: self.handed.commands + self.outcomes.len() as u64,
        };
        let calls = mem::replace(&mut self.log, Vec::new(alloc));
        match journal.take(calls, &self.outcomes) {
            Ok(()) => {
                self.handed = now;
                self.outcomes.clear();
                Ok(())
            }
            Err(calls) => {
                self.log = calls;
                Err(NoMemory)
            }
        }
    }

    // Hands over all that is left; where there is no memory for that, the journal is told so.
    fn hand_over_last<J: Journal>(&mut self, alloc: Global, journal: &mut J)
        requires few { (calls_made self.old ≤ 2 ^ 40) × (commands_done self.old ≤ 2 ^ 40) }
        ensures took { J.took (log_of self.old) self.old.outcomes.items journal.old journal.new }
        ensures client { self.new.client ≡ self.old.client }
        ensures fit { (locks : List TableId) → IsFit locks self.old → IsFit locks self.new }
    {
        if self.hand_over(alloc, journal).is_err() {
            journal.miss();
        }
    }

    /// Answers the requests of its line until that has ended or failed, and then closes what its program has. Behind each
    /// request it hands the calls that were made for it over to the journal, and keeps none of them; where memory is refused
    /// for that, with the next.
    ///
    /// Where the line ends within a request, that isn't answered.
    pub fn serve<T: Source + Sink + Drop, J: Journal + Drop, C: Clock, L: Ledger, R: Wait>(
        &mut self,
        rt: &R,
        alloc: Global,
        adapter: &Adapter,
        at: &mut JournalLine<T, J>,
        clock: &C,
        steps: &mut Steps<L>,
    )
        requires ready { IsReadyToHand adapter.now self.old }
        ensures { HasServed T.Source.end T.Sink.end (C.may_give clock.now) (C.may_give_behind clock.now)
            J.took adapter.now at.old at.new self.old self.new }
    {
        'requests: for _ in rt.forever() {
            if !self.turn(rt, alloc, adapter, &mut at.line, clock, steps) {
                self.leave(rt, adapter, steps);
                self.hand_over_last(alloc, &mut at.journal);
                return;
            }
            let _ = self.hand_over(alloc, &mut at.journal);
        }
        unreachable!()
    }

    // The same with a counter of steps of its own.
    fn sit_counted<T: Source + Sink + Drop, J: Journal + Drop, C: Clock, L: Ledger, R: Wait>(
        &mut self,
        rt: &R,
        alloc: Global,
        adapter: &Adapter,
        at: &mut JournalLine<T, J>,
        clock: &C,
        blank: Blank,
    )
        requires ledger { (blank.name ≡ L.name) × (blank.parts ≡ L.parts) × (0 < L.parts) }
        requires ready { IsReadyToHand adapter.now self.old }
        ensures { HasServed T.Source.end T.Sink.end (C.may_give clock.now) (C.may_give_behind clock.now)
            J.took adapter.now at.old at.new self.old self.new }
    {
        let mut steps: Steps<L> = Steps::new(blank);
        self.serve(rt, alloc, adapter, at, clock, &mut steps);
    }

    /// Answers the requests of its line until that has ended or failed, and then closes what its program has; its calls are the
    /// journal's.
    pub fn sit<T: Source + Sink + Drop, J: Journal + Drop, C: Clock, R: Wait>(
        &mut self,
        rt: &R,
        alloc: Global,
        adapter: &Adapter,
        at: &mut JournalLine<T, J>,
        clock: &C,
    )
        requires ready { IsReadyToHand adapter.now self.old }
        ensures { HasServed T.Source.end T.Sink.end (C.may_give clock.now) (C.may_give_behind clock.now)
            J.took adapter.now at.old at.new self.old self.new }
    {
        self.sit_counted::<T, J, C, Brand, R>(rt, alloc, adapter, at, clock, Blank::new(1))
    }
}
