// A run on its way: the nodes, the stream, and the moment.
ghost use Rattle.std.specs.Prelude.{◌≡◌, true, ℕ, ◌+◌, ◌-◌, ◌<◌, ◌≤◌, ◌^◌, ◌≢◌, List, [], length, map, min, IfOk, OnOk, OnErr};
ghost use Rattle.dmx_calls.specs.Histories.{histories_of};
ghost use Rattle.serial_core.specs.SerialRun.{Run, fed, finished, ticked, turned};
ghost use Rattle.serial_core.specs.Inside.Moving.{HasDrawn, MadeAtMost, IsAt, IsReady, IsSound, Moves};
ghost use Rattle.serial_core.specs.Inside.Standing.{AreCounted};

use crate::nodes::Nodes;
use dmx_calls::Histories;
use emu_io::Source;
use feed_pull::Puller;
use machine::steps::Steps;
use std::alloc::AllocError as NoMemory;
use std::sync::ledger::Ledger;

/// The nodes, the packets that haven't passed them yet, and the moment in milliseconds.
#[derive(Drop)]
pub struct Runner {
    pub nodes: Nodes,
    pub puller: Puller,
    pub moment: u64,
}

impl Runner {
    /// The feeder's next turn: a batch of at most so many packets passes, or End where none is left. It answers how many
    /// packets passed.
    pub fn turn<S: Source, L: Ledger>(
        &mut self,
        source: &mut S,
        most: u32,
        steps: &mut Steps<L>,
    ) -> Result<u32, NoMemory>
        requires ready { IsReady most self.old }
        requires made { MadeAtMost self.old (2 ^ 43) }
        ensures moves { IfOk result (λ n. Moves (S.end source.old) (S.end source.new) self.old self.new
            (λ r s. (s ≡ turned most r) × (n ≡ min most (length r.left)))) }
        ensures draws { OnErr result (HasDrawn (S.end source.old) (S.end source.new) self.old.puller self.new.puller) }
        ensures made { OnOk result ((calls : ℕ) → MadeAtMost self.old calls → MadeAtMost self.new calls) }
        ensures moment { OnOk result (self.new.moment ≡ self.old.moment) }
        ensures over { IfOk result (λ n. n ≡ 0 → self.new.nodes.has_ended ≡ true) }
        ensures given { IfOk result (λ n. (n ≤ most) × (self.new.puller.given ≡ self.old.puller.given + n)) }
    {
        if self.nodes.has_ended {
            return Ok(0);
        }
        match self.puller.pull(source, most)? {
            Some(batch) => {
                let count = batch.count();
                self.nodes.pass(batch, self.moment, steps)?;
                Ok(count)
            }
            None => {
                self.nodes.end(steps)?;
                Ok(0)
            }
        }
    }

    /// So many packets pass, in batches of at most `batch`; where fewer are left, these pass and then End.
    pub fn feed<S: Source, L: Ledger>(
        &mut self,
        source: &mut S,
        batch: u32,
        count: u32,
        steps: &mut Steps<L>,
    ) -> Result<(), NoMemory>
        requires ready { IsReady batch self.old }
        requires made { MadeAtMost self.old (2 ^ 43) }
        ensures moves { OnOk result
            (Moves (S.end source.old) (S.end source.new) self.old self.new (λ r s. s ≡ fed batch count r)) }
        ensures draws { OnErr result (HasDrawn (S.end source.old) (S.end source.new) self.old.puller self.new.puller) }
        ensures made { OnOk result ((calls : ℕ) → MadeAtMost self.old calls → MadeAtMost self.new calls) }
        ensures moment { OnOk result (self.new.moment ≡ self.old.moment) }
    {
        let mut left = count;
        'turns: while left > 0 {
            let passed = self.turn(source, left.min(batch), steps)?;
            if passed == 0 {
                return Ok(());
            }
            left -= passed;
        }
        Ok(())
    }

    /// The rest of the stream passes, in batches of at most `batch`, and then End.
    pub fn finish<S: Source, L: Ledger>(
        &mut self,
        source: &mut S,
        batch: u32,
        steps: &mut Steps<L>,
    ) -> Result<(), NoMemory>
        requires ready { IsReady batch self.old }
        requires made { MadeAtMost self.old (2 ^ 43) }
        ensures moves { OnOk result
            (Moves (S.end source.old) (S.end source.new) self.old self.new (λ r s. s ≡ finished batch r)) }
        ensures draws { OnErr result (HasDrawn (S.end source.old) (S.end source.new) self.old.puller self.new.puller) }
        ensures ended { OnOk result (self.new.nodes.has_ended ≡ true) }
    {
        'turns: while self.turn(source, batch, steps)? > 0 {}
        Ok(())
    }

    /// So many milliseconds go by.
    pub fn tick(&mut self, time: u32)
        requires late { self.old.moment + 2 ^ 32 ≤ 2 ^ 64 }
        ensures at { (r : Run) → IsAt self.old r → IsAt self.new (ticked time r) }
        ensures puller { self.new.puller ≡ self.old.puller }
        ensures sound { IsSound self.old → IsSound self.new }
        ensures made { (calls : ℕ) → MadeAtMost self.old calls → MadeAtMost self.new calls }
        ensures moment { self.new.moment ≡ self.old.moment + time }
    {
        self.moment += time as u64;
    }

    /// The histories of all nodes. End has passed.
    pub fn into_histories(self) -> Result<Histories, NoMemory>
        requires counted { AreCounted self.nodes }
        ensures { IfOk result (λ all. all
            ≡ histories_of self.nodes.feeding.items (map (λ seat. seat.entries.items) self.nodes.seats.items)) }
    {
        self.nodes.into_histories()
    }
}
