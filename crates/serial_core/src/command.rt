// A command of a client, done to its end.
ghost use Rattle.std.specs.Prelude.{◌≡◌, ℕ, ◌+◌, ◌-◌, ◌<◌, ◌≤◌, ◌^◌, List, [], ◌∷◌, ◌++◌, length, IsSome, OnOk, OnErr, IsErrOf};
ghost use Rattle.serial_core.specs.Imports.{DEMUX_NODES as nodes, IsAfter, IsRequestInRange, IsRequestOf, Scripted};
ghost use Rattle.serial_core.specs.Inside.Moving.{ComesBy, HasDrawn, MadeAtMost, IsDoneBy, IsReady, Moves};
ghost use Rattle.serial_core.specs.SerialRun.{after_waiting, called, replies_of, reply_to};

use crate::runner::Runner;
use client_core::{ClientCore, Event, MOST_CALLS, Stop};
use emu_io::Source;
use machine::steps::Steps;
use std::alloc::AllocError as NoMemory;
use std::sync::ledger::Ledger;

impl Runner {
    // Where the client waits, the feeder has a turn.
    fn wait<S: Source, L: Ledger>(
        &mut self,
        source: &mut S,
        batch: u32,
        core: &ClientCore,
        steps: &mut Steps<L>,
    ) -> Result<(), NoMemory>
        requires ready { IsReady batch self.old }
        requires made { MadeAtMost self.old (2 ^ 43) }
        ensures moves { OnOk result (Moves (S.end source.old) (S.end source.new) self.old self.new
            (λ r s. (client : ℕ) (script : Scripted) → IsAfter client script (replies_of client r) core.now
            → s ≡ after_waiting script batch client r)) }
        ensures draws { OnErr result (HasDrawn (S.end source.old) (S.end source.new) self.old.puller self.new.puller) }
        ensures moment { OnOk result (self.new.moment ≡ self.old.moment) }
        ensures made { OnOk result ((calls : ℕ) → MadeAtMost self.old calls → MadeAtMost self.new calls) }
    {
        if core.waits().is_some() {
            self.turn(source, batch, steps)?;
        }
        Ok(())
    }

    // The client makes this call, its next, and takes the reply. Where it waits, the feeder has a turn before.
    fn advance<S: Source, L: Ledger>(
        &mut self,
        source: &mut S,
        batch: u32,
        core: &mut ClientCore,
        client: u32,
        event: Event,
        steps: &mut Steps<L>,
    ) -> Result<(), NoMemory>
        requires ready { IsReady batch self.old }
        requires made { MadeAtMost self.old (2 ^ 43) }
        requires client { client < 8 }
        requires node { event.node ≤ nodes }
        requires range { IsRequestInRange event.want }
        requires played { IsRequestOf core.old.plays event.want }
        requires begun { IsSome core.old.current }
        requires taken { core.old.step < 2 ^ 46 }
        ensures moves { OnOk result (Moves (S.end source.old) (S.end source.new) self.old self.new
            (λ r s. (script : Scripted) → IsAfter client script (replies_of client r) core.old
            → (s ≡ called client core.old.plays event (after_waiting script batch client r))
            × IsAfter client script (replies_of client r
            ++ reply_to client core.old.plays event (after_waiting script batch client r) ∷ []) core.new)) }
        ensures draws { OnErr result (HasDrawn (S.end source.old) (S.end source.new) self.old.puller self.new.puller) }
        ensures moment { OnOk result (self.new.moment ≡ self.old.moment) }
        ensures made { OnOk result ((calls : ℕ) → MadeAtMost self.old calls → MadeAtMost self.new (calls + 1)) }
        ensures step { OnOk result (core.new.step ≡ core.old.step + 1) }
    {
        self.wait(source, batch, core, steps)?;
        self.nodes.call(core, client, event, self.moment, steps)?;
        Ok(())
    }

    /// The command of this line is done to its end, or up to the call that the client may not make.
    pub fn command<S: Source, L: Ledger>(
        &mut self,
        source: &mut S,
        batch: u32,
        core: &mut ClientCore,
        client: u32,
        line: u32,
        steps: &mut Steps<L>,
    ) -> Result<(), Stop>
        requires ready { IsReady batch self.old }
        requires made { MadeAtMost self.old (core.old.step + 2 ^ 42) }
        requires client { client < 8 }
        requires calls { core.old.step ≤ 2 ^ 39 }
        ensures moves { OnOk result
            (Moves (S.end source.old) (S.end source.new) self.old self.new (IsDoneBy batch client line core.old core.new)) }
        ensures draws { OnErr result (HasDrawn (S.end source.old) (S.end source.new) self.old.puller self.new.puller) }
        ensures too_long { (turns : ℕ) → IsErrOf result (Stop.TooLong turns)
            → (turns ≡ 2 ^ 39) × (2 ^ 39 ≤ core.new.step)
            × Moves (S.end source.old) (S.end source.new) self.old self.new (ComesBy batch client line core.old core.new) }
        ensures moment { OnOk result (self.new.moment ≡ self.old.moment) }
        ensures made { OnOk result ((calls : ℕ) → MadeAtMost self.old (core.old.step + calls)
            → MadeAtMost self.new (core.new.step + calls)) }
        ensures calls { OnOk result (core.new.step ≤ 2 ^ 39) }
    {
        'calls: while let Some(event) = core.next_at(line) {
            if core.steps() >= MOST_CALLS {
                return Err(Stop::TooLong { turns: MOST_CALLS });
            }
            self.advance(source, batch, core, client, event, steps)?;
        }
        Ok(())
    }
}
