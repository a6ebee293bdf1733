// The lines of a script, done one after another.
ghost use Rattle.std.specs.Prelude.{◌≡◌, true, ℕ, ◌+◌, ◌*◌, ◌-◌, ◌<◌, ◌≤◌, ◌^◌, List, length, All, OnOk, OnErr, IsErrOf};
ghost use Rattle.serial_core.specs.Imports.{Line as ScriptLine, clients_of};
ghost use Rattle.serial_core.specs.Inside.Lines.{AllOverrunBy, AreInBudget, IsFrontBy, IsLineBy, IsWholeBy, MayBegin, OverrunsBy, calls_by};
ghost use Rattle.serial_core.specs.Inside.Moving.{HasDrawn, MadeAtMost, IsReady, Moves};

use crate::runner::Runner;
use client_core::{ClientCore, Stop};
use client_script::Line;
use emu_io::Source;
use machine::steps::Steps;
use std::sync::ledger::Ledger;

impl Runner {
    // A line is done, or up to the call that its client may not make.
    fn line<S: Source, L: Ledger>(
        &mut self,
        source: &mut S,
        batch: u32,
        cores: &mut [ClientCore],
        asked: Line,
        steps: &mut Steps<L>,
    ) -> Result<(), Stop>
        requires ready { IsReady batch self.old }
        requires made { MadeAtMost self.old (calls_by cores.old) }
        requires late { self.old.moment + 2 ^ 32 ≤ 2 ^ 64 }
        requires clients { length cores.old ≤ 8 }
        requires client { clients_of asked ≤ length cores.old }
        requires calls { AreInBudget cores.old }
        ensures moves { OnOk result
            (Moves (S.end source.old) (S.end source.new) self.old self.new (IsLineBy batch asked cores.old cores.new)) }
        ensures draws { OnErr result (HasDrawn (S.end source.old) (S.end source.new) self.old.puller self.new.puller) }
        ensures too_long { (turns : ℕ) → IsErrOf result (Stop.TooLong turns) → (turns ≡ 2 ^ 39)
            × Moves (S.end source.old) (S.end source.new) self.old self.new (OverrunsBy batch asked cores.old) }
        ensures made { OnOk result (MadeAtMost self.new (calls_by cores.new)) }
        ensures calls { OnOk result (AreInBudget cores.new) }
        ensures moment { OnOk result (self.new.moment ≤ self.old.moment + 2 ^ 32) }
    {
        match asked {
            Line::Feed(count) => {
                self.feed(source, batch, count, steps)?;
                Ok(())
            }
            Line::Tick(time) => {
                self.tick(time);
                Ok(())
            }
            Line::Command { line, client, .. } => {
                let core = &mut cores[client as usize];
                self.command(source, batch, core, client, line, steps)?;
                Ok(())
            }
        }
    }

    /// All lines are done, or up to the call that a client may not make.
    pub fn lines<S: Source, L: Ledger>(
        &mut self,
        source: &mut S,
        batch: u32,
        cores: &mut [ClientCore],
        lines: &[Line],
        steps: &mut Steps<L>,
    ) -> Result<(), Stop>
        requires ready { IsReady batch self.old }
        requires begins { MayBegin lines.now cores.old self.old }
        ensures moves { OnOk result
            (Moves (S.end source.old) (S.end source.new) self.old self.new
            (IsFrontBy batch lines.now (length lines.now) cores.old cores.new)) }
        ensures draws { OnErr result (HasDrawn (S.end source.old) (S.end source.new) self.old.puller self.new.puller) }
        ensures too_long { (turns : ℕ) → IsErrOf result (Stop.TooLong turns) → (turns ≡ 2 ^ 39)
            × Moves (S.end source.old) (S.end source.new) self.old self.new (AllOverrunBy batch lines.now cores.old) }
        ensures made { OnOk result (MadeAtMost self.new (2 ^ 42)) }
    {
        'lines: for line in lines {
            self.line(source, batch, cores, *line, steps)?;
        }
        Ok(())
    }

    /// All lines are done, and the rest of the stream passes.
    pub fn whole<S: Source, L: Ledger>(
        &mut self,
        source: &mut S,
        batch: u32,
        cores: &mut [ClientCore],
        lines: &[Line],
        steps: &mut Steps<L>,
    ) -> Result<(), Stop>
        requires ready { IsReady batch self.old }
        requires begins { MayBegin lines.now cores.old self.old }
        ensures moves { OnOk result
            (Moves (S.end source.old) (S.end source.new) self.old self.new (IsWholeBy batch lines.now cores.old cores.new)) }
        ensures draws { OnErr result (HasDrawn (S.end source.old) (S.end source.new) self.old.puller self.new.puller) }
        ensures too_long { (turns : ℕ) → IsErrOf result (Stop.TooLong turns) → (turns ≡ 2 ^ 39)
            × Moves (S.end source.old) (S.end source.new) self.old self.new (AllOverrunBy batch lines.now cores.old) }
        ensures ended { OnOk result (self.new.nodes.has_ended ≡ true) }
    {
        self.lines(source, batch, cores, lines, steps)?;
        self.finish(source, batch, steps)?;
        Ok(())
    }
}
