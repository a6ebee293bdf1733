// A node of either kind, as a run of one thread calls it.
ghost use Rattle.std.specs.Prelude.{◌≡◌, ℕ, ◌+◌, ◌<◌, ◌^◌, ◌∷◌};
ghost use Rattle.serial_core.specs.Imports.{Frontend, GivesBack, History, May, Passed, entry_of, invocation_of, response_of, rules_at};
ghost use Rattle.dmx_calls.specs.Invocation as asks;
ghost use Rattle.serial_core.specs.Inside.Standing.{StandsAt, entries_in};

use dmx_calls::{Answer, Call, Input};
use dvr_core::DvrCore;
use machine::steps::Steps;
use node_core::NodeCore;
use std::sync::ledger::Ledger;
use ts_batch::Batch;

/// A demux node, or the dvr node.
#[derive(Drop)]
pub enum AnyCore {
    Demux(NodeCore),
    Dvr(DvrCore),
}

impl AnyCore {
    /// How many calls were made on it.
    pub fn entries(&self) -> u64
        ensures { result ≡ entries_in self.now }
    {
        match self {
            AnyCore::Demux(node) => node.entries(),
            AnyCore::Dvr(dvr) => dvr.entries(),
        }
    }

    /// Makes a call, which is one entry more.
    pub fn apply<L: Ledger>(&mut self, who: u32, call: Call, steps: &mut Steps<L>) -> Answer
        requires few { entries_in self.old < 2 ^ 50 }
        ensures stands { (number : ℕ) (h : History) → StandsAt self.old number h
            → May (rules_at number) h who (invocation_of call) (response_of result.reply)
            × StandsAt self.new number (entry_of who (invocation_of call) (response_of result.reply) ∷ h) }
        ensures back { GivesBack call result }
        ensures rises { entries_in self.new ≡ entries_in self.old + 1 }
    {
        match self {
            AnyCore::Demux(node) => node.apply(who, call, steps),
            AnyCore::Dvr(dvr) => dvr.apply(who, call, steps),
        }
    }

    /// A batch of the frontend passes at this moment, which is one entry more.
    pub fn pass<L: Ledger>(&mut self, batch: &Batch, now: u64, steps: &mut Steps<L>)
        requires few { entries_in self.old < 2 ^ 50 }
        ensures stands { (number : ℕ) (h : History) → StandsAt self.old number h
            → StandsAt self.new number (entry_of 0 (asks.Pass Frontend batch.now.first batch.now.packets now) Passed ∷ h) }
        ensures rises { entries_in self.new ≡ entries_in self.old + 1 }
    {
        match self {
            AnyCore::Demux(node) => node.pass(Input::Frontend, batch, now, steps),
            AnyCore::Dvr(dvr) => dvr.pass(Input::Frontend, batch, now, steps),
        }
    }
}
