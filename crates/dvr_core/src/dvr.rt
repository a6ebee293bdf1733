// The dvr node, its one call, and the call of its feeder alone.

ghost use Rattle.std.specs.Prelude.{◌≡◌, ◌≤◌, ◌<◌, ◌+◌, ◌^◌, ◌∷◌, [], false, None};
ghost use Rattle.dvr_core.specs.Imports.{Causes, CoherentIn, Dvr, GivesBack, History, May, Pass, Passed, dvr, entry_of, invocation_of, is_accepted, response_of};
ghost use Rattle.dvr_core.specs.Inside.Gives.{Gives};
ghost use Rattle.dvr_core.specs.Looks.{named_packets};
ghost use Rattle.dvr_core.specs.Inside.Step.{next};
ghost use Rattle.dvr_core.specs.Inside.KeptView.{knows_of, bytes_in};
ghost use Rattle.dvr_core.specs.Stands.{StandsFor};

use crate::kept::KeptByDvr;
use crate::taps::Taps;
use dmx_calls::{Answer, Call, Input, Reply, Told};
use machine::Machine;
use machine::steps::Steps;
use node_buffer::plain;
use std::alloc::Global;
use std::marker::Model;
use std::sync::ledger::Ledger;
use ts_batch::Batch;

/// The dvr node. Fewer than 2^50 calls may be made on it.
#[derive(Drop)]
pub struct DvrCore {
    alloc: Global,
    // How many calls were made.
    entries: u64,
    kept: KeptByDvr,
}

impl Model for DvrCore {
    ghost use Rattle.dvr_core.specs.Stands.{CoreValue};

    ghost Value = { CoreValue };

    ghost use Rattle.dvr_core.specs.Inside.CoreView.{core_view, CoreHolds};

    ghost view = { core_view };

    ghost invariant = { CoreHolds };
}

// Makes a call on what the node keeps.
fn act<L: Ledger>(
    kept: &mut KeptByDvr,
    alloc: Global,
    who: u32,
    call: Call,
    steps: &mut Steps<L>,
) -> Answer
    requires sound { CoherentIn (knows_of kept.old).facts.ledger }
    requires bytes { bytes_in (knows_of kept.old) + 12032 < 2 ^ 64 }
    ensures said { Gives (knows_of kept.old) who (invocation_of call) (response_of result.reply) }
    ensures after { knows_of kept.new ≡ next (knows_of kept.old) who (invocation_of call) (response_of result.reply) }
    ensures back { GivesBack call result }
    ensures sound { CoherentIn (knows_of kept.new).facts.ledger }
    ensures bytes { bytes_in (knows_of kept.new) ≤ bytes_in (knows_of kept.old) + 12032 }
    ensures cost { steps.new ≤ steps.old + named_packets (knows_of kept.old).taps (invocation_of call) }
    ensures idle { (knows_of kept.old).facts.owner ≡ None → steps.new ≡ steps.old }
{
    match call {
        Call::Open => plain(kept.open(alloc, who)),
        Call::Close => plain(kept.close(who)),
        Call::Pass { input, batch, .. } => {
            kept.pass(input, &batch, steps);
            Answer {
                reply: Reply::Passed,
                batch: Some(batch),
            }
        }
        Call::End => {
            kept.end();
            plain(Reply::Passed)
        }
        Call::Attach { node, pids } => plain(kept.attach(who, node, pids)),
        Call::Detach { node } => plain(kept.detach(who, node)),
        call => kept.act_for_owner(alloc, who, call),
    }
}

impl DvrCore {
    /// The dvr node. It is free and has no taps, takes no memory, and keeps the allocator for its calls.
    pub fn new(alloc: Global) -> DvrCore
        ensures { StandsFor result [] }
    {
        DvrCore {
            alloc,
            entries: 0,
            kept: KeptByDvr {
                has_ended: false,
                tenure: None,
                taps: Taps::new(),
            },
        }
    }

    /// How many calls were made on it.
    pub fn entries(&self) -> u64
        ensures { result ≡ self.now.entries }
    {
        self.entries
    }

    /// A batch passes at the moment `now`, in milliseconds. It is the call Pass of the caller 0, answered Passed: the batch is
    /// lent, and nothing can be refused. The dvr node has no timeout, so `now` is in its history alone.
    pub fn pass<L: Ledger>(&mut self, input: Input, batch: &Batch, now: u64, steps: &mut Steps<L>)
        requires few { self.old.entries < 2 ^ 50 }
        ensures stands { (h : History) → StandsFor self.old h
            → May dvr h 0 (Pass input batch.now.first batch.now.packets now) Passed
            × StandsFor self.new (entry_of 0 (Pass input batch.now.first batch.now.packets now) Passed ∷ h) }
        ensures rises { self.new.entries ≡ self.old.entries + 1 }
        ensures cost { steps.new ≤ steps.old + named_packets self.old.taps (Pass input batch.now.first batch.now.packets now) }
        ensures idle { self.old.facts.owner ≡ None → steps.new ≡ steps.old }
    {
        self.kept.pass(input, batch, steps);
        self.entries += 1;
    }

    /// Makes a call for the caller `who`, and answers what the node's history says to it. Pass, End, Attach and Detach are
    /// taken from whoever makes them. Only Open and SetSize to another size can answer that memory was wanting.
    pub fn apply<L: Ledger>(&mut self, who: u32, call: Call, steps: &mut Steps<L>) -> Answer
        requires few { self.old.entries < 2 ^ 50 }
        ensures stands { (h : History) → StandsFor self.old h
            → May dvr h who (invocation_of call) (response_of result.reply)
            × StandsFor self.new (entry_of who (invocation_of call) (response_of result.reply) ∷ h) }
        ensures causes { (h : History) → StandsFor self.old h
            → Causes Dvr self.old.facts self.new.facts who (invocation_of call) (response_of result.reply) }
        ensures unchanged { is_accepted (response_of result.reply) ≡ false
            → self.new ≡ record self.old { entries = self.old.entries + 1 } }
        ensures back { GivesBack call result }
        ensures rises { self.new.entries ≡ self.old.entries + 1 }
        ensures cost { steps.new ≤ steps.old + named_packets self.old.taps (invocation_of call) }
        ensures idle { self.old.facts.owner ≡ None → steps.new ≡ steps.old }
    {
        let answer = act(&mut self.kept, self.alloc, who, call, steps);
        self.entries += 1;
        answer
    }
}

/// A history of the machine has its oldest entry first, and one of the node its newest.
impl Machine for DvrCore {
    ghost use Rattle.std.proofs.Common.{refl, reverse, ◌∙◌};
    ghost use Rattle.std.proofs.lemmas.List.{length-reverse};
    ghost use Rattle.dmx_calls.specs.Back.{GivesBack};
    ghost use Rattle.dmx_calls.specs.Entries.{told, caller_of, packets_of};
    ghost use Rattle.dvr_core.specs.Stands.{StandsFor};

    type Call = Call;

    type Answer = Answer;

    type Entry = Told;

    ghost entry_of = { told };

    ghost who_of = { caller_of };

    ghost hands_back = { GivesBack };

    ghost stands_for = { λ m h. StandsFor m (reverse h) };

    ghost entries = { λ m. m.entries };

    ghost most = { λ h call. packets_of call };

    fn apply<L: Ledger>(&mut self, who: u32, call: Call, steps: &mut Steps<L>) -> Answer {
        DvrCore::apply(self, who, call, steps)
    }

    ghost names = { λ who call answer. refl };

    ghost counts = { λ m h is. is.count ∙ length-reverse h };
}
