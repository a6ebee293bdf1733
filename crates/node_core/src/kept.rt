// What a node keeps from call to call, and what each call does to it.
//
// The clauses name what the node knows before and after: `said` is the reply that it gives, `after` how it goes on, `sound`
// what holds of it, and `bytes` bounds the bytes of its capture. Pass and End don't look at their caller, so 0 stands for it.

ghost use Rattle.std.specs.Prelude.{◌≡◌, ◌≢◌, ◌≤◌, ◌<◌, ◌+◌, ◌^◌, false};
ghost use Rattle.node_core.specs.Imports.{Close, Demux, End, GivesBack, Open, Pass, Passed, invocation_of, is_close, is_for_anybody, response_of, state_of};
ghost use Rattle.node_core.specs.Looks.{named_packets};
ghost use Rattle.node_core.specs.Inside.Sound.{IsSound};
ghost use Rattle.node_core.specs.Inside.Gives.{Gives};
ghost use Rattle.node_core.specs.Inside.Step.{next};
ghost use Rattle.node_core.specs.Inside.KeptView.{knows_of, bytes_in};

use crate::filter::takes_from;
use crate::offer::offer_all;
use crate::tenure::Tenure;
use dmx_calls::{Answer, Call, Errno, Input, Reply, State};
use machine::steps::Steps;
use node_buffer::{opened, refused};
use std::alloc::Global;
use std::sync::ledger::Ledger;
use ts_batch::Batch;

/// What a node keeps from call to call.
#[derive(Drop)]
pub struct Kept {
    /// An End came.
    pub has_ended: bool,
    /// None where the node is free.
    pub tenure: Option<Tenure>,
}

impl Kept {
    /// open(): the caller becomes the owner. A node has one owner, by this project's rule.
    pub fn open(&mut self, alloc: Global, who: u32) -> Reply
        requires { IsSound (knows_of self.old) }
        ensures said { Gives (knows_of self.old) who Open (response_of result) }
        ensures after { knows_of self.new ≡ next (knows_of self.old) who Open (response_of result) }
        ensures sound { IsSound (knows_of self.new) }
        ensures bytes { bytes_in (knows_of self.new) ≤ bytes_in (knows_of self.old) }
    {
        match &self.tenure {
            Some(tenure) => Reply::Busy {
                owner: tenure.owner,
            },
            None => opened(&mut self.tenure, Tenure::new(alloc, who)),
        }
    }

    /// close(): the node becomes free. EBADF to a caller that isn't the owner.
    pub fn close(&mut self, who: u32) -> Reply
        requires { IsSound (knows_of self.old) }
        ensures said { Gives (knows_of self.old) who Close (response_of result) }
        ensures after { knows_of self.new ≡ next (knows_of self.old) who Close (response_of result) }
        ensures sound { IsSound (knows_of self.new) }
        ensures bytes { bytes_in (knows_of self.new) ≤ bytes_in (knows_of self.old) }
    {
        match self.tenure.take_if(|tenure| tenure.owner == who) {
            Some(tenure) => tenure.close(),
            None => Reply::Refused(Errno::Ebadf),
        }
    }

    /// Another call that only the owner may make: EBADF to a caller that isn't the owner. A refused call changes nothing, and no
    /// time passes by it.
    pub fn act_for_owner(&mut self, alloc: Global, who: u32, call: Call) -> Answer
        requires sound { IsSound (knows_of self.old) }
        requires own { is_for_anybody Demux (invocation_of call) ≡ false }
        requires stays { is_close (invocation_of call) ≡ false }
        ensures said { Gives (knows_of self.old) who (invocation_of call) (response_of result.reply) }
        ensures after { knows_of self.new ≡ next (knows_of self.old) who (invocation_of call) (response_of result.reply) }
        ensures back { GivesBack call result }
        ensures sound { IsSound (knows_of self.new) }
        ensures bytes { bytes_in (knows_of self.new) ≤ bytes_in (knows_of self.old) }
    {
        match &mut self.tenure {
            Some(tenure) if tenure.owner == who => tenure.act(alloc, self.has_ended, call),
            _ => refused(Errno::Ebadf, call),
        }
    }

    /// A batch passes. The filter may expire first; where it then still runs and takes this input, the packets that its PIDs
    /// name are looked at.
    pub fn pass<L: Ledger>(&mut self, input: Input, batch: &Batch, now: u64, steps: &mut Steps<L>)
        requires sound { IsSound (knows_of self.old) }
        requires bytes { bytes_in (knows_of self.old) + 12032 < 2 ^ 64 }
        ensures after { knows_of self.new
            ≡ next (knows_of self.old) 0 (Pass input batch.now.first batch.now.packets now) Passed }
        ensures sound { IsSound (knows_of self.new) }
        ensures bytes { bytes_in (knows_of self.new) ≤ bytes_in (knows_of self.old) + 12032 }
        ensures cost { steps.new ≤ steps.old + named_packets (knows_of self.old).facts
            (Pass input batch.now.first batch.now.packets now) }
        ensures idle { state_of (knows_of self.old).facts ≢ State.Go → steps.new ≡ steps.old }
    {
        if let Some(tenure) = &mut self.tenure {
            tenure.buffer.expire(now);
            match tenure.state() {
                State::Go if takes_from(&tenure.params, input) => {
                    offer_all(
                        &mut tenure.selector,
                        &mut tenure.buffer,
                        &tenure.params,
                        batch,
                        steps,
                    );
                }
                _ => {}
            }
        }
    }

    /// The stream has ended.
    pub fn end(&mut self)
        requires { IsSound (knows_of self.old) }
        ensures after { knows_of self.new ≡ next (knows_of self.old) 0 End Passed }
        ensures sound { IsSound (knows_of self.new) }
        ensures bytes { bytes_in (knows_of self.new) ≤ bytes_in (knows_of self.old) }
    {
        self.has_ended = true;
    }
}
