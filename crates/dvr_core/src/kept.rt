// What the dvr node keeps from call to call, and what each call does to it.
//
// The clauses name what the node knows before and after: `said` is the reply that it gives, `after` how it goes on,
// `sound` what holds of its capture, and `bytes` bounds the bytes of that. Pass and End don't look at their caller, and no
// call looks at its moment: 0 stands for those that play no part.

ghost use Rattle.std.specs.Prelude.{◌≡◌, ◌≤◌, ◌<◌, ◌+◌, ◌^◌, false, count_by, None};
ghost use Rattle.dvr_core.specs.Imports.{Attach, Close, CoherentIn, Detach, Dvr, End, GivesBack, Open, Pass, Passed, invocation_of, is_close, is_for_anybody, response_of};
ghost use Rattle.dvr_core.specs.Inside.Gives.{Gives};
ghost use Rattle.dvr_core.specs.Inside.Step.{next};
ghost use Rattle.dvr_core.specs.Tapped.{some_names};
ghost use Rattle.dvr_core.specs.Inside.KeptView.{knows_of, bytes_in, reply_to};

use crate::record::record_all;
use crate::taps::Taps;
use crate::tenure::DvrTenure;
use dmx_calls::{Answer, Call, Errno, Input, Reply, Tap};
use machine::steps::Steps;
use node_buffer::{NOTHING, done, opened, refused};
use pid_set::Pids;
use std::alloc::Global;
use std::sync::ledger::Ledger;
use ts_batch::Batch;

/// What the node keeps from call to call.
#[derive(Drop)]
pub struct KeptByDvr {
    /// An End came.
    pub has_ended: bool,
    /// None where the node is free.
    pub tenure: Option<DvrTenure>,
    /// The taps of the demux nodes.
    pub taps: Taps,
}

impl KeptByDvr {
    /// The caller becomes the owner, and a capture begins.
    pub fn open(&mut self, alloc: Global, who: u32) -> Reply
        requires { CoherentIn (knows_of self.old).facts.ledger }
        ensures said { Gives (knows_of self.old) who Open (response_of result) }
        ensures after { knows_of self.new ≡ next (knows_of self.old) who Open (response_of result) }
        ensures sound { CoherentIn (knows_of self.new).facts.ledger }
        ensures bytes { bytes_in (knows_of self.new) ≤ bytes_in (knows_of self.old) }
    {
        match &self.tenure {
            Some(tenure) => Reply::Busy {
                owner: tenure.owner,
            },
            None => opened(&mut self.tenure, DvrTenure::new(alloc, who)),
        }
    }

    /// close(): the node becomes free; its taps stay. EBADF to a caller that isn't the owner.
    pub fn close(&mut self, who: u32) -> Reply
        requires { CoherentIn (knows_of self.old).facts.ledger }
        ensures said { Gives (knows_of self.old) who Close (response_of result) }
        ensures after { knows_of self.new ≡ next (knows_of self.old) who Close (response_of result) }
        ensures sound { CoherentIn (knows_of self.new).facts.ledger }
        ensures bytes { bytes_in (knows_of self.new) ≤ bytes_in (knows_of self.old) }
    {
        match self.tenure.take_if(|tenure| tenure.owner == who) {
            Some(tenure) => tenure.close(),
            None => Reply::Refused(Errno::Ebadf),
        }
    }

    /// Another call that only the owner may make: EBADF to a caller that isn't the owner. A refused call changes nothing.
    pub fn act_for_owner(&mut self, alloc: Global, who: u32, call: Call) -> Answer
        requires sound { CoherentIn (knows_of self.old).facts.ledger }
        requires own { is_for_anybody Dvr (invocation_of call) ≡ false }
        requires stays { is_close (invocation_of call) ≡ false }
        ensures said { Gives (knows_of self.old) who (invocation_of call) (response_of result.reply) }
        ensures after { knows_of self.new ≡ next (knows_of self.old) who (invocation_of call) (response_of result.reply) }
        ensures back { GivesBack call result }
        ensures sound { CoherentIn (knows_of self.new).facts.ledger }
        ensures bytes { bytes_in (knows_of self.new) ≤ bytes_in (knows_of self.old) }
    {
        match &mut self.tenure {
            Some(tenure) if tenure.owner == who => tenure.act(alloc, self.has_ended, call),
            _ => refused(Errno::Ebadf, call),
        }
    }

    /// A batch passes. Where the node is open and the packets come from the frontend, those that a tap names are
    /// recorded.
    pub fn pass<L: Ledger>(&mut self, input: Input, batch: &Batch, steps: &mut Steps<L>)
        requires sound { CoherentIn (knows_of self.old).facts.ledger }
        requires bytes { bytes_in (knows_of self.old) + 12032 < 2 ^ 64 }
        ensures after { knows_of self.new ≡ next (knows_of self.old) 0 (Pass input batch.now.first batch.now.packets 0) Passed }
        ensures sound { CoherentIn (knows_of self.new).facts.ledger }
        ensures bytes { bytes_in (knows_of self.new) ≤ bytes_in (knows_of self.old) + 12032 }
        ensures cost { steps.new ≤ steps.old + count_by (some_names self.old.taps) batch.now.packets }
        ensures idle { (knows_of self.old).facts.owner ≡ None → steps.new ≡ steps.old }
    {
        if let (Some(tenure), Input::Frontend) = (&mut self.tenure, input) {
            record_all(&mut tenure.buffer, &self.taps, batch, steps);
        }
    }

    /// The stream has ended.
    pub fn end(&mut self)
        requires { CoherentIn (knows_of self.old).facts.ledger }
        ensures after { knows_of self.new ≡ next (knows_of self.old) 0 End Passed }
        ensures sound { CoherentIn (knows_of self.new).facts.ledger }
        ensures bytes { bytes_in (knows_of self.new) ≤ bytes_in (knows_of self.old) }
    {
        self.has_ended = true;
    }

    /// A client attaches the tap of a demux node.
    pub fn attach(&mut self, who: u32, node: u32, pids: Pids) -> Reply
        requires { CoherentIn (knows_of self.old).facts.ledger }
        ensures said { response_of result ≡ reply_to (knows_of self.old) who (Attach node pids) }
        ensures after { knows_of self.new ≡ next (knows_of self.old) who (Attach node pids) (response_of result) }
        ensures sound { CoherentIn (knows_of self.new).facts.ledger }
        ensures bytes { bytes_in (knows_of self.new) ≤ bytes_in (knows_of self.old) }
    {
        self.taps.attach(who, node, pids);
        done(NOTHING, Tap::Keep)
    }

    /// A client detaches the tap of a demux node, where it is that client's own.
    pub fn detach(&mut self, who: u32, node: u32) -> Reply
        requires { CoherentIn (knows_of self.old).facts.ledger }
        ensures said { response_of result ≡ reply_to (knows_of self.old) who (Detach node) }
        ensures after { knows_of self.new ≡ next (knows_of self.old) who (Detach node) (response_of result) }
        ensures sound { CoherentIn (knows_of self.new).facts.ledger }
        ensures bytes { bytes_in (knows_of self.new) ≤ bytes_in (knows_of self.old) }
    {
        self.taps.detach(who, node);
        done(NOTHING, Tap::Keep)
    }
}
