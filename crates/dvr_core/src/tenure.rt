// What the dvr node keeps for its owner, and what each call of the owner does to it.
//
// `Does` says what the owner is answered to a call that isn't refused, how the node goes on, and what then holds. No call of
// the owner looks at the taps, and none at its moment, since nothing expires here: it does so whichever they are. The dvr node
// has no tap of its own, so no Done tells of one.

ghost use Rattle.std.specs.Prelude.{◌≡◌, ◌≤◌, ℕ, Bool, true, false, List, Option, IfOk, Some};
ghost use Rattle.dvr_core.specs.Imports.{Close, CoherentIn, DVR_SIZE as size_of_open, Dvr, Empty, GivesBack, Poll, Read, SetSize, Tap as TapValue, begun, invocation_of, is_close, is_for_anybody, owner_refusal, response_of, terms_of as terms_by, total_of};
ghost use Rattle.dvr_core.specs.Inside.Gives.{Gives};
ghost use Rattle.dvr_core.specs.Inside.Step.{next};

use dmx_calls::limits::DVR_SIZE;
use dmx_calls::{Answer, ByteBuf, Call, Errno, NodeKind, Params, Reply, State, Tap, refusal};
use node_buffer::{Buffer, NOTHING, done, plain, refused, terms_of};
use std::alloc::{AllocError as NoMemory, Global};

/// What the node keeps for its owner.
#[derive(Drop)]
pub struct DvrTenure {
    /// The caller that opened it.
    pub owner: u32,
    /// The bytes and the ledger of its capture.
    pub buffer: Buffer,
    // The buffer has the terms of no filter.
    ghost told: { buffer.terms ≡ terms_by Empty },
}

impl DvrTenure {
    ghost use Rattle.dvr_core.specs.Inside.KeptView.{facts_in, knows_in, IsGranted, reply_to, Does};

    /// A node that was just opened: it has the default size, and its capture begins.
    pub fn new(alloc: Global, owner: u32) -> Result<DvrTenure, NoMemory>
        ensures owner { IfOk result (λ t. t.owner ≡ owner) }
        ensures size { IfOk result (λ t. t.buffer.size ≡ size_of_open) }
        ensures ledger { IfOk result (λ t. t.buffer.ledger ≡ Some (begun 0)) }
    {
        let mut buffer = Buffer::new(alloc, DVR_SIZE)?;
        buffer.begin(terms_of(&Params::Empty), 0);
        Ok(DvrTenure { owner, buffer })
    }

    // Why a call of the owner is refused, if it is: by the table of calls. A SetSize to the size that the node has is
    // never refused.
    fn refusal(&self, call: &Call) -> Option<Errno>
        ensures { result ≡ owner_refusal Dvr (facts_in true (Some self.now)) (invocation_of call.now) }
    {
        match call {
            Call::SetSize(size) if *size == self.buffer.size() => None,
            _ => refusal(NodeKind::Dvr, State::Go, call, &Params::Empty),
        }
    }

    /// Makes a call of the owner, but for Close, or refuses it. `ended` says that the stream has ended.
    pub fn act(&mut self, alloc: Global, ended: bool, call: Call) -> Answer
        requires sound { CoherentIn self.old.buffer.ledger }
        requires own { is_for_anybody Dvr (invocation_of call) ≡ false }
        requires stays { is_close (invocation_of call) ≡ false }
        ensures said { (taps : List (Option TapValue))
            → Gives (knows_in ended taps (Some self.old)) self.old.owner (invocation_of call) (response_of result.reply) }
        ensures after { (taps : List (Option TapValue)) → knows_in ended taps (Some self.new)
            ≡ next (knows_in ended taps (Some self.old)) self.old.owner (invocation_of call) (response_of result.reply) }
        ensures back { GivesBack call result }
        ensures sound { CoherentIn self.new.buffer.ledger }
        ensures bytes { total_of self.new.buffer.ledger ≤ total_of self.old.buffer.ledger }
    {
        match self.refusal(&call) {
            Some(errno) => refused(errno, call),
            None => self.make(alloc, ended, call),
        }
    }

    // Makes a call that isn't refused.
    fn make(&mut self, alloc: Global, ended: bool, call: Call) -> Answer
        requires sound { CoherentIn self.old.buffer.ledger }
        requires granted { IsGranted self.old (invocation_of call) }
        requires own { is_for_anybody Dvr (invocation_of call) ≡ false }
        requires stays { is_close (invocation_of call) ≡ false }
        ensures does { Does ended self.old (invocation_of call) (response_of result.reply) self.new }
        ensures back { GivesBack call result }
    {
        match call {
            Call::SetSize(size) => plain(self.set_size(alloc, size)),
            Call::Read { room, .. } => plain(self.read(ended, room)),
            Call::Poll { .. } => plain(self.poll(ended)),
            Call::Open
            | Call::Close
            | Call::SetFilter { .. }
            | Call::SetPes { .. }
            | Call::AddPid(_)
            | Call::RemovePid(_)
            | Call::Start { .. }
            | Call::Stop
            | Call::Pass { .. }
            | Call::End
            | Call::Attach { .. }
            | Call::Detach { .. } => unreachable!(),
        }
    }

    /// close(): what is dropped with the tenure. The node becomes free, and its size and unread bytes are gone.
    pub fn close(&self) -> Reply
        ensures { (ended : Bool) (taps : List (Option TapValue))
            → response_of result ≡ reply_to (knows_in ended taps (Some self.now)) self.now.owner Close }
    {
        done(self.buffer.unread(), Tap::Keep)
    }

    // DMX_SET_BUFFER_SIZE: another size, in bytes, ends the capture, and another begins. The size that the node has
    // changes nothing.
    fn set_size(&mut self, alloc: Global, size: u32) -> Reply
        requires sound { CoherentIn self.old.buffer.ledger }
        requires granted { IsGranted self.old (SetSize size) }
        ensures does { (ended : Bool) → Does ended self.old (SetSize size) (response_of result) self.new }
    {
        if self.buffer.size() == size {
            return done(NOTHING, Tap::Keep);
        }
        let dropped = self.buffer.unread();
        match self.buffer.resize(alloc, size) {
            Ok(()) => {
                self.buffer.begin(terms_of(&Params::Empty), 0);
                done(dropped, Tap::Keep)
            }
            Err(_) => Reply::NoMemory,
        }
    }

    // read(): the reply.
    fn read(&mut self, ended: bool, buf: ByteBuf) -> Reply
        requires { CoherentIn self.old.buffer.ledger }
        ensures does { (now : ℕ) → Does ended self.old (Read now buf.count) (response_of result) self.new }
    {
        self.buffer.read(ended, buf)
    }

    // poll(): the reply. It changes nothing.
    fn poll(&self, ended: bool) -> Reply
        requires { CoherentIn self.now.buffer.ledger }
        ensures { (now : ℕ) → Does ended self.now (Poll now) (response_of result) self.now }
    {
        self.buffer.poll(ended)
    }
}
