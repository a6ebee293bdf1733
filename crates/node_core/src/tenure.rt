// What a node keeps for its owner, and what each call of the owner does to it.
//
// `Does` says what the owner is answered to a call that isn't refused, how the node goes on, and what then holds; it does so for
// a stream that has ended and for one that hasn't.

ghost use Rattle.std.specs.Prelude.{◌≡◌, ◌≤◌, [], Bool, true, false, IfOk, Some, None, if◌then◌else◌};
ghost use Rattle.node_core.specs.Imports.{AddPid, Close, DEMUX_SIZE, Demux, GivesBack, IMMEDIATE_START, Poll, Read, RemovePid, SetFilter, SetPes, SetSize, Start, Stop, begun as begun_selecting, done_dropping, has_flag, invocation_of, is_close, is_for_anybody, owner_refusal, params_of, pids_of, response_of, state_of_filter};
ghost use Rattle.node_buffer.specs.Inside.Capturing.{terms_of as terms_by, begun};
ghost use Rattle.node_core.specs.Offers.{choice_of};
ghost use Rattle.node_core.specs.Inside.Gives.{Gives};
ghost use Rattle.node_core.specs.Inside.Sound.{HasFewPids};
ghost use Rattle.node_core.specs.Inside.Step.{unset, next};

use crate::filter::{select, starts_at_once};
use crate::tap::tap_of_idle;
use dmx_calls::limits::DEMUX_SIZE;
use dmx_calls::{
    Answer, ByteBuf, Call, Errno, NodeKind, Params, PesParams, Reply, SectionParams, State, Tap,
    refusal,
};
use item_select::Selector;
use node_buffer::{Buffer, NOTHING, done, plain, refused, terms_of};
use pid_set::Pids;
use std::alloc::{AllocError as NoMemory, Global};

/// What a node keeps for its owner.
#[derive(Drop)]
pub struct Tenure {
    /// The caller that opened it.
    pub owner: u32,
    /// The filter of the last set call, with its PIDs.
    pub params: Params,
    /// What finds the filter's items.
    pub selector: Selector,
    /// The bytes and the ledger of its capture.
    pub buffer: Buffer,
    // The buffer has the terms of this filter.
    ghost told: { buffer.terms ≡ terms_by (params_of params) },
    // One whose packets go to the dvr node has one PID at most.
    ghost few: { HasFewPids (params_of params) (pids_of params) },
}

impl Tenure {
    ghost use Rattle.node_core.specs.Inside.KeptView.{knows_in, bytes_in, is_recording_for, tap_told, IsSoundIn, IsGranted, reply_to, Does};

    /// A node that was just opened: it has the default size and no filter.
    pub fn new(alloc: Global, owner: u32) -> Result<Tenure, NoMemory>
        ensures owner { IfOk result (λ t. t.owner ≡ owner) }
        ensures params { IfOk result (λ t. t.params ≡ Params.Empty) }
        ensures selector { IfOk result (λ t. t.selector ≡ unset) }
        ensures size { IfOk result (λ t. t.buffer.size ≡ DEMUX_SIZE) }
        ensures ledger { IfOk result (λ t. t.buffer.ledger ≡ None) }
    {
        Ok(Tenure {
            owner,
            params: Params::Empty,
            selector: Selector::new(alloc)?,
            buffer: Buffer::new(alloc, DEMUX_SIZE)?,
        })
    }

    // A filter is set. It starts at once where DMX_IMMEDIATE_START is among its flags.
    fn set(&mut self, params: Params, flags: u32, now: u64) -> Reply
        requires few { HasFewPids (params_of params) (pids_of params) }
        ensures said { response_of result
            ≡ done_dropping self.old.buffer.ledger (tap_told (is_recording_for self.old) true self.new) }
        ensures owner { self.new.owner ≡ self.old.owner }
        ensures params { self.new.params ≡ params }
        ensures selector { self.new.selector ≡ begun_selecting (choice_of (params_of params)) }
        ensures size { self.new.buffer.size ≡ self.old.buffer.size }
        ensures ledger { self.new.buffer.ledger ≡ (if has_flag IMMEDIATE_START flags then Some (begun now) else None) }
    {
        let recorded = self.is_recording();
        let dropped = self.buffer.unread();
        self.buffer
            .renew(terms_of(&params), starts_at_once(flags), now);
        select(&mut self.selector, &params);
        self.params = params;
        done(dropped, self.tap(recorded, true))
    }

    /// Its state: Allocated without a filter, and else what its capture says.
    pub fn state(&self) -> State
        ensures { result ≡ state_of_filter (params_of self.now.params) self.now.buffer.ledger }
    {
        match &self.params {
            Params::Empty => State::Allocated,
            Params::Section(_) | Params::Pes { .. } => self.buffer.state(),
        }
    }

    // Why a call of the owner is refused, if it is: by the table of calls and states. A SetSize to the size that the node has
    // is never refused.
    fn refusal(&self, call: &Call) -> Option<Errno>
        ensures { result ≡ owner_refusal Demux (knows_in true (Some self.now)).facts (invocation_of call.now) }
    {
        match call {
            Call::SetSize(size) if *size == self.buffer.size() => None,
            _ => refusal(NodeKind::Demux, self.state(), call, &self.params),
        }
    }

    /// Makes a call of the owner, but for Close, or refuses it. `ended` says that the stream has ended.
    pub fn act(&mut self, alloc: Global, ended: bool, call: Call) -> Answer
        requires sound { IsSoundIn self.old }
        requires own { is_for_anybody Demux (invocation_of call) ≡ false }
        requires stays { is_close (invocation_of call) ≡ false }
        ensures said { Gives (knows_in ended (Some self.old)) self.old.owner (invocation_of call) (response_of result.reply) }
        ensures after { knows_in ended (Some self.new)
            ≡ next (knows_in ended (Some self.old)) self.old.owner (invocation_of call) (response_of result.reply) }
        ensures back { GivesBack call result }
        ensures sound { IsSoundIn self.new }
        ensures bytes { bytes_in (knows_in ended (Some self.new)) ≤ bytes_in (knows_in ended (Some self.old)) }
    {
        match self.refusal(&call) {
            Some(errno) => refused(errno, call),
            None => self.make(alloc, ended, call),
        }
    }

    // Makes a call that isn't refused.
    fn make(&mut self, alloc: Global, ended: bool, call: Call) -> Answer
        requires sound { IsSoundIn self.old }
        requires granted { IsGranted self.old (invocation_of call) }
        requires own { is_for_anybody Demux (invocation_of call) ≡ false }
        requires stays { is_close (invocation_of call) ≡ false }
        ensures does { Does ended self.old (invocation_of call) (response_of result.reply) self.new }
        ensures back { GivesBack call result }
    {
        match call {
            Call::SetFilter { params, now } => plain(self.set_filter(params, now)),
            Call::SetPes { params, now } => plain(self.set_pes(params, now)),
            Call::AddPid(pid) => plain(self.add_pid(pid)),
            Call::RemovePid(pid) => plain(self.remove_pid(pid)),
            Call::Start { now } => plain(self.start(now)),
            Call::Stop => plain(self.stop()),
            Call::SetSize(size) => plain(self.set_size(alloc, size)),
            Call::Read { now, room } => plain(self.read(ended, now, room)),
            Call::Poll { now } => plain(self.poll(ended, now)),
            Call::Open
            | Call::Close
            | Call::Pass { .. }
            | Call::End
            | Call::Attach { .. }
            | Call::Detach { .. } => unreachable!(),
        }
    }

    /// close(): what is dropped with the tenure. The node becomes free, and its filter, size and unread bytes are gone.
    pub fn close(&self) -> Reply
        ensures { (ended : Bool) → response_of result ≡ reply_to (knows_in ended (Some self.now)) self.now.owner Close }
    {
        done(self.buffer.unread(), tap_of_idle(self.is_recording()))
    }

    // DMX_SET_FILTER: a section filter is set.
    fn set_filter(&mut self, params: SectionParams, now: u64) -> Reply
        requires sound { IsSoundIn self.old }
        requires granted { IsGranted self.old (SetFilter params now) }
        ensures does { (ended : Bool) → Does ended self.old (SetFilter params now) (response_of result) self.new }
    {
        self.set(Params::Section(params), params.flags, now)
    }

    // DMX_SET_PES_FILTER: a filter of packets is set.
    fn set_pes(&mut self, params: PesParams, now: u64) -> Reply
        requires sound { IsSoundIn self.old }
        requires granted { IsGranted self.old (SetPes params now) }
        ensures does { (ended : Bool) → Does ended self.old (SetPes params now) (response_of result) self.new }
    {
        let pids = Pids::of(params.pid);
        self.set(Params::Pes { params, pids }, params.flags, now)
    }

    // DMX_ADD_PID: a PID is added, from the next packet on.
    fn add_pid(&mut self, pid: u16) -> Reply
        requires sound { IsSoundIn self.old }
        requires granted { IsGranted self.old (AddPid pid) }
        ensures does { (ended : Bool) → Does ended self.old (AddPid pid) (response_of result) self.new }
    {
        let recorded = self.is_recording();
        match &mut self.params {
            Params::Pes { pids, .. } => {
                // a full set was refused
                let added = matches!(pids.add(pid), Ok(true));
                done(NOTHING, self.tap(recorded, added))
            }
            Params::Empty | Params::Section(_) => unreachable!(),
        }
    }

    // DMX_REMOVE_PID: a PID is removed, from the next packet on.
    fn remove_pid(&mut self, pid: u16) -> Reply
        requires sound { IsSoundIn self.old }
        requires granted { IsGranted self.old (RemovePid pid) }
        ensures does { (ended : Bool) → Does ended self.old (RemovePid pid) (response_of result) self.new }
    {
        let recorded = self.is_recording();
        match &mut self.params {
            Params::Pes { pids, .. } => {
                let removed = pids.remove(pid);
                done(NOTHING, self.tap(recorded, removed))
            }
            Params::Empty | Params::Section(_) => unreachable!(),
        }
    }

    // DMX_START: a capture begins, and the selector begins anew with it.
    fn start(&mut self, now: u64) -> Reply
        requires sound { IsSoundIn self.old }
        requires granted { IsGranted self.old (Start now) }
        ensures does { (ended : Bool) → Does ended self.old (Start now) (response_of result) self.new }
    {
        let recorded = self.is_recording();
        let dropped = self.buffer.unread();
        self.selector.restart();
        self.buffer.begin(terms_of(&self.params), now);
        done(dropped, self.tap(recorded, true))
    }

    // DMX_STOP: the capture goes on without packets.
    fn stop(&mut self) -> Reply
        requires sound { IsSoundIn self.old }
        requires granted { IsGranted self.old (Stop) }
        ensures does { (ended : Bool) → Does ended self.old (Stop) (response_of result) self.new }
    {
        let recorded = self.is_recording();
        self.buffer.stop();
        done(NOTHING, tap_of_idle(recorded))
    }

    // DMX_SET_BUFFER_SIZE: another size ends the capture. The size that the node has changes nothing.
    fn set_size(&mut self, alloc: Global, size: u32) -> Reply
        requires sound { IsSoundIn self.old }
        requires granted { IsGranted self.old (SetSize size) }
        ensures does { (ended : Bool) → Does ended self.old (SetSize size) (response_of result) self.new }
    {
        if self.buffer.size() == size {
            return done(NOTHING, Tap::Keep);
        }
        let dropped = self.buffer.unread();
        match self.buffer.resize(alloc, size) {
            Ok(()) => done(dropped, Tap::Keep),
            Err(_) => Reply::NoMemory,
        }
    }

    // read(): the reply. The filter may expire first.
    fn read(&mut self, ended: bool, now: u64, buf: ByteBuf) -> Reply
        requires sound { IsSoundIn self.old }
        requires granted { IsGranted self.old (Read now buf.count) }
        ensures does { Does ended self.old (Read now buf.count) (response_of result) self.new }
    {
        self.buffer.expire(now);
        self.buffer.read(ended, buf)
    }

    // poll(): the reply. The filter may expire first.
    fn poll(&mut self, ended: bool, now: u64) -> Reply
        requires sound { IsSoundIn self.old }
        requires granted { IsGranted self.old (Poll now) }
        ensures does { Does ended self.old (Poll now) (response_of result) self.new }
    {
        self.buffer.expire(now);
        self.buffer.poll(ended)
    }
}
