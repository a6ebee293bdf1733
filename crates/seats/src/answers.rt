// What a seat does for what it is asked, and what it tells.
ghost use Rattle.std.specs.Prelude.{◌≡◌, ◌≢◌, ◌<◌, ◌≤◌, ◌+◌, [], ℕ, true, None, Some, length, slice_get, vec_capacity, IfOk, IfSome};
ghost use Rattle.seats.specs.Imports.{DEMUX_NODES as nodes, act_of, invocation_of, own_call as own_call_by, response_of};
ghost use Rattle.dmx_calls.specs.Invocation as asks;
ghost use Rattle.seats.specs.Asks.{IsAskInRange, IsWantInRange};
ghost use Rattle.seats.specs.declared.serve_frames.ask.Ask.TheVariants.{Leave, OpenDemux as OpenAsk};
ghost use Rattle.seats.specs.Tells.{told_of};
ghost use Rattle.seats.specs.declared.made.Made.{Made};
ghost use Rattle.dmx_calls.specs.declared.outcome.OutcomeKind.TheVariants.{Done as WasDone};
ghost use Rattle.seats.specs.Answered.{is_busy as is_busy_by, refusal, told_opened, AreClosings, IsAnswered, IsAnsweredBy, IsClosing};
ghost use Rattle.seats.specs.Calls.{PassesNone};
ghost use Rattle.seats.specs.Doing.{ClosesHeld, DoesCommand, HasAnswered, HasDone, HasGone, KeepsOne, MarksNoMore};
ghost use Rattle.seats.specs.Holding.{HasLeft};
ghost use Rattle.seats.specs.Seated.{IsFit, HasRoom, GoesOn, MayLeave};
ghost use Rattle.seats.specs.Told.{data_read, call_at};

use crate::seat::{MOST_CALLS, Seat};
use crate::serve_frames::numbers::{EMFILE, ENOMEM};
use crate::serve_frames::{Ask, Tell};
use adapter::Adapter;
use client_core::call_of_want;
use client_script::Want;
use dmx_calls::limits::{DEMUX_NODES, NODES};
use dmx_calls::{Call, OutcomeKind, Reply};
use machine::steps::Steps;
use std::alloc::{AllocError as NoMemory, Global};
use std::sync::Wait;
use std::sync::ledger::Ledger;

/// What is told, and which call has the bytes that follow.
#[derive(Clone, Copy, Drop)]
pub struct Answered {
    /// What is told.
    pub tell: Tell,
    /// The place among the last calls of the one that is told; None where no call was made.
    pub at: Option<usize>,
}

// A refusal without a call.
fn refused(code: u32) -> Answered
    ensures { (result.tell ≡ refusal code) × (result.at ≡ None) }
{
    Answered {
        tell: Tell::refused(code),
        at: None,
    }
}

// The call that is asked for at this moment.
fn own_call(alloc: Global, want: Want, now: u64) -> Result<Call, NoMemory>
    requires { IsWantInRange want }
    ensures bare { IfOk result (λ call. PassesNone (act_of (invocation_of call))) }
    ensures value { IfOk result (λ call. invocation_of call ≡ own_call_by want now) }
{
    call_of_want(alloc, want, now)
}

// Whether the node has an owner, as this reply says.
fn is_busy(reply: &Reply) -> bool
    ensures { result ≡ is_busy_by (response_of reply.now) }
{
    matches!(reply, Reply::Busy { .. })
}

impl Seat {
    // The last call in this place, as it is told.
    fn told_at(&self, at: usize) -> Answered
        requires at { at < length self.now.made.items }
        ensures at { result.at ≡ Some at }
        ensures told { (m : Made) → slice_get self.now.made.items at ≡ Some m
            → result.tell ≡ told_of (response_of m.reply) m.place }
    {
        let call = &self.made[at];
        Answered {
            tell: Tell::of(&call.reply, call.place),
            at: Some(at),
        }
    }

    // The last call in this place, which has opened a node, as it is told.
    fn told_open(&self, at: usize, node: u32) -> Answered
        requires at { at < length self.now.made.items }
        ensures at { result.at ≡ Some at }
        ensures told { (m : Made) → slice_get self.now.made.items at ≡ Some m
            → result.tell ≡ told_opened node (response_of m.reply) m.place }
    {
        let call = &self.made[at];
        let told = Tell::of(&call.reply, call.place);
        Answered {
            tell: Tell {
                code: told.code,
                value: node,
                place: call.place,
            },
            at: Some(at),
        }
    }

    // Does one command on a node, for which there is room.
    fn command<L: Ledger, R: Wait>(
        &mut self,
        rt: &R,
        adapter: &Adapter,
        node: u32,
        call: Call,
        steps: &mut Steps<L>,
    ) -> usize
        requires node { node ≤ nodes }
        requires bare { PassesNone (act_of (invocation_of call)) }
        requires fit { IsFit adapter.now self.old }
        requires room { HasRoom 2 self.old }
        ensures fit { IsFit adapter.now self.new }
        ensures goes { GoesOn self.old self.new }
        ensures at { result < length self.new.made.items }
        ensures few { (length self.new.made.items ≤ length self.old.made.items + 2)
            × (self.old.client.left ≤ self.new.client.left + 2) }
        ensures one { length self.new.outcomes.items ≡ length self.old.outcomes.items + 1 }
        ensures room { (vec_capacity self.new.made ≡ vec_capacity self.old.made)
            × (vec_capacity self.new.outcomes ≡ vec_capacity self.old.outcomes) }
        ensures did { DoesCommand node (act_of (invocation_of call)) result self.old self.new }
        ensures kept { KeepsOne WasDone self.old self.new }
        ensures left { invocation_of call ≢ asks.Open → (i : ℕ) → HasLeft i self.old.client
            → HasLeft i self.new.client }
        ensures closed { invocation_of call ≡ asks.Close → HasLeft node self.new.client }
        ensures fewer { invocation_of call ≢ asks.Open → MarksNoMore self.old self.new }
        ensures free { invocation_of call ≡ asks.Close → slice_get self.new.held node ≢ Some true }
    {
        let from = self.count();
        let at = self.call(rt, adapter, node, call, steps);
        self.keep(from, OutcomeKind::Done);
        at
    }

    // Opens the first demux node that is free.
    fn open_demux<L: Ledger, R: Wait>(
        &mut self,
        rt: &R,
        adapter: &Adapter,
        steps: &mut Steps<L>,
    ) -> Answered
        requires fit { IsFit adapter.now self.old }
        requires room { HasRoom 132 self.old }
        ensures fit { IsFit adapter.now self.new }
        ensures room { HasRoom 66 self.new }
        ensures goes { GoesOn self.old self.new }
        ensures at { IfSome result.at (λ i. i < length self.new.made.items) }
        ensures did { (now : ℕ) → HasDone
            (λ ds. IsAnsweredBy OpenAsk now ds result.tell (data_read (call_at self.new.made.items result.at)))
            self.old self.new }
    {
        let from = self.count();
        'nodes: for node in 0..DEMUX_NODES {
            let at = self.call(rt, adapter, node, Call::Open, steps);
            if is_busy(&self.made[at].reply) {
                continue;
            }
            self.keep(from, OutcomeKind::Done);
            return self.told_open(at, node);
        }
        self.keep(from, OutcomeKind::Emfile);
        refused(EMFILE)
    }

    // Closes a node where the program has it, and there is room for that.
    fn let_go<L: Ledger, R: Wait>(
        &mut self,
        rt: &R,
        adapter: &Adapter,
        node: u32,
        steps: &mut Steps<L>,
    )
        requires node { node ≤ nodes }
        requires fit { IsFit adapter.now self.old }
        requires room { slice_get self.old.held node ≡ Some true → HasRoom 2 self.old }
        ensures fit { IsFit adapter.now self.new }
        ensures goes { GoesOn self.old self.new }
        ensures few { (length self.new.made.items ≤ length self.old.made.items + 2)
            × (self.old.client.left ≤ self.new.client.left + 2) }
        ensures told { length self.new.outcomes.items ≤ length self.old.outcomes.items + 1 }
        ensures room { (vec_capacity self.new.made ≡ vec_capacity self.old.made)
            × (vec_capacity self.new.outcomes ≡ vec_capacity self.old.outcomes) }
        ensures did { HasDone (IsClosing node) self.old self.new }
        ensures held { ClosesHeld self.old self.new }
        ensures fewer { MarksNoMore self.old self.new }
        ensures free { slice_get self.new.held node ≢ Some true }
        ensures left { HasLeft node self.new.client }
        ensures still { (i : ℕ) → HasLeft i self.old.client → HasLeft i self.new.client }
    {
        if !self.held[node as usize] {
            return;
        }
        self.command(rt, adapter, node, Call::Close, steps);
    }

    /// Closes each node that the program has. Where it has any, there is room for that.
    pub fn leave<L: Ledger, R: Wait>(&mut self, rt: &R, adapter: &Adapter, steps: &mut Steps<L>)
        requires fit { IsFit adapter.now self.old }
        requires room { MayLeave self.old }
        ensures fit { IsFit adapter.now self.new }
        ensures goes { GoesOn self.old self.new }
        ensures few { (length self.new.made.items ≤ length self.old.made.items + 66)
            × (self.old.client.left ≤ self.new.client.left + 66) }
        ensures told { length self.new.outcomes.items ≤ length self.old.outcomes.items + 33 }
        ensures room { (vec_capacity self.new.made ≡ vec_capacity self.old.made)
            × (vec_capacity self.new.outcomes ≡ vec_capacity self.old.outcomes) }
        ensures did { HasDone (AreClosings (nodes + 1)) self.old self.new }
        ensures held { ClosesHeld self.old self.new }
        ensures free { (node : ℕ) → node ≤ nodes → slice_get self.new.held node ≢ Some true }
        ensures left { (node : ℕ) → node ≤ nodes → HasLeft node self.new.client }
    {
        'nodes: for node in 0..NODES {
            self.let_go(rt, adapter, node, steps);
        }
    }

    // Does what is asked, for which there is room beside that for leaving.
    fn done<L: Ledger, R: Wait>(
        &mut self,
        rt: &R,
        alloc: Global,
        adapter: &Adapter,
        ask: Ask,
        now: u64,
        steps: &mut Steps<L>,
    ) -> Answered
        requires range { IsAskInRange ask }
        requires fit { IsFit adapter.now self.old }
        requires room { HasRoom 132 self.old }
        ensures fit { IsFit adapter.now self.new }
        ensures room { HasRoom 66 self.new }
        ensures goes { GoesOn self.old self.new }
        ensures at { IfSome result.at (λ i. i < length self.new.made.items) }
        ensures did { HasDone (λ ds. IsAnswered ask now ds result.tell (data_read (call_at self.new.made.items result.at)))
            self.old self.new }
        ensures gone { ask ≡ Leave → HasGone self.old self.new }
    {
        match ask {
            Ask::OpenDemux => self.open_demux(rt, adapter, steps),
            Ask::Call { node, want } => {
                let Ok(call) = own_call(alloc, want, now) else {
                    return refused(ENOMEM);
                };
                let at = self.command(rt, adapter, node, call, steps);
                self.told_at(at)
            }
            Ask::Leave => {
                self.leave(rt, adapter, steps);
                refused(0)
            }
            Ask::Refused(code) => refused(code),
        }
    }

    // Leaves, where that is asked. For any other request memory was refused, or too few calls are left.
    fn done_without<L: Ledger, R: Wait>(
        &mut self,
        rt: &R,
        adapter: &Adapter,
        ask: Ask,
        steps: &mut Steps<L>,
    ) -> Answered
        requires fit { IsFit adapter.now self.old }
        requires room { MayLeave self.old }
        ensures fit { IsFit adapter.now self.new }
        ensures room { MayLeave self.new }
        ensures goes { GoesOn self.old self.new }
        ensures at { result.at ≡ None }
        ensures did { (now : ℕ) → HasDone (λ ds. IsAnswered ask now ds result.tell []) self.old self.new }
        ensures gone { ask ≡ Leave → HasGone self.old self.new }
    {
        match ask {
            Ask::Leave => {
                self.leave(rt, adapter, steps);
                refused(0)
            }
            _ => refused(ENOMEM),
        }
    }

    /// Does what is asked at this moment, and says what is told.
    ///
    /// Where memory is refused, or too few calls are left, it makes no call and tells ENOMEM; but to leave is always done.
    pub fn answer<L: Ledger, R: Wait>(
        &mut self,
        rt: &R,
        alloc: Global,
        adapter: &Adapter,
        ask: Ask,
        now: u64,
        steps: &mut Steps<L>,
    ) -> Answered
        requires range { IsAskInRange ask }
        requires fit { IsFit adapter.now self.old }
        requires room { MayLeave self.old }
        ensures fit { IsFit adapter.now self.new }
        ensures room { MayLeave self.new }
        ensures goes { GoesOn self.old self.new }
        ensures at { IfSome result.at (λ i. i < length self.new.made.items) }
        ensures answered { HasAnswered ask now self.old self.new result.tell (data_read (call_at self.new.made.items result.at)) }
    {
        match self.reserve(alloc, 2 * MOST_CALLS) {
            Ok(()) => self.done(rt, alloc, adapter, ask, now, steps),
            Err(_) => self.done_without(rt, adapter, ask, steps),
        }
    }
}
