// A seat and its calls.
ghost use Rattle.std.specs.Prelude.{◌≡◌, ◌≢◌, ◌<◌, ◌≤◌, ◌+◌, ◌^◌, ◌++◌, ◌∷◌, [], ℕ, true, List, Some, length, option_map, slice_get, vec_capacity, OnOk, IfOk, IfSome};
ghost use Rattle.seats.specs.Imports.{DEMUX_NODES as nodes, TableId, act_of, invocation_of, is_accepted as is_accepted_by, response_of};
ghost use Rattle.dmx_calls.specs.Invocation as asks;
ghost use Rattle.seats.specs.Calls.{PassesNone};
ghost use Rattle.seats.specs.Doing.{MakesOne, DoesCommand, MarksNoMore, act_by_tap, tap_by};
ghost use Rattle.seats.specs.Holding.{HasLeft, has_then as has_then_by};
ghost use Rattle.seats.specs.Spelled.{line_behind as line_behind_by, outcome_at};
ghost use Rattle.seats.specs.Seated.{log_of, IsFit, IsNew, HasRoom, GoesOn};

use crate::made::{Made, keep_all};
use adapter::{Adapter, Client};
use dmx_calls::limits::{DEMUX_NODES, NODES};
use dmx_calls::{Act, Call, Entry, Outcome, OutcomeKind, Reply, Tap};
use machine::steps::Steps;
use std::alloc::{AllocError as NoMemory, Global};
use std::sync::Wait;
use std::sync::ledger::Ledger;

/// The most calls of a request: an Open or a Close of each of the 33 nodes, and what each reply asks of the dvr node.
pub const MOST_CALLS: usize = 66;

/// How many calls a seat has handed over to its journal, and what became of how many commands.
#[derive(Clone, Copy, Debug, PartialEq, Eq, Drop)]
pub struct HandedOver {
    /// How many calls.
    pub calls: u64,
    /// How many commands.
    pub commands: u64,
}

/// A client of the adapter with its calls so far. It serves one program after another.
#[derive(Drop)]
pub struct Seat {
    /// The client of the adapter.
    pub client: Client,
    /// Its number as a caller.
    pub who: u32,
    /// What it has handed over.
    pub handed: HandedOver,
    /// Its calls behind these, on whatever node, in their order, but for the last ones.
    pub log: Vec<Entry>,
    /// Its last calls, behind these: those for which no memory was taken yet.
    pub made: Vec<Made>,
    /// What it was asked for and did by calls behind what it has handed over, in their order, each as a command of a script.
    pub outcomes: Vec<Outcome>,
    /// The nodes that the program has.
    pub held: [bool; NODES as usize],
}

// What the dvr node is to be told behind this reply of a node.
fn told_dvr(node: u32, reply: &Reply) -> Option<Call>
    ensures bare { IfSome result (λ call. PassesNone (act_of (invocation_of call)) × (invocation_of call ≢ asks.Open)) }
    ensures acts { option_map (λ call. act_of (invocation_of call)) result
        ≡ act_by_tap node (tap_by node (response_of reply.now)) }
{
    if node >= DEMUX_NODES {
        return None;
    }
    let Reply::Done { tap, .. } = reply else {
        return None;
    };
    match tap {
        Tap::Keep => None,
        Tap::Attach(pids) => Some(Call::Attach {
            node,
            pids: pids.widened(),
        }),
        Tap::Detach => Some(Call::Detach { node }),
    }
}

// Whether a call with this reply changes anything.
fn is_accepted(reply: &Reply) -> bool
    ensures { result ≡ is_accepted_by (response_of reply.now) }
{
    !matches!(
        reply,
        Reply::Busy { .. } | Reply::Refused(_) | Reply::NoMemory
    )
}

// Whether the program has a node behind a call with this reply, where it had it or not before.
fn has_then(had: bool, act: &Act, reply: &Reply) -> bool
    ensures { result ≡ has_then_by had act.now (response_of reply.now) }
{
    match act {
        Act::Open => { if is_accepted(reply) { true } else { had } }
        Act::Close => false,
        _ => had,
    }
}

// The number of the line of a command behind so many.
fn line_behind(count: usize) -> u32
    ensures { result ≡ line_behind_by count }
{
    if count < u32::MAX as usize {
        count as u32 + 1
    } else {
        u32::MAX
    }
}

impl Seat {
    // The seat of this client, before its first call. The number is the client's as a caller.
    pub(crate) fn new(alloc: Global, client: Client, who: u32) -> Result<Seat, NoMemory>
        ensures { IfOk result (λ seat. (seat.client ≡ client) × IsNew who seat) }
    {
        Ok(Seat {
            client,
            who,
            handed: HandedOver {
                calls: 0,
                commands: 0,
            },
            log: Vec::new(alloc),
            made: Vec::with_capacity(alloc, MOST_CALLS)?,
            outcomes: Vec::with_capacity(alloc, MOST_CALLS)?,
            held: [false; NODES as usize],
        })
    }

    // How many calls it has made.
    pub(crate) fn count(&self) -> u64
        requires few { self.now.handed.calls + (length self.now.log.items + length self.now.made.items) ≤ 2 ^ 40 }
        ensures { result ≡ self.now.handed.calls + (length self.now.log.items + length self.now.made.items) }
    {
        self.handed.calls + (self.log.len() as u64 + self.made.len() as u64)
    }

    // Makes a call, for which there is room, and keeps it. It answers what the reply asks of the dvr node.
    fn make<L: Ledger, R: Wait>(
        &mut self,
        rt: &R,
        adapter: &Adapter,
        node: u32,
        call: Call,
        steps: &mut Steps<L>,
    ) -> Option<Call>
        requires node { node ≤ nodes }
        requires bare { PassesNone (act_of (invocation_of call)) }
        requires fit { IsFit adapter.now self.old }
        requires room { HasRoom 1 self.old }
        ensures fit { IsFit adapter.now self.new }
        ensures goes { GoesOn self.old self.new }
        ensures one { (length self.new.made.items ≡ length self.old.made.items + 1)
            × (self.new.client.left + 1 ≡ self.old.client.left) }
        ensures room { vec_capacity self.new.made ≡ vec_capacity self.old.made }
        ensures rest { self.new.outcomes ≡ self.old.outcomes }
        ensures next { IfSome result (λ next. PassesNone (act_of (invocation_of next)) × (invocation_of next ≢ asks.Open)) }
        ensures did { MakesOne node (act_of (invocation_of call))
            (option_map (λ next. act_of (invocation_of next)) result) self.old self.new }
        ensures left { invocation_of call ≢ asks.Open → (i : ℕ) → HasLeft i self.old.client
            → HasLeft i self.new.client }
        ensures closed { invocation_of call ≡ asks.Close → HasLeft node self.new.client }
        ensures fewer { invocation_of call ≢ asks.Open → MarksNoMore self.old self.new }
        ensures free { invocation_of call ≡ asks.Close → slice_get self.new.held node ≢ Some true }
    {
        let act = call.act();
        let step = self.count();
        let (place, answer) = self.client.call(rt, adapter, node, call, steps);
        let next = told_dvr(node, &answer.reply);
        let has = has_then(self.held[node as usize], &act, &answer.reply);
        self.held[node as usize] = has;
        self.made.push_reserved(Made {
            node,
            place,
            step,
            act,
            reply: answer.reply,
        });
        next
    }

    /// Makes a call, for which there is room, and then what its reply asks of the dvr node. It answers where the call stands
    /// among the last ones.
    pub fn call<L: Ledger, R: Wait>(
        &mut self,
        rt: &R,
        adapter: &Adapter,
        node: u32,
        call: Call,
        steps: &mut Steps<L>,
    ) -> usize
        requires node { node ≤ nodes }
        requires bare { PassesNone (act_of (invocation_of call)) }
        requires fit { IsFit adapter.now self.old }
        requires room { HasRoom 2 self.old }
        ensures fit { IsFit adapter.now self.new }
        ensures goes { GoesOn self.old self.new }
        ensures at { (result ≡ length self.old.made.items) × (result < length self.new.made.items) }
        ensures few { (length self.new.made.items ≤ length self.old.made.items + 2)
            × (self.old.client.left ≤ self.new.client.left + 2) }
        ensures room { vec_capacity self.new.made ≡ vec_capacity self.old.made }
        ensures rest { self.new.outcomes ≡ self.old.outcomes }
        ensures did { DoesCommand node (act_of (invocation_of call)) result self.old self.new }
        ensures left { invocation_of call ≢ asks.Open → (i : ℕ) → HasLeft i self.old.client
            → HasLeft i self.new.client }
        ensures closed { invocation_of call ≡ asks.Close → HasLeft node self.new.client }
        ensures fewer { invocation_of call ≢ asks.Open → MarksNoMore self.old self.new }
        ensures free { invocation_of call ≡ asks.Close → slice_get self.new.held node ≢ Some true }
    {
        let at = self.made.len();
        if let Some(next) = self.make(rt, adapter, node, call, steps) {
            self.make(rt, adapter, DEMUX_NODES, next, steps);
        }
        at
    }

    /// Keeps how a command ended, for which there is room; so many calls were made before its first.
    pub fn keep(&mut self, from: u64, kind: OutcomeKind)
        requires few { self.old.handed.calls + (length self.old.log.items + length self.old.made.items) ≤ 2 ^ 40 }
        requires paid { self.old.handed.commands + length self.old.outcomes.items + 1
            ≤ self.old.handed.calls + (length self.old.log.items + length self.old.made.items) }
        requires room { length self.old.outcomes.items + 1 ≤ vec_capacity self.old.outcomes }
        ensures fit { (locks : List TableId) → IsFit locks self.old → IsFit locks self.new }
        ensures goes { GoesOn self.old self.new }
        ensures one { length self.new.outcomes.items ≡ length self.old.outcomes.items + 1 }
        ensures told { self.new.outcomes.items
            ≡ self.old.outcomes.items ++ outcome_at (self.old.handed.commands + length self.old.outcomes.items) from
            (self.old.handed.calls + (length self.old.log.items + length self.old.made.items)) kind ∷ [] }
        ensures room { vec_capacity self.new.outcomes ≡ vec_capacity self.old.outcomes }
        ensures rest { (self.new.client ≡ self.old.client) × (self.new.who ≡ self.old.who) × (self.new.log ≡ self.old.log)
            × (self.new.made ≡ self.old.made) × (self.new.held ≡ self.old.held) × (self.new.handed ≡ self.old.handed) }
    {
        let line = line_behind(self.handed.commands as usize + self.outcomes.len());
        let to = self.count();
        self.outcomes.push_reserved(Outcome {
            line,
            from,
            to,
            kind,
        });
    }

    // Keeps its last calls in the log, where there is memory for that; before the log's first stands this one, if there is one.
    pub(crate) fn settle(&mut self, alloc: Global, last: Option<&Entry>) -> Result<(), NoMemory>
        ensures settled { OnOk result (self.new.made.items ≡ []) }
        ensures same { log_of self.new ≡ log_of self.old }
        ensures room { vec_capacity self.new.made ≡ vec_capacity self.old.made }
        ensures more { length self.new.made.items ≤ length self.old.made.items }
        ensures rest { (self.new.client ≡ self.old.client) × (self.new.who ≡ self.old.who)
            × (self.new.outcomes ≡ self.old.outcomes) × (self.new.held ≡ self.old.held)
            × (self.new.handed ≡ self.old.handed) }
    {
        let before = self.log.len();
        match keep_all(alloc, self.who, last, &self.made, &mut self.log) {
            Ok(()) => {
                self.made.clear();
                Ok(())
            }
            Err(wanting) => {
                self.log.truncate(before);
                Err(wanting)
            }
        }
    }

    /// Takes memory for the calls so far, and for so many more and as many commands.
    ///
    /// # Errors
    ///
    /// `NoMemory` where memory was refused, or where so many calls aren't left. No call was made.
    pub fn reserve(&mut self, alloc: Global, calls: usize) -> Result<(), NoMemory>
        ensures room { OnOk result (HasRoom calls self.new) }
        ensures still { (calls : ℕ) → HasRoom calls self.old → HasRoom calls self.new }
        ensures same { log_of self.new ≡ log_of self.old }
        ensures told { self.new.outcomes.items ≡ self.old.outcomes.items }
        ensures held { self.new.held ≡ self.old.held }
        ensures goes { GoesOn self.old self.new }
        ensures fit { (locks : List TableId) → IsFit locks self.old → IsFit locks self.new }
    {
        if self.client.left() < calls as u64 {
            return Err(NoMemory);
        }
        self.settle(alloc, None)?;
        self.made.reserve(calls)?;
        self.outcomes.reserve(calls)?;
        Ok(())
    }
}
