// Whether a told call is the one that is asked for.
ghost use Rattle.std.specs.Prelude.{◌≡◌, ◌≢◌, ◌≤◌, true, false, Some};
ghost use Rattle.report_check.specs.Imports.{IsEvent, IsRequestOf, act_of, call_of, option_map, own_call, pass_of, told_entry};
ghost use Rattle.report_check.specs.Inside.Steps.{asked_at, moment_in};

use client_core::{ClientCore, ClientRequest, Event};
use client_script::Want;
use dmx_calls::{Act, BatchRange, Entry, Input, KeptAct};
use std::sync::Arc;
use ts_batch::Batch;

// The moment of a call; 0 where it has none.
fn moment_of(act: &Act) -> u64
    ensures { result ≡ moment_in act.now }
{
    match act {
        Act::SetFilter { now, .. } => *now,
        Act::SetPes { now, .. } => *now,
        Act::Start { now } => *now,
        Act::Read { now, .. } => *now,
        Act::Poll { now } => *now,
        Act::Pass { now, .. } => *now,
        _ => 0,
    }
}

// What a command asks for, made at this moment.
fn asked_by_command(want: Want, now: u64) -> Act
    ensures { result ≡ act_of (own_call want now) }
{
    match want {
        Want::Open => Act::Open,
        Want::Close => Act::Close,
        Want::Section(params) => Act::SetFilter { params, now },
        Want::Pes(params) => Act::SetPes { params, now },
        Want::Add(pid) => Act::AddPid(pid),
        Want::Remove(pid) => Act::RemovePid(pid),
        Want::Start => Act::Start { now },
        Want::Stop => Act::Stop,
        Want::Size(size) => Act::SetSize(size),
        Want::Read(room) => Act::Read { now, room },
        Want::Poll => Act::Poll { now },
    }
}

// A pass of this batch, made at this moment.
fn passed(batch: Option<&Arc<Batch>>, now: u64) -> Act
    ensures { result ≡ act_of (pass_of (option_map (λ b. b.now.value) batch.entry) now) }
{
    let (first, count) = match batch {
        Some(batch) => (batch.first(), batch.count()),
        None => (0, 0),
    };
    Act::Pass {
        input: Input::Dvr,
        batch: BatchRange { first, count },
        now,
    }
}

// What is asked for by this client, made at this moment.
#[tactic(auto, using(crate::proofs::Asked::written_rules))]
pub(crate) fn asked(core: &ClientCore, request: &ClientRequest, now: u64) -> Act
    requires played { IsRequestOf core.now.plays request.now }
    ensures { result ≡ act_of (call_of core.now.plays request.now now) }
{
    match request {
        ClientRequest::Own(want) => asked_by_command(*want, now),
        ClientRequest::Attach { node, pids } => Act::Attach {
            node: *node,
            pids: pids.copied(),
        },
        ClientRequest::Detach { node } => Act::Detach { node: *node },
        ClientRequest::Pass { write } => passed(core.batch(*write), now),
    }
}

// Whether two calls are the same.
fn is_same(this: &Act, other: &Act) -> bool
    ensures same { result ≡ true → this.now ≡ other.now }
    ensures differs { result ≡ false → this.now ≢ other.now }
{
    this == other
}

// Whether a told call is this one of the client, at its own moment.
fn is_asked(core: &ClientCore, request: &ClientRequest, told: &KeptAct) -> bool
    requires played { IsRequestOf core.now.plays request.now }
    ensures same { result ≡ true → told.now ≡ asked_at core.now.plays request.now told.now }
    ensures differs { result ≡ false → told.now ≢ asked_at core.now.plays request.now told.now }
{
    let act = told.act();
    is_same(&act, &asked(core, request, moment_of(&act)))
}

/// Whether a told entry is this event of the client: on its node, with its step, and the call that is asked for, at some moment.
#[tactic(auto, using(crate::proofs::Asked::asked_rules))]
pub fn is_event(core: &ClientCore, event: &Event, entry: &Entry) -> bool
    requires played { IsRequestOf core.now.plays event.now.want }
    ensures is { result ≡ true → IsEvent core.now.plays (Some event.now) (told_entry entry.now)
        × (entry.now.step ≡ event.now.step) }
    ensures other { result ≡ false → IsEvent core.now.plays (Some event.now) (told_entry entry.now)
        → entry.now.step ≢ event.now.step }
{
    entry.node == event.node && entry.step == event.step && is_asked(core, &event.want, &entry.act)
}
