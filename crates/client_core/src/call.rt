// The calls that clients make.

ghost use Rattle.std.specs.Prelude.{◌≡◌, ◌⊎◌, ℕ, Some, IfOk, IsErr};
ghost use Rattle.client_core.specs.Imports.{Read as AskRead, invocation_of};
ghost use Rattle.client_core.specs.declared.event.ClientRequest.TheVariants.{Own, Pass};
ghost use Rattle.client_core.specs.Commands.{call_of as call_at, pass_of as pass_at, own_call, IsRequestInRange, IsRequestOf, IsFresh};

use crate::client::ClientCore;
use crate::event::ClientRequest;
use client_script::Want;
use dmx_calls::{ByteBuf, Call, Input};
use std::alloc::{AllocError as NoMemory, Global};
use std::sync::Arc;
use ts_batch::Batch;

/// The call that a command asks for of a node, made at the moment `now`, in milliseconds. A Read comes with an empty buffer, and
/// only this takes memory.
pub fn call_of_want(alloc: Global, want: Want, now: u64) -> Result<Call, NoMemory>
    requires range { IsRequestInRange (Own want) }
    ensures call { IfOk result (λ call. invocation_of call ≡ own_call want now) }
    ensures fresh { IfOk result IsFresh }
    ensures memory { IsErr result → (count : ℕ) × (want ≡ AskRead count) }
{
    Ok(match want {
        Want::Open => Call::Open,
        Want::Close => Call::Close,
        Want::Section(params) => Call::SetFilter { params, now },
        Want::Pes(params) => Call::SetPes { params, now },
        Want::Add(pid) => Call::AddPid(pid),
        Want::Remove(pid) => Call::RemovePid(pid),
        Want::Start => Call::Start { now },
        Want::Stop => Call::Stop,
        Want::Size(size) => Call::SetSize(size),
        Want::Read(count) => Call::Read {
            now,
            room: ByteBuf::new(alloc, count)?,
        },
        Want::Poll => Call::Poll { now },
    })
}

// A pass of this batch, made at the moment `now`: another owner of the batch takes memory.
fn pass_of(batch: &Arc<Batch>, now: u64) -> Result<Call, NoMemory>
    ensures call { IfOk result (λ call. invocation_of call ≡ pass_at (Some batch.now.value) now) }
    ensures fresh { IfOk result IsFresh }
{
    Ok(Call::Pass {
        input: Input::Dvr,
        batch: batch.clone()?,
        now,
    })
}

/// The call that is asked for by this client, made at the moment `now`, in milliseconds. A Read comes with an empty buffer, and a
/// pass with the batch of its write, which is shared and not copied: only these take memory.
#[tactic(auto, using(crate::proofs::Playing::written_rules))]
pub fn call_of(
    alloc: Global,
    core: &ClientCore,
    request: &ClientRequest,
    now: u64,
) -> Result<Call, NoMemory>
    requires range { IsRequestInRange request.now }
    requires played { IsRequestOf core.now.plays request.now }
    ensures call { IfOk result (λ call. invocation_of call ≡ call_at core.now.plays request.now now) }
    ensures fresh { IfOk result IsFresh }
    ensures memory { IsErr result → ((count : ℕ) × (request.now ≡ Own (AskRead count)))
        ⊎ ((write : ℕ) × (request.now ≡ Pass write)) }
{
    match request {
        ClientRequest::Own(want) => call_of_want(alloc, *want, now),
        ClientRequest::Attach { node, pids } => Ok(Call::Attach {
            node: *node,
            pids: pids.copied(),
        }),
        ClientRequest::Detach { node } => Ok(Call::Detach { node: *node }),
        ClientRequest::Pass { write } => pass_of(core.batch(*write).unwrap(), now),
    }
}
