// Told calls, to be made again.
ghost use Rattle.std.specs.Prelude.{◌≡◌, ◌<◌, ◌≤◌, ◌+◌, ◌^◌, length, map, take, drop, IfOk, All};
ghost use Rattle.dmx_calls.specs.Invocation.{Pass};
ghost use Rattle.report_check.specs.Imports.{IsPacket, filled_act, invocation_of};
ghost use Rattle.report_check.specs.Playing.{AreFewPackets, IsCallable, brought_from};

use dmx_calls::{Act, BatchRange, ByteBuf, Call, Input, KeptAct};
use std::alloc::{AllocError as NoMemory, Global};
use ts_batch::Batch;
use ts_packet::Packet;

// The packets of which a caller's passes bring some.
#[tactic(auto, using(crate::proofs::Players::at_caller, crate::proofs::Players::at_none, crate::proofs::Players::are_few))]
fn source<'a>(
    stream: &'a [Packet],
    played: &'a [Vec<Packet>],
    who: u32,
    input: Input,
) -> &'a [Packet]
    requires stream { AreFewPackets stream.now }
    requires played { All AreFewPackets (map (λ p. p.items) played.now) }
    ensures value { result.now ≡ brought_from stream.now (map (λ p. p.items) played.now) who input }
    ensures few { AreFewPackets result.now }
{
    match input {
        Input::Frontend => stream,
        Input::Dvr => match played.get(who as usize) {
            None => &[],
            Some(packets) => packets.as_slice(),
        },
    }
}

// The pass of some of these packets.
fn pass(
    alloc: Global,
    packets: &[Packet],
    input: Input,
    at: BatchRange,
    now: u64,
) -> Result<Call, NoMemory>
    requires some { 0 < at.count }
    requires few { at.count ≤ 64 }
    requires within { at.first + at.count ≤ length packets.now }
    requires packets { All IsPacket packets.now }
    requires long { length packets.now < 2 ^ 63 }
    ensures { IfOk result (λ call. invocation_of call ≡ Pass input at.first (take at.count (drop at.first packets.now)) now) }
{
    let from = at.first as usize;
    let batch = Batch::of_slice(alloc, at.first, &packets[from..from + at.count as usize])?;
    Ok(Call::Pass { input, batch, now })
}

/// The call that an act of a caller tells. A pass brings packets of the stream, or from the dvr those that the caller plays.
pub fn call_told(
    alloc: Global,
    stream: &[Packet],
    played: &[Vec<Packet>],
    who: u32,
    act: &KeptAct,
) -> Result<Call, NoMemory>
    requires callable { IsCallable (brought_from stream.now (map (λ p. p.items) played.now) who) act.now }
    requires stream { AreFewPackets stream.now }
    requires played { All AreFewPackets (map (λ p. p.items) played.now) }
    ensures { IfOk result (λ call. invocation_of call
        ≡ filled_act (brought_from stream.now (map (λ p. p.items) played.now) who) act.now) }
{
    Ok(match act.act() {
        Act::Open => Call::Open,
        Act::Close => Call::Close,
        Act::SetFilter { params, now } => Call::SetFilter { params, now },
        Act::SetPes { params, now } => Call::SetPes { params, now },
        Act::AddPid(pid) => Call::AddPid(pid),
        Act::RemovePid(pid) => Call::RemovePid(pid),
        Act::Start { now } => Call::Start { now },
        Act::Stop => Call::Stop,
        Act::SetSize(size) => Call::SetSize(size),
        Act::Read { now, room } => {
            let room = ByteBuf::new(alloc, room)?;
            Call::Read { now, room }
        }
        Act::Poll { now } => Call::Poll { now },
        Act::Pass { input, batch, now } => {
            let packets = source(stream, played, who, input);
            pass(alloc, packets, input, batch, now)?
        }
        Act::End => Call::End,
        Act::Attach { node, pids } => Call::Attach { node, pids },
        Act::Detach { node } => Call::Detach { node },
    })
}
