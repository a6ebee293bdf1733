// The entries of a report.

ghost use Rattle.std.specs.Prelude.{◌≡◌};
ghost use Rattle.dmx_calls.specs.Calls.{invocation_of};
ghost use Rattle.dmx_calls.specs.Log.{act_of};

use crate::call::Call;
use crate::kept::{KeptAct, SharedReply};
use crate::params::SectionParams;
use pid_set::Pids;

/// Where the packets of a batch stand.
#[derive(Clone, Copy, Debug, PartialEq, Eq, Drop)]
pub struct BatchRange {
    /// The number of the first packet in the stream, or among all that its client writes, counted from 0.
    pub first: u64,
    /// How many packets there are.
    pub count: u32,
}

/// A call as a report tells it: a Read by its count, in bytes, and a Pass by where its packets stand. A log keeps it as a
/// `KeptAct`.
pub type Act<Section = SectionParams, Tapped = Pids> = Call<u32, BatchRange, Section, Tapped>;

impl Call {
    /// The call as a report tells it.
    pub fn act(&self) -> Act
        ensures { result ≡ act_of (invocation_of self.now) }
    {
        match self {
            Call::Open => Act::Open,
            Call::Close => Act::Close,
            Call::SetFilter { params, now } => Act::SetFilter {
                params: *params,
                now: *now,
            },
            Call::SetPes { params, now } => Act::SetPes {
                params: *params,
                now: *now,
            },
            Call::AddPid(pid) => Act::AddPid(*pid),
            Call::RemovePid(pid) => Act::RemovePid(*pid),
            Call::Start { now } => Act::Start { now: *now },
            Call::Stop => Act::Stop,
            Call::SetSize(size) => Act::SetSize(*size),
            Call::Read { now, room } => Act::Read {
                now: *now,
                room: room.count(),
            },
            Call::Poll { now } => Act::Poll { now: *now },
            Call::Pass { input, batch, now } => Act::Pass {
                input: *input,
                batch: BatchRange {
                    first: batch.first(),
                    count: batch.count(),
                },
                now: *now,
            },
            Call::End => Act::End,
            Call::Attach { node, pids } => Act::Attach {
                node: *node,
                pids: pids.copied(),
            },
            Call::Detach { node } => Act::Detach { node: *node },
        }
    }
}

/// One call of a node with its reply, as a report tells it. It takes 64 bytes, and memory of its own for a reply that it
/// doesn't share and for what is large in either.
#[derive(Drop)]
pub struct Entry {
    /// The entry's place in the node's history, counted from 0.
    pub place: u64,
    /// The number of the call among its caller's calls, counted from 0.
    pub step: u64,
    /// The node: 0 to 31 for a demux node, 32 for the dvr node.
    pub node: u32,
    /// The caller: 0 for the feeder, and `c + 1` for client c.
    pub who: u32,
    /// The call.
    pub act: KeptAct,
    /// Its reply.
    pub reply: SharedReply,
}
