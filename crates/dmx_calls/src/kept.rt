// Calls and replies where a log keeps them: what is large of them stands behind a pointer.

ghost use Rattle.std.specs.Prelude.{◌≡◌, true, IfOk};
ghost use Rattle.dmx_calls.specs.Calls.{response_of};

use crate::byte_buf::ByteBuf;
use crate::log::{Act, Entry};
use crate::params::SectionParams;
use crate::reply::{Reply, Tap};
use pid_set::KeptPids;
use std::alloc::{AllocError as NoMemory, Global};
use std::boxed::Box;
use std::marker::Model;
use std::sync::Arc;

/// A section filter where a log keeps it: one pointer. A contract sees it as the filter.
#[derive(Drop)]
pub struct KeptSection {
    params: Box<SectionParams>,
}

impl Model for KeptSection {
    ghost use Rattle.dmx_calls.specs.declared.params.SectionParams.{SectionParams};

    ghost Value = { SectionParams };

    ghost view = { λ kept. kept.params.value };
}

/// A call where a log keeps it: what is large of it stands behind a pointer. A contract sees it as the call.
pub type KeptAct = Act<KeptSection, KeptPids>;

impl KeptAct {
    /// Keeps this call. It takes memory for a section filter and for the PIDs of a tap.
    pub fn keep(alloc: Global, act: Act) -> Result<KeptAct, NoMemory>
        ensures { IfOk result (λ kept. kept ≡ act) }
    {
        Ok(match act {
            Act::Open => Act::Open,
            Act::Close => Act::Close,
            Act::SetFilter { params, now } => Act::SetFilter {
                params: KeptSection {
                    params: Box::new(alloc, params)?,
                },
                now,
            },
            Act::SetPes { params, now } => Act::SetPes { params, now },
            Act::AddPid(pid) => Act::AddPid(pid),
            Act::RemovePid(pid) => Act::RemovePid(pid),
            Act::Start { now } => Act::Start { now },
            Act::Stop => Act::Stop,
            Act::SetSize(size) => Act::SetSize(size),
            Act::Read { now, room } => Act::Read { now, room },
            Act::Poll { now } => Act::Poll { now },
            Act::Pass { input, batch, now } => Act::Pass { input, batch, now },
            Act::End => Act::End,
            Act::Attach { node, pids } => Act::Attach {
                node,
                pids: KeptPids::of(alloc, &pids)?,
            },
            Act::Detach { node } => Act::Detach { node },
        })
    }

    /// The call.
    pub fn act(&self) -> Act
        ensures { result ≡ self.now }
    {
        match self {
            Act::Open => Act::Open,
            Act::Close => Act::Close,
            Act::SetFilter { params, now } => Act::SetFilter {
                params: *params.params,
                now: *now,
            },
            Act::SetPes { params, now } => Act::SetPes {
                params: *params,
                now: *now,
            },
            Act::AddPid(pid) => Act::AddPid(*pid),
            Act::RemovePid(pid) => Act::RemovePid(*pid),
            Act::Start { now } => Act::Start { now: *now },
            Act::Stop => Act::Stop,
            Act::SetSize(size) => Act::SetSize(*size),
            Act::Read { now, room } => Act::Read {
                now: *now,
                room: *room,
            },
            Act::Poll { now } => Act::Poll { now: *now },
            Act::Pass { input, batch, now } => Act::Pass {
                input: *input,
                batch: *batch,
                now: *now,
            },
            Act::End => Act::End,
            Act::Attach { node, pids } => Act::Attach {
                node: *node,
                pids: pids.set(),
            },
            Act::Detach { node } => Act::Detach { node: *node },
        }
    }
}

/// A reply as a log tells it: a tap's PIDs stand behind a pointer.
pub type LogReply = Reply<KeptPids>;

/// What a log tells of a tap.
pub type LogTap = Tap<KeptPids>;

fn log_tap(alloc: Global, tap: Tap) -> Result<LogTap, NoMemory>
    ensures { IfOk result (λ kept. kept ≡ tap) }
{
    Ok(match tap {
        Tap::Keep => Tap::Keep,
        Tap::Attach(pids) => Tap::Attach(KeptPids::of(alloc, &pids)?),
        Tap::Detach => Tap::Detach,
    })
}

// The bytes of a read with no more room than they take. A buffer that is full is kept as it is.
fn fitting(alloc: Global, buf: ByteBuf) -> Result<ByteBuf, NoMemory>
    ensures { IfOk result (λ kept. kept.bytes ≡ buf.bytes) }
{
    if buf.bytes().len() == buf.count() as usize {
        return Ok(buf);
    }
    buf.fitted(alloc)
}

fn log_reply(alloc: Global, reply: Reply) -> Result<LogReply, NoMemory>
    ensures { IfOk result (λ kept. response_of kept ≡ response_of reply) }
{
    Ok(match reply {
        Reply::Done { dropped, tap } => Reply::Done {
            dropped,
            tap: log_tap(alloc, tap)?,
        },
        Reply::Busy { owner } => Reply::Busy { owner },
        Reply::Refused(errno) => Reply::Refused(errno),
        Reply::NoMemory => Reply::NoMemory,
        Reply::Data(buf) => Reply::Data(fitting(alloc, buf)?),
        Reply::Again { ended } => Reply::Again { ended },
        Reply::Overflow {
            from,
            to,
            item,
            need,
            room,
        } => Reply::Overflow {
            from,
            to,
            item,
            need,
            room,
        },
        Reply::TimedOut {
            started,
            now,
            timeout,
        } => Reply::TimedOut {
            started,
            now,
            timeout,
        },
        Reply::Ready {
            readable,
            error,
            at,
            ended,
        } => Reply::Ready {
            readable,
            error,
            at,
            ended,
        },
        Reply::Passed => Reply::Passed,
    })
}

// Whether two replies are the same. Those that seldom come twice in a row, as bytes, aren't compared: of them it says no.
fn are_same(this: &LogReply, other: &LogReply) -> bool
    ensures { result ≡ true → this.now ≡ other.now }
{
    match this {
        Reply::Done {
            dropped,
            tap: Tap::Keep,
        } => { matches!(other, Reply::Done { dropped: d, tap: Tap::Keep } if dropped == d) }
        Reply::Busy { owner } => matches!(other, Reply::Busy { owner: o } if owner == o),
        Reply::Refused(errno) => matches!(other, Reply::Refused(e) if errno == e),
        Reply::Again { ended } => matches!(other, Reply::Again { ended: e } if ended == e),
        Reply::Passed => matches!(other, Reply::Passed),
        _ => false,
    }
}

/// A reply where a log keeps it, maybe shared by several entries. A contract sees it as the reply.
#[derive(Drop)]
pub struct SharedReply {
    reply: Arc<LogReply>,
}

impl Model for SharedReply {
    ghost use Rattle.std.specs.Prelude.{List, ℕ};
    ghost use Rattle.dmx_calls.specs.declared.reply.Reply.{Reply};

    ghost Value = { Reply (List ℕ) };

    ghost view = { λ shared. shared.reply.value };
}

impl SharedReply {
    /// Keeps this reply of a node, with no more room than its bytes take: shared with the one of this entry, where that is the
    /// same, and else in memory of its own.
    pub fn of(alloc: Global, last: Option<&Entry>, reply: Reply) -> Result<SharedReply, NoMemory>
        ensures { IfOk result (λ kept. response_of kept ≡ response_of reply) }
    {
        SharedReply::keep(alloc, last, log_reply(alloc, reply)?)
    }

    /// Keeps a reply that is told as a log tells it: shared with the one of this entry, where that is the same, and else in
    /// memory of its own.
    pub fn keep(
        alloc: Global,
        last: Option<&Entry>,
        reply: LogReply,
    ) -> Result<SharedReply, NoMemory>
        ensures { IfOk result (λ kept. kept ≡ reply) }
    {
        if let Some(entry) = last {
            if are_same(&entry.reply.reply, &reply) {
                return entry.reply.shared();
            }
        }
        Ok(SharedReply {
            reply: Arc::new(alloc, reply)?,
        })
    }

    // The same reply once more.
    fn shared(&self) -> Result<SharedReply, NoMemory>
        ensures { IfOk result (λ kept. kept ≡ self.now) }
    {
        Ok(SharedReply {
            reply: Arc::try_clone(&self.reply)?,
        })
    }

    /// The reply.
    pub fn told(&self) -> &LogReply
        ensures { result.now ≡ self.now }
    {
        &self.reply
    }
}
