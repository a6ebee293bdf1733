// The replies of a node.

ghost use Rattle.std.specs.Prelude.{◌≡◌};
ghost use Rattle.dmx_calls.specs.Names.{errno_text, pending_text};

use crate::byte_buf::ByteBuf;
use pid_set::PidSet;
use std::sync::Arc;
use ts_batch::Batch;

/// Why a call is refused, by its Linux error.
#[derive(Clone, Copy, Debug, PartialEq, Eq, Drop)]
pub enum Errno {
    /// EBADF: the node is free, or the caller isn't its owner.
    Ebadf,
    /// EBUSY: the size can't be changed while the filter runs.
    Ebusy,
    /// EINVAL: an argument is out of range, or the call doesn't fit the filter or the kind of node.
    Einval,
    /// ENOSPC: the filter has as many PIDs as it may have.
    Enospc,
}

impl Errno {
    /// Its name in Linux.
    #[tactic(auto, unfolding(crate::specs::Names::errno_text))]
    pub fn name(self) -> &'static str
        ensures { result.now ≡ errno_text self }
    {
        match self {
            Errno::Ebadf => "EBADF",
            Errno::Ebusy => "EBUSY",
            Errno::Einval => "EINVAL",
            Errno::Enospc => "ENOSPC",
        }
    }
}

/// What a Poll finds pending.
#[derive(Clone, Copy, Debug, PartialEq, Eq, Drop)]
pub enum PollError {
    /// Nothing.
    Quiet,
    /// An overflow.
    Overflow,
    /// A timeout.
    TimedOut,
}

impl PollError {
    /// Its word in reports.
    #[tactic(auto, unfolding(crate::specs::Names::pending_text))]
    pub fn name(self) -> &'static str
        ensures { result.now ≡ pending_text self }
    {
        match self {
            PollError::Quiet => "none",
            PollError::Overflow => "overflow",
            PollError::TimedOut => "timedout",
        }
    }
}

/// A stretch of a capture's bytes, from place `from` up to and without place `to`.
#[derive(Clone, Copy, Debug, PartialEq, Eq, Drop)]
pub struct Span {
    /// The first place.
    pub from: u64,
    /// The place after the last.
    pub to: u64,
}

/// The PIDs of a tap as a node tells them: a filter whose packets go to the dvr node has one at most.
pub type TapPids = PidSet<1>;

/// What the dvr node is to be told of this node's tap. A log keeps it with the PIDs as `KeptPids`.
#[derive(Clone, Debug, PartialEq, Eq, Drop)]
pub enum Tap<P = TapPids> {
    /// Nothing.
    Keep,
    /// The tap is attached, with these PIDs.
    Attach(P),
    /// The tap is detached.
    Detach,
}

/// What a node replies. It takes no memory but a read's bytes; a log keeps it with the PIDs of a tap as `KeptPids`.
#[derive(Drop)]
pub enum Reply<P = TapPids> {
    /// The call was done.
    Done {
        /// The bytes that were unread and are now dropped.
        dropped: Span,
        /// What the dvr node is to be told.
        tap: Tap<P>,
    },
    /// The node has an owner.
    Busy {
        /// The owner's caller number.
        owner: u32,
    },
    /// The call was refused, and nothing changed.
    Refused(Errno),
    /// Memory was wanting, and nothing changed.
    NoMemory,
    /// Bytes that were read.
    Data(ByteBuf),
    /// No byte is there to be read.
    Again {
        /// The stream has ended.
        ended: bool,
    },
    /// Bytes were lost.
    Overflow {
        /// The first place that is lost.
        from: u64,
        /// The place after the last that is lost.
        to: u64,
        /// The number of the first item that didn't fit, counted from 0.
        item: u64,
        /// That item's length in bytes.
        need: u64,
        /// The room that it found, in bytes.
        room: u64,
    },
    /// No section came before the filter's timeout.
    TimedOut {
        /// The moment at which the filter was started, in milliseconds.
        started: u64,
        /// The moment of the entry that found the time to be over, in milliseconds.
        now: u64,
        /// The filter's timeout, in milliseconds.
        timeout: u32,
    },
    /// What a Poll finds.
    Ready {
        /// A read of one byte would answer neither Again nor no bytes.
        readable: bool,
        /// What is pending.
        error: PollError,
        /// The place up to which all bytes are answered, in bytes from the filter's start.
        at: u64,
        /// The stream has ended.
        ended: bool,
    },
    /// A Pass or End went by.
    Passed,
}

/// A reply, and what is handed back of the call. The buffer of a Read is in the reply where that is Data, and is else let go.
#[derive(Drop)]
pub struct Answer {
    /// The reply.
    pub reply: Reply,
    /// The batch of a Pass.
    pub batch: Option<Arc<Batch>>,
}
