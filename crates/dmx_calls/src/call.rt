// The calls of a node.

use crate::byte_buf::ByteBuf;
use crate::params::{Input, PesParams, SectionParams};
use pid_set::Pids;
use std::sync::Arc;
use ts_batch::Batch;

/// A call on a node. `now` is the moment at which it is made, in milliseconds. A report tells it as an `Act`, and a log keeps
/// that as a `KeptAct`: these have less in place of what is large.
#[derive(Clone, Debug, PartialEq, Eq, Drop)]
pub enum Call<Room = ByteBuf, Passed = Arc<Batch>, Section = SectionParams, Tapped = Pids> {
    /// Takes the node.
    Open,
    /// Gives the node back.
    Close,
    /// Sets a section filter.
    SetFilter {
        /// The filter.
        params: Section,
        now: u64,
    },
    /// Sets a PES filter.
    SetPes {
        /// The filter.
        params: PesParams,
        now: u64,
    },
    /// Adds a PID to a PES filter.
    AddPid(u16),
    /// Removes a PID from a PES filter.
    RemovePid(u16),
    /// Starts the filter.
    Start {
        now: u64,
    },
    /// Stops the filter.
    Stop,
    /// Sets the size of the buffer, in bytes.
    SetSize(u32),
    /// Reads into a buffer, at most as many bytes as its count.
    Read {
        now: u64,
        /// An empty buffer; of an `Act` its count, in bytes.
        room: Room,
    },
    /// Asks whether a read would give something, and what is pending.
    Poll {
        now: u64,
    },
    /// The packets of a batch pass the node.
    Pass {
        /// Where the packets come from.
        input: Input,
        /// The batch; of an `Act` where its packets stand.
        batch: Passed,
        now: u64,
    },
    /// The stream has ended.
    End,
    /// Attaches a demux node's tap to the dvr node, in place of the one that it has.
    Attach {
        /// The demux node, 0 to 31.
        node: u32,
        /// The PIDs of the packets that it records; 0x2000 among them names every packet.
        pids: Tapped,
    },
    /// Detaches a demux node's tap from the dvr node, where the same client attached it.
    Detach {
        /// The demux node, 0 to 31.
        node: u32,
    },
}
