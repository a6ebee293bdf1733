// The numbers of the protocol, and the errors of Linux that it tells.

/// How many bytes a request has.
pub const REQUEST_LEN: usize = 76;

/// How many bytes a reply has in front of those that were read.
pub const REPLY_LEN: usize = 24;

/// Where the argument of a request begins.
pub const ARGUMENT_AT: usize = 16;

/// How many bytes the argument of a request has at most.
pub const ARGUMENT_LEN: u32 = 60;

/// The place that is told where no call was made.
pub const NO_PLACE: u64 = 0xffff_ffff_ffff_ffff;

/// The verb of a request that opens the first demux node that is free.
pub const OPEN_DEMUX: u32 = 1;

/// The verb of a request that opens the dvr node.
pub const OPEN_DVR: u32 = 2;

/// The verb of a request that closes a node.
pub const CLOSE: u32 = 3;

/// The verb of an ioctl.
pub const IOCTL: u32 = 4;

/// The verb of a read.
pub const READ: u32 = 5;

/// The verb of a poll.
pub const POLL: u32 = 6;

/// The verb of a request that closes all nodes that the program has.
pub const LEAVE: u32 = 7;

/// EBADF: there is no such node, it is free, or it is another's.
pub const EBADF: u32 = 9;

/// EAGAIN: nothing is there to be read.
pub const EAGAIN: u32 = 11;

/// ENOMEM: memory was wanting, or no call was left.
pub const ENOMEM: u32 = 12;

/// EBUSY: the node has an owner, or its filter runs.
pub const EBUSY: u32 = 16;

/// EINVAL: the request, an argument or the call doesn't fit.
pub const EINVAL: u32 = 22;

/// EMFILE: all demux nodes are open.
pub const EMFILE: u32 = 24;

/// ENOTTY: the device has no such ioctl.
pub const ENOTTY: u32 = 25;

/// ENOSPC: the filter has as many PIDs as it may have.
pub const ENOSPC: u32 = 28;

/// EOVERFLOW: bytes were lost.
pub const EOVERFLOW: u32 = 75;

/// ETIMEDOUT: no section came in time.
pub const ETIMEDOUT: u32 = 110;
