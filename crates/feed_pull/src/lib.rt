//! A transport stream from a source, pulled as batches of packets.
//!
//! A `Puller` stands behind bytes that were read ahead, and takes more from the source that each pull is handed. It reads only
//! where fewer packets wait than the pull asks for, at most 65,536 bytes at a time, so a long stream is never held whole.
//!
//! What a contract sees: where the cutting stands, the packets that wait, the bytes of the last read that aren't cut yet, how
//! many packets were given, how many bytes and reads were taken, and how reading goes. `Pulls` says for which bytes ahead and
//! taken, and for which packets given, a puller stands.
//!
//! What is proved: each pull keeps `Pulls`, with just the bytes that the source gave and the packets of the batch. So the batches
//! joined are the front of the packets that all these bytes are cut into, and at None all of them; then `tally`, `watch` and
//! `head` are those of these bytes. Reading ends where the source has nothing left; `ReadFault` is told from the pull on in which
//! the source's count of faults rose, `TooLong` only where 4,294,967,296 reads were made. Once it has stopped no source is read,
//! so at most one read fails. After want of memory nothing that was taken is lost. Behind the last packet of a batch that is as
//! large as was asked for stand at most 65,535 of the bytes taken, unless a pull that asked for more was refused memory before.
//!
//! What is only tested, in `tests_low`: that ample memory is enough. Limits: a batch has 1 to 64 packets, 65,536 bytes may stand
//! ahead, and the reads before the puller count among the 4,294,967,296. The batches and the bounds are this project's own.
#![tactic(auto)]

mod fault;
mod piece;
mod puller;

pub use fault::PullFault;
pub use puller::Puller;
