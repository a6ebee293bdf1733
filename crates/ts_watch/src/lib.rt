//! Counts of a transport stream's packets, PID by PID, and the head of a stream.
//!
//! A `Watch` is shown the packets of a stream one after another, and tells of each PID how many had it, how many of these had the
//! error bit, were duplicates, or didn't go on where the one before them ended (breaks). Null packets have no duplicates and no
//! breaks (ISO/IEC 13818-1, 2.4.3.3). A `Head` is what is known of a whole stream: the tally of its cutting, the rows of the PIDs
//! that have a packet, and whether its source failed.
//!
//! What a contract sees: a watch as its table; `Watched` says for which list of packets that stands. A `Head` is a record of
//! numbers and lists (`told_head`), and `head_of` says which it is for the bytes of a stream.
//!
//! What is proved, for every list of packets that the watch stood for: after `watch` it stands for that list with the packet
//! behind it, `row` answers the counts of that list as `ts_packet` defines them, and `rows` those of each PID that has a packet,
//! ascending. That a `Head` is that of its stream is proved in `feed_pull`, which makes it.
//!
//! What is only tested, in `tests_low`: that ample memory is enough. Limits: only `new` and `rows` take memory. A packet and a
//! row cost a few steps whatever was seen before.
#![tactic(auto)]

mod head;
mod seen;
mod watch;

pub use head::Head;
pub use seen::PidRow;
pub use watch::Watch;
