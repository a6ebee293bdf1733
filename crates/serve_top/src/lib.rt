//! What the server does, from its first call to its report: a stream passes, and for each line a seat answers its requests.
//!
//! `serve_to` makes an adapter with a client for each line, and passes the stream of a source through its 33 nodes, in batches of
//! 64 packets and then its end, while `sit_all` of `seats` answers the lines. Each line's `Journal` is given its calls as they
//! come, and a `Batches` of `workers` is told the batches. `serve` does it with keepers in memory, and writes the report of all
//! calls. A `Rung` stands in front of a keeper, and tells `Ears` of each call and each batch.
//!
//! What is proved, whatever comes on the lines and however the threads fall: a whole report is that of the stream's bytes, up to
//! its end or the one read that failed (`HasReadTo`), and of what was called (`HasReported`, `specs/Reported.antt`). There is a
//! client for each line. Its log is just its calls, with the places and replies that it was told; these and the feeder's batches
//! are the histories of the locks, which the report tells; at the end it owns no node. The calls are those that the requests on
//! the line ask for (`HasAnsweredAll` of `seats`). There is a script whose commands are those that the requests spell, with a
//! close behind them for each node that was closed; where no call found memory wanting, histories and outcomes are those of a run
//! of it (`IsRunOf`). The clock was read for each batch behind the bytes of its packets (`IsTimed`), and for a call behind its
//! request. `HasServedLines` (`specs/Journaled.antt`) says the same of `serve_to`, but for merged histories and the
//! script, and that the keepers were given just these calls and batches, as `WrittenLines` writes them (`specs/Lines.antt`).
//! `TooLong` comes only where 4,294,967,296 bytes were read at least, `Failed` where the sink's count of faults rose; `NoMemory`
//! has no cause. In the first and the last nothing is written.
//!
//! What stays open: that a server ends, and when it takes a request. Over a stream and lines that tell no content, as standard
//! input and pipes tell none, the clauses say nothing of what was asked.
#![tactic(auto)]

mod journals;
mod rung;
mod server;
mod written;

pub use journals::{Handed, serve_to};
pub use rung::{Ears, Rung};
pub use server::{NoReport, serve};
pub use written::{WrittenLines, write_head};
