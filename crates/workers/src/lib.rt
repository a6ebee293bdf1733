//! Runs of a script by threads, over the adapter's 33 locked nodes.
//!
//! `work` does each client's commands on a thread of its own, while the feeder passes the stream in batches, and then its end,
//! through the nodes that the script can name. `histories_of_run` ends the adapter and puts all calls in the order of their
//! places. `FeederWorker` is the feeder alone.
//!
//! What a contract sees: a caller's log as a list. `IsLogged` ties it to what the caller's passes know; `HasCalled` says that a
//! client's calls are those that the script's commands ask for by the replies before them, `HasFed` that the feeder's batches are
//! the packets of a stream in their order; `AreWorked` says both of all callers, `IsLeftBy` of what `work` leaves.
//!
//! What is proved, in whatever order the threads act: `work` leaves what `IsLeftBy` says, over what stood ahead in the puller and
//! the bytes taken. `TooLong` comes only for so many reads, or where commands and bytes allow a client so many calls; none makes
//! more (`calls_are_within_budget`). The feeder reads the clock for a batch behind its packets (`IsReadBehind`), and ends its nodes
//! (`HasEnded`); each client's call is on a node that `is_named` names (`calls_are_on_named_nodes`). `histories_of_run` tells just what was called, each call at its place with its reply
//! (`TellWhatWasCalled`); of what `work` leaves (`workers_have_called`) they are the histories of a run of the script
//! (`IsWholeRun` of `script_run`).
//!
//! What is only tested: that threads run beside each other, that each moment is a reading of its own, and the calls of the gate.
//! What is neither: that a wait ends; where no thread can be made, a client may wait for ever. Limits: 8 clients, batches of at
//! most 64 packets, 549,755,813,888 calls of a client. The work of threads is this project's own.
#![tactic(auto)]

mod batches;
mod client_worker;
mod clients;
mod ending;
mod feeder_worker;
mod laws;
mod left;
mod moment;
mod run;
pub mod script_nodes;
mod threads;

pub use batches::Batches;
pub use ending::histories_of_run;
pub use feeder_worker::FeederWorker;
pub use laws::{
    calls_are_within_budget, few_bytes_are_few_calls, many_calls_are_too_long, workers_have_called,
};
pub use left::LeftByThreads;
pub use run::work;
