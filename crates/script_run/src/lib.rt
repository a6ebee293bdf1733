//! Runs of a script: what it means that the histories of 33 nodes are those of a run, and how many calls a client makes in it.
//!
//! No code runs here. `serial_core` runs a script on one thread, `workers` by threads, and what both leave is such a run.
//!
//! What a contract sees: `IsRun` (`specs/IsRun.antt`): each history is legal, the packets of the stream pass every node in the
//! same batches and then the end, each client has made just the calls that its commands ask for, and its passes bring what it
//! plays (`sources`). `IsWholeRun` (`specs/WholeRun.antt`) adds that each history is accounted, that batches are full, that
//! moments are the clock's, and what became of the commands. `IsSoFar` (`specs/SoFar.antt`) says it of a run that may not be
//! over, where another caller's entry stands between a read that found nothing and its repeat. `most_calls` (`specs/Budget.antt`)
//! is the most calls of a client.
//!
//! What is proved, as laws: a run so far that is over is a run (`runs_end`); each history of a run is accounted
//! (`runs_are_accounted`); at each moment of a run a client has made at most `most_calls` calls (`calls_are_paid`): at most 33 a
//! command, and beside them repeated reads, each paid for by bytes that the stream and the writes bring, or by the entry right
//! behind the read, the feeder's or a call by which no other client repeats a read. What a client writes passes each demux node
//! as the batches of those writes whose poll was answered Ready, each once and in order (`writes_pass`).
//!
//! Nothing of this crate is tested, as none of it runs. What a run is, is this project's own.
#![tactic(auto)]

mod laws;

pub use laws::{calls_are_paid, runs_are_accounted, runs_end, writes_pass};
