//! The run of a script on one thread: its lines done in their order on 32 demux nodes and the dvr node, over a stream that is
//! pulled as it is wanted.
//!
//! A command is done to its end. Where its client waits, a batch passes, or the end of the stream, before the read is repeated.
//! Behind the last line the rest of the stream passes, and then its end, once.
//!
//! What a contract sees: the serial run (`IsSerialRun`, `specs/SerialRun.antt`), a relation between a script, the size of a
//! batch, the packets of a stream and a `Run`. It runs no node: each reply in it is the answer that the history of its node
//! gives, and each call of a client is the one that `client_core` names by the replies before.
//!
//! What is proved: `run_steps` gives the histories, the outcomes and the head of the serial run of the stream: what stood ahead
//! in the puller, and the bytes that were taken. A read failed just where the source's count of faults rose, and then nothing
//! more was read; else the source has nothing left. `TooLong` comes only where so many reads were made, or where the commands and
//! the bytes allow a client so many calls. Laws: each script and stream have a serial run (`every_script_has_a_serial_run`), and
//! only one (`the_serial_run_is_one`); it is a run as `script_run` says it (`the_serial_run_is_a_run`), and no client makes more
//! calls than the budget allows (`clients_are_within_budget`).
//!
//! What is only tested, by the sessions of `examples/`: that ample memory is enough. The order of the lines is this project's
//! own.
#![tactic(auto)]

mod command;
mod laws;
mod line;
mod node;
mod nodes;
mod run;
mod runner;
mod seat;

pub use laws::{
    clients_are_within_budget, every_script_has_a_serial_run, the_serial_run_is_a_run,
    the_serial_run_is_one,
};
pub use run::{Left, run_steps};
