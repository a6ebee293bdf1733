//! Reports checked: whether a report is the right one of a run of its session, and what is wrong with it.
//!
//! `first_fault` reads a report, compares its head with the stream's, walks each client's entries by what its commands ask
//! (`walk_check`), and makes the calls of each node that is shown once more, on a node of its own (`history_check`). `check` says
//! whether it finds nothing.
//!
//! What a contract sees: the report as the list of its bytes, the script as what it says, the stream's packets as lists of bytes,
//! and the head as a record. `IsRightReport` (`specs/Right.antt`): the bytes are a report of this head, the histories for which
//! it stands (`completed`: on a node that it doesn't show the feeder was alone) are those of a run of the script, and it tells
//! what became of each command. `queues_in` are a client's entries on each node; `IsRest`: in some order they are what it calls.
//!
//! What is proved: `check` answers true, and `first_fault` None, exactly where the report is right, for this head and some run of
//! the script over these packets, in batches of at most 64 and at any moments. `first_other_reply` answers None exactly where a
//! told history is legal by the machine's rules and no reply is want of memory, `is_walked` exactly where a client has done what
//! its commands ask. A report is that of a run exactly where it is right (`right_are_of_runs`). Where memory is refused, all say
//! so.
//!
//! What is only tested, by `examples/rows`: which line and kind `first_fault` tells and what it expects there (`Expected`), and
//! that reports worked out by hand are right. The time is linear in the report, the packets that its nodes are passed and the
//! bytes of writes; memory holds what was read, and the packets that clients play. How a report is checked is this project's own.
#![tactic(auto)]

mod client;
mod expected;
mod fault;
mod fed;
mod feeder;
mod forms;
mod head;
pub mod history_check;
mod line;
mod node;
mod play;
mod played;
mod report;
pub mod report_runs;
mod stop;
mod text;
pub mod walk_check;

pub use expected::Expected;
pub use fault::{Fault, ReportFaultKind};
pub use report::{check, first_fault};
