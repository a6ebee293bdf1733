//! Seats: each answers the requests of programs that come one after another, on the nodes of the adapter.
//!
//! A seat is a client of the adapter with a line, from which requests of 76 bytes come and to which the replies go, heads of 24
//! bytes and what was read (`serve_frames`; `dmx_abi` reads an ioctl's structure). Behind each request it hands its calls to a
//! `Journal`: `KeptJournal` keeps them in memory, `Forgotten` nothing. Where the line ends or fails, the seat closes all nodes
//! that its program has. `sit_all` gives each seat a thread.
//!
//! What a contract sees: a request as its bytes, which `ask_of` says to be an `Ask`; a `Tell` as its fields; a seat as its client
//! and its log. `IsAnsweredBy` (`specs/Answered.antt`) is the table of the requests: which commands of a script are done for
//! each, and what is told. `HasAnsweredAll` (`specs/Turns.antt`) says it of a line, `HasServed` of a seat and its journal.
//!
//! What is proved, whatever comes on the lines and however the threads fall: `Ask::of` is what the definition says of any 76
//! bytes, and what is told is read again (`written_and_read`). The requests are answered in their order up to the line's end or
//! the first read or write that fails, each by the calls of the table, at a moment that the clock may give behind the request, or,
//! unless it is to leave, for want of memory by none; the bytes written are the reply of the call whose place they name. A request to leave is always done, and a seat that has served
//! its line owns no node (`GivesBack`). The journal was given just these calls and what became of the commands; a script's client
//! makes the same calls (`lines_are_played`).
//!
//! What is only tested, in `tests_runs`: that errors have Linux's numbers. Limits: 2^40 calls, of which 66 are kept for leaving. No clause says that a seat ends, nor when it takes a request.
#![tactic(auto)]

mod answers;
mod handing;
mod journal;
mod laws;
mod made;
mod making;
mod run;
mod seat;
mod serve;
pub mod serve_frames;

pub use answers::Answered;
pub use journal::{Forgotten, Journal, JournalLine, KeptJournal};
pub use laws::lines_are_played;
pub use made::Made;
pub use making::desks_of;
pub use run::{Desk, Sitting, sit_all};
pub use seat::{HandedOver, MOST_CALLS, Seat};
