//! Calls and replies of the demux nodes and the dvr node, and the definitions of what a node's history says.
//!
//! What a contract sees: a node as its history alone, the list of its calls with their responses. The definitions begin with
//! plain data (`Invocation`, `Response`, `History`), and go on to what was set (`Tenure`), what is collected from a start on
//! (`Capture`), what the filter selects (`Items`, `Taps`), the bytes and what didn't fit (`Ledger`), the refusals, the answer to
//! a call, and the legal and the accounted histories. Ledger, answer, legal and accounted are written once, over the `Rules` in
//! which the two kinds of node differ. `invocation_of` and `response_of` are what contracts see of a `Call` and a `Reply`,
//! `params_of` and `pids_of` of `Params`. `Histories` are 33 lists of entries: on each node the clients' stand at their places,
//! and the feeder's calls, which are kept once, at all others (`woven`). `Act`, `Entry` and `Outcome` are what a report tells of
//! a call, of its reply and of a script's command.
//!
//! What is proved: each call of `ByteBuf` and of `Histories`; that each `name` is its text in `specs/Names.antt`; that an entry
//! keeps its call (`KeptAct`) and the same response (`SharedReply`), whatever that is shared with; that `refusal` is the refusal
//! that the answer of a history names. `node_laws` has laws of the definitions, and a worked history.
//!
//! Limits: only `ByteBuf::new`, `ByteBuf::fitted`, `KeptAct::keep`, `SharedReply::of` and `SharedReply::keep` take memory.
//! Sources: the Linux media API, Digital TV demux, for calls, filters, states and errors; ISO/IEC 13818-1 for packets and
//! sections. What these leave open is this project's rule, as are the numbers of `limits` but the flags other than KEEP, the PIDs
//! and the PES types.
#![tactic(auto)]

mod byte_buf;
mod call;
mod histories;
mod kept;
pub mod limits;
mod log;
mod node;
mod outcome;
mod params;
mod refusals;
mod reply;
mod told;

pub use byte_buf::ByteBuf;
pub use call::Call;
pub use histories::{Fed, Histories};
pub use kept::{KeptAct, KeptSection, LogReply, LogTap, SharedReply};
pub use log::{Act, BatchRange, Entry};
pub use node::{NodeKind, State};
pub use outcome::{Outcome, OutcomeKind};
pub use params::{Input, Output, Params, PesParams, SectionParams};
pub use refusals::refusal;
pub use reply::{Answer, Errno, PollError, Reply, Span, Tap, TapPids};
pub use told::Told;
