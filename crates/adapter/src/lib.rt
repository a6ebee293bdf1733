//! The adapter: 32 demux nodes and the dvr node, each under a lock of its own, with a feeder and clients that share them.
//!
//! The nodes are named 0 to 31, and 32 for the dvr node. Caller 0 is the feeder, which passes batches and the stream's end;
//! caller `c + 1` is client c, which makes the calls of a program on its own thread. Each has a pass of each node's lock.
//!
//! What a contract sees: the adapter as a list of 33 locks, and a feeder or client as its number, how many calls it may make, and
//! its passes; a pass is its lock and what it knows (`View` of node_lock). A history is the list of a node's entries, the oldest
//! first.
//!
//! What is proved: each call is one entry on its node, at the place that is answered, behind what the caller had seen there, and
//! its answer is one that the history allows. The caller's own calls grow by just that one, and no other pass is changed. `feed`
//! makes on each node that it is told one Pass of the whole batch, `end` one End, both answered Passed, and no call on another.
//! `try_call` waits for nobody. After `gather` or `finish` each node has one legal history, with just the calls of the feeder and
//! the clients, each at the place that was told. In `histories` each node has just the entries that the logs have on it, in the
//! order of their places (`AreByPlace`); where the logs name no place twice and none beyond the end, each entry stands at its
//! place.
//!
//! What is only tested: that reports of threads are right, as the command check finds (`tests_runs`), and a second
//! program beside it. Neither: that a wait ends, fairness, time, in which order calls of two callers come. Limits: 8 clients,
//! 2^44 calls of the feeder and 2^40 of each client. The sort of `histories` (`trace_merge`) is linear in the entries.
#![tactic(auto)]

mod adapter;
mod boxed;
mod client;
mod ending;
mod feeder;
mod making;
mod passes;
mod rows;
pub mod trace_merge;

pub use adapter::{Adapter, Finished};
pub use client::Client;
pub use feeder::Feeder;
