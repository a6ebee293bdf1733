//! A demux node: an object on which calls are made one after another.
//!
//! What a contract sees: the record `CoreValue` of the node's number, how many calls were made on it, the `Facts` of dmx_calls,
//! which are what its history says to the next call, and what its selector keeps. It keeps no history.
//!
//! What is proved: `new` stands for the empty history. For each history that the node stands for, the reply of `apply` is one
//! that this history allows, it comes for the cause that `Causes` names, and the node then stands for the history with that
//! entry. So a refused call changes nothing, and no filter expires by it; and Done says what is to be made of the node's tap at
//! the dvr node: attach these PIDs, where a filter with DMX_OUT_TS_TAP runs after a start, a set call or a change of its PIDs;
//! detach, where such a filter ran and no longer does. After want of memory, which only Open and SetSize to another size can
//! answer, all is as before. `pass` is the call Pass of the caller 0, over a batch that it is lent. A Pass takes at most a step,
//! which is a look at a packet, for each packet that the filter's PIDs name, and none where the filter doesn't run; no other call
//! takes one.
//!
//! What is only tested, by the sessions of `examples/`: that the rules are those meant, on replies worked by hand.
//!
//! Limits: fewer than 2^50 calls come before a call. Source: the Linux media API, Digital TV demux. Owners, the spans of lost and
//! dropped bytes, one section a read, when a filter expires, and the order of refusals are this project's rules.
#![tactic(auto)]

mod filter;
mod kept;
mod node;
mod offer;
mod tap;
mod tenure;

pub use node::NodeCore;
