//! The dvr node: the packets that the taps of the demux nodes name, read from one place.
//!
//! A demux node whose filter has the output DMX_OUT_TS_TAP (Linux media API, Digital TV demux) records by a tap of the dvr node.
//!
//! What a contract sees: the record `CoreValue` (`specs/Stands.antt`) of how many calls were made on the node, the `Facts` of
//! dmx_calls, which are what its history says to the next call, and the taps by the number of the demux node. It keeps no
//! history.
//!
//! What is proved: `new` stands for the empty history. For each history that the node stands for, the reply of `apply` is one
//! that this history allows, it comes for the cause that `Causes` names, and the node then stands for the history with that
//! entry. So a packet is recorded once however many taps name it, a Detach removes only its own client's tap, and taps outlast
//! the owner. A call that is refused, or answered want of memory, changes nothing. `pass` is the call Pass of the caller 0, over
//! a batch that it is lent. A Pass takes at most a step, which is a look at a packet, for each packet that a tap names
//! (`named_packets`), and none while the node is free; no other call takes one.
//!
//! What is only tested, by the sessions of `examples/`: that the rules are those meant, on replies worked by hand.
//!
//! Limits: fewer than 2^50 calls come before a call. Only Open and SetSize to another size take memory. Taps, owners, the spans
//! of lost and dropped bytes and the order of refusals are this project's rules.
#![tactic(auto)]

mod dvr;
mod kept;
mod record;
mod taps;
mod tenure;

pub use dvr::DvrCore;
