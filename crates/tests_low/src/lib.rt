//! Tests of what a stream, a section, a filter and a request are made of, in one crate above them. It has nothing but tests.
//!
//! They are those that neither a clause says as an equation nor a session of `examples/` shows: what a definition is worth
//! against values from outside, each call that takes memory once at the size where its user is, ends that fail and tell what is
//! left.
//!
//! What is proved: that the tests are safe and end; and, of a small caller of `feed_pull`, that it counts all packets of its
//! source (`tests/streams`). What is only tested: a packet's fields (`ts_packet`, `tests/packets`); the CRC, masked bits, filters
//! by hand, and sections that are found and selected (`section_crc`, `filter_match`, `section_parse`, `item_select`,
//! `tests/sections`); structures as a program in C has written them (`dmx_abi`, `tests/requests`); batches, sets of PIDs, and
//! pulls of a stream, one with a read that fails and one whose reads were all made (`ts_batch`, `pid_set`, `feed_pull`,
//! `ts_watch`, `tests/streams`); the words and the packets of a session that is made (`ts_make`, `tests/making`); and the
//! standard ends (`emu_io`, `tests/ends`).
#![tactic(auto)]

#[cfg(test)]
mod tests;
