//! Tests of texts and of the clients of a script, in one crate above them. It has nothing but tests.
//!
//! They are those that neither a clause says as an equation nor a session of `examples/` shows: tables against values from
//! outside, each call that takes memory once at the size where its user is, the longest script, write and report, ends that fail.
//!
//! What is proved: that the tests are safe and end. What is only tested: the clock of a packet (`client_core`, `tests/clocks`);
//! the first fault of a script, its line and its word, lines as they are printed, the longest script (`client_script`), and what
//! a source keeps of a script though a read fails (`fault_hints`), in `tests/scripts`; that a client, its batches and its replies
//! take no more memory than they need (`client_core`, `tests/clients`); the words of a command line (`command_words`) and the
//! longest report, written in pieces, with a write that fails, and read (`report_text`, `report_read`), in `tests/reports`.
#![tactic(auto)]

#[cfg(test)]
mod tests;
