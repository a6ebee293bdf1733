//! What stands at a script's fault: a second line on standard error, for the one who wrote the script.
//!
//! A script's fault is a line, a kind, the number of a word and what its place asks (`client_script`). `hint` says which word
//! stands there, what was expected, and for a number in hexadecimal digits its value. A request is told by its name in
//! linux/dvb/dmx.h, also one that no node has. An input that begins with a packet in place of a script, and a script without its
//! line `stream`, have words of their own. `Keeping` is a source that keeps the first bytes that are read through it, so that a
//! script's bytes are still there when its fault is told.
//!
//! What a contract sees: of a `Keeping` the source inside: what that one has left, and its count of faults.
//!
//! What is proved: a `Keeping` reads what the source inside reads, and fails where that one fails. All else is proved to be safe
//! and to end, and no more: the second line is for a reader, and no other line hangs on it.
//!
//! What is only tested: the text for each kind of fault, by sessions of `examples/`; in `tests_text`, that a `Keeping` keeps what
//! was read.
//!
//! Limits: 1,048,576 bytes are kept at most, and none that are read behind the line `stream`. Where memory for them is
//! refused, nothing is kept from then on, and the source reads as before. Of a word at most 40 characters are shown.
//!
//! The texts are this project's own.
#![tactic(auto)]

mod keeping;
mod requests;
mod shown;
mod telling;

pub use keeping::Keeping;
pub use telling::hint;
