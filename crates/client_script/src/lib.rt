//! The script language of sessions: its grammar, and a reader of whole scripts.
//!
//! A script is lines of words up to the line `stream`, behind which the session's stream begins: how many packets pass (`feed`),
//! how much time goes by (`tick`), and what the clients `c0` to `c7` ask of the demux nodes `n0` to `n31`, of their slots `h0` to
//! `h31` and of the dvr node, by a word or by a request's number and structure (`ioctl`), or write to the dvr device (`write`).
//! Empty lines and comments (`#`) are passed over. The language is this project's own, its calls are those of `dmx_calls`, its
//! requests of `dmx_abi`.
//!
//! What a contract sees: a `Script` as a `Scripted`, its lines and the bytes of each client's writes; a fault as its line, its
//! kind, the number of its word and what the word's place asks for. `grammar` (`specs/Script.antt`) makes the lines or the first
//! fault of bytes. It stands on `meaning` of a line (`specs/Grammar.antt`). A line has one `spelling`.
//!
//! What is proved: `Script::read` answers just what `grammar` gives, unless memory is refused; lines are in the ranges of the
//! grammar, and those of a client name its writes in their order, each once (`IsScript`). `print` appends a line's spelling, and
//! leaves the bytes as they were where memory is refused. A `ScriptPart` is the bytes that were added to it; its `end` is where
//! the first whole line `stream` ends. Laws say that printed lines are read again, that nothing behind the stream is examined,
//! and where the script part ends (`laws`).
//!
//! What is only tested, in `tests_text`: that memory isn't refused where there is enough. Limits: 1,048,576 bytes are read, each
//! a few times, and a write has 1 to 12,032. Memory is taken for the lines, writes, a script part and a printed text.
#![tactic(auto)]

pub mod examples;
mod fault;
mod laws;
mod line;
mod names;
mod part;
mod pieces;
mod places;
mod requests;
mod said;
mod script;
mod spelling;
mod verbs;
mod wanted;
mod words;
mod writes;

pub use fault::{FaultKind, FaultyWord, ScriptError, ScriptFault};
pub use laws::{
    each_write_has_its_line, nothing_behind_the_stream_is_examined, printed_lines_are_read_again,
    the_script_part_ends_with_its_line_stream, without_a_line_stream_all_bytes_are_the_script_part,
};
pub use line::{Line, Target, Verb, Want};
pub use part::ScriptPart;
pub use requests::{Argument, argument_named, request_number, want_of};
pub use script::{MOST_BYTES, Script};
pub use spelling::print;
pub use wanted::{NumberName, WantedWord};
