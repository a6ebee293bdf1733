//! Spellings: the words that the script, the report and the command line have in common, each with its reading and its writing
//! side.
//!
//! The forms are numbers in decimal digits, bytes in two lower-case hexadecimal digits and words of them, the words of inputs and
//! outputs, the names of clients, slots and nodes, and the words `I=FF/MM/DD` for the places of a section filter. They are this
//! project's own.
//!
//! What a contract sees: a word as the list of its bytes. Each form has a definition of what is written (`number`: std's
//! `decimal`; `hex_text`; `client_text`; `filter_text`; ..) and one of what is read (`number_between`, `hex_byte`,
//! `client_named`, `place_named`; ..). A reading side answers None where a word isn't that spelling: a number has no sign and no
//! zero before other digits.
//!
//! What is proved: each function answers what its definition says. A writing side appends just its text, and leaves the bytes as
//! they were where memory is refused. It takes no room away, appends no more bytes than its `Appended` names, and can't fail
//! where there is room for so many. Reading a spelling gives its value again, by the laws `numbers_are_read_again`,
//! `bytes_are_read_again`, `words_are_read_again`, `script_names_are_read_again`, `report_names_are_read_again`,
//! `places_are_read_again` and `filters_are_read_again`.
//!
//! What is only tested, by the reports of `examples/`: that memory isn't refused where there is enough. Cost: a writing side asks
//! for room once. Numbers are written by `itoa`, bytes by two digits each.
#![tactic(auto)]

mod hex;
mod laws;
mod names;
mod number;
mod places;
mod room;
mod words;

pub use hex::{hex_byte, hex_bytes, write_hex, write_hex_byte};
pub use laws::{
    bytes_are_read_again, filters_are_read_again, numbers_are_read_again, places_are_read_again,
    report_names_are_read_again, script_names_are_read_again, words_are_read_again,
};
pub use names::{
    client_named, demux_named, node_named, slot_named, who_named, write_client, write_demux,
    write_node, write_slot, write_who,
};
pub use number::{number_between, write_decimal};
pub use places::{place_named, write_filter};
pub use words::{input_named, is_word, output_named, write_input, write_output};
