//! The requests of the demux device as a program makes them: a request number and the bytes of its argument.
//!
//! They are those of linux/dvb/dmx.h on the usual ABI, lowest byte first. `decode` reads a number and the bytes of its structure
//! as a `Request`, and `encode` writes a `Request` as both. DMX_SET_BUFFER_SIZE takes the size itself in place of a structure;
//! here it has the size's four bytes, which is this project's rule. The `numbers` are named as in the header.
//!
//! What a contract sees: a request as its variant with its fields, an argument as the list of its bytes. `Spells` in
//! `specs/Layout.antt` is the table: a row a request, which says where in the argument each field stands.
//!
//! What is proved: `decode` answers a request exactly where the number and the argument spell it, `Unknown` exactly where no
//! request has the number, and `Length` exactly where one has it and its argument has another length, which `argument_len` tells.
//! Bytes that no field has make no difference. `encode` writes the argument, with 0 behind it. Laws: a number and an argument
//! spell one request at most (`one_request_is_spelled`); what is written of a request spells it
//! (`what_is_written_spells_the_request`), and is read as that request (`written_and_read`). The numbers are made as the header
//! makes them (`examples::numbers`).
//!
//! What is only tested, in `tests_low`: that numbers, lengths and places are the header's, by bytes that a program in C wrote;
//! the gate compares the table with the header where there is one. Limits: no memory is taken; DMX_GET_PES_PIDS,
//! the requests for mapped buffers and those of other devices are `Unknown`.
#![tactic(auto)]

pub mod examples;
mod laws;
pub mod numbers;
mod reader;
mod request;
mod writer;

pub use laws::{one_request_is_spelled, what_is_written_spells_the_request, written_and_read};
pub use reader::{argument_len, decode};
pub use request::{AbiFault, Request};
pub use writer::encode;
