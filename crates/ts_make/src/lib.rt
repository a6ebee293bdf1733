//! A large session from a number: a script of eight clients and a stream of 65,536 packets.
//!
//! `session` makes it. Of each word of a generator (PCG32, with the number as its state and stream 54) comes one packet: of video
//! or audio, a section of PID 0 or 512, or a null packet. The stream has neither breaks nor duplicates.
//!
//! What is proved: the bytes are `made` of the number, for each of the 2^64 numbers (`specs/Made.antt`): the script's text and
//! each packet's bytes by its place, its word and how many packets of its PID stand before it. The generator's words are those of
//! `rand_pcg`'s definition, and the sections' CRC is `section_crc`'s.
//!
//! What is only tested, in `tests_low`: that the generator's words are those that others have, by the first words of the
//! reference generator's example and by packets that a small program apart worked out. Limits: 12,320,768 bytes of packets stand
//! behind the script; the room is taken once. The session is this project's own.
#![tactic(auto)]

mod counters;
mod kind;
mod making;
mod packet;
mod script;

pub use making::session;
