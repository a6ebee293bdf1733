//! The clients of a script: what each calls next, by the replies that it has got, with the clocks that it reads and what it
//! plays.
//!
//! What a contract sees: a `ClientCore` as the record `Core` of `specs/Inside/Core.antt`, which holds no history; `IsAfter` says
//! that it stands after these replies to this client of the script. The definitions are functions of the script and of the
//! replies alone: `first`, `after` and `done` (`specs/Steps.antt`), `progress`, `next_event`, `waits_on` (`specs/Events.antt`),
//! `stc`, `outcomes`, `played_writes`, `repeats`. `HasFollowed` says what `stc_clock` keeps of bytes, `HasPlayed` what `dvr_play`
//! keeps of writes.
//!
//! What is proved: `new` stands after no replies, `take` after one reply more (`HasTaken`); `next`, `next_at`, `line`, `waits`
//! and `outcomes` are what the definitions say. `call_of` and `call_of_want` make the call that is asked for. However bytes come
//! in pieces, a clock's `value` is that of all that were pushed since `new` or `clear`, and the writes' batches joined are the
//! packets of all their bytes (`plays_law`). Laws: a client makes at most 33 calls a command beside the reads that it repeats
//! (`calls_are_few`), and one reply more repeats at most one read more (`one_reply_repeats_once`); its passes on a node are, in
//! order and each once, the batches of its writes whose poll was Ready and which complete a packet (`writes_pass_their_batches`).
//!
//! What is only tested, in `tests_text`: that ample memory is enough, and a clock, by packets written by hand and one of ffmpeg.
//! Limits: a write has at most 12,032 bytes; the crates above stop a client after `MOST_CALLS` calls. The commands are this
//! project's own.
#![tactic(auto)]

mod call;
mod client;
mod clocks;
mod command;
mod current;
pub mod dvr_play;
mod event;
pub mod examples;
mod laws;
mod reply;
pub mod stc_clock;
mod stop;
mod task;

pub use call::{call_of, call_of_want};
pub use client::ClientCore;
pub use event::{ClientRequest, Event};
pub use laws::{calls_are_few, one_reply_repeats_once, writes_pass_their_batches};
pub use reply::unless_no_memory;
pub use stop::{MOST_CALLS, Stop};
