//! The words of the command line: which command they name.
//!
//! What a contract sees: the words as lists of bytes. `meant` (`specs/Meant.antt`) says which command they name, by plain cases:
//! `steps` and `run` alone or with the options `--batch` and `--packet`, `check` with `--packet`, `make` and `selftest` with a
//! number, `selftest` with `--batch` too. All other words are refused, and so are a repeated option, `--help` and `--`.
//!
//! What is proved: `read_words` answers what `meant` says, and a batch has 1 to 64 packets. Where memory is refused it says so,
//! and takes no words for others. The crate `clap` reads the words of the options; the proof goes by clap's own definitions of
//! what it finds (`matches_of`) and of what it refuses (`fault_of`). The code refuses the word `--` before clap sees it.
//!
//! What is only tested, in `tests_text`: that ample memory is enough. The rules are this project's own.
#![tactic(auto)]

ghost use Rattle.std.specs.Prelude.{◌≡◌, IfOk, IfSome, map, string_bytes};
ghost use Rattle.command_words.specs.Meant.{IsInRange, command_of, meant};

mod behind;
mod options;

use behind::{check, make, run, self_test, steps};
use std::alloc::{AllocError as NoMemory, Global};
use text_forms::is_word;
use ts_packet::PacketSize;

/// What the words of the command line ask for.
#[derive(Clone, Copy, Debug, PartialEq, Eq, Drop)]
pub enum Command {
    /// A session step by step in one thread, in batches of so many packets, 1 to 64, over a stream whose packets take up
    /// so many bytes each.
    Steps { batch: u32, packet: PacketSize },
    /// A session by threads, in batches of so many packets, 1 to 64, over a stream whose packets take up so many bytes each.
    Run { batch: u32, packet: PacketSize },
    /// The session of a number.
    Make { number: u64 },
    /// The sums of the run of a number's session, step by step in one thread, in batches of so many packets, 1 to 64.
    SelfTest { number: u64, batch: u32 },
    /// Whether a report is one of a session whose stream has packets that take up so many bytes each.
    Check { packet: PacketSize },
}

// The command of a first word and the words behind it.
#[tactic(auto, unfolding(crate::specs::Meant::command_of))]
fn command_by(alloc: Global, first: &[u8], rest: &[String]) -> Result<Option<Command>, NoMemory>
    ensures value { IfOk result (λ command. command ≡ command_of first.now (map string_bytes rest.now)) }
    ensures range { IfOk result (λ command. IfSome command IsInRange) }
{
    if is_word(first, "steps") {
        return steps(alloc, rest);
    }
    if is_word(first, "run") {
        return run(alloc, rest);
    }
    if is_word(first, "make") {
        return Ok(make(rest));
    }
    if is_word(first, "selftest") {
        return self_test(alloc, rest);
    }
    if is_word(first, "check") {
        return check(alloc, rest);
    }
    Ok(None)
}

/// The command that the words behind the program's name mean; None where they are refused.
///
/// Err where memory is refused. The rules are this project's own.
#[tactic(auto, unfolding(crate::specs::Meant::meant))]
pub fn read_words(alloc: Global, words: &[String]) -> Result<Option<Command>, NoMemory>
    ensures value { IfOk result (λ command. command ≡ meant (map string_bytes words.now)) }
    ensures range { IfOk result (λ command. IfSome command IsInRange) }
{
    match words {
        [first, rest @ ..] => command_by(alloc, first.as_bytes(), rest),
        _ => Ok(None),
    }
}
