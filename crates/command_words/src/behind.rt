// The words behind the first, command by command.
ghost use Rattle.std.specs.Prelude.{◌≡◌, ◌≤◌, IfOk, IfSome, map, string_bytes};
ghost use Rattle.command_words.specs.Meant.{IsInRange, check_of, make_of, options_of, run_of, self_test_by, self_test_of, session_number as number_of_word, steps_of};

use crate::Command;
use crate::options::options_in;
use std::alloc::{AllocError as NoMemory, Global};
use text_forms::number_between;

/// Behind `steps`.
#[tactic(auto, unfolding(crate::specs::Meant::steps_of))]
pub fn steps(alloc: Global, rest: &[String]) -> Result<Option<Command>, NoMemory>
    ensures value { IfOk result (λ command. command ≡ steps_of (map string_bytes rest.now)) }
    ensures range { IfOk result (λ command. IfSome command IsInRange) }
{
    match options_in(alloc, rest)? {
        Some(options) => Ok(Some(Command::Steps {
            batch: options.batch(),
            packet: options.packet(),
        })),
        None => Ok(None),
    }
}

/// Behind `run`.
#[tactic(auto, unfolding(crate::specs::Meant::run_of))]
pub fn run(alloc: Global, rest: &[String]) -> Result<Option<Command>, NoMemory>
    ensures value { IfOk result (λ command. command ≡ run_of (map string_bytes rest.now)) }
    ensures range { IfOk result (λ command. IfSome command IsInRange) }
{
    match options_in(alloc, rest)? {
        Some(options) => Ok(Some(Command::Run {
            batch: options.batch(),
            packet: options.packet(),
        })),
        None => Ok(None),
    }
}

// The number of a session.
#[tactic(auto, unfolding(crate::specs::Meant::session_number))]
fn session_number(word: &String) -> Option<u64>
    ensures { result ≡ number_of_word (string_bytes word.now) }
{
    number_between(0, u64::MAX, word.as_bytes())
}

/// Behind `make`.
#[tactic(auto, unfolding(crate::specs::Meant::make_of))]
pub fn make(rest: &[String]) -> Option<Command>
    ensures value { result ≡ make_of (map string_bytes rest.now) }
    ensures range { IfSome result IsInRange }
{
    match rest {
        [word] => match session_number(word) {
            Some(number) => Some(Command::Make { number }),
            None => None,
        },
        _ => None,
    }
}

// A number and the words of the options, of which `selftest` has both.
#[tactic(auto, unfolding(crate::specs::Meant::self_test_by))]
fn self_test_with(
    alloc: Global,
    word: &String,
    option: &[String],
) -> Result<Option<Command>, NoMemory>
    ensures value { IfOk result (λ command. command
        ≡ self_test_by (number_of_word (string_bytes word.now)) (options_of (map string_bytes option.now))) }
    ensures range { IfOk result (λ command. IfSome command IsInRange) }
{
    let Some(number) = session_number(word) else {
        return Ok(None);
    };
    match options_in(alloc, option)? {
        Some(options) if options.packet.is_none() => Ok(Some(Command::SelfTest {
            number,
            batch: options.batch(),
        })),
        _ => Ok(None),
    }
}

/// Behind `selftest`: the number stands before the option or behind it.
pub fn self_test(alloc: Global, rest: &[String]) -> Result<Option<Command>, NoMemory>
    ensures value { IfOk result (λ command. command ≡ self_test_of (map string_bytes rest.now)) }
    ensures range { IfOk result (λ command. IfSome command IsInRange) }
{
    if let [word, option @ ..] = rest {
        let first = self_test_with(alloc, word, option)?;
        if first.is_some() {
            return Ok(first);
        }
    }
    if let [option @ .., word] = rest {
        return self_test_with(alloc, word, option);
    }
    Ok(None)
}

/// Behind `check`.
#[tactic(auto, unfolding(crate::specs::Meant::check_of))]
pub fn check(alloc: Global, rest: &[String]) -> Result<Option<Command>, NoMemory>
    ensures value { IfOk result (λ command. command ≡ check_of (map string_bytes rest.now)) }
    ensures range { IfOk result (λ command. IfSome command IsInRange) }
{
    match options_in(alloc, rest)? {
        Some(options) if options.batch.is_none() => Ok(Some(Command::Check {
            packet: options.packet(),
        })),
        _ => Ok(None),
    }
}
