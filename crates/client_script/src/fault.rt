// Why a script isn't read.
ghost use Rattle.std.specs.Prelude.{◌≡◌};
ghost use Rattle.client_script.specs.declared.fault.ScriptError.TheVariants.{NoMemory as WantOfMemory};

use crate::wanted::WantedWord;
use std::alloc::{AllocError, AllocFailed};
use thiserror::Error;

/// What a script's first fault is. Its text is its name, as the program tells it on standard error.
#[derive(Clone, Copy, Debug, PartialEq, Eq, Drop, Error)]
pub enum FaultKind {
    /// The first word is none of `feed`, `tick` and `c0` to `c7`.
    #[error("client")]
    Client,
    /// The second word is no command.
    #[error("command")]
    Command,
    /// A word in the place of a target is none, or is another than `dvr` where a client writes.
    #[error("target")]
    Target,
    /// A word in the place of a number is none, or one out of range.
    #[error("number")]
    Number,
    /// A word in the place of an input or an output is no name of one.
    #[error("name")]
    Name,
    /// A word in the place of bytes spells none, or not as many as are asked for; or in the place of a filter's byte it names
    /// a place that isn't above the one before.
    #[error("bytes")]
    Bytes,
    /// A word is missing, or there is one too many.
    #[error("count")]
    Count,
    /// No line is `stream`.
    #[error("nostream")]
    NoStream,
}

/// The word at a fault of a line.
#[derive(Clone, Copy, Debug, PartialEq, Eq, Drop)]
pub struct FaultyWord {
    /// Its number in the line, from 1 on; where a word is missing, the number that it would have.
    pub number: usize,
    /// What its place asks for.
    pub wanted: WantedWord,
}

/// A script's first fault, the number of its line, and the word.
#[derive(Clone, Copy, Debug, PartialEq, Eq, Drop, Error)]
#[error("script line {line}: {kind}")]
pub struct ScriptFault {
    /// The line, from 1 on; for `NoStream` the line behind the last whole one.
    pub line: u32,
    /// What is wrong.
    pub kind: FaultKind,
    /// The word; None for `NoStream`, which is the fault of no line.
    pub word: Option<FaultyWord>,
}

/// Why a script isn't read.
#[derive(Clone, Copy, Debug, PartialEq, Eq, Drop, Error)]
pub enum ScriptError {
    /// The script has a fault.
    #[error(transparent)]
    Fault(ScriptFault),
    /// Memory was refused.
    #[error("out of memory")]
    NoMemory,
}

impl From<AllocError> for ScriptError {
    ghost from_gives = { λ _ e. e ≡ WantOfMemory };

    fn from(_e: AllocError) -> ScriptError {
        ScriptError::NoMemory
    }
}

impl<T: Drop> From<AllocFailed<T>> for ScriptError {
    ghost from_gives = { λ _ e. e ≡ WantOfMemory };

    fn from(_e: AllocFailed<T>) -> ScriptError {
        ScriptError::NoMemory
    }
}
