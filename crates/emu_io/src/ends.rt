// The ends of a program: its words, standard input and output, and the machine's clock.
ghost use Rattle.std.specs.Prelude.{◌≡◌, IfOk};

use crate::{StdClock, StdSink, StdSource};
use std::env;
use std::io::ErrorKind;
use thiserror::Error;

/// Why the words of a command line can't be had.
#[derive(Clone, Copy, Debug, PartialEq, Eq, Drop, Error)]
pub enum NoWords {
    /// Memory was refused.
    #[error("out of memory")]
    NoMemory,
    /// A word is no text.
    #[error("a word is no text")]
    NoText,
}

/// What a program stands between: the words of its command line behind its name, standard input, standard output, and the
/// machine's clock.
#[derive(Drop)]
pub struct Ends {
    /// The words behind the program's name.
    pub words: Vec<String>,
    /// Standard input.
    pub source: StdSource,
    /// Standard output.
    pub sink: StdSink,
    /// The machine's clock.
    pub clock: StdClock,
}

// The words behind the program's name.
fn words_of(rt: &HostRuntime) -> Result<Vec<String>, NoWords> {
    match env::args(rt) {
        Ok(all) => all
            .skip(1)
            .collect(rt.alloc())
            .map_err(|_| NoWords::NoMemory),
        Err(error) if error.kind() == ErrorKind::OutOfMemory => Err(NoWords::NoMemory),
        Err(_) => Err(NoWords::NoText),
    }
}

impl Ends {
    /// The ends of the program that has this runtime. No read and no write has failed.
    pub fn of(rt: &HostRuntime) -> Result<Ends, NoWords>
        ensures { IfOk result (λ ends. (ends.source ≡ 0) × (ends.sink ≡ 0)) }
    {
        Ok(Ends {
            words: words_of(rt)?,
            source: StdSource::new(rt.stdin()),
            sink: StdSink::new(rt.stdout()),
            clock: StdClock::new(rt),
        })
    }
}
