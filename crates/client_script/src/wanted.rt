// What the places of a line ask for, and the fault of a word that isn't that.
ghost use Rattle.std.specs.Prelude.{◌≡◌, ◌<◌, ◌-◌, ◌^◌};
ghost use Rattle.client_script.specs.Grammar.{fault_in};

use crate::fault::{FaultKind, FaultyWord, ScriptFault};

/// What a number of a command is called.
#[derive(Clone, Copy, Debug, PartialEq, Eq, Drop)]
pub enum NumberName {
    /// A PID.
    Pid,
    /// A timeout in milliseconds.
    Timeout,
    /// The flags of a filter.
    Flags,
    /// The type of a PES filter.
    PesType,
    /// How many packets, milliseconds or bytes.
    N,
}

/// What a place of a line asks for.
#[derive(Clone, Copy, Debug, PartialEq, Eq, Drop)]
pub enum WantedWord {
    /// `feed`, `tick` or a client.
    First,
    /// The name of a command.
    Command,
    /// A target.
    Target,
    /// The only target of a write.
    Dvr,
    /// The bytes of a write.
    Written,
    /// A number in a range.
    Number {
        /// What it is called.
        name: NumberName,
        /// The least one.
        least: u32,
        /// The greatest one.
        most: u32,
    },
    /// Where packets come from.
    Input,
    /// Where items go.
    Output,
    /// A byte of a section filter, whose place in the filter is at least this one.
    Byte(u32),
    /// The number of a request.
    Request,
    /// The argument of the request of this number.
    Argument(u32),
    /// No word: the line ends here.
    End,
}

/// What is wrong with a word, and what its place asks for.
#[derive(Clone, Copy, Debug, PartialEq, Eq, Drop)]
pub struct WordFault {
    pub kind: FaultKind,
    pub wanted: WantedWord,
}

impl WantedWord {
    /// A fault of this kind in such a place.
    pub fn fault(self, kind: FaultKind) -> WordFault
        ensures { result ≡ record { kind = kind; wanted = self } }
    {
        WordFault { kind, wanted: self }
    }
}

impl WordFault {
    /// This fault in the line of this number, of which so many words were read.
    pub fn in_line(self, line: u32, read: usize) -> ScriptFault
        requires { read < 2 ^ 64 - 1 }
        ensures { result ≡ fault_in line read self }
    {
        let number = match self.kind {
            FaultKind::Count => read + 1,
            _ => read,
        };
        ScriptFault {
            line,
            kind: self.kind,
            word: Some(FaultyWord {
                number,
                wanted: self.wanted,
            }),
        }
    }
}
