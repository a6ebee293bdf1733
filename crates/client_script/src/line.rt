// The lines of a script.

ghost use Rattle.std.specs.Prelude.{◌≡◌};
ghost use Rattle.client_script.specs.Spelling.{want_text, name_text};

use dmx_calls::{PesParams, SectionParams};

/// What a command is for.
#[derive(Clone, Copy, Debug, PartialEq, Eq, Drop)]
pub enum Target {
    /// A demux node, 0 to 31.
    Node(u32),
    /// The demux node that a slot of the client is bound to; the slots are 0 to 31.
    Slot(u32),
    /// The dvr node.
    Dvr,
}

/// What a client asks of a node by one call.
#[derive(Clone, Copy, Debug, PartialEq, Eq, Drop)]
pub enum Want {
    /// Takes the node, or for a slot the first one that is free.
    Open,
    /// Gives the node back.
    Close,
    /// Sets a section filter.
    Section(SectionParams),
    /// Sets a PES filter.
    Pes(PesParams),
    /// Adds a PID to a PES filter.
    Add(u16),
    /// Removes a PID from a PES filter.
    Remove(u16),
    /// Starts the filter.
    Start,
    /// Stops the filter.
    Stop,
    /// Sets the size of the buffer, in bytes.
    Size(u32),
    /// Reads at most so many bytes.
    Read(u32),
    /// Asks whether there is something to read.
    Poll,
}

impl Want {
    /// Its word in scripts.
    #[tactic(auto, unfolding(crate::specs::Spelling::want_text))]
    pub fn name(self) -> &'static str
        ensures { result.now ≡ want_text self }
    {
        match self {
            Want::Open => "open",
            Want::Close => "close",
            Want::Section(_) => "section",
            Want::Pes(_) => "pes",
            Want::Add(_) => "add",
            Want::Remove(_) => "remove",
            Want::Start => "start",
            Want::Stop => "stop",
            Want::Size(_) => "size",
            Want::Read(_) => "read",
            Want::Poll => "poll",
        }
    }
}

/// What a command asks of its node: one call, the same read again and again, a counter without a call, or that packets pass.
#[derive(Clone, Copy, Debug, PartialEq, Eq, Drop)]
pub enum Verb {
    /// One call.
    Once(Want),
    /// Reads at most so many bytes, and waits until there are some.
    ReadWait(u32),
    /// Reads at most so many bytes at a time, until there are no more.
    Drain(u32),
    /// Asks for the system time counter of this number (DMX_GET_STC), and makes no call.
    GetStc(u32),
    /// Writes to the dvr device: the write of this number among those of its client, counted from 0.
    Write(u32),
}

impl Verb {
    /// Its word in scripts.
    #[tactic(auto, unfolding(crate::specs::Spelling::name_text))]
    pub fn name(self) -> &'static str
        ensures { result.now ≡ name_text self }
    {
        match self {
            Verb::Once(want) => want.name(),
            Verb::ReadWait(_) => "readw",
            Verb::Drain(_) => "drain",
            Verb::GetStc(_) => "ioctl",
            Verb::Write(_) => "write",
        }
    }
}

/// What a line of a script asks for.
#[derive(Clone, Copy, Debug, PartialEq, Eq, Drop)]
pub enum Line {
    /// So many packets pass.
    Feed(u32),
    /// So many milliseconds go by.
    Tick(u32),
    /// A client makes a command.
    Command {
        /// The number of the line, from 1 on.
        line: u32,
        /// The client, 0 to 7.
        client: u32,
        /// What the command is for.
        target: Target,
        /// What is asked of it.
        verb: Verb,
    },
}
