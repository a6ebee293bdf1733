// What became of a script's command.

/// How a command ended.
#[derive(Clone, Copy, Debug, PartialEq, Eq, Drop)]
pub enum OutcomeKind {
    /// Its calls were made.
    Done,
    /// An `open` of a slot found all demux nodes busy.
    Emfile,
    /// Its slot is bound to no node.
    Unbound,
    /// It asked for a system time counter, and its client has read one (DMX_GET_STC, `struct dmx_stc`).
    Stc {
        /// By what the value is divided for a clock of 90 kHz.
        base: u32,
        /// The counter, in units of `base` * 90 kHz.
        value: u64,
    },
    /// It asked for a system time counter, and its client has read none.
    NoStc,
}

/// A command that is through: its line, its calls among those of its client, and how it ended.
#[derive(Clone, Copy, Debug, PartialEq, Eq, Drop)]
pub struct Outcome {
    /// The number of its line.
    pub line: u32,
    /// The step of its first call.
    pub from: u64,
    /// The step after its last call; it is `from` where it made none.
    pub to: u64,
    /// How it ended.
    pub kind: OutcomeKind,
}
