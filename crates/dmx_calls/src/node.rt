// The kinds of node and the states of a demux node.

/// The two kinds of node.
#[derive(Clone, Copy, Debug, PartialEq, Eq, Drop)]
pub enum NodeKind {
    /// A demux node, which has one filter.
    Demux,
    /// The dvr node, which records what the demux nodes tap.
    Dvr,
}

/// The states of a demux node.
#[derive(Clone, Copy, Debug, PartialEq, Eq, Drop)]
pub enum State {
    /// Nobody has it open.
    Free,
    /// It is open, and no filter was set.
    Allocated,
    /// A filter is set and doesn't run.
    Set,
    /// The filter runs.
    Go,
    /// A one-shot filter has had its section.
    Done,
    /// No section came before the timeout.
    TimedOut,
}
