// What is wrong with a report.
use crate::expected::Expected;
use thiserror::Error;

/// What is wrong in a line of a report. Its text is its name, as the program tells it on standard error.
#[derive(Clone, Copy, Debug, PartialEq, Eq, Drop, Error)]
pub enum ReportFaultKind {
    /// The bytes are no report.
    #[error("text")]
    Text,
    /// The head is another than the stream's.
    #[error("head")]
    Head,
    /// An entry can't stand there: its caller is no client of the script, or its call can't be made.
    #[error("place")]
    Place,
    /// The feeder doesn't pass the stream's packets, or not as on the first node.
    #[error("feeder")]
    Feeder,
    /// A reply isn't the one that the entries before it give.
    #[error("reply")]
    Reply,
    /// A call isn't the one that its client's commands ask for.
    #[error("call")]
    Call,
    /// An entry is left that nobody asked for.
    #[error("left")]
    Left,
    /// What became of the commands is another, or the clients are more or fewer.
    #[error("outcome")]
    Outcome,
}

/// What is wrong with a report. The line is counted from 1. What the rules give there is left out where nothing can be named.
#[derive(Clone, Copy, Debug, PartialEq, Eq, Drop, Error)]
#[error("report line {line}: {kind}")]
pub struct Fault {
    pub line: u64,
    pub kind: ReportFaultKind,
    pub expected: Option<Expected>,
}

/// Where a node or a client isn't as it should be.
#[derive(Clone, Copy, Debug, PartialEq, Eq, Drop, Error)]
pub enum Odd {
    /// At this place of a node of this number.
    #[error("node {node}, place {place}: {kind}")]
    Entry {
        node: u32,
        place: u64,
        kind: ReportFaultKind,
        expected: Option<Expected>,
    },
    /// In what is told of a client of this number, so many lines behind its own.
    #[error("client {client}, line {behind}: {kind}")]
    Client {
        client: u32,
        behind: u64,
        kind: ReportFaultKind,
        expected: Option<Expected>,
    },
}

impl Odd {
    // Its node and its place. What is told of clients comes behind all entries.
    fn stands_at(&self) -> (u32, u64) {
        match self {
            Odd::Entry { node, place, .. } => (*node, *place),
            Odd::Client { .. } => (u32::MAX, 0),
        }
    }

    /// Whether it stands before another in the order of nodes and places.
    pub fn is_before(&self, other: &Odd) -> bool {
        let (node, place) = self.stands_at();
        let (other_node, other_place) = other.stands_at();
        node < other_node || (node == other_node && place < other_place)
    }
}
