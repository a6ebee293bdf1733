// How reading goes, and the faults that stop it.
use thiserror::Error;

/// Why a puller stopped reading before the end of its source.
#[derive(Clone, Copy, Debug, PartialEq, Eq, Drop, Error)]
pub enum PullFault {
    /// A read failed.
    #[error("read failed")]
    ReadFault,
    /// So many reads were made, and no more are made.
    #[error("too long: {turns} reads were made")]
    TooLong { turns: u64 },
}

/// How reading goes: it goes on, or it has stopped at the end of input, at a read that failed, or because as many reads
/// were made as may be.
#[derive(Clone, Copy, Debug, PartialEq, Eq)]
pub enum Reading {
    Going,
    Ended,
    Failed,
    TooMany,
}
