// What is known of a whole stream.
use crate::seen::PidRow;
use ts_packet::Tally;

/// What is known of the packets of a stream.
#[derive(Debug, PartialEq, Eq, Drop)]
pub struct Head {
    /// The packets, the bytes between them, and the bytes behind them.
    pub tally: Tally,
    /// The PIDs that have a packet, ascending, each with its row.
    pub rows: Vec<(u16, PidRow)>,
    /// The source failed in the stream, so this is what came before.
    pub read_fault: bool,
}
