//! What the threads of a run leave.
use adapter::{Client, Feeder};
use dmx_calls::{Entry, Fed, Outcome};
use ts_watch::Head;

/// What the threads of a run leave.
#[derive(Drop)]
pub struct LeftByThreads {
    /// The batches that the feeder passed through all nodes, before it ended the stream.
    pub feeding: Vec<Fed>,
    /// The calls of each client, in their order.
    pub logs: Vec<Vec<Entry>>,
    /// The outcomes of each client's commands.
    pub outcomes: Vec<Vec<Outcome>>,
    /// What is known of the stream.
    pub head: Head,
    /// The feeder.
    pub feeder: Feeder,
    /// The clients, in their order.
    pub clients: Vec<Client>,
}
