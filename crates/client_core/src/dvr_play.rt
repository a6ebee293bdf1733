// What a client plays: the packets that it writes to the dvr device, in batches.
mod laws;
mod plays;

pub use laws::plays_law;
pub use plays::{MOST_BYTES, Plays};
