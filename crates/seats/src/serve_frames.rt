// The frames of the server: what a program asks of the emulated devices, and what it is told, as bytes.
mod ask;
mod laws;
pub mod numbers;
mod tell;

pub use ask::Ask;
pub use laws::written_and_read;
pub use tell::{ReplyHead, Tell, data_of};
