// Told histories, played again: whether a node's told entries are those that its calls give.
mod calls;
mod replay;
mod same;

pub use calls::call_told;
pub use replay::{first_other_reply, other_reply};
pub use same::is_same_reply;
