//! The bytes that a node keeps for its reader, and the ledger of the capture to which they belong. Both kinds of node have one.
//!
//! What a contract sees: a buffer as the record `BufferValue` of its size, of what it keeps of its filter (`Terms`: whether items
//! are sections, DMX_ONESHOT, the timeout, KEEP), and of the `Ledger` (of dmx_calls) of its capture, None where there is none.
//! How a ledger goes on stands in `specs/Inside/Capturing.antt`, what always holds of it in `specs/Inside/Coherent.antt`, what a
//! reply must be in `specs/Inside/Gives.antt`, and when each answer comes in `specs/Causes.antt`. A `Ring`, which holds the
//! bytes, is a size and the list of those put and not yet taken, the oldest first (`specs/Ring.antt`).
//!
//! What is proved: each call of `Buffer` goes by these steps. An item is kept whole where it isn't longer than the room: a buffer
//! of size n has room for n - 1 bytes, less those that are unread. Else the overflow is pending and items are lost until a Read
//! has named the span; what is unread stays with KEEP, and is lost without. A Read gives that overflow once nothing is unread,
//! else an expiry that wasn't told, else bytes in their order, on a section filter none behind the section that it goes on with;
//! a Poll tells what that Read would. A capture without an item expires at the first moment that is its start plus the timeout or
//! later. A ring's `put` appends an item whole, or refuses it exactly where it is longer than the room. After want of memory a
//! buffer is unchanged.
//!
//! What is only tested: that the steps are those meant, on values worked by hand. Limits: a size from 2 to 16,777,216 bytes,
//! items of at least one byte, fewer than 2^64 bytes in a capture; only `new` and `resize` take memory. Source: the Linux media
//! API, Digital TV demux. The room, the spans, and what an overflow loses, are this project's rules.
#![tactic(auto)]

mod answers;
mod buffer;
mod filter;
pub mod node_ring;

pub use answers::{NOTHING, done, opened, plain, refused};
pub use buffer::Buffer;
pub use filter::{Terms, is_oneshot, terms_of};
