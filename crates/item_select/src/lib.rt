//! The items that a filter selects from packets: sections of a PID, the packets themselves, or their payloads.
//!
//! A `Selector` is given a filter (Linux media API, Digital TV demux, DMX_SET_FILTER and DMX_SET_PES_FILTER), is offered packets
//! one by one, and lends each item as soon as the packet that completes it was offered.
//!
//! What a contract sees: what a selector keeps between two calls (`specs/Selecting.antt`): the filter, what the assembler of a
//! section filter holds, and the items that are ready.
//!
//! What is proved, against `items_of` over the whole list of packets (`specs/Items.antt`): `offer` and `item` hand out the items
//! of all packets offered since the filter began, in order, each once, and `item` answers None exactly where no further one lies
//! in them. An item has 1 to 4096 bytes, and all have 188 a packet at most. A set call and `restart` begin anew. Laws: packets
//! whose items are taken as they come give all their items (`all_items_are_given`); a one-shot filter that has given its section
//! gives no more (`one_shot_gives_no_more`, `one_shot_is_spent`).
//!
//! What is only tested, in `tests_low`: that ample memory is enough. Limits: only `new` takes memory. A filter of packets takes
//! each that it is offered, with errors, scrambled or sent twice. That a packet gives one item at most is this project's rule.
#![tactic(auto)]

mod laws;
mod section;
mod selector;

pub use laws::{all_items_are_given, one_shot_gives_no_more, one_shot_is_spent};
pub use selector::{Checks, Give, Selector};
