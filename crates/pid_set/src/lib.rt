//! Sets of PIDs of a bounded size.
//!
//! A filter of packets names its PIDs one by one (Linux media API, Digital TV demux, DMX_ADD_PID and DMX_REMOVE_PID). That it
//! holds at most 128 of them, and that they are kept in their order, is this project's rule.
//!
//! What a contract sees: a set, and one that a log keeps (`KeptPids`), as the list of its members, ascending and without repeats,
//! each a number of 16 bits (`ArePids` of `specs/Pids.antt`).
//!
//! What is proved: `add` gives the set with the PID, and refuses exactly where the PID is absent and the set is full, which
//! changes nothing; `remove` gives the set without it; both say whether the set has changed. `names` says whether a set names a
//! PID: it has it, or has PID 0x2000. `has`, `len`, `get`, `of`, `copied`, `fitted`, which has room for another number of PIDs,
//! and the two calls of `KeptPids` are what their names say. `adding_and_removing` is the law that these are sets: adding leaves
//! the list ascending with that PID as its one new member, and removing leaves all others (`specs/Sets.antt`).
//!
//! What is only tested, in `tests_low`: the text of `PidsFull`, and that ample memory is enough. Limits: only `KeptPids::of`
//! takes memory.
#![tactic(auto)]

mod kept;
mod set;

pub use kept::KeptPids;
pub use set::{ALL_PACKETS, PidSet, Pids, PidsFull, adding_and_removing};
