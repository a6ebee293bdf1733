//! The section filter: which sections a filter lets through.
//!
//! It is DMX_SET_FILTER's struct dmx_filter of the Linux media API (chapter Digital TV demux): sixteen bytes each of filter, mask
//! and mode. Filter byte 0 stands against the first byte of a section, its table_id, and byte i against byte i + 2: the two bytes
//! behind the first, with the length, are passed over. That a masked byte behind the section's end lets nothing through is this
//! project's rule.
//!
//! What a contract sees: a filter as the record of its three lists, a section as the list of its bytes, a `Compiled` as its
//! filter.
//!
//! What is proved: `SectionFilter::of` is the filter with the places that it is given, and `SectionFilter::set` puts one more
//! into a filter (`specs/Places.antt`). `Compiled::selects` answers just `matches` of `specs/Match.antt`, for any filter and any
//! bytes. `matches_means`: of each bit `matches` says what the API says. A masked bit with mode 0 has to be equal, and of the
//! masked bits with mode 1, where there are any, one has to differ (`specs/Meaning.antt`).
//!
//! What is only tested, in `tests_low`: that this is what a user of the API expects, by filters worked out by hand. Limits: no
//! memory is taken.
#![tactic(auto)]

mod compared;
mod compiled;
mod filter;

pub use compiled::{Compiled, matches_means};
pub use filter::{Place, SectionFilter};
