// A filter made ready, and the comparison.
ghost use Rattle.std.specs.Prelude.{◌≡◌, ◌↔◌, IsTrue};
ghost use Rattle.filter_match.specs.Match.{matches};
ghost use Rattle.filter_match.specs.Meaning.{IsMatch};

use crate::SectionFilter;
use crate::compared::{compare, place_of};
use std::marker::Model;

/// A section filter made ready to be held against sections. A contract sees the filter.
#[derive(Debug, Drop)]
pub struct Compiled {
    filter: SectionFilter,
    // how many bytes a section needs for each masked byte to stand against one
    needed: usize,
    // whether a masked bit has mode 1
    negates: bool,
}

impl Model for Compiled {
    ghost use Rattle.filter_match.specs.declared.filter.SectionFilter.{SectionFilter};

    ghost Value = { SectionFilter };

    ghost use Rattle.filter_match.specs.Inside.Compiling.{IsCompiled};

    ghost view = { λ c. c.filter };

    ghost invariant = { λ c. IsCompiled c.filter c.needed c.negates };
}

impl Compiled {
    /// Makes a filter ready: it keeps the filter, and what can be told of it without a section.
    pub fn of(filter: &SectionFilter) -> Compiled
        ensures { result ≡ filter.now }
    {
        let mut needed = 0;
        let mut negates = false;
        'masks: for i in 0..16usize {
            if filter.mask[i] != 0 {
                needed = place_of(i) + 1;
            }
            if filter.mask[i] & filter.mode[i] != 0 {
                negates = true;
            }
        }
        Compiled {
            filter: *filter,
            needed,
            negates,
        }
    }

    /// Whether a section matches the filter: each masked byte stands against one that the section has, each masked bit
    /// with mode 0 is equal, and where masked bits have mode 1, at least one of them differs (Linux media API, Digital TV
    /// demux, struct dmx_filter).
    pub fn selects(&self, section: &[u8]) -> bool
        ensures { result ≡ matches self.now section.now }
    {
        if section.len() < self.needed {
            return false;
        }
        let compared = compare(&self.filter, section);
        compared.equals && (compared.differs || !self.negates)
    }
}

/// The law of a match, for any filter and any bytes: `matches` says of them what the Linux media API says of the bits.
/// It has nothing to do.
pub fn matches_means(filter: SectionFilter, section: &[u8])
    ensures { IsTrue (matches filter section.now) ↔ IsMatch filter section.now }
{}
