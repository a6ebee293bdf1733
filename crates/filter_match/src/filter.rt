// The section filter and its places.

ghost use Rattle.std.specs.Prelude.{◌≡◌, ◌<◌, replicate};
ghost use Rattle.filter_match.specs.Places.{place_at, with_place, filter_with};

/// What a section filter asks of a section's first bytes (Linux media API, Digital TV demux, struct dmx_filter).
///
/// Filter byte 0 stands against section byte 0, and byte i against section byte i + 2. A bit counts where its mask bit
/// is 1. Where its mode bit is 0 the section's bit has to be equal; of those whose mode bit is 1, where there are any, at
/// least one has to differ.
#[derive(Clone, Copy, Debug, PartialEq, Eq, Drop)]
pub struct SectionFilter {
    /// The bits that are compared.
    pub filter: [u8; 16],
    /// 1 for each bit that counts.
    pub mask: [u8; 16],
    /// 0 for each bit that has to be equal, 1 for those of which one has to differ.
    pub mode: [u8; 16],
}

/// A place of a section filter, with its filter, mask and mode byte.
#[derive(Clone, Copy, Debug, PartialEq, Eq, Drop)]
pub struct Place {
    /// The number of the place, 0 to 15.
    pub number: u32,
    /// The filter byte.
    pub filter: u8,
    /// The mask byte.
    pub mask: u8,
    /// The mode byte.
    pub mode: u8,
}

impl SectionFilter {
    /// The filter in which no bit counts.
    pub fn empty() -> SectionFilter
        ensures { result ≡ record { filter = replicate 16 0; mask = replicate 16 0; mode = replicate 16 0 } }
    {
        SectionFilter {
            filter: [0; 16],
            mask: [0; 16],
            mode: [0; 16],
        }
    }

    /// The filter with these places; in all others no bit counts.
    pub fn of(places: &[Place]) -> SectionFilter
        ensures { result ≡ filter_with places.now }
    {
        let mut filter = SectionFilter::empty();
        'places: for place in places {
            filter.set(*place);
        }
        filter
    }

    /// The place of this number, 0 to 15, with its three bytes.
    pub fn place(&self, number: u32) -> Place
        requires { number < 16 }
        ensures { result ≡ place_at self.now number }
    {
        let i = number as usize;
        Place {
            number,
            filter: self.filter[i],
            mask: self.mask[i],
            mode: self.mode[i],
        }
    }

    /// Puts the bytes of a place into the filter. A number over 15 changes nothing.
    #[tactic(auto, unfolding(crate::specs::Places::with_place))]
    pub fn set(&mut self, place: Place)
        ensures { self.new ≡ with_place self.old place }
    {
        let i = place.number as usize;
        if i < 16 {
            self.filter[i] = place.filter;
            self.mask[i] = place.mask;
            self.mode[i] = place.mode;
        }
    }
}
