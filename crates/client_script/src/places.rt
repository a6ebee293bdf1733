// The words that name the bytes of a section filter.
ghost use Rattle.std.specs.Prelude.{◌≡◌, ◌≤◌, IfOk};
ghost use Rattle.text_forms.specs.Places.{IsFilter};
ghost use Rattle.client_script.specs.Places.{filter_in};
ghost use Rattle.client_script.specs.Words.{Reads};

use crate::fault::FaultKind;
use crate::wanted::{WantedWord, WordFault};
use crate::words::Words;
use filter_match::SectionFilter;
use text_forms::place_named;

// How many places a filter has.
const PLACES: u32 = 16;

/// The filter that the words at the front spell.
#[tactic(auto, unfolding(crate::specs::Places::filter_in))]
pub fn read_filter(words: &mut Words<'_>) -> Result<SectionFilter, WordFault>
    ensures value { Reads result words.new (filter_in words.old) }
    ensures range { IfOk result IsFilter }
{
    let mut filter = SectionFilter::empty();
    let mut least = 0;
    'places: for _place in 0..PLACES {
        let Some(word) = words.next() else {
            return Ok(filter);
        };
        let Some(place) = place_named(least, word) else {
            return Err(WantedWord::Byte(least).fault(FaultKind::Bytes));
        };
        filter.set(place);
        least = place.number + 1;
    }
    Ok(filter)
}
