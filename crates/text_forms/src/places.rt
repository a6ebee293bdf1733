// The words that name the bytes of a section filter.
ghost use Rattle.std.specs.Prelude.{◌≡◌, ◌+◌, ◌≤◌, ◌<◌, ◌++◌, IfSome, OnErr, vec_len, vec_capacity};
ghost use Rattle.text_forms.specs.Places.{HasBytes, place_text, filter_place_text, filter_text, place_with as place_spelled, place_named as place_of_word};
ghost use Rattle.text_forms.specs.Appended.{Appended};

use crate::hex::{digits_of, hex_byte};
use crate::number::number_between;
use crate::room::put;
use filter_match::{Place, SectionFilter};
use itoa::Buffer;
use std::alloc::AllocError as NoMemory;

// The number of a filter's last place.
const LAST_PLACE: u64 = 15;

// How many bytes of a word stand behind the number of its place.
const BEHIND_NUMBER: usize = 9;

// How many places a filter has.
const PLACES: u32 = 16;

// The most bytes of a place, with the space before it.
const MOST_BYTES: usize = 12;

// Appends a place, for which there is room.
fn put_place(out: &mut Vec<u8>, place: Place)
    requires number { place.number ≤ 15 }
    requires room { vec_len out.old + 11 ≤ vec_capacity out.old }
    ensures appended { out.new.items ≡ out.old.items ++ place_text place }
    ensures len { vec_len out.new ≤ vec_len out.old + 11 }
    ensures capacity { vec_capacity out.old ≤ vec_capacity out.new }
{
    let mut number = Buffer::new();
    let [f, f_low] = digits_of(place.filter);
    let [m, m_low] = digits_of(place.mask);
    let [d, d_low] = digits_of(place.mode);
    put(out, number.format(place.number).as_bytes());
    put(out, &[b'=', f, f_low, b'/', m, m_low, b'/', d, d_low]);
}

// Appends a place of a filter behind a space, for which there is room; nothing where its three bytes are 0.
fn put_filter_place(out: &mut Vec<u8>, filter: &SectionFilter, i: u32)
    requires place { i < 16 }
    requires room { vec_len out.old + 12 ≤ vec_capacity out.old }
    ensures appended { out.new.items ≡ out.old.items ++ filter_place_text filter.now i }
    ensures len { vec_len out.new ≤ vec_len out.old + 12 }
    ensures capacity { vec_capacity out.old ≤ vec_capacity out.new }
{
    let place = filter.place(i);
    if place.filter == 0 && place.mask == 0 && place.mode == 0 {
        return;
    }
    put(out, b" ");
    put_place(out, place);
}

/// Appends ` I=FF/MM/DD` for each place I of a filter whose filter, mask and mode byte aren't all 0, in ascending order.
/// Room is asked for once.
///
/// # Errors
///
/// `NoMemory`; `out` is then as it was.
pub fn write_filter(out: &mut Vec<u8>, filter: &SectionFilter) -> Result<(), NoMemory>
    ensures appended { Appended 192 (filter_text filter.now) out.old out.new result }
    ensures unchanged { OnErr result (out.new.items ≡ out.old.items) }
{
    out.reserve(PLACES as usize * MOST_BYTES)?;
    'places: for i in 0..PLACES {
        put_filter_place(out, filter, i);
    }
    Ok(())
}

// The place of this number with the bytes that `=FF/MM/DD` spells.
#[tactic(auto, unfolding(crate::specs::Places::place_with))]
fn place_with(number: u32, bytes: &[u8]) -> Option<Place>
    ensures value { result ≡ place_spelled number bytes.now }
    ensures number { IfSome result (λ place. place.number ≡ number) }
    ensures bytes { IfSome result HasBytes }
{
    match bytes {
        [b'=', f, f_low, b'/', m, m_low, b'/', d, d_low] => {
            let filter = hex_byte(*f, *f_low)?;
            let mask = hex_byte(*m, *m_low)?;
            let mode = hex_byte(*d, *d_low)?;
            Some(Place {
                number,
                filter,
                mask,
                mode,
            })
        }
        _ => None,
    }
}

/// The place that a word `I=FF/MM/DD` spells, with I from `least` to 15.
#[tactic(auto, unfolding(crate::specs::Places::place_named))]
pub fn place_named(least: u32, word: &[u8]) -> Option<Place>
    ensures value { result ≡ place_of_word least word.now }
    ensures bound { IfSome result (λ place. (least ≤ place.number) × (place.number ≤ 15)) }
    ensures bytes { IfSome result HasBytes }
{
    let (number, bytes) = word.split_at(word.len().saturating_sub(BEHIND_NUMBER));
    let number = number_between(least as u64, LAST_PLACE, number)?;
    place_with(number as u32, bytes)
}
