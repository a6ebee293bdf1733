// A filter held against a section's bytes: one byte after the other, or all sixteen at once.
ghost use Rattle.std.specs.Prelude.{◌≡◌, ◌<◌, ◌≤◌, ◌==◌, ℕ, length, slice_index};
ghost use Rattle.std.specs.List.{list_all, list_any};
ghost use Rattle.filter_match.specs.Match.{numbers_below, equals_at, differs_at, place_of as place};

use crate::SectionFilter;
use std::simd::prelude::*;

// A section of so many bytes has one against each byte of a filter.
const WHOLE: usize = 18;

// What a comparison of the sixteen bytes gives.
#[derive(Drop)]
pub(crate) struct Compared {
    // no masked bit with mode 0 differs
    pub(crate) equals: bool,
    // a masked bit with mode 1 differs
    pub(crate) differs: bool,
}

// Compares the sixteen bytes of a filter with those of a section. A byte that the section doesn't have counts as 0.
pub(crate) fn compare(filter: &SectionFilter, section: &[u8]) -> Compared
    ensures equals { result.equals ≡ list_all (equals_at filter.now section.now) (numbers_below 16) }
    ensures differs { result.differs ≡ list_any (differs_at filter.now section.now) (numbers_below 16) }
{
    if section.len() < WHOLE {
        compare_bytes(filter, section)
    } else {
        compare_lanes(filter, section)
    }
}

// Compares all sixteen bytes at once, with a section that has them all.
pub(crate) fn compare_lanes(filter: &SectionFilter, section: &[u8]) -> Compared
    requires { WHOLE ≤ length section.now }
    ensures equals { result.equals ≡ list_all (equals_at filter.now section.now) (numbers_below 16) }
    ensures differs { result.differs ≡ list_any (differs_at filter.now section.now) (numbers_below 16) }
{
    let mode = u8x16::from_array(filter.mode);
    let differences = (u8x16::from_array(filter.filter) ^ lanes_of(section))
        & u8x16::from_array(filter.mask);
    Compared {
        equals: all_zero(differences & !mode),
        differs: !all_zero(differences & mode),
    }
}

// The sixteen bytes against which a filter stands.
fn lanes_of(section: &[u8]) -> u8x16
    requires { WHOLE ≤ length section.now }
    ensures long { length result ≡ 16 }
    ensures each { (i : ℕ) → i < 16 → slice_index result i ≡ slice_index section.now (place i) }
{
    let mut bytes = u8x16::from_slice(&section[2..]).to_array();
    bytes[0] = section[0];
    u8x16::from_array(bytes)
}

// Whether all lanes are 0.
fn all_zero(lanes: u8x16) -> bool
    ensures { result ≡ list_all (λ i. slice_index lanes i == 0) (numbers_below 16) }
{
    lanes.simd_ne(u8x16::splat(0)).to_bitmask() == 0
}

// Compares one byte after the other.
pub(crate) fn compare_bytes(filter: &SectionFilter, section: &[u8]) -> Compared
    ensures equals { result.equals ≡ list_all (equals_at filter.now section.now) (numbers_below 16) }
    ensures differs { result.differs ≡ list_any (differs_at filter.now section.now) (numbers_below 16) }
{
    let mut equals = true;
    let mut differs = false;
    'bytes: for i in 0..16usize {
        let byte = byte_at(section, place_of(i));
        let differences = (filter.filter[i] ^ byte) & filter.mask[i];
        equals &= differences & !filter.mode[i] == 0;
        differs |= differences & filter.mode[i] != 0;
    }
    Compared { equals, differs }
}

// The section byte against which filter byte i stands.
pub(crate) fn place_of(i: usize) -> usize
    requires { i < 16 }
    ensures { result ≡ place i }
{
    if i == 0 { 0 } else { i + 2 }
}

// The section's byte in a place, or 0 where it has none.
fn byte_at(section: &[u8], place: usize) -> u8
    ensures { result ≡ slice_index section.now place }
{
    section.get(place).copied().unwrap_or(0)
}
