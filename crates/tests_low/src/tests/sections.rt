// The CRC against values that were made elsewhere, filters and sections worked out by hand, and sections that are found and
// selected in the memory that they need.

use super::NoMemory;
use byteorder::{BigEndian, ByteOrder};
use filter_match::{Compiled, Place, SectionFilter};
use item_select::{Checks, Selector};
use section_crc::{Tables, crc};
use section_parse::all_sections;
use std::alloc::Global;
use ts_packet::{PACKET_LEN, Packet};

// The first section of PID 0 that ffmpeg 5.1.9 of Debian 12 writes, with its CRC:
//   ffmpeg -f lavfi -i testsrc=size=64x48:rate=5 -f lavfi -i sine=frequency=440 -t 1 \
//       -c:v mpeg2video -c:a mp2 -f mpegts out.ts
// It stands behind the five bytes of header and pointer of the first packet of its PID with unit start.
const PAT: &[u8] = &[
    0x00, 0xb0, 0x0d, 0x00, 0x01, 0xc1, 0x00, 0x00, 0x00, 0x01, 0xf0, 0x00, 0x2a, 0xb1, 0x04, 0xb2,
];

// The first sections of the PIDs 4096 and 17 of the stream that begins with `PAT`, with their CRC_32.
const PMT: [u8; 26] = [
    0x02, 0xb0, 0x17, 0x00, 0x01, 0xc1, 0x00, 0x00, 0xe1, 0x00, 0xf0, 0x00, 0x02, 0xe1, 0x00, 0xf0,
    0x00, 0x03, 0xe1, 0x01, 0xf0, 0x00, 0xf6, 0x4a, 0x03, 0x55,
];

const SDT: [u8; 40] = [
    0x42, 0xf0, 0x25, 0x00, 0x01, 0xc1, 0x00, 0x00, 0xff, 0x01, 0xff, 0x00, 0x01, 0xfc, 0x80, 0x14,
    0x48, 0x12, 0x01, 0x06, 0x46, 0x46, 0x6d, 0x70, 0x65, 0x67, 0x09, 0x53, 0x65, 0x72, 0x76, 0x69,
    0x63, 0x65, 0x30, 0x31, 0x77, 0x7c, 0x43, 0xca,
];

// Whether the crate's own rows, and tables of one row, of four and of eight, each give this CRC.
fn have_crc(bytes: &[u8], value: u32) -> bool {
    crc(bytes) == value
        && Tables::<1>::new().crc(bytes) == value
        && Tables::<4>::new().crc(bytes) == value
        && Tables::<8>::new().crc(bytes) == value
}

// Whether a section's CRC is 0, and that of its data the CRC_32 that it carries.
fn is_undamaged(section: &[u8]) -> bool {
    match section.split_last_chunk::<4>() {
        Some((data, carried)) => crc(section) == 0 && crc(data) == BigEndian::read_u32(carried),
        None => false,
    }
}

// The first byte and bit of the PMT that change while its CRC is still 0.
fn first_unseen() -> Option<(usize, u32)> {
    for place in 0..PMT.len() {
        for bit in 0..8u32 {
            let mut section = PMT;
            section[place] ^= 1 << bit;
            if crc(&section) == 0 {
                return Some((place, bit));
            }
        }
    }
    None
}

// No bytes leave the register's ones as they are.
#[test]
fn the_crc_is_that_of_others(rt: HostRuntime) {
    assert!(rt; have_crc(b"123456789", 0x0376_e6e7) && have_crc(&[], 0xffff_ffff));
    assert!(rt; is_undamaged(PAT) && is_undamaged(&PMT) && is_undamaged(&SDT));
    assert_eq!(rt; first_unseen(), None);
}

// The place of this number, with its filter, mask and mode byte.
macro_rules! at {
    ($number:expr, $filter:expr, $mask:expr, $mode:expr) => {
        Place {
            number: $number,
            filter: $filter,
            mask: $mask,
            mode: $mode,
        }
    };
}

// Sections of table 0x42: with version 0, and the same with version 1.
const OLD: &[u8] = &[0x42, 0x00, 0x05, 0x00, 0x01, 0xc1, 0x00, 0x00];

const NEW: &[u8] = &[0x42, 0x00, 0x05, 0x00, 0x01, 0xc3, 0x00, 0x00];

// Byte i of this section is i.
const COUNTED: [u8; 18] = [0, 1, 2, 3, 4, 5, 6, 7, 8, 9, 10, 11, 12, 13, 14, 15, 16, 17];

// The same without its last byte.
const SHORTER: [u8; 17] = [0, 1, 2, 3, 4, 5, 6, 7, 8, 9, 10, 11, 12, 13, 14, 15, 16];

// Mask, mode, filter and section bit, and whether they match.
type Bits = (u8, u8, u8, u8, bool);

static BITS: [Bits; 16] = [
    (0, 0, 0, 0, true),
    (0, 0, 0, 1, true),
    (0, 0, 1, 0, true),
    (0, 0, 1, 1, true),
    (0, 1, 0, 0, true),
    (0, 1, 0, 1, true),
    (0, 1, 1, 0, true),
    (0, 1, 1, 1, true),
    (1, 0, 0, 0, true),
    (1, 0, 0, 1, false),
    (1, 0, 1, 0, false),
    (1, 0, 1, 1, true),
    (1, 1, 0, 0, false),
    (1, 1, 0, 1, true),
    (1, 1, 1, 0, true),
    (1, 1, 1, 1, false),
];

// Whether a filter of these places matches a section.
fn is_match(places: &[Place], section: &[u8]) -> bool {
    Compiled::of(&SectionFilter::of(places)).selects(section)
}

// The first row and bit of a byte at which a filter with the row's bits there doesn't do what the row says.
fn odd_bit() -> Option<(usize, u32)> {
    for (number, (mask, mode, filter, section, wanted)) in BITS.iter().enumerate() {
        for bit in 0..8u32 {
            let place = at!(0, *filter << bit, *mask << bit, *mode << bit);
            if is_match(&[place], &[*section << bit]) != *wanted {
                return Some((number, bit));
            }
        }
    }
    None
}

// Table 0x42, and any table but it.
const TABLE: Place = at!(0, 0x42, 0xff, 0x00);

const NOT_TABLE: Place = at!(0, 0x42, 0xff, 0xff);

// A byte behind the length that isn't 0.
const NOT_ZERO: Place = at!(1, 0x00, 0xff, 0xff);

// Any byte but that of version 0: in all its bits, in the five bits of the version, and in one bit.
const NOT_VERSION_0: Place = at!(3, 0xc1, 0xff, 0xff);

const VERSION_DIFFERS: Place = at!(3, 0xc1, 0xff, 0x3e);

const BIT_DIFFERS: Place = at!(3, 0xc1, 0x02, 0xff);

// A filter's places, a section, and whether it matches.
type Match = (&'static [Place], &'static [u8], bool);

static FILTERS: [Match; 46] = [
    // nothing masked
    (&[], &[], true),
    (&[], NEW, true),
    (&[at!(0, 0xff, 0x00, 0x00)], NEW, true),
    (&[at!(15, 0xff, 0x00, 0xff)], NEW, true),
    // the table alone
    (&[TABLE], &[0x42], true),
    (&[TABLE], &[0x43], false),
    (&[TABLE], &[], false),
    (&[at!(0, 0x4f, 0xf0, 0x00)], NEW, true),
    (&[at!(0, 0x4f, 0xf8, 0x00)], NEW, false),
    // any version but 0 of the table
    (&[TABLE, NOT_VERSION_0], NEW, true),
    (&[TABLE, NOT_VERSION_0], OLD, false),
    (&[at!(0, 0x43, 0xff, 0x00), NOT_VERSION_0], NEW, false),
    // the same by the five bits of the version, the others equal
    (&[VERSION_DIFFERS], NEW, true),
    (&[VERSION_DIFFERS], OLD, false),
    (&[VERSION_DIFFERS], &[0x42, 0, 5, 0, 1, 0xc2], false),
    (&[VERSION_DIFFERS], &[0x42, 0, 5, 0, 1, 0x83], false),
    (&[VERSION_DIFFERS], &[0x42, 0, 5, 0, 1, 0xff], true),
    // one masked bit of mode 1 among unmasked bits of mode 1
    (&[BIT_DIFFERS], NEW, true),
    (&[BIT_DIFFERS], OLD, false),
    (&[BIT_DIFFERS], &[0x42, 0, 5, 0, 1, 0xc5], false),
    // masked bits of mode 1 of which one differs:
    // one bit that differs is enough
    (&[NOT_TABLE], &[0x42], false),
    (&[NOT_TABLE], &[0x43], true),
    (&[NOT_TABLE], &[0xbd], true),
    // .. in one of two bytes
    (&[NOT_TABLE, NOT_ZERO], &[0x42, 0, 0, 0x00], false),
    (&[NOT_TABLE, NOT_ZERO], &[0x42, 0, 0, 0x01], true),
    (&[NOT_TABLE, NOT_ZERO], &[0x43, 0, 0, 0x00], true),
    (&[NOT_TABLE, NOT_ZERO], &[0x43], false),
    // mode bits that aren't masked ask for nothing
    (&[TABLE, at!(1, 0x00, 0x00, 0xff)], NEW, true),
    (&[TABLE, at!(1, 0xff, 0x00, 0xff)], &[0x42], true),
    // places against bytes:
    // byte i stands against byte i + 2
    (
        &[at!(1, 3, 0xff, 0x00), at!(2, 4, 0xff, 0x00)],
        &COUNTED,
        true,
    ),
    (&[at!(1, 1, 0xff, 0x00)], &COUNTED, false),
    (&[at!(1, 2, 0xff, 0x00)], &COUNTED, false),
    (&[at!(0, 2, 0xff, 0x00)], &COUNTED, false),
    (
        &[at!(0, 0, 0xff, 0x00), at!(15, 17, 0xff, 0x00)],
        &COUNTED,
        true,
    ),
    (
        &[at!(14, 16, 0xff, 0x00), at!(15, 15, 0xff, 0x00)],
        &COUNTED,
        false,
    ),
    // at the section's end
    (&[at!(5, 0x00, 0xff, 0x00)], NEW, true),
    (&[at!(6, 0x00, 0xff, 0x00)], NEW, false),
    (&[at!(6, 0x00, 0x01, 0x00)], NEW, false),
    (&[at!(6, 0x00, 0xff, 0xff)], NEW, false),
    (&[at!(15, 0x00, 0xff, 0x00)], NEW, false),
    (&[at!(15, 0x00, 0xff, 0xff)], NEW, false),
    (&[NOT_TABLE, at!(15, 0x00, 0xff, 0xff)], &[0x43], false),
    (&[at!(15, 17, 0xff, 0x00)], &SHORTER, false),
    (&[at!(15, 16, 0xff, 0xff)], &SHORTER, false),
    (&[at!(15, 17, 0xff, 0x00)], &COUNTED, true),
    (&[at!(15, 17, 0xff, 0xff)], &COUNTED, false),
];

#[test]
fn filters_match_as_worked_out_by_hand(rt: HostRuntime) {
    assert_eq!(rt; odd_bit(), None);
    let odd = FILTERS.iter().position(|(places, section, wanted)| is_match(places, section)
        != *wanted);
    assert_eq!(rt; odd, None);
}

// A section of table 0x42.
const A: [u8; 8] = [0x42, 0x00, 0x05, 1, 2, 3, 4, 5];

// A section of 203 bytes, 0x11 behind its header.
fn long_section() -> [u8; 203] {
    let mut section = [0x11; 203];
    section[..3].copy_from_slice(&[0x40, 0x00, 0xc8]);
    section
}

// Two packets of PID 256: the first 183 bytes of the long section, and the last 20 with A behind them.
fn two_packets() -> [Packet; 2] {
    let mut first = [0x11; PACKET_LEN];
    first[..8].copy_from_slice(&[0x47, 0x41, 0x00, 0x10, 0x00, 0x40, 0x00, 0xc8]);
    let mut second = [0xff; PACKET_LEN];
    second[..5].copy_from_slice(&[0x47, 0x41, 0x00, 0x11, 0x14]);
    second[5..25].fill(0x11);
    second[25..33].copy_from_slice(&A);
    [
        Packet::of(first).unwrap_or_default(),
        Packet::of(second).unwrap_or_default(),
    ]
}

// Whether both sections are found.
fn are_found(alloc: Global) -> Result<bool, NoMemory> {
    let found = all_sections(alloc, 256, &two_packets())?;
    match found.as_slice() {
        [long, short] => {
            Ok(long.as_slice() == long_section().as_slice() && short.as_slice() == A.as_slice())
        },
        _ => Ok(false),
    }
}

// Whether a filter without places selects both, once the second packet has come.
fn are_selected(alloc: Global) -> Result<bool, NoMemory> {
    let [first, second] = two_packets();
    let mut selector = Selector::new(alloc)?;
    let checks = Checks {
        crc: false,
        once: false,
    };
    selector.set_sections(256, &SectionFilter::of(&[]), checks);
    selector.offer(&first);
    if selector.item().is_some() {
        return Ok(false);
    }
    selector.offer(&second);
    Ok(
        selector.item() == Some(long_section().as_slice())
            && selector.item() == Some(A.as_slice())
            && selector.item().is_none(),
    )
}

#[test]
fn a_section_in_two_packets_is_found_and_selected(rt: HostRuntime) {
    assert_eq!(rt; are_found(rt.alloc()), Ok(true));
    assert_eq!(rt; are_selected(rt.alloc()), Ok(true));
}
