// The generator's words by the reference example, and packets of the session of the greatest number that a small program of its
// own worked out: a few lines of Python that know nothing of `ts_make`, with PCG32 and the CRC bit by bit.

use super::NoMemory;
use rand_core::utils::NextWord;
use rand_pcg::Lcg64Xsh32;
use std::alloc::Global;
use ts_make::session;

// The first words of PCG's reference example, of state 42 and stream 54.
static WORDS: [u32; 6] = [
    0xa15c_02b7,
    0x7b47_f409,
    0xba1d_3330,
    0x83d2_f293,
    0xbfa4_784b,
    0xcbed_606e,
];

// A packet of the session: its place, its first 28 bytes and its last.
type Sample = (u32, [u8; 28], u8);

static PACKETS: [Sample; 3] = [
    (
        0,
        [
            0x47, 0x01, 0x00, 0x10, 0x00, 0x01, 0x02, 0x03, 0x04, 0x05, 0x06, 0x07, 0x08, 0x09,
            0x0a, 0x0b, 0x0c, 0x0d, 0x0e, 0x0f, 0x10, 0x11, 0x12, 0x13, 0x14, 0x15, 0x16, 0x17,
        ],
        0xb7,
    ),
    (
        65511,
        [
            0x47, 0x40, 0x00, 0x1e, 0x00, 0x00, 0xb0, 0x11, 0xff, 0xe7, 0xc1, 0x00, 0x00, 0x00,
            0x00, 0x00, 0x00, 0x00, 0x00, 0xff, 0xe7, 0x21, 0x11, 0x53, 0xb8, 0xff, 0xff, 0xff,
        ],
        0xff,
    ),
    (
        65535,
        [
            0x47, 0x01, 0x00, 0x10, 0xff, 0x00, 0x01, 0x02, 0x03, 0x04, 0x05, 0x06, 0x07, 0x08,
            0x09, 0x0a, 0x0b, 0x0c, 0x0d, 0x0e, 0x0f, 0x10, 0x11, 0x12, 0x13, 0x14, 0x15, 0x16,
        ],
        0xb6,
    ),
];

// Whether the session has the packet of a sample in its place. The script has 656 bytes, each packet 188.
fn has_sample(bytes: &[u8], sample: &Sample) -> bool {
    let (place, front, last) = sample;
    let at = 656 + *place as usize * 188;
    bytes.get(at..at + 28) == Some(&front[..]) && bytes.get(at + 187) == Some(last)
}

// Whether the session of the greatest number has its length and these packets.
fn is_made(alloc: Global) -> Result<bool, NoMemory> {
    let bytes = session(alloc, u64::MAX)?;
    Ok(bytes.len() == 656 + 12_320_768 && PACKETS.iter().all(|sample| has_sample(&bytes, sample)))
}

#[test]
fn words_and_packets_are_those_of_others(rt: HostRuntime) {
    let mut words = Lcg64Xsh32::new(42, 54);
    for word in WORDS.iter() {
        assert_eq!(rt; words.next_word(), *word);
    }
    assert_eq!(rt; is_made(rt.alloc()), Ok(true));
}
