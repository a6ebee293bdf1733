// Program clock references of packets written by hand. Each value is base * 300 + extension.

use client_core::stc_clock::pcr;
use ts_packet::{PACKET_LEN, Packet};

// A packet's header, the length and the flags of its adaptation field, the six bytes behind them, and its program clock reference
// by ISO/IEC 13818-1, 2.4.3.5.
type ClockRow = (u32, u8, u8, u64, Option<u64>);

static ROWS: [ClockRow; 16] = [
    // base 1, extension 5
    (0x4701_0020, 183, 0x10, 0x0000_0000_fe05, Some(305)),
    // the largest: base 2^33 - 1, extension 299
    (
        0x4701_0020,
        183,
        0x10,
        0xffff_ffff_ff2b,
        Some(2_576_980_377_599),
    ),
    // the first bit of the base alone, 2^32
    (
        0x4701_0020,
        183,
        0x10,
        0x8000_0000_7e00,
        Some(1_288_490_188_800),
    ),
    // the last bit of the base alone, and the reserved bits 0
    (0x4701_0020, 183, 0x10, 0x0000_0000_8000, Some(300)),
    // the first bit of the extension alone
    (0x4701_0020, 183, 0x10, 0x0000_0000_7f00, Some(256)),
    // base and extension 0, and the reserved bits 1
    (0x4701_0020, 183, 0x10, 0x0000_0000_7e00, Some(0)),
    // all flags 1
    (0x4701_0020, 183, 0xff, 0x0000_0000_fe05, Some(305)),
    // a field of 7 bytes, a unit start and a payload
    (0x4741_0030, 7, 0x10, 0x0000_0000_fe05, Some(305)),
    // the error bit, in a null packet
    (0x479f_ff20, 183, 0x10, 0x0000_0000_fe05, Some(305)),
    // a field that goes past the packet
    (0x4701_0020, 255, 0x10, 0x0000_0000_fe05, Some(305)),
    // the first clock of ffmpeg's muxer, which begins at 0.7 seconds
    (0x4741_0030, 7, 0x50, 0x0000_7b0c_7e00, Some(18_900_000)),
    // a field of 6 bytes
    (0x4701_0030, 6, 0x10, 0x0000_0000_fe05, None),
    // an empty field
    (0x4701_0030, 0, 0x10, 0x0000_0000_fe05, None),
    // PCR_flag 0, and all other flags 1
    (0x4701_0020, 183, 0xef, 0x0000_0000_fe05, None),
    // a payload alone
    (0x4701_0010, 183, 0x10, 0x0000_0000_fe05, None),
    // neither field nor payload
    (0x4701_0000, 183, 0x10, 0x0000_0000_fe05, None),
];

// The packet of a row, whose other bytes are 0xFF.
fn packet_of(row: &ClockRow) -> Option<Packet> {
    let (header, length, flags, clock, _) = row;
    let mut bytes = [0xff; PACKET_LEN];
    bytes[..4].copy_from_slice(&header.to_be_bytes());
    bytes[4] = *length;
    bytes[5] = *flags;
    bytes[6..12].copy_from_slice(&clock.to_be_bytes()[2..]);
    Packet::of(bytes)
}

// Whether the bytes of a row begin a packet that has the row's value.
fn has_value(row: &ClockRow) -> bool {
    matches!(packet_of(row), Some(packet) if pcr(&packet) == row.4)
}

#[test]
fn program_clock_references_are_those_of_the_standard(rt: HostRuntime) {
    let odd = ROWS.iter().position(|row| !has_value(row));
    assert_eq!(rt; odd, None);
}
