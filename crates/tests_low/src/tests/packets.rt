// Packets written by hand, and their fields.

use ts_packet::{PACKET_LEN, Packet};

// What ISO/IEC 13818-1, 2.4.3, gives a packet: its PID, the bits of error and of unit start, the counter, the bit of
// discontinuity, and where its payload begins.
type Fields = (u16, bool, bool, u8, bool, Option<usize>);

// The first six bytes of a packet, and its fields.
static ROWS: [(u64, Fields); 11] = [
    // null packet
    (0x471f_ff10_ffff, (0x1fff, false, false, 0, false, Some(4))),
    // first packet of a program association section
    (0x4740_001d_0000, (0, false, true, 13, false, Some(4))),
    // error, priority and scrambling bits
    (0x47a1_23d5_ffff, (0x123, true, false, 5, false, Some(4))),
    // adaptation field alone
    (0x4701_002f_b710, (256, false, false, 15, false, None)),
    // adaptation field alone, with a discontinuity
    (0x4701_0020_b780, (256, false, false, 0, true, None)),
    // empty adaptation field, and a payload that begins with 0x80
    (0x4701_0030_0080, (256, false, false, 0, false, Some(5))),
    // adaptation field of one byte
    (0x4701_0030_0180, (256, false, false, 0, true, Some(6))),
    // adaptation field of 182 bytes, the most with a payload
    (0x4701_0031_b600, (256, false, false, 1, false, Some(187))),
    // adaptation field of 183 bytes where a payload is said to be
    (0x4701_0031_b77f, (256, false, false, 1, false, None)),
    // adaptation field that goes past the packet
    (0x4701_0031_ff80, (256, false, false, 1, true, None)),
    // reserved control value, neither field nor payload
    (0x4701_0001_0180, (256, false, false, 1, false, None)),
];

// The packet that begins with these six bytes; its byte i is i from the sixth on.
fn packet_of(header: u64) -> Option<Packet> {
    let mut bytes = [0; PACKET_LEN];
    for (i, byte) in bytes.iter_mut().enumerate() {
        *byte = i as u8;
    }
    bytes[..6].copy_from_slice(&header.to_be_bytes()[2..]);
    Packet::of(bytes)
}

// A packet's fields. Its payload, if there is one, ends with byte 187; where it doesn't it is told to begin at 0.
fn fields_of(packet: &Packet) -> Fields {
    let payload_at = match packet.payload() {
        None => None,
        Some(payload) if payload.ends_with(&[187]) => Some(PACKET_LEN - payload.len()),
        Some(_) => Some(0),
    };
    (
        packet.pid(),
        packet.error(),
        packet.unit_start(),
        packet.counter(),
        packet.discontinuity(),
        payload_at,
    )
}

// Whether these six bytes begin a packet that has these fields.
fn have_fields(header: u64, fields: Fields) -> bool {
    match packet_of(header) {
        Some(packet) => packet.bytes().starts_with(&header.to_be_bytes()[2..])
            && fields_of(&packet) == fields,
        None => false,
    }
}

#[test]
fn fields_are_those_of_the_standard(rt: HostRuntime) {
    assert!(rt; packet_of(0x4601_0010_0000).is_none());
    assert!(rt;
        Packet::default()
            .bytes()
            .starts_with(&[0x47, 0x1f, 0xff, 0x10, 0xff])
    );
    let odd = ROWS
        .iter()
        .position(|(header, fields)| !have_fields(*header, *fields));
    assert_eq!(rt; odd, None);
}
