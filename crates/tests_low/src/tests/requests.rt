// Structures with the bytes that a program in C gave for them, compiled over linux/dvb/dmx.h of Linux 6.1 on x86-64.

use dmx_abi::{Request, decode, encode};

// A request, and its number and argument. The bytes between the fields are 0, or 0xa5.
type Row = (Request, u32, &'static [u8]);

// A section filter whose bytes all differ, by four of the structure's parts.
const SECTION: Request = Request::SetFilter {
    pid: 0x1f0e,
    filter: [
        0x10, 0x11, 0x12, 0x13, 0x14, 0x15, 0x16, 0x17, 0x18, 0x19, 0x1a, 0x1b, 0x1c, 0x1d, 0x1e,
        0x1f,
    ],
    mask: [
        0x30, 0x31, 0x32, 0x33, 0x34, 0x35, 0x36, 0x37, 0x38, 0x39, 0x3a, 0x3b, 0x3c, 0x3d, 0x3e,
        0x3f,
    ],
    mode: [
        0x50, 0x51, 0x52, 0x53, 0x54, 0x55, 0x56, 0x57, 0x58, 0x59, 0x5a, 0x5b, 0x5c, 0x5d, 0x5e,
        0x5f,
    ],
    timeout: 0x0102_0304,
    flags: 0xa1b2_c3d4,
};

// A PES filter of the input DMX_IN_DVR, the output DMX_OUT_TSDEMUX_TAP and the type DMX_PES_OTHER.
const PES: Request = Request::SetPes {
    pid: 0x2000,
    input: 1,
    output: 3,
    pes_type: 20,
    flags: 0x89ab_cdef,
};

const CLOCK: Request = Request::GetStc { num: 0x0a0b_0c0d };

static ROWS: [Row; 10] = [
    (
        SECTION,
        0x403c_6f2b,
        b"\x0e\x1f\x10\x11\x12\x13\x14\x15\x16\x17\x18\x19\x1a\x1b\x1c\x1d\x1e\x1f\x30\x31\x32\x33\x34\x35\x36\x37\x38\x39\x3a\x3b\x3c\x3d\x3e\x3f\x50\x51\x52\x53\x54\x55\x56\x57\x58\x59\x5a\x5b\x5c\x5d\x5e\x5f\x00\x00\x04\x03\x02\x01\xd4\xc3\xb2\xa1",
    ),
    (
        PES,
        0x4014_6f2c,
        b"\x00\x20\x00\x00\x01\x00\x00\x00\x03\x00\x00\x00\x14\x00\x00\x00\xef\xcd\xab\x89",
    ),
    (
        CLOCK,
        0xc010_6f32,
        b"\x0d\x0c\x0b\x0a\x00\x00\x00\x00\x00\x00\x00\x00\x00\x00\x00\x00",
    ),
    (Request::AddPid(0x1234), 0x4002_6f33, b"\x34\x12"),
    (Request::RemovePid(0x1ffe), 0x4002_6f34, b"\xfe\x1f"),
    (Request::Start, 0x6f29, b""),
    (Request::Stop, 0x6f2a, b""),
    // The same structures, filled with 0xa5 before their fields were set.
    (
        SECTION,
        0x403c_6f2b,
        b"\x0e\x1f\x10\x11\x12\x13\x14\x15\x16\x17\x18\x19\x1a\x1b\x1c\x1d\x1e\x1f\x30\x31\x32\x33\x34\x35\x36\x37\x38\x39\x3a\x3b\x3c\x3d\x3e\x3f\x50\x51\x52\x53\x54\x55\x56\x57\x58\x59\x5a\x5b\x5c\x5d\x5e\x5f\xa5\xa5\x04\x03\x02\x01\xd4\xc3\xb2\xa1",
    ),
    (
        PES,
        0x4014_6f2c,
        b"\x00\x20\xa5\xa5\x01\x00\x00\x00\x03\x00\x00\x00\x14\x00\x00\x00\xef\xcd\xab\x89",
    ),
    (
        CLOCK,
        0xc010_6f32,
        b"\x0d\x0c\x0b\x0a\xa5\xa5\xa5\xa5\xa5\xa5\xa5\xa5\xa5\xa5\xa5\xa5",
    ),
];

// Whether the request that is read is written with its number and its length, and read again.
fn is_both_ways(row: &Row) -> bool {
    let (request, number, argument) = row;
    let mut out = [0xff; 60];
    let written = encode(request, &mut out);
    decode(*number, argument) == Ok(*request)
        && written == (*number, argument.len() as u32)
        && matches!(out.get(..argument.len()), Some(argument) if decode(*number, argument) == Ok(*request))
}

#[test]
fn structures_are_those_of_the_header(rt: HostRuntime) {
    assert!(rt; ROWS.iter().all(is_both_ways));
}
