// The bytes of a packet.
ghost use Rattle.std.specs.Prelude.{◌≡◌, ◌<◌, ◌≤◌, ◌++◌, ◌∷◌, true, replicate, OnOk, if◌then◌else◌};
ghost use Rattle.ts_make.specs.Made.{header, payload, section_front, section, packet};

use crate::kind::Kind;
use byteorder::{BigEndian, ByteOrder};
use section_crc::crc;
use std::alloc::AllocError as NoMemory;
use ts_packet::SYNC_BYTE;

// What stands in front of section_length: section_syntax_indicator 1, the bit 0 and two reserved bits (ISO/IEC 13818-1, 2.4.4.1).
const LONG_SECTION: u16 = 0xb000;

// section_length: the bytes behind it, CRC_32 among them.
const SECTION_LENGTH: u16 = 17;

// payload_unit_start_indicator in the two bytes that end with the PID (ISO/IEC 13818-1, 2.4.3.2).
fn start_bit(unit_start: bool) -> u16
    ensures { result ≡ (if unit_start then 0x4000 else 0) }
{
    if unit_start { 0x4000 } else { 0 }
}

// Appends the first four bytes.
fn put_header(out: &mut Vec<u8>, unit_start: bool, pid: u16, counter: u8) -> Result<(), NoMemory>
    requires pid { pid < 8192 }
    requires counter { counter < 16 }
    ensures { OnOk result (out.new.items ≡ out.old.items ++ header unit_start pid counter) }
{
    let mut bytes = [SYNC_BYTE, 0, 0, 0x10 + counter];
    BigEndian::write_u16(&mut bytes[1..], start_bit(unit_start) | pid);
    out.extend_from_slice(&bytes)
}

// Appends the payload of the packet in this place: each byte is one more than the one before it, modulo 256.
fn put_payload(out: &mut Vec<u8>, place: u16) -> Result<(), NoMemory>
    ensures { OnOk result (out.new.items ≡ out.old.items ++ payload place 184) }
{
    'bytes: for j in 0..184u32 {
        out.push(((u32::from(place) + j) % 256) as u8)?;
    }
    Ok(())
}

// A section of 20 bytes without its CRC: its place stands in the table_id_extension, and again in eight bytes.
fn front_of_section(table_id: u8, place: u16) -> [u8; 16]
    ensures { result ≡ section_front table_id place }
{
    let mut bytes = [0; 16];
    bytes[0] = table_id;
    BigEndian::write_u16(&mut bytes[1..], LONG_SECTION | SECTION_LENGTH);
    BigEndian::write_u16(&mut bytes[3..], place);
    bytes[5] = 0xc1;
    BigEndian::write_u64(&mut bytes[8..], u64::from(place));
    bytes
}

// Appends a section with its CRC.
fn put_section(out: &mut Vec<u8>, table_id: u8, place: u16) -> Result<(), NoMemory>
    ensures { OnOk result (out.new.items ≡ out.old.items ++ section table_id place) }
{
    let front = front_of_section(table_id, place);
    let mut check = [0; 4];
    BigEndian::write_u32(&mut check, crc(&front));
    out.extend_from_slice(&front)?;
    out.extend_from_slice(&check)?;
    Ok(())
}

// Appends a packet with a section, which begins behind a pointer_field 0 and has stuffing behind it.
fn put_section_packet(
    out: &mut Vec<u8>,
    pid: u16,
    table_id: u8,
    place: u16,
    counter: u8,
) -> Result<(), NoMemory>
    requires pid { pid < 8192 }
    requires counter { counter < 16 }
    ensures { OnOk result (out.new.items
        ≡ out.old.items ++ (header true pid counter ++ (0x00 ∷ (section table_id place ++ replicate 163 0xff)))) }
{
    put_header(out, true, pid, counter)?;
    out.push(0)?;
    put_section(out, table_id, place)?;
    out.extend_from_slice(&[0xff; 163])?;
    Ok(())
}

// Appends a plain packet.
fn put_plain_packet(
    out: &mut Vec<u8>,
    unit_start: bool,
    pid: u16,
    place: u16,
    counter: u8,
) -> Result<(), NoMemory>
    requires pid { pid < 8192 }
    requires counter { counter < 16 }
    ensures { OnOk result (out.new.items ≡ out.old.items ++ (header unit_start pid counter ++ payload place 184)) }
{
    put_header(out, unit_start, pid, counter)?;
    put_payload(out, place)?;
    Ok(())
}

/// Appends a packet of this kind in this place.
pub fn put_packet(
    out: &mut Vec<u8>,
    kind: Kind,
    place: u16,
    word: u32,
    counter: u8,
) -> Result<(), NoMemory>
    requires { counter < 16 }
    ensures { OnOk result (out.new.items ≡ out.old.items ++ packet kind place word counter) }
{
    match kind.table_id() {
        Some(table_id) => put_section_packet(out, kind.pid(), table_id, place, counter),
        None => put_plain_packet(out, word / 65536 % 8 == 0, kind.pid(), place, counter),
    }
}
