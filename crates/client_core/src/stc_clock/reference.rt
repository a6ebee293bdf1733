// The program clock reference of a packet.
ghost use Rattle.std.specs.Prelude.{◌≡◌};
ghost use Rattle.client_core.specs.Clock.{pcr_of, has_pcr as has_pcr_by};

use byteorder::{BigEndian, ByteOrder};
use ts_packet::Packet;

// Whether a packet has a program clock reference.
fn has_pcr(packet: &Packet) -> bool
    ensures { result ≡ has_pcr_by packet.now }
{
    let bytes = packet.bytes();
    bytes[3] >> 5 & 1 == 1 && bytes[4] > 6 && bytes[5] >> 4 & 1 == 1
}

/// The program clock reference of a packet, in units of 27 MHz (ISO/IEC 13818-1, 2.4.3.5). None exactly where the packet has no
/// adaptation field, or one of fewer than 7 bytes, or one whose PCR_flag is 0.
pub fn pcr(packet: &Packet) -> Option<u64>
    ensures { result ≡ pcr_of packet.now }
{
    if !has_pcr(packet) {
        return None;
    }
    let bytes = packet.bytes();
    let base = u64::from(BigEndian::read_u32(&bytes[6..])) * 2 + u64::from(bytes[10] >> 7);
    let extension = u64::from(BigEndian::read_u16(&bytes[10..]) & 0x1ff);
    Some(base * 300 + extension)
}
