// A packet of 188 bytes, and its fields.
ghost use Rattle.std.specs.Prelude.{◌≡◌, true, ◌<◌, ◌≤◌, length, slice_index, IsNone, IfSome, ◌↔◌, ◌≢◌};
ghost use Rattle.std.specs.Option.{option_copied};
ghost use Rattle.ts_packet.specs.Fields.{IsPacket, bit, error_bit, unit_start, pid_of, counter_of, has_adaptation, discontinuity, payload_start, has_payload, payload_of, null_packet};
ghost use Rattle.ts_packet.specs.Clean.{repeats, joins};

use byteorder::{BigEndian, ByteOrder};
use std::marker::Model;

/// The length of a packet in bytes.
pub const PACKET_LEN: usize = 188;

/// The first byte of a packet, sync_byte.
pub const SYNC_BYTE: u8 = 0x47;

/// A transport stream packet: 188 bytes that begin with the sync byte. A contract sees it as the list of its bytes.
#[derive(Clone, Copy, Drop)]
pub struct Packet {
    bytes: [u8; 188],
}

impl Model for Packet {
    ghost use Rattle.std.specs.Prelude.{List, ℕ};

    ghost Value = { List ℕ };

    ghost use Rattle.ts_packet.specs.Fields.{IsPacket};

    ghost view = { λ p. p.bytes };

    ghost invariant = { λ p. IsPacket p.bytes };

    ghost inverse = { λ bytes. record { bytes = bytes } };
}

impl Packet {
    // The packet of these bytes, which begin with the sync byte.
    pub(crate) fn in_sync(bytes: [u8; 188]) -> Packet
        requires { slice_index bytes 0 ≡ 0x47 }
        ensures { result ≡ bytes }
    {
        Packet { bytes }
    }

    /// The packet of these bytes. None exactly where the first byte isn't the sync byte.
    pub fn of(bytes: [u8; 188]) -> Option<Packet>
        ensures none { IsNone result ↔ (slice_index bytes 0 ≢ 0x47) }
        ensures bytes { IfSome result (λ packet. packet ≡ bytes) }
    {
        if bytes[0] == SYNC_BYTE {
            Some(Packet { bytes })
        } else {
            None
        }
    }

    /// All bytes of the packet.
    pub fn bytes(&self) -> &[u8; 188]
        ensures bytes { result.now ≡ self.now }
        ensures packet { IsPacket self.now }
    {
        &self.bytes
    }

    /// PID, 0 to 8191 (ISO/IEC 13818-1, 2.4.3.3).
    pub fn pid(&self) -> u16
        ensures value { result ≡ pid_of self.now }
        ensures fits { result < 8192 }
    {
        BigEndian::read_u16(&self.bytes[1..]) & 0x1fff
    }

    /// transport_error_indicator (ISO/IEC 13818-1, 2.4.3.3): the packet has an error that wasn't corrected.
    pub fn error(&self) -> bool
        ensures { result ≡ error_bit self.now }
    {
        self.bytes[1] & 0x80 != 0
    }

    /// payload_unit_start_indicator (ISO/IEC 13818-1, 2.4.3.3): a section or a PES packet begins in the payload.
    pub fn unit_start(&self) -> bool
        ensures { result ≡ unit_start self.now }
    {
        self.bytes[1] & 0x40 != 0
    }

    /// continuity_counter, 0 to 15 (ISO/IEC 13818-1, 2.4.3.3).
    pub fn counter(&self) -> u8
        ensures { result ≡ counter_of self.now }
    {
        self.bytes[3] & 0x0f
    }

    /// discontinuity_indicator (ISO/IEC 13818-1, 2.4.3.5); false where the packet has no adaptation field or an empty one.
    pub fn discontinuity(&self) -> bool
        ensures { result ≡ discontinuity self.now }
    {
        self.has_adaptation() && self.bytes[4] > 0 && self.bytes[5] & 0x80 != 0
    }

    // The first bit of adaptation_field_control (ISO/IEC 13818-1, 2.4.3.3): an adaptation field follows the header.
    fn has_adaptation(&self) -> bool
        ensures { result ≡ has_adaptation self.now }
    {
        self.bytes[3] & 0x20 != 0
    }

    // The second bit of adaptation_field_control (ISO/IEC 13818-1, 2.4.3.3): a payload follows.
    fn says_payload(&self) -> bool
        ensures { result ≡ bit (slice_index self.now 3) 16 }
    {
        self.bytes[3] & 0x10 != 0
    }

    // The first place of the payload.
    fn payload_start(&self) -> usize
        ensures { result ≡ payload_start self.now }
    {
        if self.has_adaptation() {
            5 + self.bytes[4] as usize
        } else {
            4
        }
    }

    /// The payload, 1 to 184 bytes. None exactly where the packet has none: where adaptation_field_control (ISO/IEC 13818-1,
    /// 2.4.3.3) says so, or where the adaptation field's length leaves no byte for it.
    pub fn payload(&self) -> Option<&[u8]>
        ensures value { option_copied result ≡ payload_of self.now }
        ensures some { IfSome result (λ payload. 0 < length payload.now) }
        ensures fits { IfSome result (λ payload. length payload.now ≤ 184) }
    {
        let start = self.payload_start();
        if self.says_payload() && start < PACKET_LEN {
            Some(&self.bytes[start..])
        } else {
            None
        }
    }

    /// Whether it repeats a packet before it: both have the same counter and the same payload, whatever their other bits.
    /// Both have a payload.
    pub fn repeats(&self, before: &Packet) -> bool
        requires has { has_payload self.now ≡ true }
        requires before { has_payload before.now ≡ true }
        ensures { result ≡ repeats before.now self.now }
    {
        before.counter() == self.counter() && before.payload() == self.payload()
    }

    /// Whether it goes on where the packet before it ends: its counter is one more, modulo 16, and its
    /// discontinuity_indicator is 0.
    pub fn joins(&self, before: &Packet) -> bool
        ensures { result ≡ joins before.now self.now }
    {
        self.counter() == (before.counter() + 1) % 16 && !self.discontinuity()
    }
}

/// The null packet: PID 0x1FFF, counter 0, and a payload of bytes 0xFF.
impl Default for Packet {
    fn default() -> Packet
        ensures { result ≡ null_packet }
    {
        let mut bytes = [0xff; 188];
        bytes[0] = SYNC_BYTE;
        bytes[1] = 0x1f;
        bytes[3] = 0x10;
        Packet { bytes }
    }
}
