// How many bytes a packet takes up in a stream.
ghost use Rattle.std.specs.Prelude.{◌≡◌, ◌≤◌};
ghost use Rattle.ts_packet.specs.Cut.{in_bytes};

use crate::PACKET_LEN;

// How many bytes are passed over behind a packet that takes up 204.
const PASSED_OVER: usize = 16;

/// How many bytes a packet takes up in a stream: its own 188, or more where others stand behind each, which are passed
/// over.
#[derive(Clone, Copy, Debug, PartialEq, Eq)]
pub enum PacketSize {
    /// 188 bytes: the packet alone (ISO/IEC 13818-1, 2.4.3.2).
    Of188,
    /// 204 bytes: the packet, and 16 that DVB's outer coding puts behind it (ETSI EN 300 421, 4.4.2).
    Of204,
}

impl PacketSize {
    /// The number of bytes: 188 or 204.
    #[tactic(auto, unfolding(crate::specs::Cut::in_bytes))]
    pub fn bytes(self) -> usize
        ensures value { result ≡ in_bytes self }
        ensures least { 188 ≤ result }
        ensures most { result ≤ 204 }
    {
        match self {
            PacketSize::Of188 => PACKET_LEN,
            PacketSize::Of204 => PACKET_LEN + PASSED_OVER,
        }
    }
}
