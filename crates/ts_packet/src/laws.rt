// Laws of the definitions: each function does nothing, and its contract is the law.
ghost use Rattle.std.specs.Prelude.{◌≡◌, ℕ, List, ◌++◌};
ghost use Rattle.ts_packet.specs.Cut.{cut, join};
ghost use Rattle.ts_packet.specs.Pieces.{Piece, IsMadeOf, IsCutOf};

use crate::PacketSize;

/// What cutting means for the stream. A piece of a stream is a packet, which has 188 bytes and begins with 0x47, with
/// the bytes behind it that it takes up besides, none or 16; or one byte that isn't 0x47. A rest is empty, or has fewer
/// bytes than a packet takes up and begins with 0x47.
pub fn cutting_law()
    // Each stream is pieces one after another and then a rest, and its cutting has the packets, the number of skipped
    // bytes and the rest of these.
    ensures made { (size : PacketSize) (stream : List ℕ) → (pieces : List Piece) × (rest : List ℕ)
        × IsMadeOf size stream pieces rest × IsCutOf pieces rest (cut size stream) }
    // No stream is made of pieces and a rest in two ways.
    ensures unique { (size : PacketSize) (stream : List ℕ) (pieces others : List Piece) (rest left : List ℕ)
        → IsMadeOf size stream pieces rest → IsMadeOf size stream others left → (pieces ≡ others) × (rest ≡ left) }
    // Cutting in two goes gives the same: first the one stretch, then its rest with the other behind it.
    ensures apart { (size : PacketSize) (one other : List ℕ)
        → cut size (one ++ other) ≡ join (cut size one) (cut size ((cut size one).rest ++ other)) }
{}
