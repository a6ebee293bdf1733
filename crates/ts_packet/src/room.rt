// What a cutter fills.
ghost use Rattle.std.specs.Prelude.{◌≡◌, ℕ, ◌<◌, ◌↔◌, List, [], ◌∷◌, ◌++◌, length, IsFalse};

use crate::Packet;

/// What a cutter puts packets into: it has room for a number of packets, and keeps them in order.
pub trait PacketRoom {
    /// The packets in it, in order, each as the list of its bytes.
    ghost packets: { Self → List (List ℕ) };

    /// The number of packets that it has room for.
    ghost most: { Self → ℕ };

    /// Whether it has room for no packet behind those in it.
    fn is_full(&self) -> bool
        ensures { IsFalse result ↔ (length (packets self.now) < most self.now) };

    /// Puts a packet behind those in it. It isn't full.
    fn push(&mut self, packet: Packet)
        requires room { length (packets self.old) < most self.old }
        ensures appended { packets self.new ≡ packets self.old ++ packet ∷ [] }
        // It has room for as many as before.
        ensures size { most self.new ≡ most self.old };
}
