// Laws of the definitions: the function does nothing, and its contract is the laws.
ghost use Rattle.client_core.specs.PlayLaws.{AreJoined, AreCounted, AreCompleted, AreFew, ArePlaced};

/// What the batches of writes are.
pub fn plays_law()
    // Joined, they are the packets of the bytes of all writes.
    ensures joined { AreJoined }
    // There is one for each write.
    ensures counted { AreCounted }
    // Each has just the packets whose last byte its write brings.
    ensures completed { AreCompleted }
    // Each has 1 to 64 packets, where no write is too long.
    ensures few { AreFew }
    // Each is the stretch of all packets that begins with its first.
    ensures placed { ArePlaced }
{}
