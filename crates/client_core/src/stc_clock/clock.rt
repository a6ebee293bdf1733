// The clock of a stream that comes in pieces.
ghost use Rattle.std.specs.Prelude.{◌≡◌, ◌+◌, ◌^◌, ◌<◌, ◌≤◌, ℕ, List, [], ◌++◌, length};
ghost use Rattle.client_core.specs.Imports.{bytes_counted, option_or};
ghost use Rattle.client_core.specs.Clock.{last_pcr, clock_of, unset, HasFollowed};

use crate::stc_clock::reference::pcr;
use std::marker::Model;
use ts_packet::{Cutter, PacketBuf, PacketSize};

/// The clock of a stream that comes in pieces. A contract sees the cutting so far and the last program clock reference.
#[derive(Drop)]
pub struct StcClock {
    cutter: Cutter,
    last: Option<u64>,
}

impl Model for StcClock {
    ghost use Rattle.client_core.specs.Clock.{Clock};

    ghost Value = { Clock };

    ghost view = { λ c. record { cutting = c.cutter; last = c.last } };
}

// The last program clock reference that these packets have, or this one where they have none.
fn last_of(packets: &PacketBuf, before: Option<u64>) -> Option<u64>
    ensures { result ≡ option_or (last_pcr packets.now) before }
{
    let mut last = before;
    'packets: for packet in packets.as_slice() {
        if let Some(value) = pcr(packet) {
            last = Some(value);
        }
    }
    last
}

impl StcClock {
    /// A clock that has followed no byte.
    pub fn new() -> StcClock
        ensures unset { result ≡ unset }
        ensures followed { HasFollowed [] result }
    {
        StcClock {
            cutter: Cutter::new(PacketSize::Of188),
            last: None,
        }
    }

    /// Forgets all bytes, the first ones of a packet too: the next byte pushed is the first of a stream.
    pub fn clear(&mut self)
        ensures unset { self.new ≡ unset }
        ensures followed { HasFollowed [] self.new }
    {
        *self = StcClock::new();
    }

    /// Follows the next bytes, in a piece of any length. Fewer than 2^63 bytes are followed in one stream.
    pub fn push(&mut self, piece: &[u8])
        requires few { bytes_counted self.old.cutting + length piece.now < 2 ^ 63 }
        // Whatever bytes it has followed before, it has followed these behind them.
        ensures followed { (before : List ℕ) → HasFollowed before self.old → HasFollowed (before ++ piece.now) self.new }
        ensures counted { bytes_counted self.new.cutting ≤ bytes_counted self.old.cutting + length piece.now }
    {
        let mut found = PacketBuf::new();
        let mut taken = 0;
        'stretches: while taken < piece.len() {
            taken += self.cutter.push(&piece[taken..], &mut found);
            self.last = last_of(&found, self.last);
            found.clear();
        }
    }

    /// The program clock reference of the last packet that has one, in units of 27 MHz; None where no packet has one.
    pub fn value(&self) -> Option<u64>
        ensures value { result ≡ self.now.last }
        // It is the clock of all bytes that it has followed.
        ensures clock { (bytes : List ℕ) → HasFollowed bytes self.now → result ≡ clock_of bytes }
    {
        self.last
    }
}
