// The continuity counters of the PIDs.
ghost use Rattle.std.specs.Prelude.{◌≡◌, ◌+◌, ◌%◌, ◌<◌};
ghost use Rattle.ts_make.specs.Inside.Counting.{AreSmall, counter_in, risen, all_zero};

use crate::kind::Kind;

/// The counter of the next packet of each kind, 0 to 15.
#[derive(Drop)]
pub struct Counters {
    pub association: u8,
    pub video: u8,
    pub audio: u8,
    pub service: u8,
    pub null: u8,
}

// Raises a counter, modulo 16, and answers what it was.
fn rise(counter: &mut u8) -> u8
    requires { counter.old < 16 }
    ensures was { result ≡ counter.old }
    ensures risen { counter.new ≡ (counter.old + 1) % 16 }
{
    let was = *counter;
    *counter = (was + 1) % 16;
    was
}

impl Counters {
    /// All at 0.
    pub fn new() -> Counters
        ensures { result ≡ all_zero }
    {
        Counters {
            association: 0,
            video: 0,
            audio: 0,
            service: 0,
            null: 0,
        }
    }

    /// The counter of the next packet of this kind.
    pub fn next(&mut self, kind: Kind) -> u8
        requires { AreSmall self.old }
        ensures was { result ≡ counter_in self.old kind }
        ensures risen { self.new ≡ risen self.old kind }
        ensures small { AreSmall self.new }
        ensures fits { result < 16 }
    {
        match kind {
            Kind::Association => rise(&mut self.association),
            Kind::Video => rise(&mut self.video),
            Kind::Audio => rise(&mut self.audio),
            Kind::Service => rise(&mut self.service),
            Kind::Null => rise(&mut self.null),
        }
    }
}
