// What is kept of one PID.
ghost use Rattle.std.specs.Prelude.{◌≡◌, ◌+◌, ◌<◌, ◌^◌};
ghost use Rattle.ts_packet.specs.Fields.{pid_of};
ghost use Rattle.ts_watch.specs.Watching.{IsSeen, nothing, after};

use ts_packet::Packet;

/// What was counted of the packets of one PID. The breaks and the duplicates are 0 for null packets.
#[derive(Clone, Copy, Debug, PartialEq, Eq, Drop)]
pub struct PidRow {
    /// How many packets there were.
    pub packets: u64,
    /// How many clean packets don't join the clean packet before them: their continuity counter doesn't go on.
    pub breaks: u64,
    /// How many packets with a payload and without an error repeat the clean packet before them.
    pub duplicates: u64,
    /// How many packets have the error bit.
    pub errors: u64,
}

// The PID of null packets.
const NULL_PID: u16 = 0x1fff;

/// The counts of a PID, and its last clean packet.
#[derive(Drop)]
pub struct Seen {
    pub pid: u16,
    pub row: PidRow,
    pub last: Option<Packet>,
}

impl Seen {
    /// No packet of the PID was seen.
    pub fn new(pid: u16) -> Seen
        ensures { result ≡ nothing pid }
    {
        Seen {
            pid,
            row: PidRow {
                packets: 0,
                breaks: 0,
                duplicates: 0,
                errors: 0,
            },
            last: None,
        }
    }

    /// Counts a packet of the PID.
    #[tactic(auto, unfolding(crate::specs::Watching::after))]
    pub fn take(&mut self, packet: &Packet)
        requires few { self.old.row.packets < 2 ^ 63 }
        requires sound { IsSeen self.old }
        ensures value { self.new ≡ after self.old packet.now }
        ensures pid { self.new.pid ≡ self.old.pid }
        ensures packets { self.new.row.packets ≡ self.old.row.packets + 1 }
        ensures sound { IsSeen self.new }
    {
        self.row.packets += 1;
        if packet.error() {
            self.row.errors += 1;
            return;
        }
        if self.pid == NULL_PID || packet.payload().is_none() {
            return;
        }
        match &self.last {
            Some(before) if packet.repeats(before) => {
                self.row.duplicates += 1;
                return;
            }
            Some(before) if !packet.joins(before) => self.row.breaks += 1,
            _ => {}
        }
        self.last = Some(*packet);
    }
}
