// The places of a batch's packets, by the PID that names them.
ghost use Rattle.std.specs.Prelude.{◌≡◌, ◌<◌, ◌≤◌, ◌+◌, ◌++◌, ◌∷◌, [], length, nat_eq, IfOk, OnOk};
ghost use Rattle.std.specs.List.{list_any};
ghost use Rattle.ts_batch.specs.Places.{places_of, names};
ghost use Rattle.ts_batch.specs.Inside.IsIndex.{IsIndex, has_run};

use pid_set::ALL_PACKETS;
use std::alloc::{AllocError as NoMemory, Global};
use ts_packet::Packet;

/// The places of a batch's packets. Those of each PID that a packet has stand together, ascending, and so do those of
/// PID 0x2000.
#[derive(Drop)]
pub struct Index {
    pub places: Vec<u8>,
    pub runs: Vec<Run>,
}

/// Where the places of a PID stand.
#[derive(Clone, Copy, Drop)]
pub struct Run {
    pub pid: u16,
    pub from: usize,
    pub to: usize,
}

impl Index {
    /// The index of at most 64 packets.
    pub fn of(alloc: Global, packets: &[Packet]) -> Result<Index, NoMemory>
        requires { length packets.now ≤ 64 }
        ensures { IfOk result (λ index. IsIndex packets.now index) }
    {
        let mut index = Index {
            places: Vec::with_capacity(alloc, 2 * packets.len())?,
            runs: Vec::with_capacity(alloc, 8)?,
        };
        index.list(ALL_PACKETS, packets)?;
        'packets: for packet in packets {
            let pid = packet.pid();
            if !index.has(pid) {
                index.list(pid, packets)?;
            }
        }
        Ok(index)
    }

    // Whether the places of a PID are there.
    fn has(&self, pid: u16) -> bool
        ensures { result ≡ has_run pid self.now.runs.items }
    {
        self.runs.iter().any(|run| run.pid == pid)
    }

    // Puts the places of the packets that a PID names.
    fn list(&mut self, pid: u16, packets: &[Packet]) -> Result<(), NoMemory>
        requires { length packets.now ≤ 64 }
        ensures places { OnOk result (self.new.places.items ≡ self.old.places.items ++ places_of pid packets.now) }
        ensures runs { OnOk result (self.new.runs.items ≡ self.old.runs.items
            ++ record { pid = pid; from = length self.old.places.items; to = length self.new.places.items } ∷ []) }
    {
        let from = self.places.len();
        put_places(&mut self.places, pid, packets)?;
        let to = self.places.len();
        self.runs.push(Run { pid, from, to })?;
        Ok(())
    }
}

// Appends the places of the packets that a PID names.
fn put_places(places: &mut Vec<u8>, pid: u16, packets: &[Packet]) -> Result<(), NoMemory>
    requires { length packets.now ≤ 64 }
    ensures { OnOk result (places.new.items ≡ places.old.items ++ places_of pid packets.now) }
{
    'packets: for (place, packet) in packets.iter().enumerate() {
        if is_named(packet, pid) {
            places.push(place as u8)?;
        }
    }
    Ok(())
}

// Whether a PID names a packet.
fn is_named(packet: &Packet, pid: u16) -> bool
    ensures { result ≡ names pid packet.now }
{
    pid == ALL_PACKETS || packet.pid() == pid
}
