// Where the packets of a batch are gathered.
ghost use Rattle.std.specs.Prelude.{◌≡◌, ◌≤◌, [], length, take, drop, All, OnOk, OnErr};
ghost use Rattle.ts_packet.specs.Fields.{IsPacket};
ghost use Rattle.ts_batch.specs.Room.{Gathered};

use std::alloc::{AllocError as NoMemory, Global};
use std::marker::Model;
use std::mem;
use ts_packet::{Packet, PacketRoom};

/// Packets that are gathered for a batch, which then takes the memory that they stand in. Room for a number of them is
/// taken before the first. A contract sees the packets, and how many there is room for.
#[derive(Drop)]
pub struct BatchRoom {
    packets: Vec<Packet>,
    most: usize,
}

impl Model for BatchRoom {
    ghost use Rattle.std.specs.Prelude.{◌≤◌, vec_capacity};
    ghost use Rattle.ts_batch.specs.Room.{Gathered, IsGathered};

    ghost Value = { Gathered };

    ghost view = { λ r. record { packets = r.packets.items; most = r.most } };

    ghost invariant = { λ r. IsGathered (record { packets = r.packets.items; most = r.most })
        × (r.most ≤ vec_capacity r.packets) };
}

impl BatchRoom {
    /// No packets, and room for none.
    pub fn new(alloc: Global) -> BatchRoom
        ensures { result ≡ record { packets = []; most = 0 } }
    {
        BatchRoom {
            packets: Vec::new(alloc),
            most: 0,
        }
    }

    /// Takes memory so that there is room for so many packets in all. Where it is refused, there is room for as many as
    /// before.
    pub fn make_room(&mut self, most: u32) -> Result<(), NoMemory>
        requires { most ≤ 64 }
        ensures packets { self.new.packets ≡ self.old.packets }
        ensures most { OnOk result (self.new.most ≡ most) }
        ensures refused { OnErr result (self.new.most ≡ self.old.most) }
    {
        let most = most as usize;
        self.packets
            .reserve_exact(most.saturating_sub(self.packets.len()))?;
        self.most = most;
        Ok(())
    }

    /// How many packets are in it: at most 64.
    pub fn len(&self) -> u32
        ensures value { result ≡ length self.now.packets }
        ensures fits { result ≤ 64 }
    {
        self.packets.len() as u32
    }

    /// The packets behind the first `count`.
    pub fn behind(&self, count: u32) -> &[Packet]
        requires { count ≤ length self.now.packets }
        ensures value { result.now ≡ drop count self.now.packets }
        ensures fits { length self.now.packets ≤ 64 }
    {
        &self.packets[count as usize..]
    }

    // The packets.
    pub(crate) fn as_slice(&self) -> &[Packet]
        ensures value { result.now ≡ self.now.packets }
        ensures fits { length self.now.packets ≤ 64 }
        ensures packets { All IsPacket self.now.packets }
    {
        &self.packets
    }

    // Drops so many packets in front.
    pub(crate) fn drop_front(&mut self, count: u32)
        requires { count ≤ length self.old.packets }
        ensures { self.new ≡ record { packets = drop count self.old.packets; most = self.old.most } }
    {
        let count = count as usize;
        let left = self.packets.len() - count;
        self.packets.rotate_left(count);
        self.packets.truncate(left);
    }

    // Gives the packets away, with their memory.
    pub(crate) fn take(&mut self, alloc: Global) -> Vec<Packet>
        ensures packets { result.items ≡ self.old.packets }
        ensures empty { self.new ≡ record { packets = []; most = 0 } }
    {
        self.most = 0;
        mem::replace(&mut self.packets, Vec::new(alloc))
    }

    // Takes these packets back, at most 64, where it has none. There is room for no more, until it is made.
    pub(crate) fn put_back(&mut self, packets: Vec<Packet>)
        requires fits { length packets.items ≤ 64 }
        requires packets { All IsPacket packets.items }
        ensures { self.new ≡ record { packets = packets.items; most = 0 } }
    {
        self.packets = packets;
        self.most = 0;
    }
}

impl PacketRoom for BatchRoom {
    ghost packets = { λ r. r.packets };

    ghost most = { λ r. r.most };

    fn is_full(&self) -> bool {
        self.packets.len() >= self.most
    }

    fn push(&mut self, packet: Packet) {
        // So that it is known that these bytes are a packet.
        let _ = packet.bytes();
        if self.packets.push(packet).is_err() {
            unreachable!()
        }
    }
}
