//! Batches: stretches of a stream's packets that pass the nodes together.
//!
//! A batch has 1 to 64 packets and the number of its first packet in the stream. It is shared behind an `Arc` and never changed.
//! A `BatchRoom` gathers packets, as a cutter finds them, in the memory that becomes the batch's.
//!
//! What a contract sees: the record of `first` and the list of `packets`, each packet as the list of its bytes; a `BatchRoom` as
//! the list of its packets and how many it has room for; a `PlaceSet` as a list of marks, one for each place.
//!
//! What is proved: `Batch::of`, `Batch::of_slice` and `Batch::of_front` give the batch of these packets, or answer want of
//! memory; `of_front` leaves just the other packets in the room, and all where memory was refused. `places` gives the places of
//! the packets that a PID names, ascending: those that have it, and all for PID 0x2000. A `PlaceSet` collects such places: `add`
//! for a PID, `add_all` for each PID of a set. Every packet has 188 bytes with the sync byte in front. `packet` raises the
//! counter of steps by one, `add_to`, which puts all packets behind others, by one for each, and there is no other way to a
//! packet's bytes: so the counter bounds how many were looked at.
//!
//! What is only tested, in `tests_low`: the places of the PIDs of a batch of 64 packets. The size of a batch and the steps are
//! this project's rules.
#![tactic(auto)]

mod index;
mod place_set;
mod room;

ghost use Rattle.std.specs.Prelude.{◌≡◌, ◌<◌, ◌≤◌, ◌+◌, ◌^◌, ◌++◌, [], length, take, drop, All, IfOk, OnOk, OnErr, slice_get};
ghost use Rattle.ts_packet.specs.Fields.{IsPacket};
ghost use Rattle.ts_batch.specs.Batch.{IsBatch};
ghost use Rattle.ts_batch.specs.Places.{places_of};

use index::Index;
use machine::steps::Steps;
pub use place_set::PlaceSet;
pub use room::BatchRoom;
use std::alloc::{AllocError as NoMemory, Global};
use std::marker::Model;
use std::sync::Arc;
use std::sync::ledger::Ledger;
use ts_packet::{Packet, PacketBuf};

/// 1 to 64 packets that pass the nodes together.
#[derive(Drop)]
pub struct Batch {
    first: u64,
    packets: Vec<Packet>,
    index: Index,
}

impl Model for Batch {
    ghost use Rattle.ts_batch.specs.Batch.{Packets};

    ghost Value = { Packets };

    ghost view = { λ b. record { first = b.first; packets = b.packets.items } };

    ghost use Rattle.ts_batch.specs.Inside.BatchHolds.{BatchHolds};

    ghost invariant = { BatchHolds };
}

impl Batch {
    /// The batch of the packets in the buffer, the first of which has the number `first` in the stream. The buffer has
    /// at least one packet, and the numbers fit in 64 bits.
    pub fn of(alloc: Global, first: u64, packets: &PacketBuf) -> Result<Arc<Batch>, NoMemory>
        requires some { 0 < length packets.now }
        requires numbered { first + 64 < 2 ^ 64 }
        ensures { IfOk result (λ batch. batch.value ≡ record { first = first; packets = packets.now }) }
    {
        Batch::of_slice(alloc, first, packets.as_slice())
    }

    /// The batch of these packets, 1 to 64, the first of which has the number `first` in the stream. The numbers fit in 64
    /// bits. Each packet is copied once.
    pub fn of_slice(alloc: Global, first: u64, packets: &[Packet]) -> Result<Arc<Batch>, NoMemory>
        requires some { 0 < length packets.now }
        requires few { length packets.now ≤ 64 }
        requires packets { All IsPacket packets.now }
        requires numbered { first + 64 < 2 ^ 64 }
        ensures { IfOk result (λ batch. batch.value ≡ record { first = first; packets = packets.now }) }
    {
        let mut copied = Vec::with_capacity(alloc, packets.len())?;
        copied.extend_from_slice(packets)?;
        let batch = Batch {
            first,
            packets: copied,
            index: Index::of(alloc, packets)?,
        };
        Ok(Arc::new(alloc, batch)?)
    }

    /// The batch of the first `count` packets of the room, 1 to all of them, the first of which has the number `first` in
    /// the stream. The numbers fit in 64 bits. Where the room has no more, its memory becomes the batch's and no packet is
    /// copied; else each of these is copied once more, and the others stay. Where memory is refused, all stay. Room has to be
    /// made anew before the next packet.
    pub fn of_front(
        alloc: Global,
        first: u64,
        room: &mut BatchRoom,
        count: u32,
    ) -> Result<Arc<Batch>, NoMemory>
        requires some { 0 < count }
        requires within { count ≤ length room.old.packets }
        requires numbered { first + 64 < 2 ^ 64 }
        ensures batch { IfOk result (λ batch. batch.value ≡ record { first = first; packets = take count room.old.packets }) }
        ensures given { OnOk result (room.new.packets ≡ drop count room.old.packets) }
        ensures refused { OnErr result (room.new.packets ≡ room.old.packets) }
        ensures most { room.new.most ≤ room.old.most }
    {
        if count < room.len() {
            let batch = Batch::of_slice(alloc, first, &room.as_slice()[..count as usize])?;
            room.drop_front(count);
            return Ok(batch);
        }
        Batch::of_room(alloc, first, room)
    }

    // The batch of all packets of the room, which takes their memory.
    fn of_room(alloc: Global, first: u64, room: &mut BatchRoom) -> Result<Arc<Batch>, NoMemory>
        requires some { 0 < length room.old.packets }
        requires numbered { first + 64 < 2 ^ 64 }
        ensures batch { IfOk result (λ batch. batch.value ≡ record { first = first; packets = room.old.packets }) }
        ensures given { OnOk result (room.new.packets ≡ []) }
        ensures refused { OnErr result (room.new.packets ≡ room.old.packets) }
        ensures most { room.new.most ≤ room.old.most }
    {
        let index = Index::of(alloc, room.as_slice())?;
        let packets = room.take(alloc);
        match Arc::new(
            alloc,
            Batch {
                first,
                packets,
                index,
            },
        ) {
            Ok(batch) => Ok(batch),
            Err(refused) => {
                room.put_back(refused.value.packets);
                Err(NoMemory)
            }
        }
    }

    /// The number of the batch's first packet in the stream, counted from 0.
    pub fn first(&self) -> u64
        ensures value { result ≡ self.now.first }
        ensures batch { IsBatch self.now }
    {
        self.first
    }

    /// How many packets the batch has: 1 to 64.
    pub fn count(&self) -> u32
        ensures value { result ≡ length self.now.packets }
        ensures some { 0 < result }
        ensures few { result ≤ 64 }
        ensures batch { IsBatch self.now }
    {
        self.packets.len() as u32
    }

    /// The packet in place `i`, counted from 0. It takes one step.
    pub fn packet<L: Ledger>(&self, i: u32, steps: &mut Steps<L>) -> &Packet
        requires { i < length self.now.packets }
        ensures at { slice_get self.now.packets i ≡ Some result.now }
        ensures packet { IsPacket result.now }
        ensures cost { steps.new ≡ steps.old + 1 }
    {
        steps.tick();
        &self.packets[i as usize]
    }

    /// Puts the batch's packets behind these, which stay as they were where memory is refused. It takes a step for each packet.
    pub fn add_to<L: Ledger>(
        &self,
        packets: &mut Vec<Packet>,
        looks: &mut Steps<L>,
    ) -> Result<(), NoMemory>
        ensures added { OnOk result (packets.new.items ≡ packets.old.items ++ self.now.packets) }
        ensures refused { OnErr result (packets.new.items ≡ packets.old.items) }
        ensures cost { looks.new ≡ looks.old + length self.now.packets }
    {
        'packets: for _ in 0..self.packets.len() {
            looks.tick();
        }
        packets.extend_from_slice(&self.packets)
    }

    /// The places of the packets of a PID, ascending, each counted from 0; of all packets for PID 0x2000. It takes no step.
    pub fn places(&self, pid: u16) -> &[u8]
        ensures value { result.now ≡ places_of pid self.now.packets }
        ensures batch { IsBatch self.now }
    {
        'runs: for run in &self.index.runs {
            if run.pid == pid {
                return &self.index.places[run.from..run.to];
            }
        }
        &[]
    }
}
