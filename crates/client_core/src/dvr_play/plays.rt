// The writes of one client, and their batches.
ghost use Rattle.std.specs.Prelude.{◌≡◌, ◌+◌, ◌<◌, ◌≤◌, ◌^◌, [], ◌∷◌, ◌++◌, List, ℕ, length, IfOk, OnOk, OnErr, slice_index_or, None, IsSome};
ghost use Rattle.client_core.specs.Imports.{Of188, cut, option_map};
ghost use Rattle.client_core.specs.Plays.{batch_of, with_write, unplayed, HasPlayed};

use arrayvec::ArrayVec;
use std::alloc::{AllocError as NoMemory, Global};
use std::marker::Model;
use std::sync::Arc;
use ts_batch::Batch;
use ts_packet::{Cutter, PACKET_LEN, PacketBuf, PacketSize};

/// The most bytes of a write: those of 64 packets.
pub const MOST_BYTES: usize = 12_032;

// The most bytes that are cut at a time: a packet that lacks its last byte, and a write.
const MOST_CUT: usize = PACKET_LEN - 1 + MOST_BYTES;

/// The writes of one client, and the batch of each. A contract sees the bytes of the packet that has begun, how many packets are
/// whole, and the batches.
#[derive(Drop)]
pub struct Plays {
    rest: ArrayVec<u8, 188>,
    count: u64,
    batches: Vec<Option<Arc<Batch>>>,
}

impl Model for Plays {
    ghost use Rattle.std.specs.Prelude.{◌≤◌, ◌<◌, ◌*◌, map, length};
    ghost use Rattle.std.specs.Option.{option_map};
    ghost use Rattle.client_core.specs.Plays.{Playing};

    ghost Value = { Playing };

    ghost view = { λ p. record {
      rest = p.rest.items;
      count = p.count;
      batches = map (option_map (λ b. b.value)) p.batches.items;
    } };

    ghost invariant = { λ p. (length p.rest.items < 188) × (p.count ≤ 64 * length p.batches.items) };
}

// Writes bytes behind the others, for which there is room.
fn put<const N: usize>(written: &mut ArrayVec<u8, N>, bytes: &[u8])
    requires { length written.old.items + length bytes.now ≤ N }
    ensures { written.new.items ≡ written.old.items ++ bytes.now }
{
    match written.try_extend_from_slice(bytes) {
        Ok(()) => (),
        Err(_) => unreachable!(),
    }
}

// These bytes, and those behind them.
fn joined(first: &[u8], behind: &[u8]) -> ArrayVec<u8, MOST_CUT>
    requires { length first.now + length behind.now ≤ 12219 }
    ensures { result.items ≡ first.now ++ behind.now }
{
    let mut joined = ArrayVec::new();
    put(&mut joined, first);
    put(&mut joined, behind);
    joined
}

// The packets of these bytes, and the bytes that are left behind them.
fn cut_all<'a>(bytes: &'a [u8], found: &mut PacketBuf) -> &'a [u8]
    requires few { length bytes.now ≤ 12219 }
    requires empty { found.old ≡ [] }
    ensures packets { found.new ≡ (cut Of188 bytes.now).packets }
    ensures rest { result.now ≡ (cut Of188 bytes.now).rest }
{
    let mut cutter = Cutter::new(PacketSize::Of188);
    let taken = cutter.push(bytes, found);
    // Behind 64 packets fewer bytes are left than a packet has.
    let mut none = PacketBuf::new();
    cutter.push(&bytes[taken..], &mut none);
    let rest = cutter.finish().rest as usize;
    &bytes[bytes.len() - rest..]
}

// The batch of these packets, if there are some.
fn batch(alloc: Global, first: u64, packets: &PacketBuf) -> Result<Option<Arc<Batch>>, NoMemory>
    requires { first < 2 ^ 63 }
    ensures { IfOk result (λ batch. option_map (λ b. b.value) batch ≡ batch_of first packets.now) }
{
    if packets.len() == 0 {
        return Ok(None);
    }
    Ok(Some(Batch::of(alloc, first, packets)?))
}

impl Plays {
    /// No write was made. No memory is taken.
    pub fn new(alloc: Global) -> Plays
        ensures unplayed { result ≡ unplayed }
        ensures played { HasPlayed [] result }
    {
        Plays {
            rest: ArrayVec::new(),
            count: 0,
            batches: Vec::new(alloc),
        }
    }

    /// How many writes were made.
    pub fn len(&self) -> u32
        requires { length self.now.batches < 4294967296 }
        ensures { result ≡ length self.now.batches }
    {
        self.batches.len() as u32
    }

    /// One write more, of at most 12,032 bytes. The answer is how many packets it completes; where memory is refused all is as it
    /// was.
    ///
    /// # Errors
    ///
    /// `NoMemory` where memory was refused.
    pub fn push(&mut self, alloc: Global, bytes: &[u8]) -> Result<u32, NoMemory>
        requires few { length bytes.now ≤ 12032 }
        requires room { length self.old.batches < 4294967295 }
        ensures played { OnOk result (self.new ≡ with_write bytes.now self.old) }
        ensures packets { IfOk result (λ n. n ≡ length (cut Of188 (self.old.rest ++ bytes.now)).packets) }
        ensures refused { OnErr result (self.new ≡ self.old) }
        // Over all writes: whatever was written before, these bytes are written behind it.
        ensures tied { (writes : List (List ℕ)) → HasPlayed writes self.old
            → OnOk result (HasPlayed (writes ++ bytes.now ∷ []) self.new) }
    {
        let joined = joined(self.rest.as_slice(), bytes);
        let mut found = PacketBuf::new();
        let rest = cut_all(joined.as_slice(), &mut found);
        self.batches.push(batch(alloc, self.count, &found)?)?;
        self.count += u64::from(found.len());
        self.rest.clear();
        put(&mut self.rest, rest);
        Ok(found.len())
    }

    /// The batch of a write; None exactly where the write completes no packet.
    pub fn batch(&self, write: u32) -> Option<&Arc<Batch>>
        requires { write < length self.now.batches }
        ensures { option_map (λ b. b.now.value) result ≡ slice_index_or self.now.batches write None }
    {
        self.batches[write as usize].as_ref()
    }
}
