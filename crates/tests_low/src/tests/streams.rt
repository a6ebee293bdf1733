// Batches, sets of PIDs, and streams in memory that are pulled.

ghost use Rattle.std.specs.Prelude.{◌≡◌, [], length, IfOk, IfSome};
ghost use Rattle.ts_packet.specs.Cut.{cut};
ghost use Rattle.feed_pull.specs.Pulling.{Pulls, fault_of};
ghost use Rattle.feed_pull.specs.declared.fault.Reading.TheVariants.{Going};

use super::NoMemory;
use emu_io::{MemSource, Source};
use feed_pull::{PullFault, Puller};
use pid_set::{KeptPids, Pids, PidsFull};
use std::alloc::Global;
use ts_batch::Batch;
use ts_packet::{PACKET_LEN, Packet, PacketBuf, PacketRoom, PacketSize, Tally};
use ts_watch::PidRow;

// Puts 64 packets into a buffer: those in the places 0, 31 and 63 have PID 256, and the others PID 17.
fn put_64(packets: &mut PacketBuf) {
    for place in 0..64u32 {
        let mut bytes = [0; PACKET_LEN];
        let front = match place {
            0 | 31 | 63 => [0x47, 0x01, 0x00],
            _ => [0x47, 0x00, 0x11],
        };
        bytes[..3].copy_from_slice(&front);
        if !packets.is_full() {
            packets.push(Packet::of(bytes).unwrap_or_default());
        }
    }
}

// Whether a batch of these packets, from number 7 on, has the places of each PID, and of all packets.
fn has_places(alloc: Global) -> Result<bool, NoMemory> {
    let mut packets = PacketBuf::new();
    put_64(&mut packets);
    if packets.len() == 0 {
        return Ok(false);
    }
    let batch = Batch::of(alloc, 7, &packets)?;
    Ok(
        batch.first() == 7
            && batch.count() == 64
            && batch.places(256) == [0u8, 31, 63].as_slice()
            && batch.places(17).len() == 61
            && batch.places(257).is_empty()
            && batch.places(8192).len() == 64,
    )
}

// Whether a set of two PIDs is kept as it is, and a clone of it too; and the words where a set is full.
fn are_kept(alloc: Global) -> Result<bool, NoMemory> {
    let mut set = Pids::of(256);
    let is_new = set.add(17) == Ok(true);
    let clone = set.clone()?;
    let words = format!(in alloc; "{PidsFull}")?;
    Ok(
        is_new
            && KeptPids::of(alloc, &set)?.set() == set
            && clone == set
            && words.as_str() == "the set of PIDs is full",
    )
}

#[test]
fn batches_and_sets_are_as_they_were_made(rt: HostRuntime) {
    assert_eq!(rt; has_places(rt.alloc()), Ok(true));
    assert_eq!(rt; are_kept(rt.alloc()), Ok(true));
}

// 200,000 bytes: 1063 packets of PID 0 without a payload, and the first 156 bytes of one more.
fn long_stream(alloc: Global) -> Result<Vec<u8>, NoMemory> {
    let mut bytes = vec![in alloc; 0u8; 200_000]?;
    for (place, byte) in bytes.iter_mut().enumerate() {
        if place % PACKET_LEN == 0 {
            *byte = 0x47;
        }
    }
    Ok(bytes)
}

// How the long stream is pulled, by 64 packets at most: how many reads were made before, how many pulls are made at most, and
// which reads fail.
type Pulling = (u64, usize, &'static [u64]);

// How many packets come, why reading stopped, how many bytes the source has left, and, once a pull gives none, the bytes of rest
// that are told beside these packets.
type Pulled = (u32, Option<PullFault>, usize, Option<u32>);

static ROWS: [(Pulling, Pulled); 5] = [
    // No more is read than is asked for: a read gives at most 65,536 bytes, which have 348 packets and 112 bytes.
    ((0, 5, &[]), (320, None, 134_464, None)),
    ((0, 6, &[]), (384, None, 68_928, None)),
    // To its end.
    ((0, 20, &[]), (1063, None, 0, Some(156))),
    // The second read fails, and the source isn't read any more.
    (
        (0, 20, &[1]),
        (348, Some(PullFault::ReadFault), 134_464, Some(112)),
    ),
    // All reads but one were made before.
    (
        (4_294_967_295, 20, &[]),
        (
            348,
            Some(PullFault::TooLong {
                turns: 4_294_967_296,
            }),
            134_464,
            Some(112),
        ),
    ),
];

// A puller, and the source that it pulls from.
#[derive(Drop)]
struct PulledStream {
    puller: Puller,
    source: MemSource,
}

// A source of the long stream that gives all that is asked for.
fn source_of(alloc: Global, fails: &[u64]) -> Result<MemSource, NoMemory> {
    let bytes = long_stream(alloc)?;
    Ok(MemSource::new(bytes, 1_000_000, fails.to_vec(alloc)?))
}

// The stream of a row. Reads beyond the bound are taken for as many as the bound.
fn stream_of(alloc: Global, pulling: &Pulling) -> Result<PulledStream, NoMemory> {
    let turns = pulling.0.min(4_294_967_296);
    let puller = Puller::new(alloc, Vec::new(alloc), turns, PacketSize::Of188)?;
    let source = source_of(alloc, pulling.2)?;
    Ok(PulledStream { puller, source })
}

impl PulledStream {
    // How many packets so many pulls give at most, and the tally and the rows of PIDs once a pull gives none.
    fn pulled(&mut self, alloc: Global, pulls: usize) -> Result<(u32, Option<ToldHead>), NoMemory> {
        let mut packets = 0u32;
        'pulls: for _pull in 0..pulls {
            match self.puller.pull(&mut self.source, 64)? {
                None => {
                    let head = self.puller.head(alloc)?;
                    return Ok((packets, Some((head.tally, head.rows))));
                }
                Some(batch) => packets = packets.saturating_add(batch.count()),
            }
        }
        Ok((packets, None))
    }
}

// A tally, and the rows of PIDs.
type ToldHead = (Tally, Vec<(u16, PidRow)>);

// Whether so many packets, all of PID 0, and these bytes of rest are told; or nothing is.
fn is_told(told: &Option<ToldHead>, packets: u32, rest: Option<u32>) -> bool {
    let packets = packets as u64;
    match (told, rest) {
        (Some((tally, rows)), Some(rest)) => {
            let want = Tally {
                packets,
                skipped: 0,
                rest,
            };
            let row = PidRow {
                packets,
                breaks: 0,
                duplicates: 0,
                errors: 0,
            };
            *tally == want && rows.as_slice() == [(0, row)].as_slice()
        }
        (None, None) => true,
        _ => false,
    }
}

// How many bytes a source has left.
fn left_of(source: &mut MemSource, room: &mut [u8]) -> usize {
    if room.is_empty() {
        return 0;
    }
    source.read(room).unwrap_or(0)
}

// Whether the long stream is pulled as the row says.
fn is_pulled(alloc: Global, row: &(Pulling, Pulled)) -> Result<bool, NoMemory> {
    let (pulling, (packets, fault, left, rest)) = row;
    let mut stream = stream_of(alloc, pulling)?;
    let mut room = vec![in alloc; 0u8; 200_000]?;
    let (came, told) = stream.pulled(alloc, pulling.1)?;
    Ok(
        came == *packets
            && is_told(&told, *packets, *rest)
            && stream.puller.fault() == *fault
            && left_of(&mut stream.source, &mut room) == *left,
    )
}

// How many packets the stream of a puller has that has begun with no bytes ahead: where no fault stopped reading, those of
// all that the source had.
fn count_all<S: Source>(puller: &mut Puller, source: &mut S) -> Result<u64, NoMemory>
    requires begins { Pulls [] [] [] puller.old }
    requires going { puller.old.reading ≡ Going }
    ensures { IfOk result (λ count. fault_of puller.new.reading ≡ None
        → IfSome (S.end source.old).left (λ input. count ≡ length (cut puller.old.cutting.size input).packets)) }
{
    let mut count = 0u64;
    'all: while let Some(batch) = puller.pull(source, 64)? {
        count += batch.count() as u64;
    }
    Ok(count)
}

// How many packets the long stream has by the count.
fn counted(alloc: Global) -> Result<u64, NoMemory> {
    let mut source = source_of(alloc, &[])?;
    let mut puller = Puller::new(alloc, Vec::new(alloc), 0, PacketSize::Of188)?;
    count_all(&mut puller, &mut source)
}

#[test]
fn streams_are_pulled_as_the_rows_say(rt: HostRuntime) {
    for (number, row) in ROWS.iter().enumerate() {
        assert_eq!(rt; is_pulled(rt.alloc(), row), Ok(true), "{number}");
    }
    assert_eq!(rt; counted(rt.alloc()), Ok(1063));
}
