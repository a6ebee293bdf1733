//! What the dvr node records after each attach and detach, also by those that no request makes: of several PIDs, of another
//! client's demux node, of a node that there isn't. Worked out by hand from the rules.
ghost use Rattle.std.specs.Prelude.{◌≡◌, ◌<◌};
ghost use Rattle.dvr_core.specs.Examples.{ThreeOf64, EachOnce, All64, NoLook};

use super::ends::{FIRST, Part, input_of};
use dmx_calls::{Answer, ByteBuf, Call, Input, Reply, Tap};
use dvr_core::DvrCore;
use machine::Machine;
use machine::steps::Steps;
use pid_set::Pids;
use std::alloc::{AllocError as NoMemory, Global};
use std::marker::Brand;
use std::sync::Arc;
use std::sync::ledger::{Blank, Ledger};
use ts_batch::Batch;
use ts_packet::{Cutter, PacketBuf, PacketSize};

// Packets whose payload is zeros: the PIDs 0, 257 and 8191.
const ZEROTH: Part = (b"\x47\x00\x00\x10", 184, 0);

const OTHER: Part = (b"\x47\x01\x01\x10", 184, 0);

const LAST: Part = (b"\x47\x1f\xff\x10", 184, 0);

const ALL: &[Part] = &[ZEROTH, FIRST, OTHER, LAST];

// A client attaches a demux node's tap with these PIDs, or detaches it; of packets of PID 0, 256, 257, 8191 these are recorded.
type TapRow = (u32, u32, Option<&'static [u16]>, &'static [Part]);

static ROWS: [TapRow; 28] = [
    // Two owners in turn: who comes late detaches nothing of the other's.
    (1, 0, Some(&[256]), &[FIRST]),
    (2, 0, Some(&[256]), &[FIRST]),
    (1, 0, None, &[FIRST]),
    (2, 0, None, &[]),
    (1, 0, Some(&[256]), &[FIRST]),
    (1, 0, None, &[]),
    // A new tap replaces the old one, and one without PIDs names nothing.
    (1, 7, Some(&[256]), &[FIRST]),
    (1, 7, Some(&[257]), &[OTHER]),
    (1, 7, Some(&[]), &[]),
    (1, 7, Some(&[0, 257, 8191]), &[ZEROTH, OTHER, LAST]),
    (1, 7, None, &[]),
    // Each node has its own, and a packet is recorded once.
    (1, 0, Some(&[256]), &[FIRST]),
    (1, 31, Some(&[257]), &[FIRST, OTHER]),
    (2, 30, Some(&[256]), &[FIRST, OTHER]),
    (1, 30, None, &[FIRST, OTHER]),
    (1, 0, None, &[FIRST, OTHER]),
    (2, 30, None, &[OTHER]),
    (1, 31, None, &[]),
    // PID 0x2000 names every packet.
    (1, 1, Some(&[256]), &[FIRST]),
    (1, 2, Some(&[17, 0x2000]), ALL),
    (1, 1, None, ALL),
    (1, 2, None, &[]),
    // There are the nodes 0 to 31.
    (1, 32, Some(&[0x2000]), &[]),
    (1, 4_294_967_295, Some(&[0x2000]), &[]),
    (1, 0, Some(&[256]), &[FIRST]),
    (1, 32, None, &[FIRST]),
    (1, 4_294_967_295, None, &[FIRST]),
    (1, 1, None, &[FIRST]),
];

// The batch that passes.
fn passing(alloc: Global) -> Result<Option<Arc<Batch>>, NoMemory> {
    let bytes = input_of(alloc, "", ALL)?;
    let mut packets = PacketBuf::new();
    if bytes.len() <= 64 * 188 {
        Cutter::new(PacketSize::Of188).push(&bytes, &mut packets);
    }
    if packets.len() == 0 {
        return Ok(None);
    }
    Ok(Some(Batch::of(alloc, 0, &packets)?))
}

// A set of these PIDs.
fn pids_of(named: &[u16]) -> Pids {
    let mut pids = Pids::new();
    for pid in named {
        let _ = pids.add(*pid);
    }
    pids
}

// The call of a row.
fn call_of(row: &TapRow) -> Call {
    let (_, node, named, _) = *row;
    match named {
        None => Call::Detach { node },
        Some(named) => Call::Attach {
            node,
            pids: pids_of(named),
        },
    }
}

// A node, and how many calls were made on it.
#[derive(Drop)]
struct CountedNode<M: Machine<Call = Call, Answer = Answer> + Drop, L: Ledger> {
    node: M,
    steps: Steps<L>,
    made: u64,
    ghost counted: { M.entries node ≡ made },
}

impl<M: Machine<Call = Call, Answer = Answer> + Drop, L: Ledger> CountedNode<M, L> {
    // The reply to a call, of which at most 1000 are made.
    fn ask(&mut self, who: u32, call: Call) -> Option<Reply> {
        if self.made >= 1000 {
            return None;
        }
        let answer = self.node.apply(who, call, &mut self.steps);
        self.made += 1;
        Some(answer.reply)
    }

    // Whether a row is answered and recorded as it says.
    fn meets(&mut self, alloc: Global, row: &TapRow) -> Result<bool, NoMemory> {
        let done = self.ask(row.0, call_of(row));
        let Some(batch) = passing(alloc)? else {
            return Ok(false);
        };
        self.ask(
            0,
            Call::Pass {
                input: Input::Frontend,
                batch,
                now: 0,
            },
        );
        let room = ByteBuf::new(alloc, 65_536)?;
        let read = self.ask(1, Call::Read { now: 0, room });
        let wanted = input_of(alloc, "", row.3)?;
        let is_recorded = match read {
            Some(Reply::Data(buf)) => buf.bytes() == wanted.as_slice(),
            Some(Reply::Again { ended: false }) => wanted.is_empty(),
            _ => false,
        };
        Ok(is_recorded && matches!(done, Some(Reply::Done { tap: Tap::Keep, .. })))
    }
}

// The place of the first row that isn't as it says, with the ledger of the steps; the owner opens the node before.
fn find_odd<M: Machine<Call = Call, Answer = Answer> + Drop, L: Ledger>(
    alloc: Global,
    node: M,
    blank: Blank,
) -> Result<Option<usize>, NoMemory>
    requires new { M.entries node ≡ 0 }
    requires ledger { (blank.name ≡ L.name) × (blank.parts ≡ L.parts) × (0 < L.parts) }
{
    let mut run: CountedNode<M, L> = CountedNode {
        node,
        steps: Steps::new(blank),
        made: 0,
    };
    run.ask(1, Call::Open);
    for (place, row) in ROWS.iter().enumerate() {
        if !run.meets(alloc, row)? {
            return Ok(Some(place));
        }
    }
    Ok(None)
}

// How many of 64 packets a pass looks at, at most. The clauses are computed by the check: it has nothing to do.
fn looks_at_64_packets()
    ensures three { ThreeOf64 }
    ensures once { EachOnce }
    ensures all { All64 }
    ensures none { NoLook }
{}

#[test]
fn each_tap_names_its_packets(rt: HostRuntime) {
    looks_at_64_packets();
    let node = DvrCore::new(rt.alloc());
    assert_eq!(rt; node.entries(), 0);
    let odd = find_odd::<DvrCore, Brand>(rt.alloc(), node, Blank::new(1));
    assert_eq!(rt; odd, Ok(None));
}
