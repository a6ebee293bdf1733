// Clients of a script in the memory that they need: calls, replies, what became of the commands, and batches of writes.

ghost use Rattle.std.specs.Prelude.{◌≡◌, ◌+◌, ◌<◌, ◌≤◌, length};

use super::NoMemory;
use client_core::dvr_play::{MOST_BYTES, Plays};
use client_core::{ClientCore, ClientRequest, Stop, call_of};
use client_script::{Script, Want};
use dmx_calls::{ByteBuf, Call, Outcome, OutcomeKind, Reply, SharedReply};
use std::alloc::Global;

// Whether the longest read comes with an empty buffer for its bytes, and what became of a client's command is copied as it is.
fn is_copied(alloc: Global) -> Result<bool, Stop> {
    let Ok(script) = Script::read(alloc, b"c0 stop n0\nstream\n") else {
        return Err(Stop::NoMemory);
    };
    let mut core = ClientCore::new(alloc, &script, 0)?;
    let call = call_of(alloc, &core, &ClientRequest::Own(Want::Read(65_536)), 9)?;
    if core.steps() > 0 {
        return Ok(false);
    }
    if core.next().is_none() {
        return Ok(false);
    }
    core.take(&Reply::Busy { owner: 1 });
    let stopped = Outcome {
        line: 1,
        from: 0,
        to: 1,
        kind: OutcomeKind::Done,
    };
    Ok(
        core.copied_outcomes(alloc)?.as_slice() == [stopped].as_slice()
            && matches!(&call, Call::Read { now: 9, room } if room.count() == 65_536 && room.bytes().is_empty()),
    )
}

// Whether a reply of five bytes that had room for more is kept with just its bytes.
fn is_fitted(alloc: Global) -> Result<bool, NoMemory> {
    let mut buf = ByteBuf::new(alloc, 200)?;
    buf.append(b"three");
    let kept = SharedReply::of(alloc, None, Reply::Data(buf))?;
    match kept.told() {
        Reply::Data(buf) => Ok(buf.count() == 5 && buf.bytes() == b"three".as_slice()),
        _ => Ok(false),
    }
}

// One write more: how many packets it completes.
fn push(alloc: Global, plays: &mut Plays, bytes: &[u8]) -> Result<u32, NoMemory>
    requires few { length plays.old.batches < 4 }
    ensures more { length plays.new.batches ≤ length plays.old.batches + 1 }
{
    if bytes.len() > MOST_BYTES {
        return Ok(0);
    }
    plays.push(alloc, bytes)
}

// Whether the write at this place has a batch of so many packets, from this number on.
fn is_batch(plays: &Plays, write: u32, first: u64, count: u32) -> bool
    requires few { length plays.now.batches ≤ 4 }
{
    write < plays.len()
        && matches!(plays.batch(write), Some(batch) if batch.first() == first && batch.count() == count)
}

// Whether the longest write, behind one that lacks a byte of a packet, completes 64 packets, and the byte behind it one more.
fn are_played(alloc: Global) -> Result<bool, NoMemory> {
    let bytes = vec![in alloc; 0x47u8; MOST_BYTES]?;
    let mut plays = Plays::new(alloc);
    let begun = push(alloc, &mut plays, bytes.get(..187).unwrap_or_default())?;
    let most = push(alloc, &mut plays, &bytes)?;
    let last = push(alloc, &mut plays, &[0x47])?;
    Ok(
        (begun, most, last) == (0, 64, 1)
            && is_batch(&plays, 1, 0, 64)
            && is_batch(&plays, 2, 64, 1),
    )
}

#[test]
fn clients_have_the_memory_that_they_need(rt: HostRuntime) {
    assert!(rt; is_copied(rt.alloc()) == Ok(true));
    assert_eq!(rt; is_fitted(rt.alloc()), Ok(true));
    assert_eq!(rt; are_played(rt.alloc()), Ok(true));
}
