// The feeder's call that the rules give at a place of a node. Nothing is claimed of it.
use crate::expected::{Expected, add_call};
use dmx_calls::{Act, BatchRange, Entry};
use std::alloc::{AllocError as NoMemory, Global};
use text_forms::{write_decimal, write_node};

// The most packets of a batch.
const MOST: u64 = 64;

const NOTHING_MORE: &[u8] = b"nothing more of the feeder";

// What the feeder has done before a place of a node: how many calls it has made, how many packets have passed, and whether it has
// ended.
#[derive(Drop)]
struct Feeding {
    calls: u64,
    packets: u64,
    has_ended: bool,
}

// What the feeder has done in the entries before this place.
fn feeding_before(entries: &[Entry], place: u64) -> Feeding {
    let mut feeding = Feeding {
        calls: 0,
        packets: 0,
        has_ended: false,
    };
    'entries: for entry in entries {
        if entry.who != 0 || entry.place >= place {
            continue;
        }
        feeding.calls = feeding.calls.saturating_add(1);
        match entry.act.act() {
            Act::Pass {
                batch: BatchRange { count, .. },
                ..
            } => feeding.packets = feeding.packets.saturating_add(u64::from(count)),
            _ => feeding.has_ended = true,
        }
    }
    feeding
}

// The next call of the feeder on the first node that is told.
fn next_feed(alloc: Global, feeding: &Feeding, packets: u64) -> Result<Vec<u8>, NoMemory> {
    let mut text = Vec::new(alloc);
    if feeding.has_ended {
        text.extend_from_slice(NOTHING_MORE)?;
        return Ok(text);
    }
    text.extend_from_slice(b"feed ")?;
    write_decimal(&mut text, feeding.calls)?;
    let left = packets.saturating_sub(feeding.packets);
    if left == 0 {
        text.extend_from_slice(b" end")?;
        return Ok(text);
    }
    text.extend_from_slice(b" pass input=frontend first=")?;
    write_decimal(&mut text, feeding.packets)?;
    text.extend_from_slice(b" count=1")?;
    if left > 1 {
        text.extend_from_slice(b" to ")?;
        write_decimal(&mut text, left.min(MOST))?;
    }
    text.extend_from_slice(b" at=..")?;
    Ok(text)
}

// The call of the feeder behind so many on the first node that is told.
fn call_of_first(
    alloc: Global,
    first: &(u32, Vec<Entry>),
    calls: u64,
) -> Result<Vec<u8>, NoMemory> {
    let mut text = Vec::new(alloc);
    let mut left = calls;
    'entries: for entry in &first.1 {
        if entry.who != 0 {
            continue;
        }
        if left == 0 {
            add_call(alloc, &mut text, 0, entry.step, entry.act.act())?;
            break;
        }
        left -= 1;
    }
    if text.is_empty() {
        text.extend_from_slice(NOTHING_MORE)?;
    }
    text.extend_from_slice(b", as on node ")?;
    write_node(&mut text, first.0)?;
    Ok(text)
}

/// The feeder's call at a place of a node, where the stream has so many packets. None where no such node is told.
pub fn expected_feed(
    alloc: Global,
    nodes: &[(u32, Vec<Entry>)],
    node: u32,
    place: u64,
    packets: u64,
) -> Result<Option<Expected>, NoMemory> {
    let [first, ..] = nodes else {
        return Ok(None);
    };
    'nodes: for told in nodes {
        if told.0 == node {
            let feeding = feeding_before(&told.1, place);
            let text = if node == first.0 {
                next_feed(alloc, &feeding, packets)?
            } else {
                call_of_first(alloc, first, feeding.calls)?
            };
            return Ok(Some(Expected::of(&text)));
        }
    }
    Ok(None)
}
