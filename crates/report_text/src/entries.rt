// The lines that tell the calls of a node.
ghost use Rattle.std.specs.Prelude.{◌≡◌, ◌+◌, ◌<◌, ◌++◌, map, codes};
ghost use Rattle.report_text.specs.Imports.{Appended, End as EndAct, feeder_entry, list_any, node_text, told_entry};
ghost use Rattle.report_text.specs.Entries.{caller_text, entry_text, is_of_client};
ghost use Rattle.report_text.specs.Inside.Turns.{tail_text, turn};

use crate::acts::{add_act, add_field};
use crate::feeder_line::{FeederLine, add_pass_tail};
use crate::replies::add_reply;
use dmx_calls::{Entry, Fed};
use std::alloc::AllocError as NoMemory;
use text_forms::{write_decimal, write_node, write_who};

// `PLACE WHO STEP` and a space.
#[tactic(auto, unfolding(crate::specs::Entries::caller_text))]
fn add_caller(out: &mut Vec<u8>, place: u64, who: u32, step: u64) -> Result<(), NoMemory>
    ensures { Appended 70 (caller_text place who step) out.old out.new result }
{
    write_decimal(out, place)?;
    out.extend_from_slice(b" ")?;
    write_who(out, who)?;
    out.extend_from_slice(b" ")?;
    write_decimal(out, step)?;
    out.extend_from_slice(b" ")
}

/// `PLACE WHO STEP ACT = REPLY` and a line feed.
pub fn add_entry(out: &mut Vec<u8>, entry: &Entry) -> Result<(), NoMemory>
    ensures { Appended 134000 (entry_text (told_entry entry.now)) out.old out.new result }
{
    add_caller(out, entry.place, entry.who, entry.step)?;
    add_act(out, &entry.act)?;
    out.extend_from_slice(b" = ")?;
    add_reply(out, &entry.reply)?;
    out.extend_from_slice(b"\n")
}

// What stands behind the place in the line that tells the end of the stream.
#[tactic(auto, unfolding(crate::specs::Acts::act_text, crate::specs::Replies::response_text))]
fn add_end_tail(out: &mut Vec<u8>, step: usize) -> Result<(), NoMemory>
    ensures { Appended 60 (tail_text step EndAct) out.old out.new result }
{
    add_field(out, b" feed ", step as u64)?;
    out.extend_from_slice(b" end = passed\n")
}

// What stands behind the place in the line of a call of the feeder: a batch that passes, or behind the last one the end of
// the stream.
fn add_turn_tail(
    out: &mut Vec<u8>,
    feeding: &[Fed],
    lines: &[FeederLine],
    step: usize,
) -> Result<(), NoMemory>
    ensures { Appended 160 (tail_text step (turn feeding.now step)) out.old out.new result }
{
    match feeding.get(step) {
        Some(fed) => add_pass_tail(out, lines, step, *fed),
        None => add_end_tail(out, step),
    }
}

/// The line of a call of the feeder.
pub fn add_turn(
    out: &mut Vec<u8>,
    feeding: &[Fed],
    lines: &[FeederLine],
    place: u64,
    step: usize,
) -> Result<(), NoMemory>
    ensures { Appended 180 (entry_text (feeder_entry 0 place step (turn feeding.now step))) out.old out.new result }
{
    write_decimal(out, place)?;
    add_turn_tail(out, feeding, lines, step)
}

/// Whether a client made one of these calls.
pub fn is_called(calls: &[Entry]) -> bool
    ensures { result ≡ list_any is_of_client (map told_entry calls.now) }
{
    calls.iter().any(|entry| entry.who > 0)
}

/// The line of a node.
pub fn add_node_line(out: &mut Vec<u8>, node: u32) -> Result<(), NoMemory>
    ensures { Appended 40 (codes "node " ++ (node_text node ++ codes "\n")) out.old out.new result }
{
    out.extend_from_slice(b"node ")?;
    write_node(out, node)?;
    out.extend_from_slice(b"\n")
}
