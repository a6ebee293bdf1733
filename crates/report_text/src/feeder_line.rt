// Lines of the feeder without their places. They are the same on each node, so each is made once.
ghost use Rattle.std.specs.Prelude.{◌≡◌, ◌+◌, ◌<◌, ◌≤◌, length, IfSome};
ghost use Rattle.report_text.specs.Imports.{Appended, pass_act};
ghost use Rattle.report_text.specs.Inside.Turns.{tail_text};

use crate::acts::{add_field, add_pass};
use crate::replies::add_word;
use dmx_calls::limits::DEMUX_NODES;
use dmx_calls::{Fed, Histories, Input};
use std::alloc::{AllocError as NoMemory, Global};
use std::marker::Model;

// The room for such a line, in bytes: most have 40 to 55.
const ROOM_BEHIND_PLACE: usize = 64;

/// The line of a batch that passes, without its place: its step, the batch, and the text. A contract sees the text.
#[derive(Drop)]
pub struct FeederLine {
    step: usize,
    fed: Fed,
    text: Vec<u8>,
}

impl Model for FeederLine {
    ghost use Rattle.std.specs.Prelude.{◌≡◌, ◌≤◌, ℕ, List, length};
    ghost use Rattle.dmx_calls.specs.Histories.{pass_act};
    ghost use Rattle.report_text.specs.Inside.Turns.{tail_text};

    ghost Value = { List ℕ };

    ghost view = { λ l. l.text.items };

    ghost invariant = { λ l. (l.text.items ≡ tail_text l.step (pass_act l.fed)) × (length l.text.items ≤ 160) };
}

// What stands behind the place in the line of a batch that passes.
#[tactic(auto, unfolding(crate::specs::Acts::act_text, crate::specs::Replies::response_text))]
fn write_tail(out: &mut Vec<u8>, step: usize, fed: Fed) -> Result<(), NoMemory>
    ensures { Appended 160 (tail_text step (pass_act fed)) out.old out.new result }
{
    add_field(out, b" feed ", step as u64)?;
    out.extend_from_slice(b" ")?;
    add_pass(out, Input::Frontend, fed.first, fed.count, fed.now)?;
    add_word(out, b" = passed", "\n")
}

impl FeederLine {
    // The line of this step.
    fn of(alloc: Global, step: usize, fed: Fed) -> Result<FeederLine, NoMemory> {
        let mut text = Vec::with_capacity(alloc, ROOM_BEHIND_PLACE)?;
        write_tail(&mut text, step, fed)?;
        Ok(FeederLine { step, fed, text })
    }

    // Its text, where it is the line of this step and of this batch.
    fn text_of(&self, step: usize, fed: Fed) -> Option<&[u8]>
        ensures text { IfSome result (λ text. text.now ≡ tail_text step (pass_act fed)) }
        ensures short { IfSome result (λ text. length text.now ≤ 160) }
    {
        let own = &self.fed;
        if self.step == step
            && own.first == fed.first
            && own.count == fed.count
            && own.now == fed.now
        {
            Some(&self.text)
        } else {
            None
        }
    }
}

/// What stands behind the place in the line of a batch that passes: copied where one of these lines has it.
pub fn add_pass_tail(
    out: &mut Vec<u8>,
    lines: &[FeederLine],
    step: usize,
    fed: Fed,
) -> Result<(), NoMemory>
    ensures { Appended 160 (tail_text step (pass_act fed)) out.old out.new result }
{
    if let Some(line) = lines.get(step) {
        if let Some(text) = line.text_of(step, fed) {
            return out.extend_from_slice(text);
        }
    }
    write_tail(out, step, fed)
}

// Whether a client made a call.
fn is_any_called(histories: &Histories) -> bool {
    'nodes: for node in 0..DEMUX_NODES + 1 {
        let (_, calls) = histories.node(node);
        if !calls.is_empty() {
            return true;
        }
    }
    false
}

/// The lines of all batches; none where no client made a call.
pub fn feeder_lines(alloc: Global, histories: &Histories) -> Result<Vec<FeederLine>, NoMemory> {
    let mut lines = Vec::new(alloc);
    if !is_any_called(histories) {
        return Ok(lines);
    }
    let (feeding, _) = histories.node(0);
    'batches: for (step, fed) in feeding.iter().enumerate() {
        lines.push(FeederLine::of(alloc, step, *fed)?)?;
    }
    Ok(lines)
}
