// The histories of the nodes, as they are written.
ghost use Rattle.std.specs.Prelude.{◌+◌, ◌^◌, ◌<◌, ◌≤◌, ◌++◌, [], ℕ, length, map, drop, codes, IfOk, OnOk, OnErr};
ghost use Rattle.report_text.specs.Imports.{HasCause, feeder_acts, feeder_entries, feeder_entry, flat_map, node_text, told_entry, woven};
ghost use Rattle.report_text.specs.Entries.{entry_text, history_text, histories_text};
ghost use Rattle.report_text.specs.Inside.Pieces.{Adds, AddsPart, AddsSome};
ghost use Rattle.report_text.specs.Inside.Turns.{turn, BreaksBefore, Told};

use crate::buffer::{Waiting, write_piece};
use crate::entries::{add_entry, add_node_line, add_turn, is_called};
use crate::feeder_line::FeederLine;
use dmx_calls::limits::DEMUX_NODES;
use dmx_calls::{Entry, Fed, Histories};
use emu_io::{Failed, Sink};

// The line of a client's call.
#[tactic(auto, using(crate::proofs::Pieces::line_added, crate::proofs::Pieces::line_failed))]
fn write_entry<K: Sink>(sink: &mut K, waiting: &mut Waiting, entry: &Entry) -> Result<(), Failed>
    ensures adds { OnOk result
        (Adds (K.end sink.old).written (K.end sink.new).written waiting.old waiting.new (entry_text (told_entry entry.now))) }
    ensures part { OnErr result
        (AddsPart (K.end sink.old).written (K.end sink.new).written waiting.old (entry_text (told_entry entry.now))) }
    ensures cause { HasCause (K.end sink.old).faults (K.end sink.new).faults result }
{
    match add_entry(&mut waiting.bytes, entry) {
        Ok(()) => write_piece(sink, &mut waiting.bytes),
        Err(_) => unreachable!(),
    }
}

// The line of a call of the feeder.
#[tactic(auto, using(crate::proofs::Pieces::line_added, crate::proofs::Pieces::line_failed))]
fn write_turn<K: Sink>(
    sink: &mut K,
    waiting: &mut Waiting,
    feeding: &[Fed],
    lines: &[FeederLine],
    place: u64,
    step: usize,
) -> Result<(), Failed>
    ensures adds { OnOk result (Adds (K.end sink.old).written (K.end sink.new).written waiting.old waiting.new
        (entry_text (feeder_entry 0 place step (turn feeding.now step)))) }
    ensures part { OnErr result (AddsPart (K.end sink.old).written (K.end sink.new).written waiting.old
        (entry_text (feeder_entry 0 place step (turn feeding.now step)))) }
    ensures cause { HasCause (K.end sink.old).faults (K.end sink.new).faults result }
{
    match add_turn(&mut waiting.bytes, feeding, lines, place, step) {
        Ok(()) => write_piece(sink, &mut waiting.bytes),
        Err(_) => unreachable!(),
    }
}

// The feeder's calls from this step on that stand before a client's entry at this place, where so many entries of
// clients are told. It answers the step that comes next.
fn write_turns_before<K: Sink>(
    sink: &mut K,
    waiting: &mut Waiting,
    feeding: &[Fed],
    lines: &[FeederLine],
    told: usize,
    place: u64,
    step: usize,
) -> Result<usize, Failed>
    requires told { told < 2 ^ 63 }
    requires step { step ≤ length feeding.now + 1 }
    ensures step { IfOk result (λ next. next ≤ length feeding.now + 1) }
    ensures adds { IfOk result (λ next. AddsSome (K.end sink.old).written (K.end sink.new).written waiting.old waiting.new
        (Told feeding.now told place step next [])) }
    ensures part { OnErr result
        (BreaksBefore feeding.now told place step (AddsPart (K.end sink.old).written (K.end sink.new).written waiting.old)) }
    ensures cause { HasCause (K.end sink.old).faults (K.end sink.new).faults result }
{
    let mut next = step;
    'turns: while next <= feeding.len() && told as u64 + (next as u64) < place {
        write_turn(
            sink,
            waiting,
            feeding,
            lines,
            told as u64 + next as u64,
            next,
        )?;
        next += 1;
    }
    Ok(next)
}

// The feeder's calls from this step on, where the entries of all clients are told.
fn write_turns_behind<K: Sink>(
    sink: &mut K,
    waiting: &mut Waiting,
    feeding: &[Fed],
    lines: &[FeederLine],
    told: usize,
    step: usize,
) -> Result<(), Failed>
    requires told { told < 2 ^ 63 }
    requires step { step ≤ length feeding.now + 1 }
    ensures adds { OnOk result ((node : ℕ)
        → Adds (K.end sink.old).written (K.end sink.new).written waiting.old waiting.new
        (flat_map entry_text (feeder_entries node (told + step) step (drop step (feeder_acts feeding.now))))) }
    ensures part { OnErr result ((node : ℕ)
        → AddsPart (K.end sink.old).written (K.end sink.new).written waiting.old
        (flat_map entry_text (feeder_entries node (told + step) step (drop step (feeder_acts feeding.now))))) }
    ensures cause { HasCause (K.end sink.old).faults (K.end sink.new).faults result }
{
    let mut next = step;
    'turns: while next <= feeding.len() {
        write_turn(
            sink,
            waiting,
            feeding,
            lines,
            told as u64 + next as u64,
            next,
        )?;
        next += 1;
    }
    Ok(())
}

// The lines of a node.
fn write_entries<K: Sink>(
    sink: &mut K,
    waiting: &mut Waiting,
    feeding: &[Fed],
    lines: &[FeederLine],
    calls: &[Entry],
) -> Result<(), Failed>
    ensures adds { OnOk result ((node : ℕ)
        → Adds (K.end sink.old).written (K.end sink.new).written waiting.old waiting.new
        (flat_map entry_text (woven node (feeder_acts feeding.now) (map told_entry calls.now)))) }
    ensures part { OnErr result ((node : ℕ)
        → AddsPart (K.end sink.old).written (K.end sink.new).written waiting.old
        (flat_map entry_text (woven node (feeder_acts feeding.now) (map told_entry calls.now)))) }
    ensures cause { HasCause (K.end sink.old).faults (K.end sink.new).faults result }
{
    let mut step = 0;
    'calls: for told in 0..calls.len() {
        let call = &calls[told];
        step = write_turns_before(sink, waiting, feeding, lines, told, call.place, step)?;
        write_entry(sink, waiting, call)?;
    }
    write_turns_behind(sink, waiting, feeding, lines, calls.len(), step)
}

// The line of a node.
#[tactic(auto, using(crate::proofs::Pieces::line_added, crate::proofs::Pieces::line_failed))]
fn write_node<K: Sink>(sink: &mut K, waiting: &mut Waiting, node: u32) -> Result<(), Failed>
    ensures adds { OnOk result (Adds (K.end sink.old).written (K.end sink.new).written waiting.old waiting.new
        (codes "node " ++ (node_text node ++ codes "\n"))) }
    ensures part { OnErr result (AddsPart (K.end sink.old).written (K.end sink.new).written waiting.old
        (codes "node " ++ (node_text node ++ codes "\n"))) }
    ensures cause { HasCause (K.end sink.old).faults (K.end sink.new).faults result }
{
    match add_node_line(&mut waiting.bytes, node) {
        Ok(()) => write_piece(sink, &mut waiting.bytes),
        Err(_) => unreachable!(),
    }
}

// A node with its entries in order of place; nothing where no client called it.
fn write_history<K: Sink>(
    sink: &mut K,
    waiting: &mut Waiting,
    node: u32,
    feeding: &[Fed],
    lines: &[FeederLine],
    calls: &[Entry],
) -> Result<(), Failed>
    ensures adds { OnOk result (Adds (K.end sink.old).written (K.end sink.new).written waiting.old waiting.new
        (history_text node (woven node (feeder_acts feeding.now) (map told_entry calls.now)))) }
    ensures part { OnErr result (AddsPart (K.end sink.old).written (K.end sink.new).written waiting.old
        (history_text node (woven node (feeder_acts feeding.now) (map told_entry calls.now)))) }
    ensures cause { HasCause (K.end sink.old).faults (K.end sink.new).faults result }
{
    if !is_called(calls) {
        return Ok(());
    }
    write_node(sink, waiting, node)?;
    write_entries(sink, waiting, feeding, lines, calls)
}

/// The nodes that a client called, with their entries.
pub fn write_histories<K: Sink>(
    sink: &mut K,
    waiting: &mut Waiting,
    lines: &[FeederLine],
    histories: &Histories,
) -> Result<(), Failed>
    ensures adds { OnOk result
        (Adds (K.end sink.old).written (K.end sink.new).written waiting.old waiting.new (histories_text 0 histories.now)) }
    ensures part { OnErr result
        (AddsPart (K.end sink.old).written (K.end sink.new).written waiting.old (histories_text 0 histories.now)) }
    ensures cause { HasCause (K.end sink.old).faults (K.end sink.new).faults result }
{
    'nodes: for node in 0..DEMUX_NODES + 1 {
        let (feeding, calls) = histories.node(node);
        write_history(sink, waiting, node, feeding, lines, calls)?;
    }
    Ok(())
}
