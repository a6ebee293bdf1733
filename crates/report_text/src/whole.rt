// The lines of a report but for those of the nodes.
ghost use Rattle.std.specs.Prelude.{◌≡◌, ◌+◌, ◌<◌, ◌++◌, map, codes, OnOk};
ghost use Rattle.report_text.specs.Imports.{Appended, decimal, flat_map};
ghost use Rattle.report_text.specs.Report.{tally_text, row_text, kind_text, outcome_text, client_text, clients_text, end_text};

use crate::acts::add_field;
use dmx_calls::{Outcome, OutcomeKind};
use std::alloc::AllocError as NoMemory;
use ts_packet::Tally;
use ts_watch::{Head, PidRow};

// How many packets, skipped bytes and bytes of rest the stream has.
fn add_tally(out: &mut Vec<u8>, tally: &Tally) -> Result<(), NoMemory>
    ensures { Appended 100 (tally_text tally.now) out.old out.new result }
{
    add_field(out, b"packets=", tally.packets)?;
    add_field(out, b" skipped=", tally.skipped)?;
    add_field(out, b" rest=", tally.rest as u64)?;
    out.extend_from_slice(b"\n")
}

/// The packets of a PID.
pub fn add_row(out: &mut Vec<u8>, row: &(u16, PidRow)) -> Result<(), NoMemory>
    ensures { Appended 160 (row_text row.now) out.old out.new result }
{
    let (pid, counts) = row;
    add_field(out, b"pid ", *pid as u64)?;
    add_field(out, b" packets=", counts.packets)?;
    add_field(out, b" breaks=", counts.breaks)?;
    add_field(out, b" duplicates=", counts.duplicates)?;
    add_field(out, b" errors=", counts.errors)?;
    out.extend_from_slice(b"\n")
}

// The packets of each PID.
fn add_rows(out: &mut Vec<u8>, rows: &[(u16, PidRow)]) -> Result<(), NoMemory>
    ensures { OnOk result (out.new.items ≡ out.old.items ++ flat_map row_text rows.now) }
{
    'rows: for row in rows {
        add_row(out, row)?;
    }
    Ok(())
}

// How a command ended.
#[tactic(auto, unfolding(crate::specs::Report::kind_text))]
fn add_kind(out: &mut Vec<u8>, kind: OutcomeKind) -> Result<(), NoMemory>
    ensures { Appended 60 (kind_text kind) out.old out.new result }
{
    match kind {
        OutcomeKind::Done => out.extend_from_slice(b"done"),
        OutcomeKind::Emfile => out.extend_from_slice(b"EMFILE"),
        OutcomeKind::Unbound => out.extend_from_slice(b"unbound"),
        OutcomeKind::Stc { base, value } => {
            add_field(out, b"stc base=", base as u64)?;
            add_field(out, b" value=", value)
        }
        OutcomeKind::NoStc => out.extend_from_slice(b"nostc"),
    }
}

/// A command of a client.
pub fn add_outcome(out: &mut Vec<u8>, outcome: &Outcome) -> Result<(), NoMemory>
    ensures { Appended 140 (outcome_text outcome.now) out.old out.new result }
{
    add_field(out, b"line ", outcome.line as u64)?;
    add_field(out, b" steps ", outcome.from)?;
    add_field(out, b"..", outcome.to)?;
    out.extend_from_slice(b" ")?;
    add_kind(out, outcome.kind)?;
    out.extend_from_slice(b"\n")
}

// The commands of a client.
fn add_outcomes(out: &mut Vec<u8>, outcomes: &[Outcome]) -> Result<(), NoMemory>
    ensures { OnOk result (out.new.items ≡ out.old.items ++ (codes "\n" ++ flat_map outcome_text outcomes.now)) }
{
    out.extend_from_slice(b"\n")?;
    'outcomes: for outcome in outcomes {
        add_outcome(out, outcome)?;
    }
    Ok(())
}

// A client with its commands in their order.
fn add_client(out: &mut Vec<u8>, client: usize, outcomes: &[Outcome]) -> Result<(), NoMemory>
    ensures { OnOk result (out.new.items ≡ out.old.items ++ client_text client outcomes.now) }
{
    add_field(out, b"client ", client as u64)?;
    add_outcomes(out, outcomes)
}

/// All clients with their commands.
pub fn add_clients(out: &mut Vec<u8>, outcomes: &[Vec<Outcome>]) -> Result<(), NoMemory>
    ensures { OnOk result (out.new.items ≡ out.old.items ++ clients_text 0 (map (λ o. o.items) outcomes.now)) }
{
    'clients: for client in 0..outcomes.len() {
        add_client(out, client, &outcomes[client])?;
    }
    Ok(())
}

/// The last line.
#[tactic(auto, unfolding(crate::specs::Report::end_text))]
pub fn add_end(out: &mut Vec<u8>, read_fault: bool) -> Result<(), NoMemory>
    ensures { Appended 20 (end_text read_fault) out.old out.new result }
{
    if read_fault {
        out.extend_from_slice(b"fault read\n")
    } else {
        out.extend_from_slice(b"end\n")
    }
}

/// The first line, the stream and its PIDs.
pub fn add_head(out: &mut Vec<u8>, head: &Head) -> Result<(), NoMemory>
    ensures { OnOk result (out.new.items
        ≡ out.old.items ++ (codes "dvbemu 1\n" ++ (tally_text head.now.tally ++ flat_map row_text head.now.rows.items))) }
{
    out.extend_from_slice(b"dvbemu 1\n")?;
    add_tally(out, &head.tally)?;
    add_rows(out, &head.rows)
}

/// The first line, and the line of the whole stream.
pub fn add_first(out: &mut Vec<u8>, head: &Head) -> Result<(), NoMemory>
    ensures { Appended 110 (codes "dvbemu 1\n" ++ tally_text head.now.tally) out.old out.new result }
{
    out.extend_from_slice(b"dvbemu 1\n")?;
    add_tally(out, &head.tally)
}

/// The line of a client.
pub fn add_client_line(out: &mut Vec<u8>, client: usize) -> Result<(), NoMemory>
    ensures { Appended 30 (codes "client " ++ (decimal client ++ codes "\n")) out.old out.new result }
{
    add_field(out, b"client ", client as u64)?;
    out.extend_from_slice(b"\n")
}
