// The report, as it is written.
ghost use Rattle.std.specs.Prelude.{◌≡◌, ◌+◌, ◌<◌, ◌++◌, [], map, codes, OnOk, OnErr, IsErrOf};
ghost use Rattle.report_text.specs.Imports.{Appends, HasCause, decimal, flat_map, told_head};
ghost use Rattle.report_text.specs.Report.{tally_text, row_text, outcome_text, client_text, clients_text, end_text, report_of};
ghost use Rattle.report_text.specs.Inside.Pieces.{Adds, AddsPart};

use crate::buffer::{Waiting, flush, write_piece};
use crate::feeder_line::{FeederLine, feeder_lines};
use crate::histories::write_histories;
use crate::whole::{add_client_line, add_end, add_first, add_outcome, add_row};
use dmx_calls::{Histories, Outcome};
use emu_io::{Failed, Sink};
use std::alloc::Global;
use thiserror::Error;
use ts_watch::{Head, PidRow};

/// Why a report isn't written whole.
#[derive(Clone, Copy, Debug, PartialEq, Eq, Drop, Error)]
pub enum ReportError {
    /// Memory was refused. Nothing was written.
    #[error("out of memory")]
    NoMemory,
    /// A write failed. A part of the report was written, from the front on.
    #[error("write failed")]
    Failed,
}

// The first line, and the line of the whole stream.
#[tactic(auto, using(crate::proofs::Pieces::line_added, crate::proofs::Pieces::line_failed))]
fn write_first<K: Sink>(sink: &mut K, waiting: &mut Waiting, head: &Head) -> Result<(), Failed>
    ensures adds { OnOk result (Adds (K.end sink.old).written (K.end sink.new).written waiting.old waiting.new
        (codes "dvbemu 1\n" ++ tally_text head.now.tally)) }
    ensures part { OnErr result (AddsPart (K.end sink.old).written (K.end sink.new).written waiting.old
        (codes "dvbemu 1\n" ++ tally_text head.now.tally)) }
    ensures cause { HasCause (K.end sink.old).faults (K.end sink.new).faults result }
{
    match add_first(&mut waiting.bytes, head) {
        Ok(()) => write_piece(sink, &mut waiting.bytes),
        Err(_) => unreachable!(),
    }
}

// The line of a PID.
#[tactic(auto, using(crate::proofs::Pieces::line_added, crate::proofs::Pieces::line_failed))]
fn write_row<K: Sink>(
    sink: &mut K,
    waiting: &mut Waiting,
    row: &(u16, PidRow),
) -> Result<(), Failed>
    ensures adds { OnOk result
        (Adds (K.end sink.old).written (K.end sink.new).written waiting.old waiting.new (row_text row.now)) }
    ensures part { OnErr result (AddsPart (K.end sink.old).written (K.end sink.new).written waiting.old (row_text row.now)) }
    ensures cause { HasCause (K.end sink.old).faults (K.end sink.new).faults result }
{
    match add_row(&mut waiting.bytes, row) {
        Ok(()) => write_piece(sink, &mut waiting.bytes),
        Err(_) => unreachable!(),
    }
}

// The lines of all PIDs.
fn write_rows<K: Sink>(
    sink: &mut K,
    waiting: &mut Waiting,
    rows: &[(u16, PidRow)],
) -> Result<(), Failed>
    ensures adds { OnOk result
        (Adds (K.end sink.old).written (K.end sink.new).written waiting.old waiting.new (flat_map row_text rows.now)) }
    ensures part { OnErr result
        (AddsPart (K.end sink.old).written (K.end sink.new).written waiting.old (flat_map row_text rows.now)) }
    ensures cause { HasCause (K.end sink.old).faults (K.end sink.new).faults result }
{
    'rows: for row in rows {
        write_row(sink, waiting, row)?;
    }
    Ok(())
}

// The line of a command of a client.
#[tactic(auto, using(crate::proofs::Pieces::line_added, crate::proofs::Pieces::line_failed))]
fn write_outcome<K: Sink>(
    sink: &mut K,
    waiting: &mut Waiting,
    outcome: &Outcome,
) -> Result<(), Failed>
    ensures adds { OnOk result
        (Adds (K.end sink.old).written (K.end sink.new).written waiting.old waiting.new (outcome_text outcome.now)) }
    ensures part { OnErr result
        (AddsPart (K.end sink.old).written (K.end sink.new).written waiting.old (outcome_text outcome.now)) }
    ensures cause { HasCause (K.end sink.old).faults (K.end sink.new).faults result }
{
    match add_outcome(&mut waiting.bytes, outcome) {
        Ok(()) => write_piece(sink, &mut waiting.bytes),
        Err(_) => unreachable!(),
    }
}

// The lines of a client's commands.
fn write_outcomes<K: Sink>(
    sink: &mut K,
    waiting: &mut Waiting,
    outcomes: &[Outcome],
) -> Result<(), Failed>
    ensures adds { OnOk result
        (Adds (K.end sink.old).written (K.end sink.new).written waiting.old waiting.new (flat_map outcome_text outcomes.now)) }
    ensures part { OnErr result
        (AddsPart (K.end sink.old).written (K.end sink.new).written waiting.old (flat_map outcome_text outcomes.now)) }
    ensures cause { HasCause (K.end sink.old).faults (K.end sink.new).faults result }
{
    'outcomes: for outcome in outcomes {
        write_outcome(sink, waiting, outcome)?;
    }
    Ok(())
}

// The line of a client.
#[tactic(auto, using(crate::proofs::Pieces::line_added, crate::proofs::Pieces::line_failed))]
fn write_client_line<K: Sink>(
    sink: &mut K,
    waiting: &mut Waiting,
    client: usize,
) -> Result<(), Failed>
    ensures adds { OnOk result (Adds (K.end sink.old).written (K.end sink.new).written waiting.old waiting.new
        (codes "client " ++ (decimal client ++ codes "\n"))) }
    ensures part { OnErr result (AddsPart (K.end sink.old).written (K.end sink.new).written waiting.old
        (codes "client " ++ (decimal client ++ codes "\n"))) }
    ensures cause { HasCause (K.end sink.old).faults (K.end sink.new).faults result }
{
    match add_client_line(&mut waiting.bytes, client) {
        Ok(()) => write_piece(sink, &mut waiting.bytes),
        Err(_) => unreachable!(),
    }
}

// A client with its commands in their order.
fn write_client<K: Sink>(
    sink: &mut K,
    waiting: &mut Waiting,
    client: usize,
    outcomes: &[Outcome],
) -> Result<(), Failed>
    ensures adds { OnOk result
        (Adds (K.end sink.old).written (K.end sink.new).written waiting.old waiting.new (client_text client outcomes.now)) }
    ensures part { OnErr result
        (AddsPart (K.end sink.old).written (K.end sink.new).written waiting.old (client_text client outcomes.now)) }
    ensures cause { HasCause (K.end sink.old).faults (K.end sink.new).faults result }
{
    write_client_line(sink, waiting, client)?;
    write_outcomes(sink, waiting, outcomes)
}

// All clients with their commands.
fn write_clients<K: Sink>(
    sink: &mut K,
    waiting: &mut Waiting,
    outcomes: &[Vec<Outcome>],
) -> Result<(), Failed>
    ensures adds { OnOk result (Adds (K.end sink.old).written (K.end sink.new).written waiting.old waiting.new
        (clients_text 0 (map (λ o. o.items) outcomes.now))) }
    ensures part { OnErr result (AddsPart (K.end sink.old).written (K.end sink.new).written waiting.old
        (clients_text 0 (map (λ o. o.items) outcomes.now))) }
    ensures cause { HasCause (K.end sink.old).faults (K.end sink.new).faults result }
{
    'clients: for client in 0..outcomes.len() {
        write_client(sink, waiting, client, &outcomes[client])?;
    }
    Ok(())
}

// The last line, and all that waits.
#[tactic(auto, using(crate::proofs::Pieces::line_added, crate::proofs::Pieces::line_failed))]
fn write_end<K: Sink>(sink: &mut K, waiting: &mut Waiting, read_fault: bool) -> Result<(), Failed>
    ensures adds { OnOk result
        (Adds (K.end sink.old).written (K.end sink.new).written waiting.old waiting.new (end_text read_fault)) }
    ensures part { OnErr result (AddsPart (K.end sink.old).written (K.end sink.new).written waiting.old (end_text read_fault)) }
    ensures none { OnOk result (waiting.new ≡ []) }
    ensures cause { HasCause (K.end sink.old).faults (K.end sink.new).faults result }
{
    match add_end(&mut waiting.bytes, read_fault) {
        Ok(()) => flush(sink, &mut waiting.bytes),
        Err(_) => unreachable!(),
    }
}

// The lines of a report, where nothing waits.
fn write_lines<K: Sink>(
    sink: &mut K,
    waiting: &mut Waiting,
    lines: &[FeederLine],
    head: &Head,
    outcomes: &[Vec<Outcome>],
    histories: &Histories,
) -> Result<(), Failed>
    ensures adds { OnOk result (Adds (K.end sink.old).written (K.end sink.new).written waiting.old []
        (report_of (told_head head.now) (map (λ o. o.items) outcomes.now) histories.now)) }
    ensures part { OnErr result (AddsPart (K.end sink.old).written (K.end sink.new).written waiting.old
        (report_of (told_head head.now) (map (λ o. o.items) outcomes.now) histories.now)) }
    ensures cause { HasCause (K.end sink.old).faults (K.end sink.new).faults result }
{
    write_first(sink, waiting, head)?;
    write_rows(sink, waiting, &head.rows)?;
    write_clients(sink, waiting, outcomes)?;
    write_histories(sink, waiting, lines, histories)?;
    write_end(sink, waiting, head.read_fault)
}

/// Writes the report of a run: what was found in its stream, what became of each client's commands in the order of the
/// clients, and the histories of the nodes that a client called. It is written as it is told, in pieces of at most 65,536
/// bytes. All memory is taken before the first byte is written.
///
/// # Errors
///
/// `NoMemory` where memory was refused; the sink is then as it was. `Failed` where a write failed: a part of the report was
/// written, from the front on, and after the failed write nothing more.
pub fn write_report<K: Sink>(
    alloc: Global,
    sink: &mut K,
    head: &Head,
    outcomes: &[Vec<Outcome>],
    histories: &Histories,
) -> Result<(), ReportError>
    ensures whole { OnOk result (Appends (K.end sink.old).written (K.end sink.new).written
        (report_of (told_head head.now) (map (λ o. o.items) outcomes.now) histories.now)) }
    ensures steady { OnOk result ((K.end sink.new).faults ≡ (K.end sink.old).faults) }
    ensures refused { IsErrOf result ReportError.NoMemory → sink.new ≡ sink.old }
    ensures part { IsErrOf result ReportError.Failed
        → AddsPart (K.end sink.old).written (K.end sink.new).written []
        (report_of (told_head head.now) (map (λ o. o.items) outcomes.now) histories.now) }
    ensures rose { IsErrOf result ReportError.Failed → (K.end sink.new).faults ≡ (K.end sink.old).faults + 1 }
{
    let Ok(mut waiting) = Waiting::new(alloc) else {
        return Err(ReportError::NoMemory);
    };
    let Ok(lines) = feeder_lines(alloc, histories) else {
        return Err(ReportError::NoMemory);
    };
    match write_lines(sink, &mut waiting, &lines, head, outcomes, histories) {
        Ok(()) => Ok(()),
        Err(_) => Err(ReportError::Failed),
    }
}
