// The whole report.
ghost use Rattle.std.specs.Prelude.{◌≡◌, ◌≤◌, ◌<◌, length, true, false, IfOk, IfSome, MatchOption};
ghost use Rattle.std.specs.Option.{option_map};
ghost use Rattle.report_read.specs.Inside.Reading.{Reads};
ghost use Rattle.report_read.specs.Inside.Whole.{end_in, first_in, told_in};
ghost use Rattle.report_read.specs.Report.{IsNoReport, IsReport, told_of};
ghost use Rattle.report_read.specs.Ranges.{IsTallyInRange, ArePartsInRange};

use crate::bytes::Bytes;
use crate::clients::read_clients;
use crate::nodes::read_nodes;
use crate::order::{are_nodes, are_rows};
use crate::spelled::is_spelled;
use crate::stream::{read_rows, read_tally};
use dmx_calls::{Entry, Outcome};
use std::alloc::{AllocError as NoMemory, Global};
use ts_packet::Tally;
use ts_watch::Head;

/// What a report tells.
#[derive(Drop)]
pub struct ReadReport {
    /// What was found in the stream.
    pub head: Head,
    /// What became of each client's commands, in the order of the clients.
    pub outcomes: Vec<Vec<Outcome>>,
    /// The nodes that a client called, ascending, each with its whole history in order of place.
    pub nodes: Vec<(u32, Vec<Entry>)>,
}

// The last line: whether the source failed in the stream.
#[tactic(auto, unfolding(crate::specs::Inside::Whole::end_in))]
fn read_end(bytes: &mut Bytes<'_>) -> Option<bool>
    ensures { Reads result bytes.new (end_in bytes.old) }
{
    if bytes.passes(b"end\n") {
        return Some(false);
    }
    bytes.past(b"fault read\n")?;
    Some(true)
}

// The first two lines.
fn read_first(bytes: &mut Bytes<'_>) -> Option<Tally>
    ensures value { Reads result bytes.new (first_in bytes.old) }
    ensures range { IfSome result IsTallyInRange }
{
    bytes.past(b"dvbemu 1\n")?;
    read_tally(bytes)
}

// What stands at the front of these bytes, in the form of a report.
#[tactic(auto, unfolding(crate::specs::Inside::Whole::told_in))]
fn read_told(alloc: Global, bytes: &mut Bytes<'_>) -> Result<Option<ReadReport>, NoMemory>
    ensures value { IfOk result (λ told. Reads (option_map told_of told) bytes.new (told_in bytes.old)) }
    ensures range { IfOk result (λ told. IfSome told (λ t. ArePartsInRange (told_of t))) }
{
    let Some(tally) = read_first(bytes) else {
        return Ok(None);
    };
    let Some(rows) = read_rows(alloc, bytes)? else {
        return Ok(None);
    };
    let Some(outcomes) = read_clients(alloc, bytes)? else {
        return Ok(None);
    };
    let Some(nodes) = read_nodes(alloc, bytes)? else {
        return Ok(None);
    };
    let Some(read_fault) = read_end(bytes) else {
        return Ok(None);
    };
    let head = Head {
        tally,
        rows,
        read_fault,
    };
    Ok(Some(ReadReport {
        head,
        outcomes,
        nodes,
    }))
}

// Whether each client's number, and the number that is greater by one, has 32 bits.
fn are_few(outcomes: &[Vec<Outcome>]) -> bool
    ensures few { result ≡ true → length outcomes.now ≤ 4294967295 }
    ensures many { result ≡ false → 4294967295 < length outcomes.now }
{
    outcomes.len() <= u32::MAX as usize
}

/// What a report tells; None exactly where the bytes are no report.
///
/// # Errors
///
/// `NoMemory` where memory for what it tells, or for a line of it, was refused.
#[tactic(auto, using(crate::proofs::WholeAgain::not_read, crate::proofs::WholeAgain::not_same, crate::proofs::WholeAgain::no_clients, crate::proofs::WholeAgain::no_rows, crate::proofs::WholeAgain::no_nodes))]
pub fn read_report(alloc: Global, bytes: &[u8]) -> Result<Option<ReadReport>, NoMemory>
    ensures { IfOk result (λ told. MatchOption told (IsNoReport bytes.now) (λ t. IsReport (told_of t) bytes.now)) }
{
    let mut rest = Bytes::of(bytes);
    let Some(told) = read_told(alloc, &mut rest)? else {
        return Ok(None);
    };
    if !is_spelled(alloc, &told, bytes)? {
        return Ok(None);
    }
    if !are_few(&told.outcomes) {
        return Ok(None);
    }
    if !are_rows(&told.head.rows) {
        return Ok(None);
    }
    if !are_nodes(&told.nodes) {
        return Ok(None);
    }
    Ok(Some(told))
}
