// What a report says of the stream.
ghost use Rattle.std.specs.Prelude.{◌≡◌, IfOk, IfSome};
ghost use Rattle.report_read.specs.Imports.{All, option_map};
ghost use Rattle.report_read.specs.Inside.Reading.{Reads};
ghost use Rattle.report_read.specs.Ranges.{IsTallyInRange, AreCountsInRange, IsRowInRange};
ghost use Rattle.report_read.specs.Inside.Whole.{tally_in, counts_in, row_in, rows_in};

use crate::bytes::Bytes;
use std::alloc::{AllocError as NoMemory, Global};
use ts_packet::Tally;
use ts_watch::PidRow;

/// The packets, skipped bytes and bytes of rest.
#[tactic(auto, unfolding(crate::specs::Inside::Whole::tally_in))]
pub fn read_tally(bytes: &mut Bytes<'_>) -> Option<Tally>
    ensures value { Reads result bytes.new (tally_in bytes.old) }
    ensures range { IfSome result IsTallyInRange }
{
    let packets = bytes.named64(b"packets=")?;
    let skipped = bytes.named64(b" skipped=")?;
    let rest = bytes.named32(b" rest=")?;
    bytes.past(b"\n")?;
    Some(Tally {
        packets,
        skipped,
        rest,
    })
}

// The numbers of a PID.
#[tactic(auto, unfolding(crate::specs::Inside::Whole::counts_in))]
fn read_counts(bytes: &mut Bytes<'_>) -> Option<PidRow>
    ensures value { Reads result bytes.new (counts_in bytes.old) }
    ensures range { IfSome result AreCountsInRange }
{
    let packets = bytes.named64(b" packets=")?;
    let breaks = bytes.named64(b" breaks=")?;
    let duplicates = bytes.named64(b" duplicates=")?;
    let errors = bytes.named64(b" errors=")?;
    bytes.past(b"\n")?;
    Some(PidRow {
        packets,
        breaks,
        duplicates,
        errors,
    })
}

// A PID with its numbers.
#[tactic(auto, unfolding(crate::specs::Inside::Whole::row_in))]
fn read_row(bytes: &mut Bytes<'_>) -> Option<(u16, PidRow)>
    ensures value { Reads result bytes.new (row_in bytes.old) }
    ensures range { IfSome result IsRowInRange }
{
    bytes.past(b"pid ")?;
    let pid = bytes.number16()?;
    let counts = read_counts(bytes)?;
    Some((pid, counts))
}

/// The rows of PIDs, as many as there are.
#[tactic(auto, using(crate::proofs::Many::many_steps))]
pub fn read_rows(
    alloc: Global,
    bytes: &mut Bytes<'_>,
) -> Result<Option<Vec<(u16, PidRow)>>, NoMemory>
    ensures value { IfOk result (λ rows. Reads (option_map (λ v. v.items) rows) bytes.new (rows_in bytes.old)) }
    ensures range { IfOk result (λ rows. IfSome rows (λ v. All IsRowInRange v.items)) }
{
    let mut rows = Vec::new(alloc);
    let mut left = bytes.len();
    'rows: while left > 0 {
        if !bytes.begins_with(b"pid ") {
            return Ok(Some(rows));
        }
        let Some(row) = read_row(bytes) else {
            return Ok(None);
        };
        rows.push(row)?;
        left -= 1;
    }
    Ok(Some(rows))
}
