// The head of a report.
ghost use Rattle.std.specs.Prelude.{◌≡◌, ◌≢◌, true, false};
ghost use Rattle.ts_watch.specs.Head.{told_head};

use crate::expected::Expected;
use crate::fault::{Fault, ReportFaultKind};
use crate::line::{first_other, line_in, line_of_end};
use report_read::ReadReport;
use report_text::add_head;
use std::alloc::{AllocError as NoMemory, Global};
use ts_watch::{Head, PidRow};

fn are_same_rows(this: &[(u16, PidRow)], other: &[(u16, PidRow)]) -> bool
    ensures same { result ≡ true → this.now ≡ other.now }
    ensures differs { result ≡ false → this.now ≢ other.now }
{
    this == other
}

/// Whether two heads are the same.
pub fn is_same_head(this: &Head, other: &Head) -> bool
    ensures same { result ≡ true → told_head this.now ≡ told_head other.now }
    ensures differs { result ≡ false → told_head this.now ≢ told_head other.now }
{
    this.tally == other.tally
        && are_same_rows(&this.rows, &other.rows)
        && this.read_fault == other.read_fault
}

// The first of the lines that tell the stream otherwise than this head: that of its tally, or of a row. None where neither does.
fn line_of_stream(told: &Head, head: &Head) -> Option<u64> {
    if told.tally != head.tally {
        return Some(2);
    }
    if told.rows.as_slice() == head.rows.as_slice() {
        return None;
    }
    let place = first_other(&told.rows, &head.rows) as u64;
    Some(place.saturating_add(3))
}

// What this head gives in a line.
fn expected_line(alloc: Global, head: &Head, line: u64) -> Result<Expected, NoMemory> {
    let mut text = Vec::new(alloc);
    add_head(&mut text, head)?;
    match line_in(&text, line) {
        Some(given) => Ok(Expected::of(given)),
        None => Ok(Expected::of(b"no further PID")),
    }
}

/// What is wrong with a report that tells the stream otherwise than this head, or ends with another line. Nothing is claimed of
/// it.
pub fn fault_of_head(alloc: Global, told: &ReadReport, head: &Head) -> Result<Fault, NoMemory> {
    let (line, expected) = match line_of_stream(&told.head, head) {
        Some(line) => (line, expected_line(alloc, head, line)?),
        None => (line_of_end(told), Expected::of(b"end")),
    };
    Ok(Fault {
        line,
        kind: ReportFaultKind::Head,
        expected: Some(expected),
    })
}
