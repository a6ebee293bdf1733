// What a server does from its first call to its report.
ghost use Rattle.std.specs.Prelude.{◌≡◌, ◌≢◌, ◌≤◌, ◌+◌, ℕ, true, map, vec_len, All, IfOk, OnOk, IsErrOf};
ghost use Rattle.serve_top.specs.Inside.Keeping.{AreKeptLines};
ghost use Rattle.serve_top.specs.Read.{HasReadTooOften};
ghost use Rattle.serve_top.specs.Reported.{HasReported};

use crate::journals::{Handed, ReportParts, served};
use crate::rung::{Ears, Rung};
use client_core::Stop;
use dmx_calls::{Entry, Outcome};
use emu_io::{Clock, Gate, Sink, Source};
use report_text::{ReportError, write_report};
use seats::{JournalLine, KeptJournal};
use std::alloc::{AllocError as NoMemory, Global};
use std::sync::{Arc, Wait};
use std::thread::Threads;
use thiserror::Error;
use workers::histories_of_run;

/// Why a server has written no whole report.
#[derive(Clone, Copy, Debug, PartialEq, Eq, Drop, Error)]
pub enum NoReport {
    /// Memory was refused, which no clause ties to a cause. Nothing was written.
    #[error("there is no memory")]
    NoMemory,
    /// At least 4,294,967,296 bytes of the source were read: one at least by each of as many reads. Nothing was written.
    #[error("the stream was read too often")]
    TooLong,
    /// A write failed, and the sink's count of faults rose. No clause says how much of the report was written.
    #[error("what was called can't be written")]
    Failed,
}

impl From<NoMemory> for NoReport {
    ghost use Rattle.std.specs.Prelude.{◌≡◌};
    ghost use Rattle.serve_top.specs.declared.server.NoReport.TheVariants.{NoMemory as WantOfMemory};

    ghost from_gives = { λ _ e. e ≡ WantOfMemory };

    fn from(_e: NoMemory) -> NoReport {
        NoReport::NoMemory
    }
}

/// Why there is no report where the feeder stopped for this reason.
pub(crate) fn no_report(stop: Stop) -> NoReport
    ensures failed { result ≢ NoReport.Failed }
    ensures too_long { result ≡ NoReport.TooLong → (turns : ℕ) × (stop ≡ Stop.TooLong turns) }
{
    match stop {
        Stop::NoMemory => NoReport::NoMemory,
        Stop::TooLong { .. } => NoReport::TooLong,
    }
}

// A line with a journal that keeps its calls in memory, of which these are told first.
type KeptLine<T, E> = JournalLine<T, Rung<E, KeptJournal>>;

// These lines, each with such a journal.
fn kept_lines<T: Drop, E: Drop>(
    alloc: Global,
    lines: Vec<T>,
    ears: &Arc<E>,
) -> Result<Vec<KeptLine<T, E>>, NoMemory>
    ensures { IfOk result (λ kept. AreKeptLines lines.items kept.items) }
{
    let mut kept = Vec::new(alloc);
    'lines: for line in lines {
        let journal = Rung {
            ears: ears.clone()?,
            kept: KeptJournal::new(alloc),
        };
        kept.push(JournalLine { line, journal })?;
    }
    Ok(kept)
}

// The calls that these journals have kept, and what became of the commands; none where one of them isn't whole.
fn kept_by<E: Drop>(
    alloc: Global,
    journals: Vec<Rung<E, KeptJournal>>,
) -> Result<(Vec<Vec<Entry>>, Vec<Vec<Outcome>>), NoMemory>
    ensures whole { OnOk result (All (λ j. j.kept.whole ≡ true) journals.items) }
    ensures logs { IfOk result (λ r. map (λ log. log.items) r.0.items ≡ map (λ j. j.kept.log.items) journals.items) }
    ensures outcomes { IfOk result (λ r. map (λ those. those.items) r.1.items
        ≡ map (λ j. j.kept.outcomes.items) journals.items) }
{
    let mut logs = Vec::new(alloc);
    let mut outcomes = Vec::new(alloc);
    'journals: for journal in journals {
        let Rung { kept, .. } = journal;
        if !kept.whole {
            return Err(NoMemory);
        }
        logs.push(kept.log)?;
        outcomes.push(kept.outcomes)?;
    }
    Ok((logs, outcomes))
}

/// Passes the stream of a source through the 33 nodes, in batches of 64 packets and then its end, while for each line a seat
/// answers its requests until it ends, and keeps its calls, of which `ears` are told; and writes the report of all calls. Before
/// each batch, and once more behind the end, it calls the gate as caller 0.
///
/// # Errors
///
/// Why there is no whole report: `TooLong` where as many bytes were taken from the source as the most reads, `Failed` where the
/// sink's count of faults rose, and `NoMemory`, for which no clause has a cause.
pub fn serve<
    R: Threads + Wait + Sync,
    S: Source + Send,
    T: Source + Sink + Send + Drop,
    K: Sink,
    E: Ears + Send + Sync + Drop,
    C: Clock + Sync,
    G: Gate + Sync,
>(
    rt: &R,
    alloc: Global,
    source: &mut S,
    lines: Vec<T>,
    sink: &mut K,
    ears: &Arc<E>,
    clock: &C,
    gate: &G,
) -> Result<(), NoReport>
    requires few { vec_len lines ≤ 8 }
    // The report is that of the stream's bytes and of what was called, which is what the requests on the lines ask for.
    ensures reported { OnOk result (HasReported T.Source.end T.Sink.end lines.items
        (C.may_give clock.now) (C.may_give_behind clock.now) (S.end source.old)
        (S.end source.new) (K.end sink.old).written (K.end sink.new).written) }
    ensures memory { IsErrOf result NoReport.NoMemory → sink.new ≡ sink.old }
    ensures too_long { IsErrOf result NoReport.TooLong → sink.new ≡ sink.old }
    ensures reads { IsErrOf result NoReport.TooLong → HasReadTooOften (S.end source.old) (S.end source.new) }
    ensures failed { IsErrOf result NoReport.Failed → (K.end sink.new).faults ≡ (K.end sink.old).faults + 1 }
{
    let lines = kept_lines(alloc, lines, ears)?;
    let mut batches = Rung {
        ears: ears.clone()?,
        kept: Vec::new(alloc),
    };
    let ReportParts {
        adapter,
        feeder,
        clients,
        handed,
    } = served(rt, alloc, source, lines, &mut batches, clock, gate)?;
    let Handed { head, journals } = handed;
    let (logs, outcomes) = kept_by(alloc, journals)?;
    let histories = histories_of_run(alloc, adapter, feeder, clients, batches.kept, logs)?;
    match write_report(alloc, sink, &head, &outcomes, &histories) {
        Ok(()) => Ok(()),
        Err(ReportError::NoMemory) => Err(NoReport::NoMemory),
        Err(ReportError::Failed) => Err(NoReport::Failed),
    }
}
