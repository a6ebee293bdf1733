// Whether a report is one of a session.
ghost use Rattle.std.specs.Prelude.{◌+◌, ◌≤◌, true, false, IfOk, IfErr, MatchOption};
ghost use Rattle.emu_top.specs.Checking.{Declines, Judges};

use crate::Status;
use crate::asked::read_report;
use crate::session::{Session, read_session};
use crate::stream::{Stream, read_stream};
use emu_io::Source;
use report_check::{Fault, first_fault};
use std::alloc::Global;
use ts_packet::PacketSize;

/// Reads a report and a session, whose packets take up `size` each, and answers what is wrong with the report; None where it is
/// that of a run of the session. The report is held in memory, and all packets of the stream are.
pub fn wrong_in<S: Source>(
    alloc: Global,
    source: &mut S,
    size: PacketSize,
) -> Result<Option<Fault>, Status>
    ensures answer { IfOk result (λ fault. MatchOption fault (Judges true size (S.end source.old) (S.end source.new))
        (λ _. Judges false size (S.end source.old) (S.end source.new))) }
    ensures declines { IfErr result (λ status. Declines (S.end source.old) (S.end source.new) status) }
    ensures once { (S.end source.new).faults ≤ (S.end source.old).faults + 1 }
{
    let report = read_report(alloc, source)?;
    let Session { script, puller } = read_session(alloc, source, size)?;
    let Stream { packets, head } = read_stream(alloc, source, puller)?;
    match first_fault(alloc, &report, &script, &packets, &head) {
        Ok(fault) => Ok(fault),
        Err(_) => Err(Status::NoMemory),
    }
}
