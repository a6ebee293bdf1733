// What the program tells of how it ended: a line on standard error, and the exit status.
use client_script::{FaultKind, MOST_BYTES, ScriptFault};
use emu_io::NoWords;
use emu_top::Status;
use fault_hints::hint;
use report_check::{Expected, Fault};
use std::process::ExitCode;
use text_forms::number_between;

// What words are accepted.
const USAGE: &str = "  dvbemu steps [--batch B] [--packet P] < SESSION > REPORT
  dvbemu run [--batch B] [--packet P] < SESSION > REPORT
  dvbemu make N > SESSION
  dvbemu selftest N [--batch B] > SUMS
  dvbemu check [--packet P] < REPORT-AND-SESSION > ANSWER
  B is the greatest number of packets of a batch, 1 to 64; without it, 64
  P is how many bytes a packet takes up in the stream, 188 or 204; without it, 188
  N is the number of a session, 0 to 18446744073709551615
  REPORT-AND-SESSION is the line 'report N', a report of N bytes, and its session; ANSWER is yes or no";

// How many bytes stand in front of N in the line `report N`.
const REPORT_WORD: usize = 7;

// The session behind a report. None where it wasn't kept, or may not have been kept to the end of its script.
fn behind_report(kept: &[u8]) -> Option<&[u8]> {
    if kept.len() >= MOST_BYTES {
        return None;
    }
    let end = kept.iter().position(|byte| *byte == b'\n')?;
    let number = kept.get(REPORT_WORD..end)?;
    let size = number_between(0, u32::MAX as u64, number)? as usize;
    match kept.get(end + 1 + size..) {
        Some([]) | None => None,
        session => session,
    }
}

// The session of these words, where it was kept.
fn session_in<'a>(words: &[String], kept: Option<&'a [u8]>) -> Option<&'a [u8]> {
    match words {
        [word, ..] if word.as_str() == "check" => behind_report(kept?),
        _ => kept,
    }
}

// What was expected in front of a session.
fn expected_in_front(kind: FaultKind) -> &'static str {
    match kind {
        FaultKind::NoStream =>
            "  the input ends before the report does: is N in 'report N' the number of its bytes?",
        _ =>
            "  the input of check begins with a line 'report N', N from 0 to 4294967295, the number of bytes of the report",
    }
}

// Tells what stands at a script's fault and what was expected, where the script was kept and there is memory to say it.
fn explain(rt: &HostRuntime, script: Option<&[u8]>, fault: ScriptFault) {
    if fault.line == 0 {
        let _ = rt.eprintln(expected_in_front(fault.kind));
        return;
    }
    let Some(script) = script else {
        return;
    };
    if let Ok(Some(text)) = hint(rt.alloc(), script, fault) {
        let _ = rt.eprintln(text.as_str());
    }
}

// Tells what the rules give where a report is wrong, where there is memory to say it.
fn tell_expected(rt: &HostRuntime, expected: &Expected) {
    if let Ok(text) = String::from_utf8_lossy(rt.alloc(), expected.text()) {
        let _ = eprintln!(rt; "expected {text}");
    }
}

// Tells what is wrong with a report, and what the rules give there.
fn tell_wrong(rt: &HostRuntime, fault: Fault) {
    let _ = eprintln!(rt; "dvbemu: {fault}");
    if let Some(expected) = &fault.expected {
        tell_expected(rt, expected);
    }
}

// The line of a status, and what stands behind it.
fn lines(rt: &HostRuntime, status: Status, script: Option<&[u8]>) {
    let name = status.name();
    match status {
        Status::Ok => {}
        Status::Script(fault) => {
            let _ = eprintln!(rt; "dvbemu: {fault}");
            explain(rt, script, fault);
        }
        Status::Wrong(fault) => tell_wrong(rt, fault),
        Status::Usage => {
            let _ = eprintln!(rt; "dvbemu: {name}");
            let _ = rt.eprintln(USAGE);
        }
        _ => {
            let _ = eprintln!(rt; "dvbemu: {name}");
        }
    }
}

/// Tells on standard error how the command of these words ended, with the bytes that were kept of the input, and answers the
/// number of the status. Where standard error is closed there is nobody to tell; the exit status still tells it.
pub fn tell(rt: &HostRuntime, words: &[String], status: Status, kept: Option<&[u8]>) -> ExitCode {
    lines(rt, status, session_in(words, kept));
    ExitCode::from(status.number())
}

/// Tells why there are no words. Words that are no texts are refused as wrong words are.
pub fn refused(rt: &HostRuntime, error: NoWords) -> ExitCode {
    let status = match error {
        NoWords::NoMemory => Status::NoMemory,
        NoWords::NoText => Status::Usage,
    };
    tell(rt, &[], status, None)
}
