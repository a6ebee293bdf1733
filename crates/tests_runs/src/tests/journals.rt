//! What a server writes: its report at the end, or each call as a line of its client's file, of which a write may fail.
ghost use Rattle.std.specs.Prelude.{◌≡◌, ◌<◌, ◌≤◌, ◌^◌, ◌-◌, vec_len, IfSome};

use super::ends::{Part, input_of};
use super::lines::MemLine;
use super::report_lines::reply_to;
use emu_io::{FixedClock, MemSink, MemSource, NoGate};
use seats::{Forgotten, JournalLine};
use serve_top::{Handed, NoReport, WrittenLines, serve, serve_to, write_head};
use std::alloc::Global;
use std::sync::{Arc, Wait};
use std::thread::Threads;

// A packet of PID 1.
const PACKET: Part = (b"\x47\x00\x01\x10", 184, 0xff);

const PACKETS: &[Part] = &[PACKET; 100];

// Whether bytes are this text, in which `~` stands for what stands there on its line.
fn is_like(bytes: &[u8], want: &str) -> bool {
    let Ok(mut rest) = std::str::from_utf8(bytes) else {
        return false;
    };
    for (number, piece) in want.split("~").enumerate() {
        let Some((skipped, behind)) = rest.split_once(piece) else {
            return false;
        };
        if skipped.contains("\n") || (number == 0 && !skipped.is_empty()) {
            return false;
        }
        rest = behind;
    }
    rest.is_empty()
}

// A server's report of two lines that ask for the dvr node at the same time.
struct JournalRow {
    stream: &'static [Part],
    // How many bytes of the report find room.
    room: usize,
    ended: Result<(), NoReport>,
    report: &'static str,
    // Calls that stand in it, as `reply_to` reads them.
    calls: &'static [&'static str],
}

static ROWS: [JournalRow; 2] = [
    // Each has made two calls, beside two batches and the end.
    JournalRow {
        stream: PACKETS,
        room: 100_000,
        ended: Ok(()),
        report: "dvbemu 1\npackets=100 skipped=0 rest=0\npid 1 packets=100 ~\n\
            client 0\nline 1 steps 0..1 done\nline 2 steps 1..2 done\n\
            client 1\nline 1 steps 0..1 done\nline 2 steps 1..2 done\n\
            node dvr\n~\n~\n~\n~\n~\n~\n~\nend\n",
        calls: &["c0 0 open", "c0 1 close", "c1 0 open", "c1 1 close"],
    },
    // Where it finds no room its front is written.
    JournalRow {
        stream: &[PACKET],
        room: 5,
        ended: Err(NoReport::Failed),
        report: "dvbem",
        calls: &[],
    },
];

// Whether these calls stand in a report.
fn has_calls(report: &[u8], calls: &[&str]) -> bool {
    match std::str::from_utf8(report) {
        Ok(report) => calls.iter().all(|call| reply_to(report, call).is_some()),
        Err(_) => false,
    }
}

// Whether a server ends as a row says.
fn is_reported<R: Threads + Wait + Sync>(rt: &R, alloc: Global, row: &JournalRow) -> Option<bool> {
    let asked = [(2, 0), (3, 32)];
    let mut lines = Vec::new(alloc);
    lines.push(MemLine::new(alloc, &asked, 152, 1000)?).ok()?;
    lines.push(MemLine::new(alloc, &asked, 152, 1000)?).ok()?;
    let input = input_of(alloc, "", row.stream).ok()?;
    let mut source = MemSource::new(input, 1000, Vec::new(alloc));
    let mut sink = MemSink::new(alloc, row.room, 100, Vec::new(alloc)).ok()?;
    let (clock, gate) = (FixedClock::new(7), NoGate::new());
    let ears = Arc::new(alloc, Forgotten).ok()?;
    let ended = serve(
        rt,
        alloc,
        &mut source,
        lines,
        &mut sink,
        &ears,
        &clock,
        &gate,
    );
    let report = sink.bytes();
    Some(ended == row.ended && is_like(report, row.report) && has_calls(report, row.calls))
}

#[test]
fn the_report_tells_what_both_have_called(rt: HostRuntime) {
    let odd = ROWS
        .iter()
        .position(|row| is_reported(&rt, rt.alloc(), row) != Some(true));
    assert_eq!(rt; odd, None);
}

// A journal of lines in memory, of which the writes with these numbers fail.
fn journal(alloc: Global, fails: &[u64]) -> Option<WrittenLines<MemSink>> {
    let fails = fails.to_vec(alloc).ok()?;
    Some(WrittenLines::new(alloc, MemSink::new(alloc, 100_000, 1000, fails).ok()?))
}

// The lines of a program that opens the dvr node, polls it and closes it, and of one that closes a node that nobody has. Where
// those of the first are written the writes with these numbers fail.
fn lines_of(
    alloc: Global,
    fails: &[u64],
) -> Option<Vec<JournalLine<MemLine, WrittenLines<MemSink>>>>
    ensures { IfSome result (λ lines. vec_len lines ≤ 8) }
{
    let mut lines = Vec::new(alloc);
    lines
        .push(JournalLine {
            line: MemLine::new(alloc, &[(2, 0), (6, 32), (3, 32)], 228, 1000)?,
            journal: journal(alloc, fails)?,
        })
        .ok()?;
    lines
        .push(JournalLine {
            line: MemLine::new(alloc, &[(3, 3)], 76, 1000)?,
            journal: journal(alloc, &[])?,
        })
        .ok()?;
    Some(lines)
}

// Which writes of the first program's calls fail, whether its journal is whole, and these calls.
type File = (&'static [u64], bool, &'static str);

static FILES: [File; 2] = [
    (
        &[],
        true,
        "dvr ~ c1 0 open = done drop=0..0 tap=keep\n\
        dvr ~ c1 1 poll at=7 = ready readable=0 error=none at=0 ended=~\n\
        dvr ~ c1 2 close = done drop=0..0 tap=keep\n",
    ),
    // Behind a line that was not written there is none.
    (&[1], false, "dvr ~ c1 0 open = done drop=0..0 tap=keep\n"),
];

// Whether a server over 100 packets leaves what is to be written of the calls of both, of the batches and of the stream.
fn is_handed(alloc: Global, handed: &Handed<WrittenLines<MemSink>>, file: &File) -> Option<bool> {
    let [other, own] = handed.journals.as_slice() else {
        return None;
    };
    let mut head = MemSink::new(alloc, 1000, 1000, Vec::new(alloc)).ok()?;
    write_head(alloc, &mut head, &handed.head).ok()?;
    Some(
        own.whole == file.1
            && is_like(own.sink.bytes(), file.2)
            && is_like(other.sink.bytes(), "3 ~ c0 0 close = EBADF\n")
            && is_like(
                head.bytes(),
                "dvbemu 1\npackets=100 skipped=0 rest=0\npid 1 packets=100 ~\nend\n",
            ),
    )
}

// What a server writes of these two, over a stream of 100 packets.
fn is_written<R: Threads + Wait + Sync>(rt: &R, alloc: Global, file: &File) -> Option<bool> {
    let input = input_of(alloc, "", PACKETS).ok()?;
    let mut source = MemSource::new(input, 1000, Vec::new(alloc));
    let mut batches = journal(alloc, &[])?;
    let lines = lines_of(alloc, file.0)?;
    let (clock, gate) = (FixedClock::new(7), NoGate::new());
    let handed = serve_to(rt, alloc, &mut source, lines, &mut batches, &clock, &gate).ok()?;
    let is_left = is_handed(alloc, &handed, file)?;
    Some(is_left && is_like(batches.sink.bytes(), "0 64 7\n64 36 7\n"))
}

#[test]
fn each_call_and_each_batch_is_a_line(rt: HostRuntime) {
    let odd = FILES
        .iter()
        .position(|file| is_written(&rt, rt.alloc(), file) != Some(true));
    assert_eq!(rt; odd, None);
}
