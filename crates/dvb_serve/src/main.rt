//! `dvb_serve`: passes the stream on standard input through the emulated adapter, while programs call its nodes, and writes the
//! report of all their calls to standard output.
//!
//! `dvb_serve FOLDER SEATS` serves so many programs at once, 1 to 8, which come in by the named pipe `door` of the folder
//! (`line`). A program that waits makes no call: it is told by the node's bell, a file of the folder (`bells`), that packets of
//! its filter have passed. The server ends where the stream and the door have; `dvbemu-serve` starts and ends it.
//!
//! With a third word it keeps no call in memory, and writes no report: with `none` nothing is kept at all; with a folder KEEP
//! each call is written into the file `N.calls` of its seat as it is made, each batch that passes into `batches`, and at the
//! end, where all these are whole, what is known of the stream into `head`. `dvbemu merge` makes the report of them.
//!
//! What is proved: that it is safe. What it does over any source, any lines and any journals is a clause of `serve_top`.
//! Standard input, the pipes and the files tell no content, so over them nothing at all is said.
//!
//! What is only tested, by the program's run and by programs that are served in the gate: the words, the pipes and the exit
//! status.
#![tactic(auto)]

mod bells;
mod file;
mod line;

ghost use Rattle.std.specs.Prelude.{◌≤◌, vec_len, IfOk};

use bells::Bells;
use emu_io::{Ends, NoGate, StdClock, StdSink, StdSource};
use file::{FileSink, create};
use line::PipeLine;
use seats::{Forgotten, Journal, JournalLine};
use serve_top::{Handed, NoReport, Rung, WrittenLines, serve, serve_to, write_head};
use std::io;
use std::process::ExitCode;
use std::sync::{Arc, Wait};
use std::thread::Threads;
use workers::Batches;

// What words are accepted.
const USAGE: &str = "usage: dvb_serve FOLDER SEATS [none | KEEP] < STREAM > REPORT";

// Says why there is no report.
fn failed(rt: &HostRuntime, why: &str) -> ExitCode {
    let _ = eprintln!(rt; "dvb_serve: {why}");
    ExitCode::from(1)
}

// The lines of so many seats at the door of this folder.
fn lines_of(rt: &HostRuntime, folder: &str, seats: u32) -> io::Result<Vec<PipeLine>>
    requires { seats ≤ 8 }
    ensures { IfOk result (λ lines. vec_len lines ≤ 8) }
{
    let mut lines = Vec::new(rt.alloc());
    'seats: for _ in 0..seats {
        lines.push(PipeLine::new(rt, folder)?)?;
    }
    Ok(lines)
}

// Serves so many programs at the door of this folder, in threads of `threads`, and keeps their calls in memory for a report.
fn serve_folder<R: Threads + Wait + Sync>(
    threads: &R,
    rt: &HostRuntime,
    folder: &str,
    seats: u32,
    mut input: StdSource,
    mut sink: StdSink,
    clock: &StdClock,
) -> io::Result<Result<(), NoReport>>
    requires seats { seats ≤ 8 }
{
    let bells = Arc::new(rt.alloc(), Bells::new(rt, folder)?)?;
    let lines = lines_of(rt, folder, seats)?;
    Ok(serve(
        threads,
        rt.alloc(),
        &mut input,
        lines,
        &mut sink,
        &bells,
        clock,
        &NoGate::new(),
    ))
}

// What is left of a server: what its seats and its feeder have kept.
type ServerLeft<J, B> = (Handed<Rung<Bells, J>>, B);

// The same for as many programs as there are journals, which are given their calls, as `batches` is the batches.
fn serve_journals<R: Threads + Wait + Sync, J: Journal + Send + Drop, B: Batches + Send + Drop>(
    threads: &R,
    rt: &HostRuntime,
    folder: &str,
    journals: Vec<J>,
    batches: B,
    mut input: StdSource,
    clock: &StdClock,
) -> io::Result<Result<ServerLeft<J, B>, NoReport>>
    requires seats { vec_len journals ≤ 8 }
{
    let ears = Arc::new(rt.alloc(), Bells::new(rt, folder)?)?;
    let mut lines = Vec::new(rt.alloc());
    'seats: for kept in journals {
        let (line, ears) = (PipeLine::new(rt, folder)?, ears.clone()?);
        lines.push(JournalLine {
            line,
            journal: Rung { ears, kept },
        })?;
    }
    let mut batches = Rung {
        ears,
        kept: batches,
    };
    let gate = NoGate::new();
    match serve_to(
        threads,
        rt.alloc(),
        &mut input,
        lines,
        &mut batches,
        clock,
        &gate,
    ) {
        Ok(handed) => Ok(Ok((handed, batches.kept))),
        Err(why) => Ok(Err(why)),
    }
}

// The journals of so many seats that keep nothing.
fn forgotten(rt: &HostRuntime, seats: u32) -> io::Result<Vec<Forgotten>>
    requires { seats ≤ 8 }
    ensures { IfOk result (λ journals. vec_len journals ≤ 8) }
{
    let mut journals = Vec::new(rt.alloc());
    'seats: for _ in 0..seats {
        journals.push(Forgotten)?;
    }
    Ok(journals)
}

// A journal that writes the file of this name in a folder.
fn written_in(rt: &HostRuntime, keep: &str, name: &str) -> io::Result<WrittenLines<FileSink>> {
    let path = format!(in rt.alloc(); "{keep}/{name}")?;
    Ok(WrittenLines::new(rt.alloc(), create(rt, path.as_str())?))
}

// The journals of so many seats whose calls are written into this folder.
fn written(rt: &HostRuntime, keep: &str, seats: u32) -> io::Result<Vec<WrittenLines<FileSink>>>
    requires { seats ≤ 8 }
    ensures { IfOk result (λ journals. vec_len journals ≤ 8) }
{
    let mut journals = Vec::new(rt.alloc());
    'seats: for seat in 0..seats {
        let number = seat + 1;
        let name = format!(in rt.alloc(); "{number}.calls")?;
        journals.push(written_in(rt, keep, name.as_str())?)?;
    }
    Ok(journals)
}

// Writes what is known of the stream, where all files of the folder are whole.
fn end_files(
    rt: &HostRuntime,
    keep: &str,
    left: &ServerLeft<WrittenLines<FileSink>, WrittenLines<FileSink>>,
) -> io::Result<Result<(), NoReport>> {
    let (handed, batches) = left;
    if !batches.whole || !handed.journals.iter().all(|journal| journal.kept.whole) {
        return Ok(Err(NoReport::Failed));
    }
    let path = format!(in rt.alloc(); "{keep}/head")?;
    let mut sink = create(rt, path.as_str())?;
    Ok(write_head(rt.alloc(), &mut sink, &handed.head))
}

// Serves, where nothing is kept.
fn serve_forgetting<R: Threads + Wait + Sync>(
    threads: &R,
    rt: &HostRuntime,
    folder: &str,
    seats: u32,
    input: StdSource,
    clock: &StdClock,
) -> io::Result<Result<(), NoReport>>
    requires seats { seats ≤ 8 }
{
    let journals = forgotten(rt, seats)?;
    match serve_journals(threads, rt, folder, journals, (), input, clock)? {
        Ok(_) => Ok(Ok(())),
        Err(why) => Ok(Err(why)),
    }
}

// The same, where the calls are written into a folder.
fn serve_writing<R: Threads + Wait + Sync>(
    threads: &R,
    rt: &HostRuntime,
    folder: &str,
    keep: &str,
    seats: u32,
    input: StdSource,
    clock: &StdClock,
) -> io::Result<Result<(), NoReport>>
    requires seats { seats ≤ 8 }
{
    let journals = written(rt, keep, seats)?;
    let batches = written_in(rt, keep, "batches")?;
    match serve_journals(threads, rt, folder, journals, batches, input, clock)? {
        Ok(left) => end_files(rt, keep, &left),
        Err(why) => Ok(Err(why)),
    }
}

// How serving ends.
fn status_of(rt: &HostRuntime, served: io::Result<Result<(), NoReport>>) -> ExitCode {
    match served {
        Ok(Ok(())) => ExitCode::SUCCESS,
        Ok(Err(why)) => {
            let _ = eprintln!(rt; "dvb_serve: {why}");
            ExitCode::from(1)
        }
        Err(_) => failed(rt, "the folder's files can't be opened"),
    }
}

// What the words ask for: a folder, how many seats, and what is kept.
fn asked(words: &[String]) -> Option<(&str, &str, Option<&str>)> {
    match words {
        [folder, seats] => Some((folder.as_str(), seats.as_str(), None)),
        [folder, seats, keep] => Some((folder.as_str(), seats.as_str(), Some(keep.as_str()))),
        _ => None,
    }
}

fn main(rt: HostRuntime) -> ExitCode {
    let Ok(
        Ends {
            words,
            source,
            sink,
            clock,
        },
    ) = Ends::of(&rt)
    else {
        return failed(&rt, "no words");
    };
    if let [word] = words.as_slice()
        && word.as_str() == "--help"
    {
        let _ = println!(rt; "{USAGE}");
        return ExitCode::SUCCESS;
    }
    let Some((folder, seats, keep)) = asked(&words) else {
        return failed(&rt, USAGE);
    };
    let seats = match seats.parse::<u32>() {
        Ok(seats) if seats >= 1 && seats <= 8 => seats,
        _ => return failed(&rt, "SEATS is 1 to 8"),
    };
    let served = match keep {
        None => serve_folder(&rt, &rt, folder, seats, source, sink, &clock),
        Some("none") => serve_forgetting(&rt, &rt, folder, seats, source, &clock),
        Some(keep) => serve_writing(&rt, &rt, folder, keep, seats, source, &clock),
    };
    status_of(&rt, served)
}
