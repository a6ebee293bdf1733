// The words of a command line, and a report that is longer than a piece, with the longest lines that there are: written whole and
// where a write fails, and read.

ghost use Rattle.std.specs.Prelude.{◌≡◌, IfOk, length};

use super::NoMemory;
use command_words::{Command, read_words};
use dmx_calls::{
    Act, ByteBuf, Entry, Histories, KeptAct, Outcome, OutcomeKind, Reply, SharedReply,
};
use emu_io::MemSink;
use report_read::read_report;
use report_text::{ReportError, write_report};
use std::alloc::Global;
use ts_packet::Tally;
use ts_watch::Head;

// The run of a number's session, in batches of so many packets.
macro_rules! self_test {
    ($number:expr, $batch:expr) => {
        Some(Command::SelfTest {
            number: $number,
            batch: $batch,
        })
    };
}

// What these words mean.
fn command_of(alloc: Global, words: &[&str]) -> Result<Option<Command>, NoMemory> {
    let mut list = Vec::new(alloc);
    for word in words {
        list.push(String::from_str(alloc, word)?)?;
    }
    read_words(alloc, &list)
}

// Words that no line of a file can have, since they are empty or have a space, and numbers of sessions that are made, each with
// the command that they name, or None where they are refused.
static WORDS: [(&[&str], Option<Command>); 18] = [
    (&[""], None),
    (&["steps", ""], None),
    (&["steps", "--batch", "1 "], None),
    (&["steps", "--batch", ""], None),
    (&["steps", "--packet", ""], None),
    (&["steps", "--packet", "204 "], None),
    (&["check", ""], None),
    (&["make", ""], None),
    (&["make", "7 "], None),
    (&["make", "0"], Some(Command::Make { number: 0 })),
    (
        &["make", "18446744073709551615"],
        Some(Command::Make { number: u64::MAX }),
    ),
    (
        &["selftest", "18446744073709551615"],
        self_test!(u64::MAX, 64),
    ),
    (&["selftest", "7", "--batch", "2"], self_test!(7, 2)),
    (&["selftest", "--batch", "2", "7"], self_test!(7, 2)),
    (&["selftest", "7", "--batch=2"], self_test!(7, 2)),
    (&["selftest", "--batch=2", "7"], self_test!(7, 2)),
    (&["selftest", "1", "--batch", "1"], self_test!(1, 1)),
    (&["selftest", "7"], self_test!(7, 64)),
];

#[test]
fn words_mean_a_command(rt: HostRuntime) {
    let odd = WORDS
        .iter()
        .position(|(words, want)| command_of(rt.alloc(), words) != Ok(*want));
    assert_eq!(rt; odd, None);
}

// Client 0 reads the most bytes that a read can ask for, all of them 0.
fn read_of(alloc: Global, place: u64) -> Result<Entry, NoMemory> {
    let bytes = vec![in alloc; 0u8; 65_536]?;
    let mut buf = ByteBuf::new(alloc, 65_536)?;
    if bytes.len() <= 65_536 {
        buf.append(&bytes);
    }
    let act = Act::Read {
        now: 0,
        room: 65_536,
    };
    Ok(Entry {
        place,
        step: place,
        node: 0,
        who: 1,
        act: KeptAct::keep(alloc, act)?,
        reply: SharedReply::of(alloc, None, Reply::Data(buf))?,
    })
}

// Three such reads.
fn reads(alloc: Global) -> Result<Vec<Entry>, NoMemory> {
    let mut entries = Vec::new(alloc);
    for place in 0..3u64 {
        entries.push(read_of(alloc, place)?)?;
    }
    Ok(entries)
}

// These on node 0, and no batch.
fn histories(alloc: Global) -> Result<Histories, NoMemory> {
    let mut nodes: Vec<Vec<Entry>> = Vec::with_capacity(alloc, 33)?;
    nodes.push(reads(alloc)?)?;
    for _ in 1..33u32 {
        nodes.push(Vec::new(alloc))?;
    }
    Ok(Histories::new(Vec::new(alloc), nodes))
}

// What became of the reads: they are one command.
fn outcomes(alloc: Global) -> Result<Vec<Vec<Outcome>>, NoMemory> {
    let drained = Outcome {
        line: 1,
        from: 0,
        to: 3,
        kind: OutcomeKind::Done,
    };
    let mut clients = Vec::new(alloc);
    clients.push([drained].to_vec(alloc)?)?;
    Ok(clients)
}

// The report: some text, and behind it so many digits 0, two for each byte that is read.
static REPORT: [(&str, usize); 4] = [
    (
        "dvbemu 1\n\
        packets=0 skipped=0 rest=0\n\
        client 0\n\
        line 1 steps 0..3 done\n\
        node 0\n\
        0 c0 0 read 65536 at=0 = data ",
        131_072,
    ),
    ("\n1 c0 1 read 65536 at=0 = data ", 131_072),
    ("\n2 c0 2 read 65536 at=0 = data ", 131_072),
    ("\n3 feed 0 end = passed\nend\n", 0),
];

fn report(alloc: Global) -> Result<Vec<u8>, NoMemory> {
    let mut text: Vec<u8> = Vec::new(alloc);
    for (words, digits) in &REPORT {
        text.extend_from_slice(words.as_bytes())?;
        text.resize(text.len().saturating_add(*digits), b'0')?;
    }
    Ok(text)
}

// How the report is written: the width of writes, the number of the write that fails, and how many bytes stand before it; None
// where all are written. Writes fail in a piece, at the end of a piece, in a long line, and at once.
type WriteRow = (u32, u64, Option<usize>);

static WRITES: [WriteRow; 10] = [
    (188, 4_294_967_295, None),
    (1000, 4_294_967_295, None),
    (65_536, 4_294_967_295, None),
    (4_294_967_295, 4_294_967_295, None),
    (1000, 0, Some(0)),
    (1000, 65, Some(65_000)),
    (1000, 70, Some(70_000)),
    (4_294_967_295, 0, Some(0)),
    (4_294_967_295, 1, Some(65_536)),
    (4_294_967_295, 2, Some(131_072)),
];

// The report as a sink has it that takes so many bytes a write, and in which the write of this number fails.
fn written(
    alloc: Global,
    width: u32,
    fail: u64,
) -> Result<(MemSink, Result<(), ReportError>), NoMemory> {
    let fails = [fail].to_vec(alloc)?;
    let mut sink = MemSink::new(alloc, 400_000, width.max(1), fails)?;
    let head = Head {
        tally: Tally {
            packets: 0,
            skipped: 0,
            rest: 0,
        },
        rows: Vec::new(alloc),
        read_fault: false,
    };
    let end = write_report(
        alloc,
        &mut sink,
        &head,
        &outcomes(alloc)?,
        &histories(alloc)?,
    );
    Ok((sink, end))
}

// Whether the report is written as a row says.
fn is_written(alloc: Global, row: &WriteRow) -> Result<bool, NoMemory> {
    let (width, fail, before) = *row;
    let want = report(alloc)?;
    let (sink, end) = written(alloc, width, fail)?;
    Ok(match before {
        None => sink.bytes() == want.as_slice() && end == Ok(()),
        Some(count) => want.get(..count) == Some(sink.bytes()) && end == Err(ReportError::Failed),
    })
}

// Whether the report is read as three reads and the end on node 0, and what became of one command.
fn is_read(alloc: Global) -> Result<bool, NoMemory> {
    let text = report(alloc)?;
    let Some(told) = read_report(alloc, &text)? else {
        return Ok(false);
    };
    let is_of_node_0 = match told.nodes.as_slice() {
        [(number, entries)] => *number == 0 && entries.len() == 4,
        _ => false,
    };
    let is_of_one_command = match told.outcomes.as_slice() {
        [commands] => commands.len() == 1,
        _ => false,
    };
    Ok(is_of_node_0 && is_of_one_command)
}

#[test]
fn a_failed_write_leaves_the_front_of_a_long_report(rt: HostRuntime) {
    let odd = WRITES
        .iter()
        .position(|row| is_written(rt.alloc(), row) != Ok(true));
    assert_eq!(rt; odd, None);
    assert_eq!(rt; is_read(rt.alloc()), Ok(true));
}
