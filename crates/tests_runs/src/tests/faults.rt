//! Reads and writes that fail, on one thread and by threads, and where a report is checked: worked out by hand from the rules of
//! the statuses.
use super::ends::{FIRST, Part, TestEnds, input_of, told};
use super::report_lines::text_of;
use client_script::{FaultKind, FaultyWord, ScriptFault, WantedWord};
use emu_io::{FixedClock, NoGate};
use emu_top::Status;
use std::alloc::AllocError as NoMemory;
use std::sync::Wait;
use std::thread::Threads;

// An input, and how it ends where its ends fail in many ways.
struct FailingSession {
    // The words, those of each run on a line.
    words: &'static str,
    script: &'static str,
    stream: &'static [Part],
    // What a read gives at most, and what a write takes at most.
    piece: u32,
    width: u32,
    rows: &'static [FailingRow],
}

// Which reads and which writes fail, and how many bytes find room.
type FailingEnds = (&'static [u64], &'static [u64], usize);

// With these ends the status, and the output as `text_of` reads it.
type FailingRow = (FailingEnds, Status, &'static str);

// The words of sessions none of which has a call whose place hangs on the order of the threads.
const BOTH: &str = "steps --batch 1\nrun --batch 1\nrun";

// More than is written.
const ROOM: usize = 10_000;

// Three times the same packet.
const THREE: &[Part] = &[FIRST, FIRST, FIRST];

const READ_FAULTS: FailingSession = FailingSession {
    words: BOTH,
    script: "stream\n",
    stream: THREE,
    piece: 188,
    width: 10,
    rows: &[
        ((&[0], &[], ROOM), Status::ReadFault, ""),
        (
            (&[1], &[], ROOM),
            Status::ReadFault,
            "dvbemu 1\npackets=0 skipped=0 rest=181\nfault read\n",
        ),
        (
            (&[2], &[], ROOM),
            Status::ReadFault,
            "dvbemu 1\n\
            packets=1 skipped=0 rest=181\n\
            pid 256 packets=1 breaks=0 duplicates=0 errors=0\n\
            fault read\n",
        ),
        (
            (&[3], &[], ROOM),
            Status::ReadFault,
            "dvbemu 1\n\
            packets=2 skipped=0 rest=181\n\
            pid 256 packets=2 breaks=0 duplicates=1 errors=0\n\
            fault read\n",
        ),
        (
            (&[4], &[], ROOM),
            Status::ReadFault,
            "dvbemu 1\n\
            packets=3 skipped=0 rest=0\n\
            pid 256 packets=3 breaks=0 duplicates=2 errors=0\n\
            fault read\n",
        ),
        (
            (&[5], &[], ROOM),
            Status::Ok,
            "dvbemu 1\n\
            packets=3 skipped=0 rest=0\n\
            pid 256 packets=3 breaks=0 duplicates=2 errors=0\n\
            end\n",
        ),
        ((&[2], &[0], ROOM), Status::WriteFault, ""),
    ],
};

// A script with a fault, behind which nothing is read.
const SCRIPT_FAULT: FailingSession = FailingSession {
    words: BOTH,
    script: "c0 open\nstream\n",
    stream: &[(b"", 1000, 0x47)],
    piece: 188,
    width: 10,
    rows: &[(
        (&[1], &[], ROOM),
        Status::Script(ScriptFault {
            line: 1,
            kind: FaultKind::Count,
            word: Some(FaultyWord {
                number: 3,
                wanted: WantedWord::Target,
            }),
        }),
        "",
    )],
};

// The report of a session without packets has 40 bytes, so there are four writes.
const WRITE_FAULTS: FailingSession = FailingSession {
    words: BOTH,
    script: "stream\n",
    stream: &[],
    piece: 188,
    width: 10,
    rows: &[
        ((&[], &[0], ROOM), Status::WriteFault, ""),
        ((&[], &[1], ROOM), Status::WriteFault, "dvbemu 1\np"),
        (
            (&[], &[2], ROOM),
            Status::WriteFault,
            "dvbemu 1\npackets=0 s",
        ),
        (
            (&[], &[3], ROOM),
            Status::WriteFault,
            "dvbemu 1\npackets=0 skipped=0 r",
        ),
        (
            (&[], &[4], ROOM),
            Status::Ok,
            "dvbemu 1\npackets=0 skipped=0 rest=0\nend\n",
        ),
        (
            (&[], &[], 39),
            Status::WriteFault,
            "dvbemu 1\npackets=0 skipped=0 rest=0\nend",
        ),
        (
            (&[], &[], 40),
            Status::Ok,
            "dvbemu 1\npackets=0 skipped=0 rest=0\nend\n",
        ),
        ((&[], &[], 0), Status::WriteFault, ""),
    ],
};

// Words that read nothing: the first read would fail.
const MAKE: FailingSession = FailingSession {
    words: "make 7",
    script: "stream\n",
    stream: &[],
    piece: 1,
    width: 65536,
    rows: &[((&[0], &[], 12), Status::WriteFault, "c0 open n0\nc")],
};

// A client of those three packets. Where a `feed` finds a fault, the packets that were taken pass, and then the end.
const READS: FailingSession = FailingSession {
    words: "steps --batch 1",
    script: "c0 open n0\nc0 pes n0 256 frontend tsdemux_tap 20 4\nfeed 2\nc0 drain n0 188\nstream\n",
    stream: THREE,
    piece: 188,
    width: 10,
    rows: &[
        (
            (&[1], &[], ROOM),
            Status::ReadFault,
            "dvbemu 1\n\
            packets=0 skipped=0 rest=107\n\
            client 0\n\
            line 1 steps 0..1 done\n\
            line 2 steps 1..2 done\n\
            line 4 steps 2..3 done\n\
            node 0\n\
            0 c0 0 open = done drop=0..0 tap=keep\n\
            1 c0 1 pes pid=256 input=frontend output=tsdemux_tap type=20 flags=4 at=0 = done drop=0..0 tap=keep\n\
            2 feed 0 end = passed\n\
            3 c0 2 read 188 at=0 = again ended=1\n\
            fault read\n",
        ),
        (
            (&[2], &[], ROOM),
            Status::ReadFault,
            "dvbemu 1\n\
            packets=1 skipped=0 rest=107\n\
            pid 256 packets=1 breaks=0 duplicates=0 errors=0\n\
            client 0\n\
            line 1 steps 0..1 done\n\
            line 2 steps 1..2 done\n\
            line 4 steps 2..4 done\n\
            node 0\n\
            0 c0 0 open = done drop=0..0 tap=keep\n\
            1 c0 1 pes pid=256 input=frontend output=tsdemux_tap type=20 flags=4 at=0 = done drop=0..0 tap=keep\n\
            2 feed 0 pass input=frontend first=0 count=1 at=0 = passed\n\
            3 feed 1 end = passed\n\
            4 c0 2 read 188 at=0 = data 47010010|0*368|\n\
            5 c0 3 read 188 at=0 = again ended=1\n\
            fault read\n",
        ),
        (
            (&[3], &[], ROOM),
            Status::ReadFault,
            "dvbemu 1\n\
            packets=2 skipped=0 rest=107\n\
            pid 256 packets=2 breaks=0 duplicates=1 errors=0\n\
            client 0\n\
            line 1 steps 0..1 done\n\
            line 2 steps 1..2 done\n\
            line 4 steps 2..6 done\n\
            node 0\n\
            0 c0 0 open = done drop=0..0 tap=keep\n\
            1 c0 1 pes pid=256 input=frontend output=tsdemux_tap type=20 flags=4 at=0 = done drop=0..0 tap=keep\n\
            2 feed 0 pass input=frontend first=0 count=1 at=0 = passed\n\
            3 feed 1 pass input=frontend first=1 count=1 at=0 = passed\n\
            4 c0 2 read 188 at=0 = data 47010010|0*368|\n\
            5 c0 3 read 188 at=0 = data 47010010|0*368|\n\
            6 c0 4 read 188 at=0 = again ended=0\n\
            7 feed 2 end = passed\n\
            8 c0 5 read 188 at=0 = again ended=1\n\
            fault read\n",
        ),
        (
            (&[4], &[], ROOM),
            Status::ReadFault,
            "dvbemu 1\n\
            packets=3 skipped=0 rest=0\n\
            pid 256 packets=3 breaks=0 duplicates=2 errors=0\n\
            client 0\n\
            line 1 steps 0..1 done\n\
            line 2 steps 1..2 done\n\
            line 4 steps 2..8 done\n\
            node 0\n\
            0 c0 0 open = done drop=0..0 tap=keep\n\
            1 c0 1 pes pid=256 input=frontend output=tsdemux_tap type=20 flags=4 at=0 = done drop=0..0 tap=keep\n\
            2 feed 0 pass input=frontend first=0 count=1 at=0 = passed\n\
            3 feed 1 pass input=frontend first=1 count=1 at=0 = passed\n\
            4 c0 2 read 188 at=0 = data 47010010|0*368|\n\
            5 c0 3 read 188 at=0 = data 47010010|0*368|\n\
            6 c0 4 read 188 at=0 = again ended=0\n\
            7 feed 2 pass input=frontend first=2 count=1 at=0 = passed\n\
            8 c0 5 read 188 at=0 = data 47010010|0*368|\n\
            9 c0 6 read 188 at=0 = again ended=0\n\
            10 feed 3 end = passed\n\
            11 c0 7 read 188 at=0 = again ended=1\n\
            fault read\n",
        ),
        (
            (&[5], &[], ROOM),
            Status::Ok,
            "dvbemu 1\n\
            packets=3 skipped=0 rest=0\n\
            pid 256 packets=3 breaks=0 duplicates=2 errors=0\n\
            client 0\n\
            line 1 steps 0..1 done\n\
            line 2 steps 1..2 done\n\
            line 4 steps 2..8 done\n\
            node 0\n\
            0 c0 0 open = done drop=0..0 tap=keep\n\
            1 c0 1 pes pid=256 input=frontend output=tsdemux_tap type=20 flags=4 at=0 = done drop=0..0 tap=keep\n\
            2 feed 0 pass input=frontend first=0 count=1 at=0 = passed\n\
            3 feed 1 pass input=frontend first=1 count=1 at=0 = passed\n\
            4 c0 2 read 188 at=0 = data 47010010|0*368|\n\
            5 c0 3 read 188 at=0 = data 47010010|0*368|\n\
            6 c0 4 read 188 at=0 = again ended=0\n\
            7 feed 2 pass input=frontend first=2 count=1 at=0 = passed\n\
            8 c0 5 read 188 at=0 = data 47010010|0*368|\n\
            9 c0 6 read 188 at=0 = again ended=0\n\
            10 feed 3 end = passed\n\
            11 c0 7 read 188 at=0 = again ended=1\n\
            end\n",
        ),
    ],
};

// A right report and its session: ten reads for the first line, one for the report, one for the session, and one at the end; and
// a write for each byte of the answer.
const ANSWERS: FailingSession = FailingSession {
    words: "check",
    script: "report 40\ndvbemu 1\npackets=0 skipped=0 rest=0\nend\nstream\n",
    stream: &[],
    piece: 1000,
    width: 1,
    rows: &[
        ((&[0], &[], ROOM), Status::ReadFault, ""),
        ((&[1], &[], ROOM), Status::ReadFault, ""),
        ((&[2], &[], ROOM), Status::ReadFault, ""),
        ((&[3], &[], ROOM), Status::ReadFault, ""),
        ((&[4], &[], ROOM), Status::ReadFault, ""),
        ((&[5], &[], ROOM), Status::ReadFault, ""),
        ((&[6], &[], ROOM), Status::ReadFault, ""),
        ((&[7], &[], ROOM), Status::ReadFault, ""),
        ((&[8], &[], ROOM), Status::ReadFault, ""),
        ((&[9], &[], ROOM), Status::ReadFault, ""),
        ((&[10], &[], ROOM), Status::ReadFault, ""),
        ((&[11], &[], ROOM), Status::ReadFault, ""),
        ((&[12], &[], ROOM), Status::ReadFault, ""),
        ((&[13], &[], ROOM), Status::Ok, "yes\n"),
        ((&[], &[0], ROOM), Status::WriteFault, ""),
        ((&[], &[1], ROOM), Status::WriteFault, "y"),
        ((&[], &[2], ROOM), Status::WriteFault, "ye"),
        ((&[], &[3], ROOM), Status::WriteFault, "yes"),
        ((&[], &[4], ROOM), Status::Ok, "yes\n"),
    ],
};

static SESSIONS: [FailingSession; 6] = [
    READ_FAULTS,
    SCRIPT_FAULT,
    WRITE_FAULTS,
    MAKE,
    READS,
    ANSWERS,
];

// Whether a session ends as a row says.
fn is_right<R: AllocGlobal + Threads + Wait + Sync>(
    rt: &R,
    session: &FailingSession,
    words: &str,
    row: &FailingRow,
) -> Result<bool, NoMemory> {
    let ((reads, writes, capacity), status, output) = *row;
    let ends = TestEnds {
        piece: session.piece,
        reads,
        capacity,
        width: session.width,
        writes,
    };
    let input = input_of(rt.alloc(), session.script, session.stream)?;
    let output = text_of(rt.alloc(), output)?;
    let (clock, gate) = (FixedClock::new(0), NoGate::new());
    let (ended, written) = told(rt, words, input, &ends, &clock, &gate)?;
    Ok(ended == status && written == output)
}

#[test]
fn ends_that_fail_leave_what_the_rows_say(rt: HostRuntime) {
    for (number, session) in SESSIONS.iter().enumerate() {
        for words in session.words.split("\n") {
            let odd = session
                .rows
                .iter()
                .position(|row| is_right(&rt, session, words, row) != Ok(true));
            assert_eq!(rt; odd, None, "{number} {words}");
        }
    }
}
