//! Runs by threads: what the order of their calls may be, moments that go on or back, gates that hold one thread until another
//! has come to a step, and the session of a number.
use super::ends::{CountingClock, FIRST, Part, SECOND, TestEnds, input_of, told};
use super::gates::{Hold, HoldingGate};
use super::report_lines::{reply_to, text_of};
use emu_io::{FixedClock, Gate, NoGate};
use emu_top::Status;
use std::alloc::{AllocError as NoMemory, Global};
use std::sync::atomic::AtomicU64;
use std::sync::{Arc, Wait};
use std::thread::Threads;

// Ends without faults, with room for what a made session tells.
const WIDE: TestEnds = TestEnds {
    piece: 65536,
    reads: &[],
    capacity: 60_000_000,
    width: 65536,
    writes: &[],
};

// The same with room for an answer.
const ANSWER: TestEnds = TestEnds {
    capacity: 4,
    ..WIDE
};

// Whether `check` says that a report is one of a session.
fn is_checked<R: AllocGlobal + Threads + Wait + Sync>(
    rt: &R,
    report: &[u8],
    session: &[u8],
) -> Result<bool, NoMemory> {
    let size = report.len();
    let front = format!(in rt.alloc(); "report {size}\n")?;
    let mut input = Vec::new(rt.alloc());
    input.extend_from_slice(front.as_bytes())?;
    input.extend_from_slice(report)?;
    input.extend_from_slice(session)?;
    let (clock, gate) = (FixedClock::new(0), NoGate::new());
    let (status, _) = told(rt, "check", input, &ANSWER, &clock, &gate)?;
    Ok(status == Status::Ok)
}

// The report of a session by a clock that counts, on or back, where `check` finds it right.
fn right_report<R: AllocGlobal + Threads + Wait + Sync, G: Gate + Sync>(
    rt: &R,
    words: &str,
    session: &[u8],
    is_backwards: bool,
    gate: &G,
) -> Option<String> {
    let alloc = rt.alloc();
    let clock = CountingClock {
        count: Arc::new(alloc, AtomicU64::new(0)).ok()?,
        is_backwards,
    };
    let input = session.to_vec(alloc).ok()?;
    let (status, report) = told(rt, words, input, &WIDE, &clock, gate).ok()?;
    if status != Status::Ok || is_checked(rt, &report, session) != Ok(true) {
        return None;
    }
    String::from_utf8(report).ok()
}

// A session whose threads are held, and what its right report has: replies, and how many entries, where that is looked at.
struct HeldSession {
    words: &'static str,
    script: &'static str,
    stream: &'static [Part],
    // Whether moments fall.
    is_backwards: bool,
    holds: &'static [Hold],
    // The front of a call, as `reply_to` reads it, and the reply.
    replies: &'static [(&'static str, &'static str)],
    entries: Option<usize>,
    // How often it is run.
    times: u32,
}

// What most have.
const ONCE: HeldSession = HeldSession {
    words: "run",
    script: "stream\n",
    stream: &[],
    is_backwards: false,
    holds: &[],
    replies: &[],
    entries: None,
    times: 1,
};

// Whether a report has these replies.
fn has_replies(alloc: Global, report: &str, replies: &[(&str, &str)]) -> Result<bool, NoMemory> {
    for (call, want) in replies {
        let want = text_of(alloc, want)?;
        match reply_to(report, call) {
            Some(reply) if reply.as_bytes() == want.as_slice() => {}
            _ => return Ok(false),
        }
    }
    Ok(true)
}

// Whether each hold was kept, and a right report has the replies and the entries.
fn is_held<R: AllocGlobal + Threads + Wait + Sync>(rt: &R, case: &HeldSession) -> Option<bool> {
    let alloc = rt.alloc();
    let gate = HoldingGate::new(case.holds);
    let session = input_of(alloc, case.script, case.stream).ok()?;
    let report = right_report(rt, case.words, &session, case.is_backwards, &gate)?;
    let entries = report.lines().filter(|line| line.contains(" = ")).count();
    let has_all = has_replies(alloc, report.as_str(), case.replies).ok()?;
    Some(has_all && gate.has_kept_all() && case.entries.unwrap_or(entries) == entries)
}

// That two clients run beside each other and either may come first: the clauses allow a run that does one after the other, and
// here the second comes before the first is done, or the other way round. Client 1 is held.
const FIRST_COMES_FIRST: HeldSession = HeldSession {
    script: "c0 open n0\nc1 open n0\nstream\n",
    holds: &[((2, 0), (1, 1))],
    replies: &[
        ("c0 0 open", "done drop=0..0 tap=keep"),
        ("c1 0 open", "busy owner=c0"),
    ],
    ..ONCE
};

// Client 0 is held.
const SECOND_COMES_FIRST: HeldSession = HeldSession {
    script: "c0 open n0\nc1 open n0\nstream\n",
    holds: &[((1, 0), (2, 1))],
    replies: &[
        ("c1 0 open", "done drop=0..0 tap=keep"),
        ("c0 0 open", "busy owner=c1"),
    ],
    ..ONCE
};

// That the feeder and a client run beside each other: the read comes between two batches, which neither a run that passes the
// stream first nor one that makes the client's calls first can have.
const READS_BETWEEN_TWO_BATCHES: HeldSession = HeldSession {
    words: "run --batch 1",
    script: "c0 open n0\nc0 pes n0 256 frontend tsdemux_tap 20 0\nc0 start n0\nc0 read n0 188\nstream\n",
    stream: &[FIRST, SECOND],
    holds: &[((0, 0), (1, 3)), ((1, 3), (0, 1)), ((0, 1), (1, 4))],
    replies: &[("c0 3 read", "data 47010010|0*368")],
    ..ONCE
};

// That a client which waits reads again behind a batch: the feeder is held until it has read once and is before its repeat.
const WAITS_UNTIL_A_BATCH_HAS_PASSED: HeldSession = HeldSession {
    words: "run --batch 1",
    script: "c0 open n0\nc0 pes n0 256 frontend tsdemux_tap 20 0\nc0 start n0\nc0 readw n0 188\nstream\n",
    stream: &[FIRST, SECOND],
    holds: &[((0, 0), (1, 4))],
    replies: &[
        ("c0 3 read", "again ended=0"),
        ("c0 4 read", "data 47010010|0*368"),
    ],
    ..ONCE
};

// That each moment is a reading of its own: the clauses allow a run that reads the clock once, and the read of that run would not
// come too late.
const EACH_MOMENT_IS_A_READING_OF_ITS_OWN: HeldSession = HeldSession {
    script: "c0 open n0\nc0 section n0 256 1 0\nc0 start n0\nc0 readw n0 1\nstream\n",
    replies: &[("c0 3 read", "timedout started=1 now=2 timeout=1")],
    ..ONCE
};

// A packet that is written in two pieces comes beside the stream's of its PID. The feeder is held until the client is through.
const PLAYS_BESIDE_THE_STREAM: HeldSession = HeldSession {
    script: "c0 open dvr\nc0 open n0\nc0 pes n0 256 dvr tsdemux_tap 20 0\nc0 start n0\n\
        c0 write dvr 47010010|0*192|\nc0 write dvr |0*176|\nc0 read n0 188\nc0 read n0 188\nstream\n",
    stream: &[SECOND],
    holds: &[((0, 0), (1, 40))],
    replies: &[
        ("c0 4 poll", "ready readable=0 error=none at=0 ended=0"),
        ("c0 5 poll", "ready readable=0 error=none at=0 ended=0"),
        ("c0 38 read", "data 47010010|0*368"),
        ("c0 39 read", "again ended=0"),
    ],
    ..ONCE
};

// That each pass of a write has a moment of its own: the pass on the last node comes too late for a timeout of 30. The filter is
// set at 0, the dvr node polled at 1, and the packet passes node 0 at 2.
const EACH_PASS_OF_A_WRITE_HAS_A_MOMENT: HeldSession = HeldSession {
    script: "c0 open dvr\nc0 open n31\nc0 section n31 256 30 4\nc0 write dvr 47010010|0*368|\nc0 read n31 1\nstream\n",
    replies: &[("c0 36 read", "timedout started=0 now=33 timeout=30")],
    ..ONCE
};

// That the gate is called behind the end too, which has passed all nodes then: the poll is held until it is.
const POLLS_BEHIND_THE_END: HeldSession = HeldSession {
    script: "c0 open n0\nc0 poll n0\nstream\n",
    stream: &[FIRST],
    holds: &[((1, 1), (0, 2))],
    replies: &[("c0 1 poll", "ready readable=0 error=none at=0 ended=1")],
    ..ONCE
};

// That eight clients get through one node's lock, each with all its calls, and that moments may fall: no clause says that a
// run ends. Three calls a client, one batch and the end.
const EIGHT_CLIENTS_SHARE_A_NODE: HeldSession = HeldSession {
    script: "c0 open n0\nc1 open n0\nc2 open n0\nc3 open n0\nc4 open n0\nc5 open n0\nc6 open n0\nc7 open n0\n\
        c0 poll n0\nc1 poll n0\nc2 poll n0\nc3 poll n0\nc4 poll n0\nc5 poll n0\nc6 poll n0\nc7 poll n0\n\
        c0 close n0\nc1 close n0\nc2 close n0\nc3 close n0\nc4 close n0\nc5 close n0\nc6 close n0\nc7 close n0\n\
        stream\n",
    stream: &[FIRST],
    is_backwards: true,
    entries: Some(26),
    times: 20,
    ..ONCE
};

static HELD: [HeldSession; 9] = [
    FIRST_COMES_FIRST,
    SECOND_COMES_FIRST,
    READS_BETWEEN_TWO_BATCHES,
    WAITS_UNTIL_A_BATCH_HAS_PASSED,
    EACH_MOMENT_IS_A_READING_OF_ITS_OWN,
    PLAYS_BESIDE_THE_STREAM,
    EACH_PASS_OF_A_WRITE_HAS_A_MOMENT,
    POLLS_BEHIND_THE_END,
    EIGHT_CLIENTS_SHARE_A_NODE,
];

#[test]
fn threads_run_in_the_order_that_a_gate_forces(rt: HostRuntime) {
    for (place, case) in HELD.iter().enumerate() {
        for _ in 0..case.times {
            assert_eq!(rt; is_held(&rt, case), Some(true), "{place}");
        }
    }
}

// A gate that lets each caller wait for some turns, by the caller, its step and the gate's number. By the number 0 nobody waits.
#[derive(Drop)]
struct ShufflingGate {
    number: u64,
}

impl Gate for ShufflingGate {
    fn at(&self, who: u32, step: u64) {
        if self.number == 0 {
            return;
        }
        let mixed = u64::from(who).wrapping_mul(1 << 32).wrapping_add(step) ^ self.number;
        let turns = mixed.wrapping_mul(0x9e37_79b9_7f4a_7c15) >> 58;
        for _ in 0..turns {
            std::thread::yield_now();
        }
    }
}

// That nine threads over 65,536 packets come to an end with all that was asked, in whatever order they run: as it comes, and in
// orders that the gate makes others. The session of the number 7 has eight clients, which drain four taps and the sections of two
// filters.
#[test]
fn a_made_session_runs(rt: HostRuntime) {
    let Ok(session) = ts_make::session(rt.alloc(), 7) else {
        panic!(rt; "no memory");
    };
    let odd = (0..4u64).find(|number| {
        let gate = ShufflingGate { number: *number };
        right_report(&rt, "run", &session, false, &gate).is_none()
    });
    assert_eq!(rt; odd, None);
}
