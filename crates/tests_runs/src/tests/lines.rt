//! Seats at lines in memory, which are cut within a request or take no reply, and of which a read takes a while.
ghost use Rattle.std.specs.Prelude.{◌≡◌, ◌<◌, ◌≤◌, ◌^◌, length, Some, IfOk, IfSome};
ghost use Rattle.std.specs.Io.{ReadsAtMost};
ghost use Rattle.std.specs.Io.KnownBytes.{ReadConsumes, WriteAppends};
ghost use Rattle.emu_io.specs.Causes.{HasCause};
ghost use Rattle.adapter.specs.Callers.{AreFreshCallers};
ghost use Rattle.adapter.specs.Rows.{Fits};
ghost use Rattle.seats.specs.Seated.{IsReadyToHand};

use super::ends::CountingClock;
use adapter::{Adapter, Client, Feeder};
use dmx_calls::{Act, Entry};
use emu_io::{Failed, MemSink, MemSource, Sink, Source};
use seats::{Desk, JournalLine, KeptJournal, Seat, desks_of};
use std::alloc::Global;
use std::sync::atomic::AtomicU64;
use std::sync::atomic::Ordering::SeqCst;
use std::sync::{Arc, Wait};

// How long a read of a line takes, in milliseconds.
const WAIT: u64 = 1000;

/// The seat of an adapter's one client.
pub fn one_seat(
    adapter: &Adapter,
    feeder: &Feeder,
    alloc: Global,
    clients: Vec<Client>,
) -> Option<Seat>
    requires { AreFreshCallers adapter.now 1 feeder.now clients.items }
    ensures ready { IfSome result (IsReadyToHand adapter.now) }
    ensures feeder { Fits adapter.now feeder.now.passes × (feeder.now.left ≡ 2 ^ 44) }
{
    let mut lines = Vec::new(alloc);
    lines.push(0u8).ok()?;
    let mut desks = desks_of(alloc, clients, lines).ok()?;
    let Desk { seat, .. } = desks.pop()?;
    Some(seat)
}

/// A line whose requests and replies stand in memory.
#[derive(Drop)]
pub struct MemLine {
    from: MemSource,
    to: MemSink,
    passed: Arc<AtomicU64>,
}

impl MemLine {
    /// A line of requests, each by its verb and its node, of which so many bytes come. They come in pieces of 50 bytes, each
    /// after a second; so many bytes of replies find room.
    pub fn new(alloc: Global, asked: &[(u8, u8)], come: usize, room: usize) -> Option<MemLine> {
        let mut bytes = Vec::new(alloc);
        for (verb, node) in asked {
            let mut request = [0; 76];
            request[0] = *verb;
            request[4] = *node;
            bytes.extend_from_slice(&request).ok()?;
        }
        bytes.truncate(come);
        Some(MemLine {
            from: MemSource::new(bytes, 50, Vec::new(alloc)),
            to: MemSink::new(alloc, room, 7, Vec::new(alloc)).ok()?,
            passed: Arc::new(alloc, AtomicU64::new(0)).ok()?,
        })
    }
}

impl Source for MemLine {
    ghost end = { λ l. record { left = Some l.from.left; faults = l.from.faults } };

    fn read(&mut self, into: &mut [u8]) -> Result<usize, Failed>
        requires { 0 < length into.old }
        ensures bound { ReadsAtMost result into.new }
        ensures bytes { ReadConsumes (Some self.old.from.left) (Some self.new.from.left) result into.new }
        ensures cause { HasCause self.old.from.faults self.new.from.faults result }
    {
        self.passed.fetch_add(WAIT, SeqCst);
        self.from.read(into)
    }
}

impl Sink for MemLine {
    ghost end = { λ l. record { written = Some l.to.written; faults = l.to.faults } };

    fn write(&mut self, piece: &[u8]) -> Result<usize, Failed>
        requires { 0 < length piece.now }
        ensures bound { IfOk result (λ n. (1 ≤ n) × (n ≤ length piece.now)) }
        ensures bytes { WriteAppends (Some self.old.to.written) (Some self.new.to.written) result piece.now }
        ensures cause { HasCause self.old.to.faults self.new.to.faults result }
    {
        self.to.write(piece)
    }
}

// A call, a poll by the seconds that have passed.
#[derive(Clone, Copy, PartialEq, Eq)]
enum Step {
    Open,
    Poll(u64),
    Close,
}

// What a line asks for, and what comes of it.
struct LineRow {
    // Verbs and nodes: 1 opens a node, 3 closes it, and 6 polls it.
    asked: &'static [(u8, u8)],
    // How many bytes of this come: each number from the first to the one before the second.
    come: (usize, usize),
    // How many bytes of replies find room, and how many are written.
    room: usize,
    written: usize,
    // A node is closed where its line ends.
    calls: &'static [Step],
}

static ROWS: [LineRow; 4] = [
    // A request that is cut isn't answered.
    LineRow {
        asked: &[(1, 0), (3, 0)],
        come: (76, 152),
        room: 1000,
        written: 24,
        calls: &[Step::Open, Step::Close],
    },
    LineRow {
        asked: &[(1, 0), (3, 0)],
        come: (152, 153),
        room: 1000,
        written: 48,
        calls: &[Step::Open, Step::Close],
    },
    // Where a reply finds no room the next request isn't answered.
    LineRow {
        asked: &[(1, 0), (6, 0)],
        come: (152, 153),
        room: 10,
        written: 10,
        calls: &[Step::Open, Step::Close],
    },
    // A moment is looked for behind its request: a request comes in two reads, so the polls come behind four and six seconds. A
    // clock that is looked at before a request is waited for would give two seconds less.
    LineRow {
        asked: &[(1, 0), (6, 0), (6, 0)],
        come: (228, 229),
        room: 1000,
        written: 72,
        calls: &[Step::Open, Step::Poll(4), Step::Poll(6), Step::Close],
    },
];

// Whether these are the front of the replies to calls on one node: each has 24 bytes, all 0 but the call's place in the
// seventeenth.
fn are_replies(written: &[u8], count: usize) -> bool {
    for (place, byte) in written.iter().enumerate() {
        let want = if place % 24 == 16 { place / 24 } else { 0 };
        if *byte as usize != want {
            return false;
        }
    }
    written.len() == count
}

// Whether a log has these calls.
fn are_made(log: &[Entry], calls: &[Step]) -> bool {
    for (entry, want) in log.iter().zip(calls.iter()) {
        let made = match entry.act.act() {
            Act::Open => Step::Open,
            Act::Poll { now } => Step::Poll(now / WAIT),
            Act::Close => Step::Close,
            _ => return false,
        };
        if made != *want {
            return false;
        }
    }
    log.len() == calls.len()
}

// Whether the one seat of a new adapter does what a row says where so many bytes come. None where memory is wanting.
fn is_so<R: Wait>(rt: &R, alloc: Global, row: &LineRow, come: usize) -> Option<bool> {
    let line = MemLine::new(alloc, row.asked, come, row.room)?;
    let clock = CountingClock {
        count: line.passed.clone().ok()?,
        is_backwards: false,
    };
    let (adapter, feeder, clients) = Adapter::new(alloc, 1).ok()?;
    let mut seat = one_seat(&adapter, &feeder, alloc, clients)?;
    let journal = KeptJournal::new(alloc);
    let mut at = JournalLine { line, journal };
    seat.sit(rt, alloc, &adapter, &mut at, &clock);
    Some(are_replies(at.line.to.bytes(), row.written) && are_made(&at.journal.log, row.calls))
}

#[test]
fn seats_serve_lines_as_the_rows_say(rt: HostRuntime) {
    for (number, row) in ROWS.iter().enumerate() {
        let (from, below) = row.come;
        let odd = (from..below).find(|come| is_so(&rt, rt.alloc(), row, *come) != Some(true));
        assert_eq!(rt; odd, None, "{number}");
    }
}
