// Bells: how a program that waits learns that its node may have something, without a call.
ghost use Rattle.std.specs.Prelude.{◌≡◌, ◌<◌, ◌≤◌};

use dmx_calls::limits::{DEMUX_NODES, NODES};
use dmx_calls::{Act, Reply};
use seats::Made;
use serve_top::Ears;
use std::fs::{File, OpenOptions};
use std::io;
use std::os::unix::fs::FileExt;
use std::sync::OnceLock;
use std::sync::atomic::Ordering::SeqCst;
use std::sync::atomic::{AtomicU32, AtomicU64};
use ts_batch::Batch;

// The dvr node, behind the others.
const DVR: usize = DEMUX_NODES as usize;

// The words of 64 bits that have one for each PID and one for all of them, 0 to 8192.
const WORDS: u16 = 129;

// The place of no look.
const NOBODY: u64 = u64::MAX;

// The bell of a node.
#[derive(Drop)]
struct Bell {
    rt: HostRuntime,
    path: String,
    // Its file, from the node's first open on.
    file: OnceLock<File>,
    // One more than the places of its last open and close. It may hear of a close behind the open of the node's next program.
    opened: AtomicU64,
    closed: AtomicU64,
    // The PIDs that the node's filter was asked for: a bit each.
    wanted: Vec<AtomicU64>,
    // 1 where the batch that passes may have packets for it.
    passing: AtomicU32,
    // Where packets that may be for it have passed last, in the node's history.
    due: AtomicU64,
    // Where its program has looked last, or NOBODY where it hasn't since the bell rang.
    looked: AtomicU64,
}

// Whether a batch has packets of the PIDs whose bits are set, of 64 from this one on.
fn has_any(batch: &Batch, first: u16, bits: u64) -> bool
    requires { first ≤ 8192 }
{
    'pids: for bit in 0..64u16 {
        if bits >> bit & 1 == 1 && !batch.places(first + bit).is_empty() {
            return true;
        }
    }
    false
}

impl Bell {
    // The bell of this node of the folder.
    fn new(rt: &HostRuntime, folder: &str, node: u32) -> io::Result<Bell> {
        let mut wanted = Vec::with_capacity(rt.alloc(), WORDS as usize)?;
        'words: for _ in 0..WORDS {
            wanted.push(AtomicU64::new(0))?;
        }
        Ok(Bell {
            rt: *rt,
            path: format!(in rt.alloc(); "{folder}/bell.{node}")?,
            file: OnceLock::new(),
            opened: AtomicU64::new(0),
            closed: AtomicU64::new(0),
            wanted,
            passing: AtomicU32::new(0),
            due: AtomicU64::new(0),
            looked: AtomicU64::new(NOBODY),
        })
    }

    // Its file is there. It is opened at both of its ends, so that whatever else has its name holds nobody up.
    fn make(&self) {
        if self.file.get().is_some() {
            return;
        }
        let mut options = OpenOptions::new();
        options.read(true).write(true).create(true);
        if let Ok(file) = options.open(&self.rt, self.path.as_str()) {
            let _ = self.file.try_set(file);
        }
    }

    fn add(&self, pid: u16) {
        if let Some(word) = self.wanted.get(usize::from(pid / 64)) {
            word.fetch_or(1 << (pid % 64), SeqCst);
        }
    }

    fn clear(&self) {
        'words: for word in &self.wanted {
            word.store(0, SeqCst);
        }
    }

    // Whether a batch has packets of a PID that the node was asked for, which is open.
    fn wants(&self, batch: &Batch) -> bool {
        if self.opened.load(SeqCst) <= self.closed.load(SeqCst) {
            return false;
        }
        'words: for at in 0..WORDS {
            let bits = match self.wanted.get(usize::from(at)) {
                Some(word) => word.load(SeqCst),
                None => 0,
            };
            if bits != 0 && has_any(batch, 64 * at, bits) {
                return true;
            }
        }
        false
    }

    // A program has opened the node.
    fn begin(&self, place: u64) {
        self.make();
        self.clear();
        self.looked.store(NOBODY, SeqCst);
        self.opened.fetch_max(place.saturating_add(1), SeqCst);
    }

    // The filter is asked for a PID. So may be the batch that passes meanwhile; what passed before is found by the next look.
    fn ask_for(&self, pid: u16) {
        self.add(pid);
        self.passing.store(1, SeqCst);
    }

    // Packets that may be for the node have passed it.
    fn fall_due(&self, place: u64) {
        self.due.store(place, SeqCst);
        self.ring();
    }

    // A program has looked at the node.
    fn look(&self, place: u64) {
        self.looked.store(place, SeqCst);
        self.ring();
    }

    // Rings where packets have passed behind the last look, once for each look.
    fn ring(&self) {
        if self.due.load(SeqCst) > self.looked.load(SeqCst)
            && self.looked.swap(NOBODY, SeqCst) != NOBODY
            && let Some(file) = self.file.get()
        {
            let _ = file.write_at(&[1], 0);
        }
    }

    // A call on the node was done, and not refused.
    fn note(&self, act: &Act, place: u64) {
        match act {
            Act::Open => self.begin(place),
            Act::Close => {
                self.closed.fetch_max(place.saturating_add(1), SeqCst);
            }
            Act::SetFilter { params, .. } => {
                self.clear();
                self.ask_for(params.pid);
            }
            Act::SetPes { params, .. } => {
                self.clear();
                self.ask_for(params.pid);
            }
            Act::AddPid(pid) => self.ask_for(*pid),
            _ => {}
        }
    }
}

/// A bell for each node: the file `bell.N` of the server's folder, of which a byte is written where packets that the node was
/// asked for have passed since its program looked last. A program that waits is told by the system of that write (inotify), and
/// then looks again. The file is made behind the node's first open, unless the program has made it before.
///
/// A bell is a hint: it says neither that something is there nor that nothing is.
#[derive(Drop)]
pub struct Bells {
    bells: Vec<Bell>,
}

impl Bells {
    /// The bells of this folder.
    pub fn new(rt: &HostRuntime, folder: &str) -> io::Result<Bells> {
        let mut bells = Vec::with_capacity(rt.alloc(), NODES as usize)?;
        'nodes: for node in 0..NODES {
            bells.push(Bell::new(rt, folder, node)?)?;
        }
        Ok(Bells { bells })
    }
}

impl Ears for Bells {
    fn called(&self, call: &Made) {
        let Some(bell) = self.bells.get(call.node as usize) else {
            return;
        };
        match &call.act {
            Act::Read { .. } | Act::Poll { .. } => bell.look(call.place),
            act => {
                if let Reply::Done { .. } = &call.reply {
                    bell.note(act, call.place);
                }
            }
        }
    }

    fn begins(&self, batch: &Batch) {
        'nodes: for bell in &self.bells {
            bell.passing.store(0, SeqCst);
            if bell.wants(batch) {
                bell.passing.store(1, SeqCst);
            }
        }
    }

    // The dvr node may have packets where any other may.
    fn passed(&self, places: &[u64; NODES as usize]) {
        let mut some = false;
        'nodes: for (bell, place) in self.bells.iter().zip(places.iter()) {
            if bell.passing.load(SeqCst) != 0 {
                bell.fall_due(*place);
                some = true;
            }
        }
        if some && let Some(bell) = self.bells.get(DVR) {
            bell.fall_due(places[DVR]);
        }
    }

    fn ended(&self, places: &[u64; NODES as usize]) {
        'nodes: for (bell, place) in self.bells.iter().zip(places.iter()) {
            bell.fall_due(*place);
        }
    }
}
