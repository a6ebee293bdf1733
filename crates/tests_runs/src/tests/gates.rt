//! A gate that holds one caller of a run by threads until another has come to a step.
use super::TURNS;
use emu_io::Gate;
use std::sync::atomic::AtomicU64;
use std::sync::atomic::Ordering::SeqCst;

/// Two callers, each with a step of its own: the first is held before its step until the second is at its.
pub type Hold = ((u32, u64), (u32, u64));

/// A gate that holds the feeder and two clients.
#[derive(Drop)]
pub struct HoldingGate {
    holds: &'static [Hold],
    // One more than the step that each is at; 0 before its first.
    come: [AtomicU64; 3],
    // How many holds ended because the other had come.
    kept: AtomicU64,
}

impl HoldingGate {
    pub fn new(holds: &'static [Hold]) -> HoldingGate {
        HoldingGate {
            holds,
            come: [AtomicU64::new(0), AtomicU64::new(0), AtomicU64::new(0)],
            kept: AtomicU64::new(0),
        }
    }

    // Holds a caller until this other has come to this step.
    fn keep(&self, other: u32, there: u64) {
        let Some(word) = self.come.get(other as usize) else {
            return;
        };
        for _ in 0..TURNS {
            if word.load(SeqCst) > there {
                self.kept.fetch_add(1, SeqCst);
                return;
            }
            std::thread::yield_now();
        }
    }

    /// Whether each hold was kept, and none ran out.
    pub fn has_kept_all(&self) -> bool {
        self.kept.load(SeqCst) == self.holds.len() as u64
    }
}

impl Gate for HoldingGate {
    fn at(&self, who: u32, step: u64) {
        if let Some(word) = self.come.get(who as usize) {
            word.store(step.saturating_add(1), SeqCst);
        }
        for (held, (other, there)) in self.holds {
            if *held == (who, step) {
                self.keep(*other, *there);
            }
        }
    }
}
