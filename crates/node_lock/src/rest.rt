//! How a caller rests that waits for the history to grow, and how it is woken.
use crate::lock::{NodeLock, SERVED};
use machine::Machine;
use std::sync::Wait;
use std::sync::atomic::Ordering;
use std::time::Duration;

// The longest rest, in milliseconds. Nobody depends on it: each entry wakes those that rest.
const LONGEST: u64 = 1_000;

impl<M: Machine> NodeLock<M> {
    /// Sleeps while the history has `len` entries, for at most a second. It may end for no reason, so whoever waits for an entry
    /// looks again behind it. It makes no step of any pass.
    pub fn rest<R: Wait>(&self, rt: &R, len: u64) {
        self.resting.fetch_add(1, Ordering::SeqCst);
        // The low half of the number tells it from all of the next 2^32 - 1.
        let seen = (len % (1 << 32)) as u32;
        let shared = &self.table.shared;
        shared.park_timeout(rt, SERVED, seen, Duration::from_millis(LONGEST));
        self.resting.fetch_sub(1, Ordering::SeqCst);
    }

    // Wakes those that rest, behind a new entry. Whoever begins to rest later finds that the number served is another.
    pub(crate) fn wake(&self) {
        if self.resting.load(Ordering::SeqCst) > 0 {
            self.table.shared.wake_all(SERVED);
        }
    }
}
