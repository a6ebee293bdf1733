// What the tests share.

mod ends;
mod entries;
mod faults;
mod gates;
mod journals;
mod lines;
mod locks;
mod report_lines;
mod serial;
mod taps;
mod threads;

use std::sync::atomic::AtomicU64;
use std::sync::atomic::Ordering::SeqCst;
use std::thread;

// How often a thread looks at most for what another does.
const TURNS: u64 = 100_000_000;

// Waits until another thread has brought a counter to this number, and tells whether it has.
fn comes_to(counter: &AtomicU64, number: u64) -> bool {
    for _ in 0..TURNS {
        if counter.load(SeqCst) == number {
            return true;
        }
        thread::yield_now();
    }
    false
}
