// What a worker calls before each of its steps, so that a test can hold it there.

/// What a worker calls before each of its steps. It promises nothing, and what it does changes no answer.
pub trait Gate {
    /// Caller `who` is before its step `step`: caller 0 is the feeder and caller `c + 1` is client c.
    fn at(&self, who: u32, step: u64);
}

/// A gate that does nothing.
#[derive(Drop)]
pub struct NoGate;

impl NoGate {
    /// A gate that does nothing.
    pub fn new() -> NoGate {
        NoGate
    }
}

impl Gate for NoGate {
    fn at(&self, _who: u32, _step: u64) {}
}
