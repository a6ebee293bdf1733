// What a read and a write answer where they fail, and the count of them.
ghost use Rattle.std.specs.Prelude.{◌≡◌, ℕ, ◌+◌};
ghost use Rattle.std.specs.Borrow.{ftrue};

use std::marker::Model;
use thiserror::Error;

/// A read or a write that failed. The count of faults of its source or sink says how often.
#[derive(Clone, Copy, Debug, PartialEq, Eq, Drop, Error)]
#[error("a read or a write failed")]
pub struct Failed;

// How often a call has failed. It takes no bytes, so that the number has no end; only contracts read it.
#[derive(Drop)]
pub struct Faults {
    pub ghost count: { ℕ },
}

impl Model for Faults {
    ghost also_owns = { λ _. ftrue };
}

// It owns nothing.
unsafe impl Send for Faults {}

impl Faults {
    // No call has failed.
    pub(crate) fn none() -> Faults
        ensures { result.count ≡ 0 }
    {
        Faults {}
    }

    // One call more than these has failed.
    pub(crate) fn one_more(_before: &Faults) -> Faults
        ensures { result.count ≡ _before.now.count + 1 }
    {
        Faults {}
    }
}
