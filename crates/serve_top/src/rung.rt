// Who is told of what happens, beside what is kept of it.

use dmx_calls::limits::NODES;
use dmx_calls::{Entry, Fed, Outcome};
use seats::{Forgotten, Journal, Made};
use std::alloc::AllocError as NoMemory;
use std::sync::Arc;
use ts_batch::Batch;
use workers::Batches;

/// Who is told of each call and of each batch. Nothing that is kept rests on it.
pub trait Ears {
    /// A call was made, and told in its reply. Where memory was wanting it is told of it once more.
    fn called(&self, call: &Made);

    /// A batch is about to pass the nodes.
    fn begins(&self, batch: &Batch);

    /// It has passed, with these places in the histories of the nodes.
    fn passed(&self, places: &[u64; NODES as usize]);

    /// The end of the stream has passed, with these places.
    fn ended(&self, places: &[u64; NODES as usize]);
}

/// Nobody.
impl Ears for Forgotten {
    fn called(&self, _call: &Made) {}

    fn begins(&self, _batch: &Batch) {}

    fn passed(&self, _places: &[u64; NODES as usize]) {}

    fn ended(&self, _places: &[u64; NODES as usize]) {}
}

/// What is kept of calls or batches, of which somebody is told first.
#[derive(Drop)]
pub struct Rung<E: Drop, K: Drop> {
    /// Who is told.
    pub ears: Arc<E>,
    /// What is kept.
    pub kept: K,
}

impl<E: Ears + Drop, J: Journal + Drop> Journal for Rung<E, J> {
    ghost took = { λ calls told a b. J.took calls told a.kept b.kept };

    fn hear(&mut self, calls: &[Made]) {
        'calls: for call in calls {
            self.ears.called(call);
        }
        self.kept.hear(calls)
    }

    fn take(&mut self, calls: Vec<Entry>, told: &[Outcome]) -> Result<(), Vec<Entry>> {
        self.kept.take(calls, told)
    }

    fn last(&self) -> Option<&Entry> {
        self.kept.last()
    }

    fn miss(&mut self) {
        self.kept.miss()
    }

    ghost took_none = { λ j. J.took_none j.kept };

    ghost took_both = { λ a b c xs ys os ps p q. J.took_both a.kept b.kept c.kept xs ys os ps p q };
}

impl<E: Ears + Drop, B: Batches + Drop> Batches for Rung<E, B> {
    ghost took = { λ feeding a b. B.took feeding a.kept b.kept };

    fn begin(&mut self, batch: &Batch) {
        self.ears.begins(batch);
        self.kept.begin(batch)
    }

    fn take(&mut self, fed: Fed, places: &[u64; NODES as usize]) -> Result<(), NoMemory> {
        self.ears.passed(places);
        self.kept.take(fed, places)
    }

    fn finish(&mut self, places: &[u64; NODES as usize]) {
        self.ears.ended(places);
        self.kept.finish(places)
    }

    ghost took_none = { λ b. B.took_none b.kept };

    ghost took_both = { λ a b c xs ys p q. B.took_both a.kept b.kept c.kept xs ys p q };
}
