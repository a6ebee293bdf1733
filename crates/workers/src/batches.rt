// What is told of the batches that pass.
ghost use Rattle.std.specs.Prelude.{◌≡◌, ◌++◌, [], ◌∷◌, List, OnOk};
ghost use Rattle.dmx_calls.specs.declared.histories.Fed.{Fed as ToldFed};

use dmx_calls::Fed;
use dmx_calls::limits::NODES;
use std::alloc::AllocError as NoMemory;
use ts_batch::Batch;

/// What is told of the batches that pass.
pub trait Batches {
    /// It was told of these batches, one after another, and of no others.
    ghost took: { List ToldFed → Self → Self → Type 0 };

    /// A batch is about to pass the nodes.
    fn begin(&mut self, batch: &Batch)
        ensures { took [] self.old self.new };

    /// Takes what is kept of a batch, which has passed, with these places in the histories of the nodes.
    fn take(&mut self, fed: Fed, places: &[u64; NODES as usize]) -> Result<(), NoMemory>
        ensures { OnOk result (took (fed ∷ []) self.old self.new) };

    /// The end of the stream has passed, with these places.
    fn finish(&mut self, places: &[u64; NODES as usize])
        ensures { took [] self.old self.new };

    /// It is told of none where nothing is done.
    ghost took_none: { (b : Self) → took [] b b };

    /// What it is told later stands behind what it was told before.
    ghost took_both: { (a b c : Self) (xs ys : List ToldFed) → took xs a b → took ys b c → took (xs ++ ys) a c };
}

/// Nothing is kept.
impl Batches for () {
    ghost took = { λ feeding a b. Unit {0} };

    fn begin(&mut self, _batch: &Batch) {}

    fn take(&mut self, _fed: Fed, _places: &[u64; NODES as usize]) -> Result<(), NoMemory> {
        Ok(())
    }

    fn finish(&mut self, _places: &[u64; NODES as usize]) {}

    ghost took_none = { λ b. tt };

    ghost took_both = { λ a b c xs ys p q. tt };
}

/// A list keeps the batches in memory.
impl Batches for Vec<Fed> {
    ghost use Rattle.workers.specs.Inside.Adding.{added_none, added_both};

    ghost took = { λ feeding a b. b.items ≡ a.items ++ feeding };

    fn begin(&mut self, _batch: &Batch) {}

    fn take(&mut self, fed: Fed, _places: &[u64; NODES as usize]) -> Result<(), NoMemory> {
        self.push(fed)?;
        Ok(())
    }

    fn finish(&mut self, _places: &[u64; NODES as usize]) {}

    ghost took_none = { λ a. added_none a.items };

    ghost took_both = { λ a b c xs ys p q. added_both a.items b.items c.items xs ys p q };
}
