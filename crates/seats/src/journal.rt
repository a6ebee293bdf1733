// Where the calls of a seat go.
ghost use Rattle.std.specs.Prelude.{◌≡◌, ◌+◌, ◌++◌, [], true, List, map, OnOk, IfErr};
ghost use Rattle.seats.specs.Imports.{LogEntry, Outcome as ToldOutcome, told_entry};

use crate::made::Made;
use dmx_calls::{Entry, Outcome};
use std::alloc::Global;

/// What a seat hands its calls over to.
pub trait Journal {
    /// It was given these calls, and what became of these commands, one after another, and no others.
    ghost took: { List LogEntry → List ToldOutcome → Self → Self → Type 0 };

    /// Hears of calls that were made and told in their replies, before it is given them; of some once more where there is no
    /// memory for them yet.
    fn hear(&mut self, calls: &[Made])
        ensures { took [] [] self.old self.new };

    /// Takes these calls of a seat, and what became of its commands. Where it has no memory for them it takes none, and gives the
    /// calls back.
    fn take(&mut self, calls: Vec<Entry>, told: &[Outcome]) -> Result<(), Vec<Entry>>
        ensures took { OnOk result (took (map told_entry calls.items) told.now self.old self.new) }
        ensures back { IfErr result (λ back. (back ≡ calls) × took [] [] self.old self.new) };

    /// The call that it keeps as the last, if it keeps any in memory: with that the next may share its reply.
    fn last(&self) -> Option<&Entry>;

    /// Calls were made for which there was no memory, so that it isn't given them: it promises nothing any more.
    fn miss(&mut self)
        ensures { (calls : List LogEntry) (told : List ToldOutcome) (first : Self) → took calls told first self.new };

    /// It is given none where nothing is done.
    ghost took_none: { (j : Self) → took [] [] j j };

    /// What it is given later stands behind what it was given before.
    ghost took_both: { (a b c : Self) (xs ys : List LogEntry) (os ps : List ToldOutcome) → took xs os a b → took ys ps b c
        → took (xs ++ ys) (os ++ ps) a c };
}

/// The journal that keeps nothing.
#[derive(Clone, Copy, Debug, PartialEq, Eq, Drop)]
pub struct Forgotten;

impl Journal for Forgotten {
    ghost took = { λ calls told a b. Unit {0} };

    fn hear(&mut self, _calls: &[Made]) {}

    fn take(&mut self, _calls: Vec<Entry>, _told: &[Outcome]) -> Result<(), Vec<Entry>> {
        Ok(())
    }

    fn last(&self) -> Option<&Entry> {
        None
    }

    fn miss(&mut self) {}

    ghost took_none = { λ j. tt };

    ghost took_both = { λ a b c xs ys os ps p q. tt };
}

/// The journal that keeps all in memory.
#[derive(Drop)]
pub struct KeptJournal {
    /// The calls, in their order.
    pub log: Vec<Entry>,
    /// What became of the commands, in their order.
    pub outcomes: Vec<Outcome>,
    /// No call was missed.
    pub whole: bool,
}

impl KeptJournal {
    /// A journal that has been given nothing yet.
    pub fn new(alloc: Global) -> KeptJournal
        ensures { (result.log.items ≡ []) × (result.outcomes.items ≡ []) × (result.whole ≡ true) }
    {
        KeptJournal {
            log: Vec::new(alloc),
            outcomes: Vec::new(alloc),
            whole: true,
        }
    }
}

impl Journal for KeptJournal {
    ghost use Rattle.seats.specs.Kept.{HasKept};
    ghost use Rattle.seats.specs.Inside.Keeping.{kept_none, kept_both};

    ghost took = { λ calls told a b. HasKept calls told a b };

    fn hear(&mut self, _calls: &[Made]) {}

    fn take(&mut self, mut calls: Vec<Entry>, told: &[Outcome]) -> Result<(), Vec<Entry>> {
        if self.log.reserve(calls.len()).is_err() || self.outcomes.reserve(told.len()).is_err() {
            return Err(calls);
        }
        self.log.append(&mut calls).unwrap();
        self.outcomes.extend_from_slice(told).unwrap();
        Ok(())
    }

    fn last(&self) -> Option<&Entry> {
        self.log.last()
    }

    fn miss(&mut self) {
        self.whole = false;
    }

    ghost took_none = { λ j. kept_none j };

    ghost took_both = { λ a b c xs ys os ps p q. kept_both a b c xs ys os ps p q };
}

/// A line with the journal of its seat.
#[derive(Drop)]
pub struct JournalLine<T: Drop, J: Drop> {
    /// The line, where requests come from and replies go to.
    pub line: T,
    /// The journal.
    pub journal: J,
}
