// Sets of places of a batch.
ghost use Rattle.std.specs.Prelude.{◌≡◌, ◌<◌, ℕ, ◌||◌, List, false, slice_get, Some, IsTrue};
ghost use Rattle.ts_packet.specs.Fields.{pid_of};
ghost use Rattle.pid_set.specs.Pids.{names_pid};
ghost use Rattle.ts_batch.specs.Places.{names, is_in};

use crate::Batch;
use pid_set::Pids;
use std::marker::Model;

/// A set of places of a batch of at most 64 packets: those that several PIDs name, each once.
#[derive(Drop)]
pub struct PlaceSet {
    marks: [bool; 64],
    some: bool,
}

impl Model for PlaceSet {
    ghost use Rattle.std.specs.Prelude.{List, Bool};
    ghost use Rattle.ts_batch.specs.Inside.SetHolds.{SetHolds};

    ghost Value = { List Bool };

    ghost view = { λ s. s.marks };

    ghost invariant = { SetHolds };
}

impl PlaceSet {
    /// The set of no place.
    pub fn new() -> PlaceSet
        ensures { (i : ℕ) → is_in i result ≡ false }
    {
        PlaceSet {
            marks: [false; 64],
            some: false,
        }
    }

    /// Adds the places of the packets that a PID names.
    pub fn add(&mut self, batch: &Batch, pid: u16)
        ensures { (i : ℕ) (packet : List ℕ) → slice_get batch.now.packets i ≡ Some packet
            → is_in i self.new ≡ (is_in i self.old || names pid packet) }
    {
        let places = batch.places(pid);
        'places: for place in places {
            self.marks[usize::from(*place)] = true;
            self.some = true;
        }
    }

    /// Adds the places of the packets that these PIDs name, each once.
    pub fn add_all(&mut self, batch: &Batch, pids: &Pids)
        ensures { (i : ℕ) (packet : List ℕ) → slice_get batch.now.packets i ≡ Some packet
            → is_in i self.new ≡ (is_in i self.old || names_pid pids.now (pid_of packet)) }
    {
        'pids: for i in 0..pids.len() {
            if let Some(pid) = pids.get(i) {
                self.add(batch, pid);
            }
        }
    }

    /// Whether place `i` is in the set.
    pub fn has(&self, i: u32) -> bool
        requires { i < 64 }
        ensures { result ≡ is_in i self.now }
    {
        self.marks[i as usize]
    }

    /// Whether no place is in the set.
    pub fn is_empty(&self) -> bool
        ensures { IsTrue result → (i : ℕ) → is_in i self.now ≡ false }
    {
        !self.some
    }
}
