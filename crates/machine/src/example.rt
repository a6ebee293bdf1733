//! The smallest machine: it adds.
ghost use Rattle.std.specs.Prelude.{◌≡◌, ℕ, ◌+◌, ◌*◌, ◌<◌, ◌≤◌, ◌^◌};

use crate::Machine;
use crate::steps::Steps;
use std::marker::Model;
use std::sync::ledger::Ledger;

/// The entry of an addition.
pub struct Added {
    /// Who added the number.
    pub who: u32,
    /// The number.
    pub number: u8,
}

/// A sum that starts at 0: an example of a machine, and one to try a lock with. A call adds a number, and is answered the new
/// sum. A contract sees the sum, and how many numbers were added.
#[derive(Drop)]
pub struct Adder {
    sum: u64,
    made: u64,
}

impl Model for Adder {
    ghost use Rattle.std.specs.Prelude.{◌≤◌, ◌*◌};
    ghost use Rattle.machine.specs.Adding.{Sum};

    ghost Value = { Sum };

    ghost view = { λ a. record { sum = a.sum; made = a.made } };

    ghost invariant = { λ a. a.sum ≤ 255 * a.made };
}

impl Adder {
    /// Nothing was added.
    pub fn new() -> Adder
        ensures { result ≡ record { sum = 0; made = 0 } }
    {
        Adder { sum: 0, made: 0 }
    }

    /// Adds a number, and answers the new sum.
    pub fn add(&mut self, number: u8) -> u64
        requires few { self.old.made < 2 ^ 50 }
        ensures sum { self.new ≡ record { sum = self.old.sum + number; made = self.old.made + 1 } }
        ensures answer { result ≡ self.new.sum }
    {
        let Adder { sum, made } = self;
        *sum += u64::from(number);
        *made += 1;
        *sum
    }

    /// The sum of all numbers that were added.
    pub fn sum(&self) -> u64
        ensures { result ≡ self.now.sum }
    {
        self.sum
    }

    /// How many numbers were added.
    pub fn made(&self) -> u64
        ensures { result ≡ self.now.made }
    {
        self.made
    }
}

impl Machine for Adder {
    ghost use Rattle.std.specs.Prelude.{◌≡◌, length, refl};
    ghost use Rattle.machine.specs.Adding.{total};

    type Call = u8;

    type Answer = u64;

    type Entry = Added;

    ghost entry_of = { λ who call answer. record { who = who; number = call } };

    ghost who_of = { λ e. e.who };

    ghost hands_back = { λ call answer. Unit {0} };

    ghost stands_for = { λ m h. (m.made ≡ length h) × (m.sum ≡ total h) };

    ghost entries = { λ m. m.made };

    ghost most = { λ h call. 0 };

    fn apply<L: Ledger>(&mut self, _who: u32, call: u8, _steps: &mut Steps<L>) -> u64 {
        self.add(call)
    }

    ghost names = { λ who call answer. refl };

    ghost counts = { λ m h stands. stands.0 };
}
