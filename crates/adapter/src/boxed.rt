//! A machine on the heap.
ghost use Rattle.std.specs.Prelude.{◌≡◌, IfOk};

use machine::Machine;
use machine::steps::Steps;
use std::alloc::{AllocError as NoMemory, Global};
use std::sync::ledger::Ledger;

// A machine that stands on the heap. A lock takes its machine out of a slot and puts it back at each call: of this one it
// moves a pointer. It is the machine itself in all else.
#[derive(Drop)]
pub(crate) struct Boxed<M> {
    machine: Box<M>,
}

impl<M: Drop> Boxed<M> {
    // The machine, put on the heap.
    pub(crate) fn new(alloc: Global, machine: M) -> Result<Boxed<M>, NoMemory>
        ensures { IfOk result (λ boxed. boxed.machine.value ≡ machine) }
    {
        Ok(Boxed {
            machine: Box::new(alloc, machine)?,
        })
    }
}

impl<M: Machine + Drop> Machine for Boxed<M> {
    type Call = M::Call;

    type Answer = M::Answer;

    type Entry = M::Entry;

    ghost entry_of = { M.entry_of };

    ghost who_of = { M.who_of };

    ghost hands_back = { M.hands_back };

    ghost stands_for = { λ b h. M.stands_for b.machine.value h };

    ghost entries = { λ b. M.entries b.machine.value };

    ghost most = { M.most };

    fn apply<L: Ledger>(&mut self, who: u32, call: M::Call, steps: &mut Steps<L>) -> M::Answer {
        self.machine.apply(who, call, steps)
    }

    ghost names = { M.names };

    ghost counts = { λ b h stands. M.counts b.machine.value h stands };
}
