//! How the passes of a new lock are dealt: the first seat gives its numbers away, one by one.
ghost use Rattle.std.specs.Prelude.{◌≡◌, ℕ, ◌+◌, ◌<◌, ◌≤◌, ◌^◌, [], vec_len, vec_capacity};
ghost use Rattle.node_lock.specs.Inside.Seats.{dealt};

use crate::kinds::Deal;
use crate::lock::NodeLock;
use crate::pass::Pass;
use crate::view::View;
use atomic_table::Seat;
use machine::Machine;

/// How many calls may be made with a pass, and so how many entries a caller may have.
pub(crate) const CALLS: u64 = 1 << 44;

impl<M: Machine> NodeLock<M> {
    ghost use Rattle.node_lock.specs.Passes.{IsFresh, AreFresh};

    // A pass for each caller, in the order of their numbers.
    pub(crate) fn deal_all(
        &self,
        mut first: Seat<Option<M>, View<M::Entry>>,
        mut passes: Vec<Pass<M>>,
        callers: u32,
    ) -> Vec<Pass<M>>
        requires own { first.table_id ≡ self.now }
        requires dealt { (first.me ≡ (dealt callers 0, [])) × (1 ≤ callers) }
        requires room { (passes.items ≡ []) × (callers ≤ vec_capacity passes) }
        ensures { (vec_len result ≡ callers) × AreFresh self.now callers result.items }
    {
        for who in 0..callers - 1 {
            passes.push_reserved(self.deal(&mut first, who, callers));
        }
        passes.push_reserved(Pass {
            seat: first,
            who: callers - 1,
            left: CALLS,
        });
        passes
    }

    // The pass with the first number that was not given away.
    fn deal(&self, first: &mut Seat<Option<M>, View<M::Entry>>, who: u32, callers: u32) -> Pass<M>
        requires own { first.old.table_id ≡ self.now }
        requires dealt { (first.old.me ≡ (dealt callers who, [])) × (who + 1 < callers) }
        ensures own { first.new.table_id ≡ first.old.table_id }
        ensures dealt { first.new.me ≡ (dealt callers (who + 1), []) }
        ensures fresh { IsFresh self.now callers who result }
    {
        let seat = self.table.shared.split_seat::<Deal>(first);
        Pass {
            seat,
            who,
            left: CALLS,
        }
    }
}
