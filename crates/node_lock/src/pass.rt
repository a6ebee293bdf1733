//! The right to call a lock.
ghost use Rattle.std.specs.Prelude.{◌≡◌, [], ◌<◌, ◌≤◌, ◌^◌};
ghost use Rattle.node_lock.specs.declared.view.Stage.TheVariants.{Free};

use crate::view::View;
use atomic_table::Seat;
use machine::Machine;
use std::marker::Model;

/// The right of one caller to call a lock. A pass isn't copied, so one call at a time is made with it.
///
/// Contracts see a pair: `.0` is its lock, and `.1` the view, what it knows.
pub struct Pass<M: Machine> {
    pub(crate) seat: Seat<Option<M>, View<M::Entry>>,
    pub(crate) who: u32,
    pub(crate) left: u64,
}

impl<M: Machine> Model for Pass<M> {
    ghost use Rattle.std.specs.Prelude.{◌≡◌, []};
    ghost use Rattle.atomic_table.specs.Seated.{TableId, table_id_coded};
    ghost use Rattle.node_lock.specs.declared.view.View.{View};
    ghost use Rattle.node_lock.specs.declared.view.Stage.TheVariants.{Free};

    ghost Value = { TableId × View M.Entry };

    ghost view = { λ p. (p.seat.table_id, p.seat.me.0) };

    ghost invariant = { λ p. (p.seat.me.0.stage ≡ Free) × (p.seat.me.0.spare ≡ 0) × (p.seat.me.1 ≡ [])
        × (p.who ≡ p.seat.me.0.number) × (p.left ≡ p.seat.me.0.left) };
}

impl<M: Machine> Pass<M> {
    /// The caller's number.
    pub fn who(&self) -> u32
        ensures { result ≡ self.now.1.number }
    {
        self.who
    }

    /// How many calls may still be made with the pass: 2^44 at first, and an entry takes one.
    pub fn left(&self) -> u64
        ensures { result ≡ self.now.1.left }
    {
        self.left
    }

    // The seat of the pass, which ends here.
    pub(crate) fn into_seat(self) -> Seat<Option<M>, View<M::Entry>>
        ensures seat { (result.table_id ≡ self.0) × (result.me.0 ≡ self.1) }
        ensures free { (result.me.0.stage ≡ Free) × (result.me.0.spare ≡ 0) × (result.me.1 ≡ []) }
    {
        let Self {
            seat,
            who: _,
            left: _,
        } = self;
        seat
    }
}

impl<M: Machine> Drop for Pass<M> {
    fn drop(self) {
        let Self {
            seat: _,
            who: _,
            left: _,
        } = self;
    }
}
