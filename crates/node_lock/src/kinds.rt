//! The kinds of step that a seat may make, each with what it tells its caller, and the rule that every step keeps.
ghost use Rattle.std.specs.Prelude.{◌≡◌};

use crate::view::View;
use atomic_table::{Join, Play, Split, TableRule};
use machine::Machine;
use std::marker::{Brand, PhantomData};

/// The rule of the lock over machines `M`. Its key is the number of callers.
pub struct TicketRule<M> {
    machine: PhantomData<M>,
}

impl<M: Machine> TableRule<Option<M>, View<M::Entry>, u64> for TicketRule<M> {
    ghost use Rattle.node_lock.specs.Rule.{LockRule};
    ghost use Rattle.node_lock.specs.Inside.Seats.{starting};

    ghost holds = { λ callers. LockRule M.stands_for M.who_of callers };

    ghost first = { λ callers. starting callers };
}

/// Take: 1 is added to the tickets drawn.
pub struct Take;

impl<S, N> Play<S, View<N>> for Take {
    ghost use Rattle.node_lock.specs.Inside.Kinds.{TellsTicket};

    ghost then = { λ st m r n. TellsTicket m r n };
}

/// Look: the number served is loaded.
pub struct Look<M> {
    machine: PhantomData<M>,
}

impl<M: Machine> Play<Option<M>, View<M::Entry>> for Look<M> {
    ghost use Rattle.node_lock.specs.Inside.Kinds.{TellsLook};

    ghost then = { λ st m r n. TellsLook M.stands_for M.who_of m r n };
}

/// The entry that joins the history at `Done`, as a list of one. A caller picks it where it names the type.
pub trait Says<N> {
    ghost use Rattle.std.specs.Prelude.{List};

    ghost said: { List N };
}

impl<N> Says<N> for Brand {
    ghost use Rattle.std.specs.Prelude.{[]};

    ghost said = { [] };
}

/// Done: 1 is added to the number served, and the machine goes home. `J` names the entry.
pub struct Done<M, J> {
    saying: PhantomData<(M, J)>,
}

impl<M: Machine, J: Says<M::Entry>> Play<Option<M>, View<M::Entry>> for Done<M, J> {
    ghost use Rattle.node_lock.specs.Inside.Kinds.{TellsDone};

    ghost then = { λ st m r n. TellsDone M.who_of J.said m n };
}

/// Try: the tickets drawn are raised by 1 where they are the number served that was seen.
pub struct Try<M> {
    machine: PhantomData<M>,
}

impl<M: Machine> Play<Option<M>, View<M::Entry>> for Try<M> {
    ghost use Rattle.node_lock.specs.Inside.Kinds.{TellsTry};

    ghost then = { λ st m r n. TellsTry M.stands_for M.who_of st m r n };
}

/// Recall: the tickets drawn are loaded, and the seat is told what it knows of its calls.
pub struct Recall<M> {
    machine: PhantomData<M>,
}

impl<M: Machine> Play<Option<M>, View<M::Entry>> for Recall<M> {
    ghost use Rattle.node_lock.specs.Inside.Kinds.{TellsCalls};

    ghost then = { λ st m r n. TellsCalls M.who_of m n };
}

/// Split: a new seat takes the first number of another.
pub struct Deal;

impl<N> Split<View<N>> for Deal {
    ghost use Rattle.node_lock.specs.Inside.Kinds.{split_left, split_right};

    ghost left = { split_left };

    ghost right = { split_right };
}

/// Join: a seat takes in what another has seen, its numbers and its calls.
pub struct Both;

impl<N> Join<View<N>> for Both {
    ghost use Rattle.node_lock.specs.Inside.Kinds.{joined};
    ghost use Rattle.node_lock.specs.Inside.Seats.{spent};

    ghost both = { joined };

    ghost spent = { spent };
}
