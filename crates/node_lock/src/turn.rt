//! The single steps of a seat, the wait for its turn, and the call that it makes then.
ghost use Rattle.std.specs.Prelude.{◌≡◌, ℕ, ◌+◌, ◌<◌, ◌≤◌, ◌^◌, List, [], ◌∷◌, ◌++◌, length, Some, true, false, Option};
ghost use Rattle.node_lock.specs.Imports.{none, step};
ghost use Rattle.node_lock.specs.declared.view.Stage.TheVariants.{Free, Drawn, Turn};
ghost use Rattle.node_lock.specs.Inside.Kinds.{drew, made, TellsDone, GetsTurn, Waits, GotTurn, Sees, TellsTry, TellsCalls};
ghost use Rattle.node_lock.specs.Passes.{KnowsItsCalls};

use crate::kinds::{Done, Look, Recall, Says, Take, Try};
use crate::lock::{MACHINE, NodeLock, SERVED, TICKETS};
use crate::view::View;
use atomic_table::Seat;
use machine::Machine;
use machine::steps::Steps;
use std::marker::Brand;
use std::snapshot::Snapshot;
use std::sync::Wait;
use std::sync::ledger::Ledger;
use std::thread;

impl<M: Machine> NodeLock<M> {
    // Draws a ticket.
    pub(crate) fn draw(&self, seat: &mut Seat<Option<M>, View<M::Entry>>) -> u64
        requires own { seat.old.table_id ≡ self.now }
        requires free { (seat.old.me.0.stage ≡ Free) × (0 < seat.old.me.0.left) }
        ensures own { seat.new.table_id ≡ seat.old.table_id }
        ensures drew { (seat.new.me ≡ (drew seat.old.me.0 result, seat.old.me.1)) × (result < 2 ^ 50) }
    {
        self.table.shared.fetch_add::<Take>(seat, TICKETS, 1)
    }

    // Looks whether the ticket is served.
    fn look(&self, seat: &mut Seat<Option<M>, View<M::Entry>>, ticket: u64) -> bool
        requires own { seat.old.table_id ≡ self.now }
        requires drawn { seat.old.me.0.stage ≡ Drawn ticket }
        ensures own { seat.new.table_id ≡ seat.old.table_id }
        ensures yes { (result ≡ true) → GetsTurn M.stands_for M.who_of ticket seat.old.me seat.new.me }
        ensures no { (result ≡ false) → Waits M.stands_for M.who_of seat.old.me seat.new.me }
    {
        self.table.shared.load::<Look<M>>(seat, SERVED) == ticket
    }

    // Looks again and again, until the ticket is served.
    pub(crate) fn wait<R: Wait>(
        &self,
        rt: &R,
        seat: &mut Seat<Option<M>, View<M::Entry>>,
        ticket: u64,
    )
        requires own { seat.old.table_id ≡ self.now }
        requires drawn { seat.old.me.0.stage ≡ Drawn ticket }
        ensures own { seat.new.table_id ≡ seat.old.table_id }
        ensures turn { GotTurn M.stands_for M.who_of ticket seat.old.me seat.new.me }
    {
        for _ in rt.forever() {
            if self.look(seat, ticket) {
                return;
            }
            thread::yield_now();
        }
        unreachable!()
    }

    // Serves the next ticket. The entry that joins the history is that of the caller, the call and the answer.
    fn end<J: Says<M::Entry>>(
        &self,
        seat: &mut Seat<Option<M>, View<M::Entry>>,
        ticket: u64,
        who: u32,
        call: &Snapshot<M::Call>,
        answer: &M::Answer,
    )
        requires own { seat.old.table_id ≡ self.now }
        requires turn { (seat.old.me.0.stage ≡ Turn ticket) × (seat.old.me.0.spare ≡ 0)
            × (M.who_of (M.entry_of who call.now.value answer.now) ≡ seat.old.me.0.number) }
        requires said { J.said ≡ M.entry_of who call.now.value answer.now ∷ [] }
        requires stands { (m : M) × (more : List (ℕ × Option M)) × (seat.old.me.1 ≡ (0, Some m) ∷ more)
            × M.stands_for m (seat.old.me.0.seen ++ M.entry_of who call.now.value answer.now ∷ []) }
        ensures own { seat.new.table_id ≡ seat.old.table_id }
        ensures done { TellsDone M.who_of (M.entry_of who call.now.value answer.now ∷ []) seat.old.me seat.new.me }
    {
        self.table.shared.fetch_add::<Done<M, J>>(seat, SERVED, 1);
    }

    // Makes the call at the turn: takes the machine out of the slot, and puts it back.
    pub(crate) fn serve<L: Ledger>(
        &self,
        seat: &mut Seat<Option<M>, View<M::Entry>>,
        ticket: u64,
        who: u32,
        call: M::Call,
        steps: &mut Steps<L>,
    ) -> M::Answer
        requires own { seat.old.table_id ≡ self.now }
        requires turn { (seat.old.me.0.stage ≡ Turn ticket) × (seat.old.me.0.spare ≡ 0)
            × (length seat.old.me.0.seen ≡ ticket) × (ticket < 2 ^ 50) × (who ≡ seat.old.me.0.number) }
        requires stands { (m : M) × (seat.old.me.1 ≡ (0, Some m) ∷ []) × M.stands_for m seat.old.me.0.seen }
        ensures own { seat.new.table_id ≡ seat.old.table_id }
        ensures done { (seat.new.me ≡ (made seat.old.me.0 (M.entry_of who call result ∷ []), []))
            × KnowsItsCalls M.who_of seat.new.me.0 }
        ensures stood { (m : M) × M.stands_for m seat.new.me.0.seen }
        ensures back { M.hands_back call result }
        ensures cost { steps.new ≤ steps.old + M.most seat.old.me.0.seen call }
    {
        let shared = &self.table.shared;
        let mut machine = shared.exchange(seat, MACHINE, None).unwrap();
        let told = Snapshot::of(&call);
        let answer = machine.apply(who, call, steps);
        match shared.exchange(seat, MACHINE, Some(machine)) {
            None => {}
            Some(_) => unreachable!(),
        }
        self.end::<Brand>(seat, ticket, who, &told, &answer);
        self.wake();
        answer
    }

    // Looks with no ticket: how many entries the history has.
    pub(crate) fn glance(&self, seat: &mut Seat<Option<M>, View<M::Entry>>) -> u64
        requires own { seat.old.table_id ≡ self.now }
        requires free { seat.old.me.0.stage ≡ Free }
        ensures own { seat.new.table_id ≡ seat.old.table_id }
        ensures sees { Sees M.stands_for M.who_of result seat.old.me seat.new.me }
    {
        self.table.shared.load::<Look<M>>(seat, SERVED)
    }

    // Draws a ticket where none is out, and answers the number of tickets found.
    pub(crate) fn attempt(&self, seat: &mut Seat<Option<M>, View<M::Entry>>, served: u64) -> u64
        requires own { seat.old.table_id ≡ self.now }
        requires free { (seat.old.me.0.stage ≡ Free) × (0 < seat.old.me.0.left) × (length seat.old.me.0.seen ≡ served)
            × (served < 2 ^ 51) }
        ensures own { seat.new.table_id ≡ seat.old.table_id }
        ensures tried { TellsTry M.stands_for M.who_of (step 1 0 served (served + 1) none) seat.old.me result seat.new.me }
    {
        self.table
            .shared
            .compare_exchange::<Try<M>>(seat, TICKETS, served, served + 1)
    }

    // Tells a seat what it knows of its calls.
    pub(crate) fn recall(&self, seat: &mut Seat<Option<M>, View<M::Entry>>)
        requires own { seat.old.table_id ≡ self.now }
        requires free { seat.old.me.0.stage ≡ Free }
        ensures own { seat.new.table_id ≡ seat.old.table_id }
        ensures told { TellsCalls M.who_of seat.old.me seat.new.me }
    {
        self.table.shared.load::<Recall<M>>(seat, TICKETS);
    }
}
