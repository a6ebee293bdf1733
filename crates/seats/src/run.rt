// The threads of the seats.
ghost use Rattle.std.specs.Prelude.{◌<◌, ℕ, Bool, List, All};
ghost use Rattle.atomic_table.specs.Seated.{TableId};
ghost use Rattle.emu_io.specs.Ends.{SourceEnd};
ghost use Rattle.seats.specs.Served.{HaveSat};

use crate::journal::{Journal, JournalLine};
use crate::seat::Seat;
use adapter::Adapter;
use emu_io::{Clock, Sink, Source};
use std::alloc::Global;
use std::sync::Wait;
use std::thread;
use std::thread::Threads;

/// A seat with its line, where its requests come from and its replies go to.
#[derive(Drop)]
pub struct Desk<T: Drop> {
    /// The seat.
    pub seat: Seat,
    /// Its line.
    pub line: T,
}

/// A desk whose seat serves its line. A closure that threads run may hold a value of one type parameter alone, which this is.
pub trait Sitting {
    /// Its seat is ready.
    ghost ready: { List TableId → Self → Type 0 };

    /// Its seat has served its line, at moments that the clock may give behind what was read of it.
    ghost sat: { (may : ℕ → Bool) → (behind : SourceEnd → ℕ → Bool) → List TableId → Self → Self → Type 0 };

    /// Its seat answers the requests of its line until that has ended or failed, and then closes what its program has.
    fn sit<R: Wait, C: Clock>(&mut self, rt: &R, alloc: Global, adapter: &Adapter, clock: &C)
        requires { ready adapter.now self.old }
        ensures { sat (C.may_give clock.now) (C.may_give_behind clock.now) adapter.now self.old self.new };
}

impl<T: Source + Sink + Drop, J: Journal + Drop> Sitting for Desk<JournalLine<T, J>> {
    ghost use Rattle.seats.specs.Seated.{IsReadyToHand};
    ghost use Rattle.seats.specs.Served.{HasServed};

    ghost ready = { λ locks d. IsReadyToHand locks d.seat };

    ghost sat = { λ may behind locks a b. HasServed T.Source.end T.Sink.end may behind J.took locks a.line b.line a.seat b.seat };

    fn sit<R: Wait, C: Clock>(&mut self, rt: &R, alloc: Global, adapter: &Adapter, clock: &C) {
        self.seat.sit(rt, alloc, adapter, &mut self.line, clock)
    }
}

/// Each seat, in a thread of its own, answers the requests of its line until that has ended or failed, and closes then what its
/// program has.
pub fn sit_all<R: Threads + Wait + Sync, D: Sitting + Send, C: Clock + Sync>(
    rt: &R,
    alloc: Global,
    adapter: &Adapter,
    clock: &C,
    desks: &mut Vec<D>,
)
    requires ready { All (λ d. D.ready adapter.now d) desks.old.items }
    ensures { HaveSat (D.sat (C.may_give clock.now) (C.may_give_behind clock.now) adapter.now) desks.old.items desks.new.items }
{
    let call = |_: usize, desk: &mut D|
        requires { D.ready adapter.now desk.old }
        ensures { D.sat (C.may_give clock.entry.now) (C.may_give_behind clock.entry.now) adapter.entry.now desk.old desk.new }
    { desk.sit(rt, alloc, adapter, clock) };
    let threads = desks.len().max(1);
    thread::for_each_mut(rt, desks, threads, &call);
}
