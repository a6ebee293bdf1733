//! A try beside a call that is held inside the machine.
ghost use Rattle.std.specs.Prelude.{◌≡◌, ◌<◌, ◌≤◌, IfSome};
ghost use Rattle.node_lock.specs.Passes.{IsFresh};

use super::{call, lock_of_two};
use crate::tests::comes_to;
use machine::Machine;
use machine::steps::Steps;
use node_lock::{Held, NodeLock, Pass};
use std::alloc::Global;
use std::marker::Brand;
use std::sync::atomic::AtomicU64;
use std::sync::atomic::Ordering::SeqCst;
use std::sync::ledger::{Blank, Ledger};
use std::sync::{Arc, Wait};
use std::thread::{Threads, join};

#[derive(Drop)]
enum GatedCall {
    Count(u8),
    // To be held inside `apply` until the flag says go.
    Hold,
}

// What a history keeps of a call.
struct CountedCall {
    who: u32,
    answer: u64,
}

// What a held call tells, and what it waits for.
#[derive(Drop)]
struct Flags {
    entered: AtomicU64,
    go: AtomicU64,
}

// A machine that counts its calls, and holds a call of the kind Hold.
#[derive(Drop)]
struct Gated {
    made: u64,
    flags: Arc<Flags>,
}

impl Machine for Gated {
    ghost use Rattle.std.specs.Prelude.{◌≡◌, length, refl, ◌+◌};

    type Call = GatedCall;

    type Answer = u64;

    type Entry = CountedCall;

    ghost entry_of = { λ who call answer. record { who = who; answer = answer } };

    ghost who_of = { λ e. e.who };

    ghost hands_back = { λ call answer. Unit {0} };

    ghost stands_for = { λ m h. m.made ≡ length h };

    ghost entries = { λ m. m.made };

    ghost most = { λ h call. 0 };

    fn apply<L: Ledger>(&mut self, _who: u32, call: GatedCall, _steps: &mut Steps<L>) -> u64 {
        if matches!(call, GatedCall::Hold) {
            self.flags.entered.store(1, SeqCst);
            comes_to(&self.flags.go, 1);
        }
        self.made += 1;
        self.made
    }

    ghost names = { λ who call answer. refl };

    ghost counts = { λ m h is. is };
}

// A machine of no calls yet, and its flags; none where memory is wanting.
fn shut_gate(alloc: Global) -> Option<(Gated, Arc<Flags>)>
    ensures { IfSome result (λ r. r.0.made ≡ 0) }
{
    let unset = Flags {
        entered: AtomicU64::new(0),
        go: AtomicU64::new(0),
    };
    let flags = Arc::new(alloc, unset).ok()?;
    let machine = Gated {
        made: 0,
        flags: Arc::try_clone(&flags).ok()?,
    };
    Some((machine, flags))
}

// Four calls, and a fifth that is held.
fn make_five<R: Wait>(rt: &R, lock: &NodeLock<Gated>, mut pass: Pass<Gated>)
    requires own { pass.0 ≡ lock.now }
    requires left { 1000 ≤ pass.1.left }
{
    call(rt, lock, &mut pass, GatedCall::Count(1));
    call(rt, lock, &mut pass, GatedCall::Count(2));
    call(rt, lock, &mut pass, GatedCall::Count(3));
    call(rt, lock, &mut pass, GatedCall::Count(4));
    call(rt, lock, &mut pass, GatedCall::Hold);
}

// As `try_call`, with the ledger of the steps.
fn try_counted<L: Ledger>(
    lock: &NodeLock<Gated>,
    mut pass: Pass<Gated>,
    call: GatedCall,
    blank: Blank,
) -> Result<(u64, u64), (GatedCall, Held)>
    requires own { pass.0 ≡ lock.now }
    requires left { 1 ≤ pass.1.left }
    requires ledger { (blank.name ≡ L.name) × (blank.parts ≡ L.parts) × (0 < L.parts) }
{
    let mut steps: Steps<L> = Steps::new(blank);
    lock.try_call(&mut pass, call, &mut steps)
}

// Tries a call while the fifth is held, and lets that go then.
fn attempt(lock: &NodeLock<Gated>, pass: Pass<Gated>, flags: &Flags) -> Option<(GatedCall, Held)>
    requires own { pass.0 ≡ lock.now }
    requires left { 1000 ≤ pass.1.left }
{
    comes_to(&flags.entered, 1);
    let answer = try_counted::<Brand>(lock, pass, GatedCall::Count(7), Blank::new(1));
    flags.go.store(1, SeqCst);
    answer.err()
}

// The two threads.
fn beside<R: Threads + Wait + Sync>(
    rt: &R,
    lock: &NodeLock<Gated>,
    one: Pass<Gated>,
    two: Pass<Gated>,
    flags: &Flags,
) -> Option<(GatedCall, Held)>
    requires one { IsFresh lock.now 2 0 one }
    requires two { IsFresh lock.now 2 1 two }
{
    let ((), held) = join(
        rt,
        ||
            requires { (one.0 ≡ lock.now) × (1000 ≤ one.1.left) }
        { make_five(rt, lock, one) },
        || -> Option<(GatedCall, Held)>
            requires { (two.0 ≡ lock.now) × (1000 ≤ two.1.left) }
        { attempt(lock, two, flags) },
    );
    held
}

#[test]
fn a_try_beside_a_held_call_tells_both_numbers_and_hands_its_call_back(rt: HostRuntime) {
    let Some((machine, flags)) = shut_gate(rt.alloc()) else {
        panic!(rt; "no memory");
    };
    let Some((lock, one, two)) = lock_of_two(rt.alloc(), machine) else {
        panic!(rt; "no memory");
    };
    let Some((call, held)) = beside(&rt, &lock, one, two, &flags) else {
        panic!(rt; "the call was made");
    };
    assert!(rt; matches!(call, GatedCall::Count(7)) && held.served == 4 && held.tickets == 5);
}
