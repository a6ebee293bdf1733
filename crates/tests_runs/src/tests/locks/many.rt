//! Eight threads on one lock, and 64 passes that are joined in an odd order.
ghost use Rattle.std.specs.Prelude.{◌≡◌, ◌++◌, ◌<◌, ◌≤◌, All, length, vec_len};
ghost use Rattle.node_lock.specs.Passes.{AreFresh};

use super::call;
use machine::Adder;
use node_lock::{NodeLock, Pass};
use std::sync::Wait;
use std::sync::atomic::AtomicU64;
use std::sync::atomic::Ordering::SeqCst;
use std::thread;
use std::thread::Threads;

// Makes a hundred calls that add 1, and counts those whose answer is their place plus one.
fn make_all<R: Wait>(rt: &R, lock: &NodeLock<Adder>, pass: &mut Pass<Adder>, right: &AtomicU64)
    requires own { pass.old.0 ≡ lock.now }
    requires left { 1000 ≤ pass.old.1.left }
    ensures { (pass.new.0 ≡ lock.now) × (1 ≤ pass.new.1.left) }
{
    for _ in 0..100u32 {
        let (place, sum) = call(rt, lock, pass, 1);
        if sum.checked_sub(place) == Some(1) {
            right.fetch_add(1, SeqCst);
        }
    }
}

// The place of a call behind those of eight threads, of which each makes calls with a pass of its own, and the sum there.
fn eight<R: Threads + Wait + Sync>(
    rt: &R,
    lock: &NodeLock<Adder>,
    passes: &mut [Pass<Adder>],
    right: &AtomicU64,
) -> (u64, u64)
    requires some { 0 < length passes.old }
    requires all { All (λ p. (p.0 ≡ lock.now) × (1000 ≤ p.1.left)) passes.old }
{
    let each = |_: usize, pass: &mut Pass<Adder>|
        requires { (pass.old.0 ≡ lock.now) × (1000 ≤ pass.old.1.left) }
        ensures { (pass.new.0 ≡ pass.old.0) × (1 ≤ pass.new.1.left) }
    { make_all(rt, lock, pass, right) };
    thread::for_each_mut(rt, passes, 8, &each);
    call(rt, lock, &mut passes[0], 0)
}

#[test]
fn eight_threads_on_one_lock_are_answered_their_place_plus_one(rt: HostRuntime) {
    let Ok((lock, mut passes)) = NodeLock::new(rt.alloc(), Adder::new(), 8) else {
        panic!(rt; "no memory");
    };
    let right = AtomicU64::new(0);
    let behind = eight(&rt, &lock, &mut passes, &right);
    assert!(rt; (right.load(SeqCst), behind) == (800, (800, 800)));
}

// A call with a pass, which is then joined into another.
fn call_and_join<R: Wait>(
    rt: &R,
    lock: &NodeLock<Adder>,
    into: &mut Pass<Adder>,
    mut pass: Pass<Adder>,
)
    requires own { (into.old.0 ≡ lock.now) × (pass.0 ≡ lock.now) }
    requires left { 1 ≤ pass.1.left }
    ensures same { (into.new.0 ≡ into.old.0) × (into.new.1.callers ≡ into.old.1.callers) }
    ensures numbers { into.new.1.numbers ≡ into.old.1.numbers ++ pass.1.numbers }
{
    call(rt, lock, &mut pass, 1);
    lock.join(into, pass);
}

// A call with each pass. Those with an odd number are joined into one, the others into another, and these two then.
fn join_by_parity<R: Wait>(
    rt: &R,
    lock: NodeLock<Adder>,
    mut passes: Vec<Pass<Adder>>,
) -> (Adder, u64)
    requires fresh { (vec_len passes ≡ 64) × AreFresh lock 64 passes.items }
{
    let mut odd = passes.pop().unwrap();
    let mut even = passes.pop().unwrap();
    call(rt, &lock, &mut even, 1);
    call(rt, &lock, &mut odd, 1);
    while let Some(pass) = passes.pop() {
        if pass.who() % 2 == 1 {
            call_and_join(rt, &lock, &mut odd, pass);
        } else {
            call_and_join(rt, &lock, &mut even, pass);
        }
    }
    lock.join(&mut odd, even);
    let len = lock.len(&mut odd);
    (lock.close(odd), len)
}

#[test]
fn passes_joined_in_an_odd_order_have_every_call(rt: HostRuntime) {
    let Ok((lock, passes)) = NodeLock::new(rt.alloc(), Adder::new(), 64) else {
        panic!(rt; "no memory");
    };
    let (adder, len) = join_by_parity(&rt, lock, passes);
    assert!(rt; (adder.sum(), len) == (64, 64));
}
