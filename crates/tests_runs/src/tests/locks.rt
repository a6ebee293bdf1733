//! Calls on one lock, by one thread and by several, and a rest.
ghost use Rattle.std.specs.Prelude.{◌≡◌, [], ◌+◌, ◌<◌, ◌≤◌, IfSome};
ghost use Rattle.node_lock.specs.Passes.{IsFresh, IsSamePass};

mod held;
mod many;
mod resting;

use machine::Machine;
use machine::steps::Steps;
use node_lock::{NodeLock, Pass};
use std::alloc::Global;
use std::marker::Brand;
use std::sync::Wait;
use std::sync::ledger::{Blank, Ledger};

// A lock of two callers round a machine, and their passes.
fn lock_of_two<M: Machine + Drop>(
    alloc: Global,
    machine: M,
) -> Option<(NodeLock<M>, Pass<M>, Pass<M>)>
    requires { M.stands_for machine [] }
    ensures { IfSome result (λ r. IsFresh r.0 2 0 r.1 × IsFresh r.0 2 1 r.2) }
{
    let Ok((lock, mut passes)) = NodeLock::new(alloc, machine, 2) else {
        return None;
    };
    let two = passes.pop()?;
    let one = passes.pop()?;
    Some((lock, one, two))
}

// As `call`, with the ledger of the steps.
fn call_counted<M: Machine, L: Ledger, R: Wait>(
    rt: &R,
    lock: &NodeLock<M>,
    pass: &mut Pass<M>,
    call: M::Call,
    blank: Blank,
) -> (u64, M::Answer)
    requires own { pass.old.0 ≡ lock.now }
    requires left { 1 ≤ pass.old.1.left }
    requires ledger { (blank.name ≡ L.name) × (blank.parts ≡ L.parts) × (0 < L.parts) }
    ensures same { IsSamePass pass.old pass.new }
    ensures left { pass.new.1.left + 1 ≡ pass.old.1.left }
{
    let mut steps: Steps<L> = Steps::new(blank);
    lock.call(rt, pass, call, &mut steps)
}

// Makes a call: its place and its answer. Nobody counts its steps.
fn call<M: Machine, R: Wait>(
    rt: &R,
    lock: &NodeLock<M>,
    pass: &mut Pass<M>,
    call: M::Call,
) -> (u64, M::Answer)
    requires own { pass.old.0 ≡ lock.now }
    requires left { 1 ≤ pass.old.1.left }
    ensures same { IsSamePass pass.old pass.new }
    ensures left { pass.new.1.left + 1 ≡ pass.old.1.left }
{
    call_counted::<M, Brand, R>(rt, lock, pass, call, Blank::new(1))
}
