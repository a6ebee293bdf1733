//! Rows of locks, with the passes that one caller has.
ghost use Rattle.std.specs.Prelude.{◌≡◌, ℕ, ◌+◌, ◌<◌, ◌≤◌, List, length, IfOk, IfErr};
ghost use Rattle.adapter.specs.Rows.{Fits, MayCallAt, OneCalls, OneMisses, OneLooks, AllJoin};

use machine::Machine;
use machine::steps::Steps;
use node_lock::{Held, NodeLock, Pass};
use std::sync::Wait;
use std::sync::ledger::Ledger;

// Makes a call on the lock in one place of the row, with the pass in that place. It may wait.
pub(crate) fn call_in<M: Machine, L: Ledger, R: Wait>(
    rt: &R,
    locks: &Vec<NodeLock<M>>,
    passes: &mut Vec<Pass<M>>,
    node: usize,
    call: M::Call,
    steps: &mut Steps<L>,
) -> (u64, M::Answer)
    requires node { node < length locks.now.items }
    requires fits { Fits locks.now.items passes.old.items }
    requires left { MayCallAt node passes.old.items }
    ensures call { OneCalls M.who_of (λ h. (m : M) × M.stands_for m h) node
        (λ who. M.entry_of who call result.1) result.0 passes.old.items passes.new.items }
    ensures back { M.hands_back call result.1 }
    ensures cost { (before : List M.Entry) × (steps.new ≤ steps.old + M.most before call) }
{
    let lock = &locks[node];
    let pass = &mut passes[node];
    lock.call(rt, pass, call, steps)
}

// Tries a call on the lock in one place of the row. It waits for nobody.
pub(crate) fn try_in<M: Machine, L: Ledger>(
    locks: &Vec<NodeLock<M>>,
    passes: &mut Vec<Pass<M>>,
    node: usize,
    call: M::Call,
    steps: &mut Steps<L>,
) -> Result<(u64, M::Answer), (M::Call, Held)>
    requires node { node < length locks.now.items }
    requires fits { Fits locks.now.items passes.old.items }
    requires left { MayCallAt node passes.old.items }
    ensures call { IfOk result (λ r. OneCalls M.who_of (λ h. (m : M) × M.stands_for m h) node
        (λ who. M.entry_of who call r.1) r.0 passes.old.items passes.new.items) }
    ensures back { IfOk result (λ r. M.hands_back call r.1) }
    ensures cost { IfOk result (λ r. (before : List M.Entry) × (steps.new ≤ steps.old + M.most before call)) }
    ensures held { IfErr result
        (λ e. OneMisses M.who_of (λ h. (m : M) × M.stands_for m h) node e.1 passes.old.items passes.new.items) }
    ensures handed { IfErr result (λ e. (e.0 ≡ call) × (steps.new ≡ steps.old)) }
{
    let lock = &locks[node];
    let pass = &mut passes[node];
    lock.try_call(pass, call, steps)
}

// Looks at one lock of the row. It waits for nobody.
pub(crate) fn len_in<M: Machine>(
    locks: &Vec<NodeLock<M>>,
    passes: &mut Vec<Pass<M>>,
    node: usize,
) -> u64
    requires node { node < length locks.now.items }
    requires fits { Fits locks.now.items passes.old.items }
    ensures { OneLooks M.who_of (λ h. (m : M) × M.stands_for m h) node result passes.old.items passes.new.items }
{
    let lock = &locks[node];
    let pass = &mut passes[node];
    lock.len(pass)
}

// Takes into each pass of a row what the pass in the same place of another has seen. It waits for nobody.
pub(crate) fn join_row<M: Machine>(
    locks: &Vec<NodeLock<M>>,
    into: &mut Vec<Pass<M>>,
    mut other: Vec<Pass<M>>,
)
    requires own { Fits locks.now.items into.old.items }
    requires theirs { Fits locks.now.items other.items }
    ensures { AllJoin into.old.items other.items into.new.items }
{
    while let Some(pass) = other.pop() {
        let node = other.len();
        locks[node].join(&mut into[node], pass);
    }
}
