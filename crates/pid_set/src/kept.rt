// Sets that are kept in a log.

ghost use Rattle.std.specs.Prelude.{◌≡◌, ◌≤◌, IfOk};

use crate::set::{PidSet, Pids};
use std::alloc::{AllocError as NoMemory, Global};
use std::boxed::Box;
use std::marker::Model;

/// The PIDs of a filter where a log keeps them: one pointer, and no more memory than its members take. A contract sees it as
/// it sees the set.
#[derive(Drop)]
pub struct KeptPids {
    pids: Box<Vec<u16>>,
}

impl Model for KeptPids {
    ghost use Rattle.std.specs.Prelude.{◌≤◌, List, ℕ, length};
    ghost use Rattle.pid_set.specs.Pids.{ArePids};

    ghost Value = { List ℕ };

    ghost view = { λ k. k.pids.value.items };

    ghost invariant = { λ k. ArePids k.pids.value.items × (length k.pids.value.items ≤ 128) };
}

impl KeptPids {
    /// Keeps this set, which has room for 128 PIDs at most.
    pub fn of<const N: usize>(alloc: Global, set: &PidSet<N>) -> Result<KeptPids, NoMemory>
        requires { N ≤ 128 }
        ensures { IfOk result (λ kept. kept ≡ set.now) }
    {
        let members = set.members();
        let mut pids = Vec::with_capacity(alloc, members.len())?;
        pids.extend_from_slice(members)?;
        Ok(KeptPids {
            pids: Box::new(alloc, pids)?,
        })
    }

    /// The set.
    pub fn set(&self) -> Pids
        ensures { result ≡ self.now }
    {
        Pids::of_slice(&self.pids)
    }
}
