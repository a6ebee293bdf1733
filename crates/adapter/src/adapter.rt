//! The adapter: the locks of 33 nodes, how its callers are made, and how they end.
ghost use Rattle.std.specs.Prelude.{◌≡◌, ℕ, ◌++◌, ◌∷◌, [], ◌+◌, ◌-◌, ◌<◌, ◌≤◌, length, vec_len, vec_capacity, OnOk, IfOk, Some};
ghost use Rattle.dmx_calls.specs.declared.limits.TheConstants.{DEMUX_NODES as nodes};
ghost use Rattle.adapter.specs.Callers.{AreAllCallers, AreFreshCallers};
ghost use Rattle.adapter.specs.Ends.{HaveHistories, HaveHistoriesOf};

use crate::boxed::Boxed;
use crate::client::Client;
use crate::ending::measure;
use crate::feeder::Feeder;
use crate::making::{build, empty_rows, make_clients, with_dvr};
use dmx_calls::limits::{DEMUX_NODES, NODES};
use dvr_core::DvrCore;
use node_core::NodeCore;
use node_lock::NodeLock;
use std::alloc::{AllocError as NoMemory, Global};
use std::marker::Model;
use std::sync::Wait;

/// The 33 nodes, each under a lock of its own: 0 to 31 are the demux nodes, and 32 is the dvr node.
///
/// Contracts see a list of locks, that of the dvr node last.
#[derive(Drop)]
pub struct Adapter {
    pub(crate) demux: Vec<NodeLock<Boxed<NodeCore>>>,
    pub(crate) dvr: NodeLock<Boxed<DvrCore>>,
}

impl Model for Adapter {
    ghost use Rattle.std.specs.Prelude.{◌≡◌, [], ◌∷◌, ◌++◌, List, length};
    ghost use Rattle.atomic_table.specs.Seated.{TableId};
    ghost use Rattle.dmx_calls.specs.declared.limits.TheConstants.{DEMUX_NODES};

    ghost Value = { List TableId };

    ghost view = { λ a. a.demux.items ++ a.dvr ∷ [] };

    ghost invariant = { λ a. length a.demux.items ≡ DEMUX_NODES };
}

// How many calls the feeder may make.
const CALLS: u64 = 1 << 44;

/// What is left of an adapter that has ended.
#[derive(Clone, Copy, Debug, PartialEq, Eq)]
pub struct Finished {
    /// How many entries each node's history has.
    pub lengths: [u64; NODES as usize],
}

impl Adapter {
    /// An adapter of 33 free nodes, with its feeder and so many clients, whose numbers are their places.
    ///
    /// Contracts name the feeder as caller 0 and client c as caller `c + 1`. The feeder has 2^44 calls left, and each client
    /// 2^40.
    pub fn new(alloc: Global, clients: u32) -> Result<(Adapter, Feeder, Vec<Client>), NoMemory>
        requires { clients ≤ 8 }
        ensures fresh { IfOk result (λ r. AreFreshCallers r.0 clients r.1 r.2.items) }
        ensures all { IfOk result (λ r. AreAllCallers r.0 (r.2.items ++ r.1 ∷ [])) }
    {
        let callers = clients + 1;
        let mut rows = empty_rows(alloc, callers)?;
        let demux = build(alloc, callers, &mut rows)?;
        let Ok((dvr, passes)) = NodeLock::new(
            alloc,
            Boxed::new(alloc, DvrCore::new(alloc))?,
            callers,
        ) else {
            return Err(NoMemory);
        };
        let mut all = with_dvr(alloc, &demux, &dvr, rows, passes)?;
        let passes = all.pop().unwrap();
        let clients = make_clients(alloc, &demux, &dvr, all)?;
        let feeder = Feeder {
            left: CALLS,
            passes,
        };
        Ok((Adapter { demux, dvr }, feeder, clients))
    }

    /// Sleeps while a node's history has `len` entries, for at most a second. It may end for no reason, so whoever waits for an
    /// entry looks again behind it.
    pub fn rest<R: Wait>(&self, rt: &R, node: u32, len: u64)
        requires { node ≤ nodes }
    {
        if node < DEMUX_NODES {
            self.demux[node as usize].rest(rt, len)
        } else {
            self.dvr.rest(rt, len)
        }
    }

    /// Joins the passes of the feeder and of all clients on each node, and looks once at each. It waits for nobody and
    /// takes no memory.
    ///
    /// What each of them had seen of a node then begins one legal history of it, whose entries are just their calls.
    pub fn gather(&self, feeder: Feeder, clients: Vec<Client>)
        requires all { AreAllCallers self.now (clients.items ++ feeder ∷ []) }
        ensures histories { HaveHistories (clients.items ++ feeder ∷ []) }
        ensures locks { length self.now ≡ nodes + 1 }
    {
        // Its type says how many locks it has.
        let _ = &self.demux;
        let _lengths = self.lengths(feeder, clients);
    }

    /// Ends the adapter as `gather` does, and answers the lengths of the 33 histories.
    pub fn finish(self, feeder: Feeder, clients: Vec<Client>) -> Finished
        requires all { AreAllCallers self (clients.items ++ feeder ∷ []) }
        ensures { HaveHistoriesOf result.lengths (clients.items ++ feeder ∷ []) }
    {
        Finished {
            lengths: self.lengths(feeder, clients),
        }
    }

    // The lengths of the histories, once all passes are joined.
    fn lengths(&self, feeder: Feeder, clients: Vec<Client>) -> [u64; NODES as usize]
        requires all { AreAllCallers self.now (clients.items ++ feeder ∷ []) }
        ensures { HaveHistoriesOf result (clients.items ++ feeder ∷ []) }
    {
        measure(self, feeder.into_passes(), clients)
    }
}
