// A set of at most N PIDs.
ghost use Rattle.std.specs.Prelude.{◌≡◌, ◌<◌, ◌≤◌, ◌↔◌, ℕ, List, [], ◌∷◌, length, true, false, not, IsTrue, IsErr, IfOk, OnOk, OnErr, IfSome, IsNone, IfErr, slice_index, insert, remove};
ghost use Rattle.pid_set.specs.Pids.{has_pid, with_pid, without_pid, names_pid, IsAscending, ArePids};
ghost use Rattle.pid_set.specs.Sets.{IsAdded, IsRemoved};

use arrayvec::ArrayVec;
use std::alloc::AllocError;
use std::marker::Model;
use thiserror::Error;

/// The PID that names every packet in a filter of packets and in a tap (Linux media API, Digital TV demux, struct
/// dmx_pes_filter_params).
pub const ALL_PACKETS: u16 = 0x2000;

/// The refusal of a PID that would be one too many for a set.
#[derive(Clone, Copy, Debug, PartialEq, Eq, Drop, Error)]
#[error("the set of PIDs is full")]
pub struct PidsFull;

/// The PIDs of one filter: at most 128 (this project's rule).
pub type Pids = PidSet<128>;

/// A set of at most `N` PIDs. A contract sees it as the list of its members, ascending and without repeats.
#[derive(Debug, PartialEq, Eq, Drop)]
pub struct PidSet<const N: usize> {
    pids: ArrayVec<u16, N>,
}

impl<const N: usize> Model for PidSet<N> {
    ghost use Rattle.std.specs.Prelude.{List, ℕ};
    ghost use Rattle.pid_set.specs.Pids.{ArePids};

    ghost Value = { List ℕ };

    ghost view = { λ s. s.pids.items };

    ghost invariant = { λ s. ArePids s.pids.items };

    ghost inverse = { λ pids. record { pids = record { items = pids } } };
}

impl<const N: usize> PidSet<N> {
    /// The empty set.
    pub fn new() -> PidSet<N>
        ensures { result ≡ [] }
    {
        PidSet {
            pids: ArrayVec::new(),
        }
    }

    /// The set of this PID alone.
    #[tactic(auto, unfolding(crate::specs::Pids::with_pid))]
    pub fn of(pid: u16) -> PidSet<N>
        requires { 0 < N }
        ensures { result ≡ pid ∷ [] }
    {
        let mut pids = PidSet::new();
        match pids.add(pid) {
            Ok(_) => pids,
            Err(_) => unreachable!(),
        }
    }

    /// Adds a PID: `Ok(true)` where it was added, `Ok(false)` where it was there.
    ///
    /// # Errors
    ///
    /// `PidsFull` exactly where the PID is absent and `N` are there. The set is then as it was.
    pub fn add(&mut self, pid: u16) -> Result<bool, PidsFull>
        ensures full { IsErr result ↔ ((has_pid pid self.old ≡ false) × (length self.old ≡ N)) }
        ensures added { IfOk result (λ added. added ≡ not (has_pid pid self.old)) }
        ensures set { OnOk result (self.new ≡ with_pid pid self.old) }
        ensures unchanged { OnErr result (self.new ≡ self.old) }
    {
        match find(&self.pids, pid) {
            Ok(_) => Ok(false),
            Err(_) if self.pids.is_full() => Err(PidsFull),
            Err(place) => {
                self.pids.insert(place, pid);
                Ok(true)
            }
        }
    }

    /// Removes a PID: true where it was there.
    pub fn remove(&mut self, pid: u16) -> bool
        ensures removed { result ≡ has_pid pid self.old }
        ensures set { self.new ≡ without_pid pid self.old }
    {
        let Ok(place) = find(&self.pids, pid) else {
            return false;
        };
        self.pids.remove(place);
        true
    }

    /// Whether a PID is in the set.
    pub fn has(&self, pid: u16) -> bool
        ensures { result ≡ has_pid pid self.now }
    {
        find(&self.pids, pid).is_ok()
    }

    /// Whether the set names the packets of a PID: that PID is in it, or PID 0x2000, which names every packet.
    pub fn names(&self, pid: u16) -> bool
        ensures { result ≡ names_pid self.now pid }
    {
        self.has(ALL_PACKETS) || self.has(pid)
    }

    /// The same set once more. It takes no memory, so unlike `clone` it has no refusal in its type.
    pub fn copied(&self) -> PidSet<N>
        ensures { result ≡ self.now }
    {
        PidSet::of_slice(&self.pids)
    }

    /// The same set once more, in a type that has room for `M` PIDs. It takes no memory.
    pub fn fitted<const M: usize>(&self) -> PidSet<M>
        requires { length self.now ≤ M }
        ensures { result ≡ self.now }
    {
        PidSet::of_slice(&self.pids)
    }

    // The set of these PIDs, which ascend.
    pub(crate) fn of_slice(members: &[u16]) -> PidSet<N>
        requires fits { length members.now ≤ N }
        requires pids { ArePids members.now }
        ensures { result ≡ members.now }
    {
        let mut pids = ArrayVec::new();
        match pids.try_extend_from_slice(members) {
            Ok(()) => PidSet { pids },
            Err(_) => unreachable!(),
        }
    }

    // The members, ascending.
    pub(crate) fn members(&self) -> &[u16]
        ensures value { result.now ≡ self.now }
        ensures fits { length result.now ≤ N }
        ensures pids { ArePids result.now }
    {
        &self.pids
    }

    /// The number of PIDs.
    pub fn len(&self) -> usize
        ensures value { result ≡ length self.now }
        ensures fits { result ≤ N }
        ensures pids { ArePids self.now }
    {
        self.pids.len()
    }

    /// The PID in place `i`, the lowest in place 0, or None where `i` isn't below `len`.
    pub fn get(&self, i: usize) -> Option<u16>
        ensures none { IsNone result ↔ (length self.now ≤ i) }
        ensures value { IfSome result (λ pid. pid ≡ slice_index self.now i) }
    {
        self.pids.get(i).copied()
    }
}

impl PidSet<1> {
    /// The same set once more, in a type that has room for all PIDs of a filter. It takes no memory.
    pub fn widened(&self) -> Pids
        ensures { result ≡ self.now }
    {
        let fits = self.len() <= 128;
        prove!(fits);
        self.fitted()
    }
}

impl<const N: usize> Clone for PidSet<N> {
    ghost is_clone = { λ old new. new ≡ old };

    ghost is_infallible = { λ _. Unit {0} };

    fn clone(&self) -> Result<Self, AllocError> {
        Ok(self.copied())
    }
}

// The place of a PID among ascending ones, or the place where it would be put.
fn find(pids: &[u16], pid: u16) -> Result<usize, usize>
    requires { ArePids pids.now }
    ensures found { IfOk result (λ i. (i < length pids.now) × (has_pid pid pids.now ≡ true)
        × (without_pid pid pids.now ≡ remove pids.now i) × (with_pid pid pids.now ≡ pids.now)) }
    ensures absent { IfErr result (λ i. (i ≤ length pids.now) × (has_pid pid pids.now ≡ false)
        × (with_pid pid pids.now ≡ insert pids.now i pid) × (without_pid pid pids.now ≡ pids.now)) }
{
    pids.binary_search(&pid)
}

/// The law of the sets: what adding a PID to an ascending list, and removing it, does to the members. It has nothing
/// to do.
pub fn adding_and_removing()
    ensures added { (pid : ℕ) (pids : List ℕ) → IsAscending pids → IsAdded pid pids }
    ensures removed { (pid : ℕ) (pids : List ℕ) → IsAscending pids → IsRemoved pid pids }
{}
