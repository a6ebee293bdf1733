// Counts the packets of a stream.
ghost use Rattle.std.specs.Prelude.{◌≡◌, ◌≢◌, ℕ, ◌+◌, ◌^◌, ◌<◌, ◌≤◌, List, [], ◌∷◌, ◌++◌, length, replicate, IfOk, Some, None};
ghost use Rattle.std.proofs.Common.{get_or};
ghost use Rattle.ts_packet.specs.Fields.{pid_of};
ghost use Rattle.ts_watch.specs.Head.{rows_below};
ghost use Rattle.ts_watch.specs.Watching.{Watching, IsWatching, Watched, kept, after, row_of};

use crate::seen::{PidRow, Seen};
use std::alloc::{AllocError as NoMemory, Global};
use std::marker::Model;
use ts_packet::Packet;

// How many PIDs there are.
const PIDS: usize = 8192;

/// Counts of the packets of each PID. A contract sees its table.
#[derive(Drop)]
pub struct Watch {
    watched: u64,
    // The place of each PID's counts in `seen`. There is room for those of all PIDs.
    places: Vec<Option<u16>>,
    seen: Vec<Seen>,
}

impl Model for Watch {
    ghost use Rattle.std.specs.Prelude.{◌≤◌, vec_capacity};
    ghost use Rattle.ts_watch.specs.Head.{rows_below};
    ghost use Rattle.ts_watch.specs.Watching.{Watching, IsWatching};

    ghost Value = { Watching };

    ghost view = { λ w. record { watched = w.watched; places = w.places.items; seen = w.seen.items } };

    ghost invariant = { λ w. IsWatching (record { watched = w.watched; places = w.places.items; seen = w.seen.items })
        × (8192 ≤ vec_capacity w.seen) };
}

// A table without places.
fn no_places(alloc: Global) -> Result<Vec<Option<u16>>, NoMemory>
    ensures { IfOk result (λ places. places.items ≡ replicate 8192 None) }
{
    let mut places = Vec::with_capacity(alloc, PIDS)?;
    'pids: for pid in 0..PIDS {
        places.push(None)?;
    }
    Ok(places)
}

impl Watch {
    /// A watch that was shown no packet, with all the memory that it will need.
    pub fn new(alloc: Global) -> Result<Watch, NoMemory>
        ensures stands { IfOk result (λ watch. Watched [] watch) }
        ensures watched { IfOk result (λ watch. watch.watched ≡ 0) }
    {
        Ok(Watch {
            watched: 0,
            places: no_places(alloc)?,
            seen: Vec::with_capacity(alloc, PIDS)?,
        })
    }

    // The place of the counts of a packet's PID, which is made where there is none.
    fn place(&mut self, packet: &Packet) -> usize
        ensures watched { self.new.watched ≡ self.old.watched }
        ensures place { get_or self.new.places (pid_of packet.now) None ≡ Some result }
        ensures same { (pid : ℕ) → kept self.new pid ≡ kept self.old pid }
    {
        let pid = packet.pid();
        if let Some(place) = self.places[pid as usize] {
            return place as usize;
        }
        let place = self.seen.len();
        self.places[pid as usize] = Some(place as u16);
        match self.seen.push(Seen::new(pid)) {
            Ok(()) => place,
            Err(_) => unreachable!(),
        }
    }

    /// Counts a packet. Fewer than 2^63 were counted before. Takes no memory.
    pub fn watch(&mut self, packet: &Packet)
        requires { self.old.watched < 2 ^ 63 }
        ensures watched { self.new.watched ≡ self.old.watched + 1 }
        // Whatever packets it stood for, it stands for these with the packet behind them.
        ensures stands { (packets : List (List ℕ)) → Watched packets self.old
            → Watched (packets ++ packet.now ∷ []) self.new }
        // What is kept of other PIDs stays.
        ensures others { (pid : ℕ) → pid ≢ pid_of packet.now → kept self.new pid ≡ kept self.old pid }
    {
        let place = self.place(packet);
        self.seen[place].take(packet);
        self.watched += 1;
    }

    /// The counts of a PID, at most 8191. Takes no memory.
    pub fn row(&self, pid: u16) -> PidRow
        requires { pid ≤ 8191 }
        // Whatever packets it stands for, these are their counts.
        ensures { (packets : List (List ℕ)) → Watched packets self.now → result ≡ row_of packets pid }
    {
        match self.places[pid as usize] {
            Some(place) => self.seen[place as usize].row,
            None => Seen::new(pid).row,
        }
    }

    /// The PIDs that have a packet, ascending, each with its counts.
    pub fn rows(&self, alloc: Global) -> Result<Vec<(u16, PidRow)>, NoMemory>
        // Whatever packets it stands for, these are their rows.
        ensures { (packets : List (List ℕ)) → Watched packets self.now
            → IfOk result (λ rows. rows.items ≡ rows_below 8192 packets) }
    {
        let mut rows = Vec::with_capacity(alloc, PIDS)?;
        'pids: for pid in 0..PIDS as u16 {
            let row = self.row(pid);
            if row.packets > 0 {
                rows.push((pid, row))?;
            }
        }
        Ok(rows)
    }
}
