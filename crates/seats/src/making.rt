// The seats of clients, each with its line.
ghost use Rattle.std.specs.Prelude.{◌≡◌, ◌≤◌, length, map, reverse, List, IfOk};
ghost use Rattle.seats.specs.Imports.{AreFreshCallers, Caller, TableId};
ghost use Rattle.seats.specs.Seated.{AreReady};

use crate::run::Desk;
use crate::seat::Seat;
use adapter::Client;
use std::alloc::{AllocError as NoMemory, Global};

/// A seat for each of these clients of an adapter, in their order, with a line. None of them has made a call. There are as many
/// lines as clients, and the last of them is the first seat's.
///
/// # Errors
///
/// `NoMemory` where memory was refused.
pub fn desks_of<T: Drop>(
    alloc: Global,
    clients: Vec<Client>,
    mut lines: Vec<T>,
) -> Result<Vec<Desk<T>>, NoMemory>
    requires few { length clients.items ≤ 8 }
    requires lines { length lines.items ≡ length clients.items }
    ensures lines { IfOk result (λ desks. map (λ d. d.line) desks.items ≡ reverse lines.items) }
    ensures ready { IfOk result (λ desks. (locks : List TableId) (feeder : Caller)
        → AreFreshCallers locks (length clients.items) feeder clients.items
        → AreReady locks clients.items (map (λ d. d.seat) desks.items)) }
{
    let mut desks = Vec::with_capacity(alloc, clients.len())?;
    let mut number = 0u32;
    'clients: for client in clients {
        let line = lines.pop().unwrap();
        number += 1;
        let seat = Seat::new(alloc, client, number)?;
        desks.push(Desk { seat, line })?;
    }
    Ok(desks)
}
