//! The end of a run: the adapter ends, and the calls of all callers are brought together.
ghost use Rattle.std.specs.Prelude.{◌≡◌, ◌++◌, ◌∷◌, [], ℕ, Bool, List, map, All, IfOk};
ghost use Rattle.workers.specs.Imports.{AreAllCallers, AreOnNodes, IsWholeRun, Outcome, Scripted, Sources, told_entry};
ghost use Rattle.workers.specs.Telling.{HaveCalled, TellWhatWasCalled};
ghost use Rattle.workers.specs.Left.{AreWorked};

use adapter::trace_merge::histories;
use adapter::{Adapter, Client, Feeder};
use dmx_calls::{Entry, Fed, Histories};
use std::alloc::{AllocError as NoMemory, Global};

/// Ends the adapter, and brings the calls of its feeder and of its clients together, in the order of their places.
///
/// These are the histories of the adapter's locks, entry by entry: each call that a client has logged stands in them on its
/// node, at its place and with its reply, and all others are the feeder's. Where the logs are the calls of a script, whatever
/// script it is, they are the histories of a run of it.
///
/// # Errors
///
/// `NoMemory` where memory was refused.
pub fn histories_of_run(
    alloc: Global,
    adapter: Adapter,
    feeder: Feeder,
    clients: Vec<Client>,
    feeding: Vec<Fed>,
    logs: Vec<Vec<Entry>>,
) -> Result<Histories, NoMemory>
    requires all { AreAllCallers adapter (clients.items ++ feeder ∷ []) }
    requires nodes { All (λ log. AreOnNodes log.items) logs.items }
    // They tell what was called, and nothing else; it needs no script.
    ensures tells { IfOk result (λ hs. (among : ℕ → Bool) (packets : Sources)
        → HaveCalled among packets feeder feeding.items clients.items (map (λ log. map told_entry log.items) logs.items)
        → TellWhatWasCalled among packets feeder feeding.items clients.items
        (map (λ log. map told_entry log.items) logs.items) hs) }
    ensures run { IfOk result (λ hs. (script : Scripted) (among : ℕ → Bool) (most : ℕ) (may : ℕ → Bool)
        (stream : List (List ℕ)) (told : List (List Outcome))
        → AreWorked script among most may stream feeder feeding.items clients.items
        (map (λ log. map told_entry log.items) logs.items) told
        → IsWholeRun script most may stream told hs) }
{
    adapter.gather(feeder, clients);
    histories(alloc, feeding, logs)
}
