// A client's told entries, one after another.
ghost use Rattle.std.specs.Prelude.{◌≡◌, ◌+◌, ◌<◌, ◌^◌, [], List, length, map, true, false};
ghost use Rattle.report_check.specs.Imports.{DEMUX_NODES, IsAfter, Scripted, told_entry};
ghost use Rattle.report_check.specs.Walk.{CanRest, HasWalked, queues_in};
ghost use Rattle.report_check.specs.Inside.Steps.{left_on};

use crate::walk_check::event::is_event;
use crate::walk_check::queue::{is_none_left, take_next};
use client_core::ClientCore;
use dmx_calls::Entry;

/// Whether the client's entries on the nodes are just what it calls. The client has made no call yet; `nodes` has all entries of
/// each node, in the order of their places. What is left of them isn't told.
pub fn is_walked(core: &mut ClientCore, client: u32, nodes: &mut Vec<&[Entry]>) -> bool
    requires client { client < 4294967295 }
    requires nodes { length nodes.old.items ≡ DEMUX_NODES + 1 }
    requires few { core.old.step + left_on (map (λ h. map told_entry h.now) nodes.old.items) < 2 ^ 46 }
    ensures walked { result ≡ true → (script : Scripted) → IsAfter client script [] core.old
        → HasWalked client script (queues_in client (map (λ h. map told_entry h.now) nodes.old.items)) core.new }
    ensures other { result ≡ false → (script : Scripted) → IsAfter client script [] core.old
        → CanRest client script [] (queues_in client (map (λ h. map told_entry h.now) nodes.old.items)) → ⊥ }
    ensures nodes { length nodes.new.items ≡ length nodes.old.items }
{
    'walk: while let Some(event) = core.next() {
        let Some(entry) = take_next(nodes, event.node, client) else {
            return false;
        };
        if !is_event(core, &event, entry) {
            return false;
        }
        core.take(entry.reply.told());
    }
    is_none_left(nodes, client)
}
