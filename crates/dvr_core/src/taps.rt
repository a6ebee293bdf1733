// The taps of the dvr node: at most one for each demux node.

ghost use Rattle.std.specs.Prelude.{◌≡◌, ℕ, List, true, false, Some, None, replicate, slice_get};
ghost use Rattle.dvr_core.specs.Imports.{DEMUX_NODES as nodes, detached_by, is_in};
ghost use Rattle.dvr_core.specs.Tapped.{attached, detached, some_names};

use dmx_calls::limits::DEMUX_NODES;
use pid_set::Pids;
use std::marker::Model;
use ts_batch::{Batch, PlaceSet};

// A demux node's tap: the client that attached it, and the PIDs that it names.
#[derive(Drop)]
struct AttachedTap {
    by: u32,
    pids: Pids,
}

impl Model for AttachedTap {
    ghost use Rattle.dmx_calls.specs.Taps.{Tap as TapValue};

    ghost Value = { TapValue };

    ghost view = { λ tap. record { by = tap.by; pids = tap.pids } };
}

/// The taps of the demux nodes 0 to 31, each with the client that attached it. A contract sees them as a list with one
/// place for each of these nodes.
#[derive(Drop)]
pub struct Taps {
    taps: [Option<AttachedTap>; DEMUX_NODES as usize],
}

impl Model for Taps {
    ghost use Rattle.std.specs.Prelude.{List, Option};
    ghost use Rattle.dmx_calls.specs.Taps.{Tap as TapValue};

    ghost Value = { List (Option TapValue) };

    ghost view = { λ taps. taps.taps };

    ghost use Rattle.std.specs.Prelude.{◌≡◌, length};
    ghost use Rattle.dmx_calls.specs.declared.limits.TheConstants.{DEMUX_NODES};

    ghost invariant = { λ taps. length taps.taps ≡ DEMUX_NODES };
}

impl Taps {
    /// No tap of any node.
    pub fn new() -> Taps
        ensures { result ≡ replicate nodes None }
    {
        Taps {
            taps: Default::default(),
        }
    }

    /// The client `who` attaches a tap of a demux node, which replaces the one that is there. A node above 31 has none.
    pub fn attach(&mut self, who: u32, node: u32, pids: Pids)
        ensures { self.new ≡ attached who node pids self.old }
    {
        if node < DEMUX_NODES {
            self.taps[node as usize] = Some(AttachedTap { by: who, pids });
        }
    }

    /// The client `who` detaches the tap of a demux node, where it is that client's own.
    pub fn detach(&mut self, who: u32, node: u32)
        ensures { self.new ≡ detached who node self.old }
    {
        if node < DEMUX_NODES && is_of(&self.taps[node as usize], who) {
            self.taps[node as usize] = None;
        }
    }

    /// The places of the packets of a batch that some tap names, each once.
    pub fn places(&self, batch: &Batch) -> PlaceSet
        ensures { (i : ℕ) (packet : List ℕ) → slice_get batch.now.packets i ≡ Some packet
            → is_in i result ≡ some_names self.now packet }
    {
        let mut places = PlaceSet::new();
        'taps: for tap in &self.taps {
            if let Some(tap) = tap {
                places.add_all(batch, &tap.pids);
            }
        }
        places
    }
}

// Whether the client `who` attached this tap.
fn is_of(tap: &Option<AttachedTap>, who: u32) -> bool
    ensures own { result ≡ true → detached_by who tap.now ≡ None }
    ensures other { result ≡ false → detached_by who tap.now ≡ tap.now }
{
    match tap {
        Some(tap) => tap.by == who,
        None => false,
    }
}
