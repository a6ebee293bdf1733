// The nodes, by the commands.
ghost use Rattle.std.specs.Prelude.{◌≡◌, ◌≤◌, ◌||◌, ℕ, false, slice_index_or};
ghost use Rattle.workers.specs.Imports.{DEMUX_NODES as last, IsTargetInRange};
ghost use Rattle.workers.specs.Named.{is_for, is_named, passes_all};

use client_script::{Line, Script, Target, Verb};
use dmx_calls::limits::{DEMUX_NODES, NODES};

// With the nodes that a command for this target may call.
fn with_target(named: &[bool; NODES as usize], target: Target) -> [bool; NODES as usize]
    requires { IsTargetInRange target }
    ensures { (node : ℕ) → node ≤ last → slice_index_or result node false
        ≡ (slice_index_or named.now node false || is_for target node) }
{
    match target {
        Target::Node(node) => {
            let mut more = *named;
            more[node as usize] = true;
            more
        }
        Target::Slot(_) => [true; NODES as usize],
        Target::Dvr => *named,
    }
}

// With the nodes that a command may call.
fn with_command(
    named: &[bool; NODES as usize],
    target: Target,
    verb: Verb,
) -> [bool; NODES as usize]
    requires { IsTargetInRange target }
    ensures { (node : ℕ) → node ≤ last → slice_index_or result node false
        ≡ (slice_index_or named.now node false || (is_for target node || passes_all verb)) }
{
    match verb {
        Verb::Write(_) => [true; NODES as usize],
        _ => with_target(named, target),
    }
}

/// For each of the 33 nodes whether a command of the script may call it. It may call any node where it has a slot or writes, and
/// the dvr node is told of the demux nodes' taps.
pub fn named(script: &Script) -> [bool; NODES as usize]
    ensures { (node : ℕ) → node ≤ last → slice_index_or result node false ≡ is_named script.now.lines node }
{
    let mut named = [false; NODES as usize];
    named[DEMUX_NODES as usize] = true;
    'lines: for line in script.lines() {
        if let Line::Command { target, verb, .. } = line {
            named = with_command(&named, *target, *verb);
        }
    }
    named
}
