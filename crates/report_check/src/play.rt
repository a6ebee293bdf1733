// The nodes' told entries, played again.
ghost use Rattle.std.specs.Prelude.{◌≡◌, ◌<◌, ◌≤◌, ◌^◌, ℕ, length, map, true, IfOk, MatchOption, All};
ghost use Rattle.report_check.specs.Imports.{DEMUX_NODES as nodes_of_demux, told_entry};
ghost use Rattle.report_check.specs.Playing.{AreFewPackets, brought_from};
ghost use Rattle.report_check.specs.Inside.Parts.{told_nodes, are_sound, IsPlayed};

use crate::expected::expected_reply;
use crate::fault::{Odd, ReportFaultKind};
use crate::history_check::first_other_reply;
use dmx_calls::limits::DEMUX_NODES;
use dmx_calls::{Entry, Reply};
use dvr_core::DvrCore;
use machine::steps::Steps;
use node_core::NodeCore;
use std::alloc::{AllocError as NoMemory, Global};
use std::marker::Brand;
use std::sync::ledger::{Blank, Ledger};
use ts_packet::Packet;

// A node's reply at a place of its entries, where another one is told.
#[derive(Drop)]
struct OtherReply {
    place: u64,
    reply: Reply,
}

// The first reply of a demux node that isn't the told one.
fn odd_of_demux<L: Ledger>(
    alloc: Global,
    node: u32,
    entries: &[Entry],
    packets: &[Packet],
    played: &[Vec<Packet>],
    steps: &mut Steps<L>,
) -> Result<Option<OtherReply>, NoMemory>
    requires node { node < nodes_of_demux }
    requires sound { (clients : ℕ)
        × (are_sound clients (length packets.now) (map (λ ps. length ps) (map (λ p. p.items) played.now))
        (map told_entry entries.now) ≡ true) }
    requires stream { AreFewPackets packets.now }
    requires played { All AreFewPackets (map (λ p. p.items) played.now) }
    requires few { length entries.now < 2 ^ 50 }
    ensures { IfOk result (λ odd. MatchOption odd
        (IsPlayed (brought_from packets.now (map (λ p. p.items) played.now))
        (record { node = node; entries = map told_entry entries.now }))
        (λ _. IsPlayed (brought_from packets.now (map (λ p. p.items) played.now))
        (record { node = node; entries = map told_entry entries.now }) → ⊥)) }
{
    let mut core = NodeCore::new(alloc, node);
    match first_other_reply(alloc, &mut core, packets, played, entries, steps)? {
        None => Ok(None),
        Some(reply) => Ok(Some(OtherReply {
            place: core.entries().saturating_sub(1),
            reply,
        })),
    }
}

// The same of the dvr node.
fn odd_of_dvr<L: Ledger>(
    alloc: Global,
    entries: &[Entry],
    packets: &[Packet],
    played: &[Vec<Packet>],
    steps: &mut Steps<L>,
) -> Result<Option<OtherReply>, NoMemory>
    requires sound { (clients : ℕ)
        × (are_sound clients (length packets.now) (map (λ ps. length ps) (map (λ p. p.items) played.now))
        (map told_entry entries.now) ≡ true) }
    requires stream { AreFewPackets packets.now }
    requires played { All AreFewPackets (map (λ p. p.items) played.now) }
    requires few { length entries.now < 2 ^ 50 }
    ensures { IfOk result (λ odd. MatchOption odd
        (IsPlayed (brought_from packets.now (map (λ p. p.items) played.now))
        (record { node = nodes_of_demux; entries = map told_entry entries.now }))
        (λ _. IsPlayed (brought_from packets.now (map (λ p. p.items) played.now))
        (record { node = nodes_of_demux; entries = map told_entry entries.now }) → ⊥)) }
{
    let mut core = DvrCore::new(alloc);
    match first_other_reply(alloc, &mut core, packets, played, entries, steps)? {
        None => Ok(None),
        Some(reply) => Ok(Some(OtherReply {
            place: core.entries().saturating_sub(1),
            reply,
        })),
    }
}

// The first reply of a node that isn't the told one, with the ledger of the steps.
fn odd_with<L: Ledger>(
    alloc: Global,
    node: u32,
    entries: &[Entry],
    packets: &[Packet],
    played: &[Vec<Packet>],
    blank: Blank,
) -> Result<Option<OtherReply>, NoMemory>
    requires node { node ≤ nodes_of_demux }
    requires sound { (clients : ℕ)
        × (are_sound clients (length packets.now) (map (λ ps. length ps) (map (λ p. p.items) played.now))
        (map told_entry entries.now) ≡ true) }
    requires stream { AreFewPackets packets.now }
    requires played { All AreFewPackets (map (λ p. p.items) played.now) }
    requires few { length entries.now < 2 ^ 50 }
    requires ledger { (blank.name ≡ L.name) × (blank.parts ≡ L.parts) × (0 < L.parts) }
    ensures { IfOk result (λ odd. MatchOption odd
        (IsPlayed (brought_from packets.now (map (λ p. p.items) played.now))
        (record { node = node; entries = map told_entry entries.now }))
        (λ _. IsPlayed (brought_from packets.now (map (λ p. p.items) played.now))
        (record { node = node; entries = map told_entry entries.now }) → ⊥)) }
{
    let mut steps: Steps<L> = Steps::new(blank);
    if node < DEMUX_NODES {
        odd_of_demux(alloc, node, entries, packets, played, &mut steps)
    } else {
        odd_of_dvr(alloc, entries, packets, played, &mut steps)
    }
}

// The first reply of a node that isn't the told one.
fn odd_reply(
    alloc: Global,
    node: u32,
    entries: &[Entry],
    packets: &[Packet],
    played: &[Vec<Packet>],
) -> Result<Option<OtherReply>, NoMemory>
    requires node { node ≤ nodes_of_demux }
    requires sound { (clients : ℕ)
        × (are_sound clients (length packets.now) (map (λ ps. length ps) (map (λ p. p.items) played.now))
        (map told_entry entries.now) ≡ true) }
    requires stream { AreFewPackets packets.now }
    requires played { All AreFewPackets (map (λ p. p.items) played.now) }
    requires few { length entries.now < 2 ^ 50 }
    ensures { IfOk result (λ odd. MatchOption odd
        (IsPlayed (brought_from packets.now (map (λ p. p.items) played.now))
        (record { node = node; entries = map told_entry entries.now }))
        (λ _. IsPlayed (brought_from packets.now (map (λ p. p.items) played.now))
        (record { node = node; entries = map told_entry entries.now }) → ⊥)) }
{
    odd_with::<Brand>(alloc, node, entries, packets, played, Blank::new(1))
}

// A reply of a node that isn't the told one.
fn odd_at(alloc: Global, node: &(u32, Vec<Entry>), other: OtherReply) -> Result<Odd, NoMemory> {
    let OtherReply { place, reply } = other;
    let expected = expected_reply(alloc, node.1.get(place as usize), reply)?;
    Ok(Odd::Entry {
        node: node.0,
        place,
        kind: ReportFaultKind::Reply,
        expected: Some(expected),
    })
}

/// The first reply on the nodes that isn't the one that the entries before it give.
pub fn odd_play(
    alloc: Global,
    nodes: &[(u32, Vec<Entry>)],
    packets: &[Packet],
    played: &[Vec<Packet>],
) -> Result<Option<Odd>, NoMemory>
    requires nodes { All (λ n. (n.node ≤ nodes_of_demux) × (length n.entries < 2 ^ 50)) (told_nodes nodes.now) }
    requires sound { (clients : ℕ)
        × All (λ n. are_sound clients (length packets.now) (map (λ ps. length ps) (map (λ p. p.items) played.now)) n.entries
        ≡ true) (told_nodes nodes.now) }
    requires stream { AreFewPackets packets.now }
    requires played { All AreFewPackets (map (λ p. p.items) played.now) }
    ensures { IfOk result (λ odd. MatchOption odd
        (All (IsPlayed (brought_from packets.now (map (λ p. p.items) played.now))) (told_nodes nodes.now))
        (λ _. All (IsPlayed (brought_from packets.now (map (λ p. p.items) played.now))) (told_nodes nodes.now) → ⊥)) }
{
    let mut rest = nodes;
    'nodes: while let [node, after @ ..] = rest {
        if let Some(other) = odd_reply(alloc, node.0, &node.1, packets, played)? {
            return Ok(Some(odd_at(alloc, node, other)?));
        }
        rest = after;
    }
    Ok(None)
}
