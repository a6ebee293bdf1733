// The told entries of the nodes.
ghost use Rattle.std.specs.Prelude.{◌≡◌, length, map, true, false, MatchOption, All};
ghost use Rattle.dmx_calls.specs.Calls.{told_entry};
ghost use Rattle.report_check.specs.Inside.Parts.{count_for as count_from, told_node, told_nodes, is_callable as can_be_called, is_sound as is_sound_entry, are_sound, IsSoundNode, AreSoundNodes};

use crate::fault::{Odd, ReportFaultKind};
use crate::feeder::{fed_unlike, unfed};
use dmx_calls::limits::LARGEST_READ;
use dmx_calls::{Act, BatchRange, Entry, Input, KeptAct};
use ts_packet::Packet;

// How many packets there are of which a caller's passes bring some.
#[tactic(auto, using(crate::proofs::Players::none_at))]
fn count_for(packets: u64, played: &[Vec<Packet>], who: u32, input: Input) -> u64
    ensures { result ≡ count_from packets (map (λ ps. length ps) (map (λ p. p.items) played.now)) who input }
{
    match input {
        Input::Frontend => packets,
        Input::Dvr => match played.get(who as usize) {
            None => 0,
            Some(packets) => packets.len() as u64,
        },
    }
}

// Whether a caller's call can be made again.
fn is_callable(act: &KeptAct, who: u32, packets: u64, played: &[Vec<Packet>]) -> bool
    ensures { result ≡ can_be_called packets (map (λ ps. length ps) (map (λ p. p.items) played.now)) who act.now }
{
    match act.act() {
        Act::Read { room, .. } => room <= LARGEST_READ,
        Act::Pass {
            input,
            batch: BatchRange { first, count },
            ..
        } => {
            let most = count_for(packets, played, who, input);
            count > 0 && count <= 64 && first <= most && u64::from(count) <= most - first
        }
        _ => true,
    }
}

fn is_sound(entry: &Entry, clients: u32, packets: u64, played: &[Vec<Packet>]) -> bool
    ensures { result ≡ is_sound_entry clients packets (map (λ ps. length ps) (map (λ p. p.items) played.now))
        (told_entry entry.now) }
{
    entry.who <= clients && is_callable(&entry.act, entry.who, packets, played)
}

// The place of the first entry that isn't sound.
fn unsound(entries: &[Entry], clients: u32, packets: u64, played: &[Vec<Packet>]) -> Option<u64>
    ensures { MatchOption result (are_sound clients packets (map (λ ps. length ps) (map (λ p. p.items) played.now))
        (map told_entry entries.now) ≡ true)
        (λ _. are_sound clients packets (map (λ ps. length ps) (map (λ p. p.items) played.now)) (map told_entry entries.now)
        ≡ false) }
{
    let mut rest = entries;
    'entries: while let [entry, after @ ..] = rest {
        if !is_sound(entry, clients, packets, played) {
            return Some(entry.place);
        }
        rest = after;
    }
    None
}

fn odd_at(node: &(u32, Vec<Entry>), place: u64, kind: ReportFaultKind) -> Odd {
    Odd::Entry {
        node: node.0,
        place,
        kind,
        expected: None,
    }
}

// What is wrong and stands first on a node where the feeder's call at this place isn't the one that is wanted: an entry before
// it that isn't sound, or that call. Nothing is claimed of it.
fn first_on(
    node: &(u32, Vec<Entry>),
    feeder: u64,
    clients: u32,
    packets: u64,
    played: &[Vec<Packet>],
) -> Odd {
    match unsound(&node.1, clients, packets, played) {
        Some(place) if place < feeder => odd_at(node, place, ReportFaultKind::Place),
        _ => odd_at(node, feeder, ReportFaultKind::Feeder),
    }
}

// What is wrong on a node whose entries aren't sound, or whose feeder's calls aren't the same as in these others.
fn odd_on(
    node: &(u32, Vec<Entry>),
    others: &[Entry],
    clients: u32,
    packets: u64,
    played: &[Vec<Packet>],
) -> Option<Odd>
    ensures { MatchOption result
        (IsSoundNode clients packets (map (λ ps. length ps) (map (λ p. p.items) played.now)) (map told_entry others.now)
        (told_node node.now))
        (λ _. IsSoundNode clients packets (map (λ ps. length ps) (map (λ p. p.items) played.now)) (map told_entry others.now)
        (told_node node.now) → ⊥) }
{
    if let Some(place) = fed_unlike(others, &node.1) {
        return Some(first_on(node, place, clients, packets, played));
    }
    if let Some(place) = unsound(&node.1, clients, packets, played) {
        return Some(odd_at(node, place, ReportFaultKind::Place));
    }
    None
}

// What is wrong on the first of these nodes that isn't sound.
fn odd_among(
    nodes: &[(u32, Vec<Entry>)],
    others: &[Entry],
    clients: u32,
    packets: u64,
    played: &[Vec<Packet>],
) -> Option<Odd>
    ensures { MatchOption result
        (All (IsSoundNode clients packets (map (λ ps. length ps) (map (λ p. p.items) played.now)) (map told_entry others.now))
        (told_nodes nodes.now))
        (λ _. All (IsSoundNode clients packets (map (λ ps. length ps) (map (λ p. p.items) played.now))
        (map told_entry others.now)) (told_nodes nodes.now) → ⊥) }
{
    let mut rest = nodes;
    'nodes: while let [node, after @ ..] = rest {
        if let Some(odd) = odd_on(node, others, clients, packets, played) {
            return Some(odd);
        }
        rest = after;
    }
    None
}

/// What is wrong on the first node that isn't sound, where the stream has so many packets and each caller plays these.
pub fn odd_node(
    nodes: &[(u32, Vec<Entry>)],
    clients: u32,
    packets: u64,
    played: &[Vec<Packet>],
) -> Option<Odd>
    ensures { MatchOption result
        (AreSoundNodes clients packets (map (λ ps. length ps) (map (λ p. p.items) played.now)) (told_nodes nodes.now))
        (λ _. AreSoundNodes clients packets (map (λ ps. length ps) (map (λ p. p.items) played.now)) (told_nodes nodes.now)
        → ⊥) }
{
    let [first, ..] = nodes else {
        return None;
    };
    if let Some(place) = unfed(&first.1, packets) {
        return Some(first_on(first, place, clients, packets, played));
    }
    odd_among(nodes, &first.1, clients, packets, played)
}
