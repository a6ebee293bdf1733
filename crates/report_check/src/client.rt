// The clients' told entries.
ghost use Rattle.std.specs.Prelude.{◌≡◌, ◌+◌, ◌≢◌, ◌<◌, ◌^◌, ◌∷◌, [], ℕ, length, map, true, false, IfOk, MatchOption};
ghost use Rattle.report_check.specs.Imports.{DEMUX_NODES as nodes_of_demux, told_entry};
ghost use Rattle.report_check.specs.Completed.{complete};
ghost use Rattle.report_check.specs.Inside.Steps.{left_on};
ghost use Rattle.report_check.specs.Inside.Parts.{told_nodes, dealt as dealt_to, IsDoneAs, AreDoneAs};

use crate::expected::{Expected, expected_client, expected_outcome};
use crate::fault::{Odd, ReportFaultKind};
use crate::line::first_other;
use crate::stop::{caller_at, odd_call};
use crate::walk_check::is_walked;
use client_core::ClientCore;
use client_script::Script;
use dmx_calls::limits::DEMUX_NODES;
use dmx_calls::{Entry, Outcome};
use std::alloc::{AllocError as NoMemory, Global};

// The entries of this node, and the nodes behind it; no entries where the first node isn't this one.
fn entries_of(nodes: &[(u32, Vec<Entry>)], node: u32) -> (&[Entry], &[(u32, Vec<Entry>)])
    ensures { (left : ℕ) → complete (left + 1) node [] (told_nodes nodes.now)
        ≡ map told_entry result.0.now ∷ complete left (node + 1) [] (told_nodes result.1.now) }
{
    match nodes {
        [first, later @ ..] if first.0 == node => (first.1.as_slice(), later),
        _ => (&[], nodes),
    }
}

// The entries of each node, none for a node that isn't told.
fn dealt<'a>(alloc: Global, nodes: &'a [(u32, Vec<Entry>)]) -> Result<Vec<&'a [Entry]>, NoMemory>
    ensures dealt { IfOk result (λ hs. map (λ h. map told_entry h.now) hs.items ≡ dealt_to (told_nodes nodes.now)) }
    ensures long { IfOk result (λ hs. length hs.items ≡ nodes_of_demux + 1) }
{
    let mut dealt = Vec::with_capacity(alloc, DEMUX_NODES as usize + 1)?;
    let mut rest = nodes;
    'nodes: for node in 0..DEMUX_NODES + 1 {
        let (entries, after) = entries_of(rest, node);
        dealt.push(entries)?;
        rest = after;
    }
    Ok(dealt)
}

fn are_same(this: &[Outcome], other: &[Outcome]) -> bool
    ensures same { result ≡ true → this.now ≡ other.now }
    ensures differs { result ≡ false → this.now ≢ other.now }
{
    this == other
}

// What became of a client's commands is told otherwise than it was done.
fn odd_outcome(
    alloc: Global,
    client: u32,
    told: &[Outcome],
    done: &[Outcome],
) -> Result<Odd, NoMemory> {
    let same = first_other(told, done);
    Ok(Odd::Client {
        client,
        behind: (same as u64).saturating_add(1),
        kind: ReportFaultKind::Outcome,
        expected: Some(expected_outcome(alloc, done, same)?),
    })
}

// What is wrong where a client's entries aren't just what its commands ask for, or this isn't what became of them.
fn odd_of(
    alloc: Global,
    script: &Script,
    client: u32,
    nodes: &[(u32, Vec<Entry>)],
    told: &[Outcome],
) -> Result<Option<Odd>, NoMemory>
    requires client { client < 4294967295 }
    requires few { left_on (dealt_to (told_nodes nodes.now)) < 2 ^ 46 }
    ensures { IfOk result (λ odd. MatchOption odd
        (IsDoneAs script.now (dealt_to (told_nodes nodes.now)) client told.now)
        (λ _. IsDoneAs script.now (dealt_to (told_nodes nodes.now)) client told.now → ⊥)) }
{
    let mut core = ClientCore::new(alloc, script, client)?;
    let mut queues = dealt(alloc, nodes)?;
    if !is_walked(&mut core, client, &mut queues) {
        return Ok(Some(odd_call(alloc, script, &core, client, nodes, &queues, told)?));
    }
    if !are_same(told, core.outcomes()) {
        return Ok(Some(odd_outcome(alloc, client, told, core.outcomes())?));
    }
    Ok(None)
}

// What stands first in the report of this and of what is wrong with the clients from this one on.
fn first_odd(
    alloc: Global,
    script: &Script,
    client: u32,
    nodes: &[(u32, Vec<Entry>)],
    outcomes: &[Vec<Outcome>],
    odd: Odd,
) -> Result<Odd, NoMemory>
    requires clients { client + length outcomes.now < 4294967295 }
    requires few { left_on (dealt_to (told_nodes nodes.now)) < 2 ^ 46 }
{
    let mut first = odd;
    'clients: for place in 0..outcomes.len() {
        let told = &outcomes[place];
        if let Some(other) = odd_of(alloc, script, client + place as u32, nodes, told)? {
            if other.is_before(&first) {
                first = other;
            }
        }
    }
    Ok(first)
}

/// What is wrong with the clients that aren't told as they are done, and stands first in the report.
pub fn odd_client(
    alloc: Global,
    script: &Script,
    nodes: &[(u32, Vec<Entry>)],
    outcomes: &[Vec<Outcome>],
) -> Result<Option<Odd>, NoMemory>
    requires clients { length outcomes.now < 4294967295 }
    requires few { left_on (dealt_to (told_nodes nodes.now)) < 2 ^ 46 }
    ensures { IfOk result (λ odd. MatchOption odd
        (AreDoneAs script.now (dealt_to (told_nodes nodes.now)) 0 (map (λ o. o.items) outcomes.now))
        (λ _. AreDoneAs script.now (dealt_to (told_nodes nodes.now)) 0 (map (λ o. o.items) outcomes.now) → ⊥)) }
{
    let mut client: u32 = 0;
    let mut rest = outcomes;
    'clients: while let [told, after @ ..] = rest {
        if let Some(odd) = odd_of(alloc, script, client, nodes, told)? {
            let first = first_odd(alloc, script, client + 1, nodes, after, odd)?;
            return Ok(Some(first));
        }
        client += 1;
        rest = after;
    }
    Ok(None)
}

// What is said of a caller that is no client, where there are so many.
fn no_such_client(alloc: Global, clients: u64) -> Result<Expected, NoMemory> {
    match clients.checked_sub(1) {
        None => Ok(Expected::of(b"no client")),
        Some(last) => expected_client(alloc, b"no client above c", last),
    }
}

/// What the rules give at a place of a node whose entry can't stand there: that there is no such client, or the call that is
/// asked for there of its client. None where that client's walk stops elsewhere. Nothing is claimed of it.
pub fn expected_of_caller(
    alloc: Global,
    script: &Script,
    nodes: &[(u32, Vec<Entry>)],
    outcomes: &[Vec<Outcome>],
    node: u32,
    place: u64,
) -> Result<Option<Expected>, NoMemory>
    requires clients { length outcomes.now < 4294967295 }
    requires few { left_on (dealt_to (told_nodes nodes.now)) < 2 ^ 46 }
{
    let Some(client) = caller_at(nodes, node, place) else {
        return Ok(None);
    };
    let Some(told) = outcomes.get(client as usize) else {
        return Ok(Some(no_such_client(alloc, outcomes.len() as u64)?));
    };
    match odd_of(alloc, script, client, nodes, told)? {
        Some(
            Odd::Entry {
                node: at,
                place: stopped,
                expected,
                ..
            },
        ) if at == node && stopped == place => Ok(expected),
        _ => Ok(None),
    }
}
