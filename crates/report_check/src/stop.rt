// Where a client's walk stopped that isn't through, and what is told of it. Nothing is claimed of it.
ghost use Rattle.report_check.specs.Imports.{IsRequestOf};

use crate::expected::{Expected, add_call, expected_client};
use crate::fault::{Odd, ReportFaultKind};
use crate::walk_check::asked;
use client_core::{ClientCore, Event};
use client_script::{Line, Script};
use dmx_calls::{Entry, Outcome};
use std::alloc::{AllocError as NoMemory, Global};
use text_forms::{write_decimal, write_node};

// What the report tells of a call's moment where it is 0, and where it may be any.
const AT_0: &[u8] = b" at=0";

const AT_ANY: &[u8] = b" at=..";

fn is_of(entry: &Entry, client: u32) -> bool {
    entry.who.checked_sub(1) == Some(client)
}

// The first entry of a client.
fn first_of(entries: &[Entry], client: u32) -> Option<&Entry> {
    entries.iter().find(|entry| is_of(entry, client))
}

// The first of these entries of a client that is left on a node.
fn left_over(alloc: Global, client: u32, queues: &[&[Entry]]) -> Result<Odd, NoMemory> {
    'nodes: for entries in queues {
        if let Some(entry) = first_of(entries, client) {
            let expected = expected_client(alloc, b"no further call of c", client as u64)?;
            return Ok(Odd::Entry {
                node: entry.node,
                place: entry.place,
                kind: ReportFaultKind::Left,
                expected: Some(expected),
            });
        }
    }
    Ok(Odd::Client {
        client,
        behind: 0,
        kind: ReportFaultKind::Call,
        expected: None,
    })
}

// The entries told of a node.
fn told_on(nodes: &[(u32, Vec<Entry>)], node: u32) -> &[Entry] {
    'nodes: for (number, entries) in nodes {
        if *number == node {
            return entries.as_slice();
        }
    }
    &[]
}

// How many of these entries are left.
fn left_of(queues: &[&[Entry]], node: u32) -> usize {
    match queues.get(node as usize) {
        Some(entries) => entries.len(),
        None => 0,
    }
}

// The entries before those that are left.
fn before_left(entries: &[Entry], left: usize) -> &[Entry] {
    &entries[..entries.len().saturating_sub(left)]
}

// How many of these entries are a client's.
fn count_of(entries: &[Entry], client: u32) -> u64 {
    entries.iter().filter(|entry| is_of(entry, client)).count() as u64
}

// How many entries of a client were taken.
fn taken_of(client: u32, nodes: &[(u32, Vec<Entry>)], queues: &[&[Entry]]) -> u64 {
    let mut taken: u64 = 0;
    'nodes: for (node, entries) in nodes {
        let before = before_left(entries, left_of(queues, *node));
        taken = taken.saturating_add(count_of(before, client));
    }
    taken
}

// A call that is asked for and isn't told: another entry was taken for it, or none was left. As many were taken as calls made.
fn odd_event(
    event: &Event,
    client: u32,
    behind: u64,
    nodes: &[(u32, Vec<Entry>)],
    queues: &[&[Entry]],
    expected: Expected,
) -> Odd {
    let kind = ReportFaultKind::Call;
    let expected = Some(expected);
    let entries = told_on(nodes, event.node);
    match before_left(entries, left_of(queues, event.node)) {
        [.., entry] if taken_of(client, nodes, queues) > event.step => Odd::Entry {
            node: entry.node,
            place: entry.place,
            kind,
            expected,
        },
        _ => Odd::Client {
            client,
            behind,
            kind,
            expected,
        },
    }
}

// The line of a client's command behind so many others.
fn line_of_command(script: &Script, client: u32, through: usize) -> u32 {
    let mut left = through;
    'lines: for each in script.lines() {
        match each {
            Line::Command {
                line,
                client: of,
                ..
            } if *of == client => {
                if left == 0 {
                    return *line;
                }
                left -= 1;
            }
            _ => {}
        }
    }
    0
}

// Puts a call that was made at the moment 0 behind these bytes, as one of any moment.
fn add_at_any(out: &mut Vec<u8>, call: &[u8]) -> Result<(), NoMemory> {
    'places: for place in 0..call.len() {
        let (before, behind) = call.split_at(place);
        if let Some(after) = behind.strip_prefix(AT_0) {
            out.extend_from_slice(before)?;
            out.extend_from_slice(AT_ANY)?;
            return out.extend_from_slice(after);
        }
    }
    out.extend_from_slice(call)
}

// The call that is asked for by a command of a client, and the command's line.
fn expected_call(
    alloc: Global,
    core: &ClientCore,
    event: &Event,
    client: u32,
    line: u32,
) -> Result<Expected, NoMemory>
    requires played { IsRequestOf core.now.plays event.now.want }
{
    let mut call = Vec::new(alloc);
    let who = client.saturating_add(1);
    add_call(
        alloc,
        &mut call,
        who,
        event.step,
        asked(core, &event.want, 0),
    )?;
    let mut text = Vec::new(alloc);
    add_at_any(&mut text, &call)?;
    text.extend_from_slice(b" on node ")?;
    write_node(&mut text, event.node)?;
    text.extend_from_slice(b", by line ")?;
    write_decimal(&mut text, line as u64)?;
    text.extend_from_slice(b" of the script")?;
    Ok(Expected::of(&text))
}

/// Where the walk of a client stopped: at an entry that isn't the call that is asked for, at one that is left, or, where the call
/// isn't told, at what is told of its command.
pub fn odd_call(
    alloc: Global,
    script: &Script,
    core: &ClientCore,
    client: u32,
    nodes: &[(u32, Vec<Entry>)],
    queues: &[&[Entry]],
    told: &[Outcome],
) -> Result<Odd, NoMemory> {
    let Some(event) = core.next() else {
        return left_over(alloc, client, queues);
    };
    let through = core.outcomes().len();
    let line = line_of_command(script, client, through);
    let expected = expected_call(alloc, core, &event, client, line)?;
    let behind = if through < told.len() {
        through as u64 + 1
    } else {
        0
    };
    Ok(odd_event(&event, client, behind, nodes, queues, expected))
}

/// The client whose call stands at this place of a node.
pub fn caller_at(nodes: &[(u32, Vec<Entry>)], node: u32, place: u64) -> Option<u32> {
    let entry = told_on(nodes, node).get(place as usize)?;
    entry.who.checked_sub(1)
}

// The entry at which this stands.
fn entry_at<'a>(nodes: &'a [(u32, Vec<Entry>)], odd: &Odd) -> Option<&'a Entry> {
    match odd {
        Odd::Entry { node, place, .. } => told_on(nodes, *node).get(*place as usize),
        Odd::Client { .. } => None,
    }
}

// Whether a client was told this reply before the call at which its walk stopped.
fn is_misled(nodes: &[(u32, Vec<Entry>)], call: &Odd, reply: &Odd) -> bool {
    match (entry_at(nodes, reply), entry_at(nodes, call)) {
        (Some(told), Some(stopped)) => told.who == stopped.who && told.step < stopped.step,
        _ => false,
    }
}

/// The first in the report of a call at which a walk stopped and of a wrong reply; the reply also where it misled that walk.
pub fn first_of_both(nodes: &[(u32, Vec<Entry>)], call: Odd, reply: Option<Odd>) -> Odd {
    let Some(reply) = reply else {
        return call;
    };
    if reply.is_before(&call) || is_misled(nodes, &call, &reply) {
        reply
    } else {
        call
    }
}
