// Whether a report is right.
ghost use Rattle.std.specs.Prelude.{◌≡◌, ◌<◌, ◌^◌, length, map, true, false, IfOk, MatchOption, All};
ghost use Rattle.report_check.specs.Imports.{IsInOrder, IsInRange, IsPacket, text_of, told_head, told_of};
ghost use Rattle.report_check.specs.Completed.{completed};
ghost use Rattle.report_check.specs.Right.{IsRunOf, IsRightReport};
ghost use Rattle.report_check.specs.Inside.Parts.{HasPassed};

use crate::client::{expected_of_caller, odd_client};
use crate::expected::{Expected, expected_client};
use crate::fault::{Fault, Odd, ReportFaultKind};
use crate::fed::expected_feed;
use crate::head::{fault_of_head, is_same_head};
use crate::line::{line_of_client, line_of_entry};
use crate::node::odd_node;
use crate::play::odd_play;
use crate::played::all_played;
use crate::stop::first_of_both;
use crate::text::fault_of_text;
use client_script::Script;
use report_read::{ReadReport, read_report};
use std::alloc::{AllocError as NoMemory, Global};
use ts_packet::Packet;
use ts_watch::Head;

// What is wrong where so many clients are told and the script has another number of them.
fn odd_clients(alloc: Global, told: usize, clients: u32) -> Result<Odd, NoMemory> {
    let expected = if told < clients as usize {
        expected_client(alloc, b"client ", told as u64)?
    } else {
        Expected::of(b"no further client")
    };
    Ok(Odd::Client {
        client: clients,
        behind: 0,
        kind: ReportFaultKind::Outcome,
        expected: Some(expected),
    })
}

// What is wrong on a node, with what the rules give there.
fn explained(
    alloc: Global,
    told: &ReadReport,
    script: &Script,
    packets: u64,
    odd: Odd,
) -> Result<Odd, NoMemory>
    requires clients { length told.now.outcomes.items < 4294967295 }
    requires few { length (text_of (told_of told.now)) < 2 ^ 46 }
{
    let Odd::Entry {
        node,
        place,
        kind,
        ..
    } = odd
    else {
        return Ok(odd);
    };
    let expected = match kind {
        ReportFaultKind::Feeder => expected_feed(alloc, &told.nodes, node, place, packets)?,
        _ => expected_of_caller(alloc, script, &told.nodes, &told.outcomes, node, place)?,
    };
    Ok(Odd::Entry {
        node,
        place,
        kind,
        expected,
    })
}

// What is wrong with what a report tells, if anything is.
fn odd_part(
    alloc: Global,
    told: &ReadReport,
    script: &Script,
    packets: &[Packet],
) -> Result<Option<Odd>, NoMemory>
    requires range { IsInRange (told_of told.now) }
    requires few { length (text_of (told_of told.now)) < 2 ^ 46 }
    requires packets { All IsPacket packets.now }
    requires long { length packets.now < 2 ^ 63 }
    ensures { IfOk result (λ odd. MatchOption odd (HasPassed script.now packets.now (told_of told.now))
        (λ _. HasPassed script.now packets.now (told_of told.now) → ⊥)) }
{
    let clients = script.clients();
    if told.outcomes.len() != clients as usize {
        return Ok(Some(odd_clients(alloc, told.outcomes.len(), clients)?));
    }
    let all = all_played(alloc, script)?;
    let played = all.as_slice();
    if let Some(odd) = odd_node(&told.nodes, clients, packets.len() as u64, played) {
        let explained = explained(alloc, told, script, packets.len() as u64, odd)?;
        return Ok(Some(explained));
    }
    let call = odd_client(alloc, script, &told.nodes, &told.outcomes)?;
    let reply = odd_play(alloc, &told.nodes, packets, played)?;
    match call {
        Some(odd) => Ok(Some(first_of_both(&told.nodes, odd, reply))),
        None => Ok(reply),
    }
}

// The line of a fault.
fn fault_of(told: &ReadReport, odd: Odd) -> Fault {
    match odd {
        Odd::Entry {
            node,
            place,
            kind,
            expected,
        } => Fault {
            line: line_of_entry(told, node, place),
            kind,
            expected,
        },
        Odd::Client {
            client,
            behind,
            kind,
            expected,
        } => Fault {
            line: line_of_client(told, client, behind),
            kind,
            expected,
        },
    }
}

/// What is wrong with a report; None exactly where it is the right one: that of this head, and of a run of the script over these
/// packets in batches of at most 64. The head has as many packets.
///
/// # Errors
///
/// `NoMemory` where memory was refused.
pub fn first_fault(
    alloc: Global,
    bytes: &[u8],
    script: &Script,
    packets: &[Packet],
    head: &Head,
) -> Result<Option<Fault>, NoMemory>
    requires count { head.now.tally.packets ≡ length packets.now }
    requires packets { All IsPacket packets.now }
    requires long { length packets.now < 2 ^ 63 }
    requires few { length bytes.now < 2 ^ 46 }
    ensures { IfOk result (λ fault. MatchOption fault (IsRightReport script.now packets.now (told_head head.now) bytes.now)
        (λ _. IsRightReport script.now packets.now (told_head head.now) bytes.now → ⊥)) }
{
    let Some(told) = read_report(alloc, bytes)? else {
        let fault = fault_of_text(alloc, bytes)?;
        return Ok(Some(fault));
    };
    if !is_same_head(&told.head, head) {
        let fault = fault_of_head(alloc, &told, head)?;
        return Ok(Some(fault));
    }
    // Each line is in the ranges of the grammar and each write is short, so each call of a run can be made again.
    let _lines = script.lines();
    match odd_part(alloc, &told, script, packets)? {
        None => Ok(None),
        Some(odd) => Ok(Some(fault_of(&told, odd))),
    }
}

/// Whether a report is the right one: that of this head, and of a run of the script over these packets in batches of at most 64.
/// The head has as many packets.
///
/// # Errors
///
/// `NoMemory` where memory was refused.
pub fn check(
    alloc: Global,
    bytes: &[u8],
    script: &Script,
    packets: &[Packet],
    head: &Head,
) -> Result<bool, NoMemory>
    requires count { head.now.tally.packets ≡ length packets.now }
    requires packets { All IsPacket packets.now }
    requires long { length packets.now < 2 ^ 63 }
    requires few { length bytes.now < 2 ^ 46 }
    ensures right { IfOk result (λ b. b ≡ true → IsRightReport script.now packets.now (told_head head.now) bytes.now) }
    ensures wrong { IfOk result (λ b. b ≡ false
        → IsRightReport script.now packets.now (told_head head.now) bytes.now → ⊥) }
{
    Ok(first_fault(alloc, bytes, script, packets, head)?.is_none())
}
