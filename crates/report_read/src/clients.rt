// The clients with their commands.
ghost use Rattle.std.specs.Prelude.{◌≡◌, map, IfOk, IfSome};
ghost use Rattle.report_read.specs.Imports.{All, option_map};
ghost use Rattle.report_read.specs.Inside.Reading.{Reads};
ghost use Rattle.report_read.specs.Ranges.{IsKindInRange, IsOutcomeInRange};
ghost use Rattle.report_read.specs.Inside.Whole.{stc_in, kind_in, outcome_in, outcomes_in, client_number_in, client_in, clients_in};

use crate::bytes::Bytes;
use dmx_calls::{Outcome, OutcomeKind};
use std::alloc::{AllocError as NoMemory, Global};

// A system time counter.
#[tactic(auto, unfolding(crate::specs::Inside::Whole::stc_in))]
fn read_stc(bytes: &mut Bytes<'_>) -> Option<OutcomeKind>
    ensures value { Reads result bytes.new (stc_in bytes.old) }
    ensures range { IfSome result IsKindInRange }
{
    let base = bytes.named32(b"stc base=")?;
    let value = bytes.named64(b" value=")?;
    Some(OutcomeKind::Stc { base, value })
}

// How a command ended.
#[tactic(auto, unfolding(crate::specs::Inside::Whole::kind_in))]
fn read_kind(bytes: &mut Bytes<'_>) -> Option<OutcomeKind>
    ensures value { Reads result bytes.new (kind_in bytes.old) }
    ensures range { IfSome result IsKindInRange }
{
    if bytes.passes(b"done") {
        return Some(OutcomeKind::Done);
    }
    if bytes.passes(b"EMFILE") {
        return Some(OutcomeKind::Emfile);
    }
    if bytes.passes(b"unbound") {
        return Some(OutcomeKind::Unbound);
    }
    if bytes.passes(b"nostc") {
        return Some(OutcomeKind::NoStc);
    }
    read_stc(bytes)
}

// A command.
#[tactic(auto, unfolding(crate::specs::Inside::Whole::outcome_in))]
fn read_outcome(bytes: &mut Bytes<'_>) -> Option<Outcome>
    ensures value { Reads result bytes.new (outcome_in bytes.old) }
    ensures range { IfSome result IsOutcomeInRange }
{
    let line = bytes.named32(b"line ")?;
    let from = bytes.named64(b" steps ")?;
    let to = bytes.named64(b"..")?;
    bytes.past(b" ")?;
    let kind = read_kind(bytes)?;
    bytes.past(b"\n")?;
    Some(Outcome {
        line,
        from,
        to,
        kind,
    })
}

// The commands of a client, as many as there are.
#[tactic(auto, using(crate::proofs::Many::many_steps))]
fn read_outcomes(alloc: Global, bytes: &mut Bytes<'_>) -> Result<Option<Vec<Outcome>>, NoMemory>
    ensures value { IfOk result (λ outcomes. Reads (option_map (λ v. v.items) outcomes) bytes.new (outcomes_in bytes.old)) }
    ensures range { IfOk result (λ outcomes. IfSome outcomes (λ v. All IsOutcomeInRange v.items)) }
{
    let mut outcomes = Vec::new(alloc);
    let mut left = bytes.len();
    'outcomes: while left > 0 {
        if !bytes.begins_with(b"line ") {
            return Ok(Some(outcomes));
        }
        let Some(outcome) = read_outcome(bytes) else {
            return Ok(None);
        };
        outcomes.push(outcome)?;
        left -= 1;
    }
    Ok(Some(outcomes))
}

// The line of a client; its number is told by its place, and compared where the report is written again.
fn read_number(bytes: &mut Bytes<'_>) -> Option<u64>
    ensures { Reads result bytes.new (client_number_in bytes.old) }
{
    bytes.past(b"client ")?;
    let client = bytes.number(0, 4_294_967_294)?;
    bytes.past(b"\n")?;
    Some(client)
}

// A client with its commands.
#[tactic(auto, unfolding(crate::specs::Inside::Whole::client_in))]
fn read_client(alloc: Global, bytes: &mut Bytes<'_>) -> Result<Option<Vec<Outcome>>, NoMemory>
    ensures value { IfOk result (λ outcomes. Reads (option_map (λ v. v.items) outcomes) bytes.new (client_in bytes.old)) }
    ensures range { IfOk result (λ outcomes. IfSome outcomes (λ v. All IsOutcomeInRange v.items)) }
{
    let Some(_client) = read_number(bytes) else {
        return Ok(None);
    };
    read_outcomes(alloc, bytes)
}

/// The clients, as many as there are.
#[tactic(auto, using(crate::proofs::Many::many_steps))]
pub fn read_clients(
    alloc: Global,
    bytes: &mut Bytes<'_>,
) -> Result<Option<Vec<Vec<Outcome>>>, NoMemory>
    ensures value { IfOk result
        (λ clients. Reads (option_map (λ v. map (λ o. o.items) v.items) clients) bytes.new (clients_in bytes.old)) }
    ensures range { IfOk result (λ clients. IfSome clients (λ v. All (All IsOutcomeInRange) (map (λ o. o.items) v.items))) }
{
    let mut clients: Vec<Vec<Outcome>> = Vec::new(alloc);
    let mut left = bytes.len();
    'clients: while left > 0 {
        if !bytes.begins_with(b"client ") {
            return Ok(Some(clients));
        }
        let Some(outcomes) = read_client(alloc, bytes)? else {
            return Ok(None);
        };
        clients.push(outcomes)?;
        left -= 1;
    }
    Ok(Some(clients))
}
