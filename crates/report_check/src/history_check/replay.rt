// A told history, played again.
ghost use Rattle.std.specs.Prelude.{◌≡◌, ◌≢◌, ◌+◌, ◌<◌, ◌^◌, ◌∷◌, ◌++◌, [], List, length, map, reverse, IfOk, IfNone, IfSome, All};
ghost use Rattle.report_check.specs.Imports.{Entry as HistoryEntry, IsLegalFor, May, Rules, entry_of, filled, invocation_of, response_of, told_entry};
ghost use Rattle.dmx_calls.specs.Response as response;
ghost use Rattle.report_check.specs.Playing.{AreFewPackets, IsCallable, IsToldBy, PlaysBy, brought_from, played as played_by};

use crate::history_check::calls::call_told;
use crate::history_check::same::is_same_reply;
use dmx_calls::{Answer, Call, Entry, Reply, SharedReply, Told};
use machine::Machine;
use machine::steps::Steps;
use std::alloc::{AllocError as NoMemory, Global};
use std::sync::ledger::Ledger;
use ts_packet::Packet;

/// Makes a call and compares its reply with the told one: None exactly where that one is allowed, and isn't want of memory; else
/// the machine's. Where the machine's reply is want of memory, so is the answer.
pub fn other_reply<M: Machine<Call = Call, Answer = Answer, Entry = Told>, L: Ledger>(
    core: &mut M,
    who: u32,
    call: Call,
    told: &SharedReply,
    steps: &mut Steps<L>,
) -> Result<Option<Reply>, NoMemory>
    requires entries { IsToldBy M.entry_of }
    requires few { M.entries core.old < 2 ^ 50 }
    ensures agrees { IfOk result (λ other. IfNone other ((response_of told.now ≢ response.NoMemory)
        × ((h : List HistoryEntry) → M.stands_for core.old h
        → M.stands_for core.new (h ++ entry_of who (invocation_of call) (response_of told.now) ∷ [])))) }
    ensures differs { IfOk result (λ other. IfSome other (λ _. response_of told.now ≢ response.NoMemory
        → (rules : Rules) → PlaysBy rules M.stands_for → (h : List HistoryEntry) → M.stands_for core.old h
        → ¬ May rules (reverse h) who (invocation_of call) (response_of told.now))) }
    ensures counted { M.entries core.new ≡ M.entries core.old + 1 }
{
    let Answer { reply, .. } = core.apply(who, call, steps);
    if let Reply::NoMemory = &reply {
        return Err(NoMemory);
    }
    if is_same_reply(&reply, told.told()) {
        return Ok(None);
    }
    Ok(Some(reply))
}

/// Plays told entries, the oldest first, on a machine on which no call was made: None exactly where their history is legal by
/// the machine's rules, and none of the replies is want of memory; else the machine's reply to the last call that was made. A
/// pass of the front end brings packets of the stream, one of the dvr packets that its caller plays.
pub fn first_other_reply<M: Machine<Call = Call, Answer = Answer, Entry = Told>, L: Ledger>(
    alloc: Global,
    core: &mut M,
    stream: &[Packet],
    played: &[Vec<Packet>],
    entries: &[Entry],
    steps: &mut Steps<L>,
) -> Result<Option<Reply>, NoMemory>
    requires entries { IsToldBy M.entry_of }
    requires begun { M.stands_for core.old [] }
    requires callable { All (λ e. IsCallable (brought_from stream.now (map (λ p. p.items) played.now) e.who) e.act)
        (map told_entry entries.now) }
    requires stream { AreFewPackets stream.now }
    requires played { All AreFewPackets (map (λ p. p.items) played.now) }
    requires few { length entries.now < 2 ^ 50 }
    ensures legal { IfOk result (λ other. IfNone other ((rules : Rules) → PlaysBy rules M.stands_for
        → IsLegalFor rules (filled (brought_from stream.now (map (λ p. p.items) played.now)) (map told_entry entries.now)))) }
    ensures found { IfOk result
        (λ other. IfNone other (All (λ e. e.response ≢ response.NoMemory) (map told_entry entries.now))) }
    ensures stands { IfOk result
        (λ other. IfNone other (M.stands_for core.new
        (played_by (brought_from stream.now (map (λ p. p.items) played.now)) (map told_entry entries.now)))) }
    ensures other { IfOk result (λ other. IfSome other (λ _. (rules : Rules) → PlaysBy rules M.stands_for
        → IsLegalFor rules (filled (brought_from stream.now (map (λ p. p.items) played.now)) (map told_entry entries.now))
        → All (λ e. e.response ≢ response.NoMemory) (map told_entry entries.now) → ⊥)) }
{
    'entries: for entry in entries {
        let call = call_told(alloc, stream, played, entry.who, &entry.act)?;
        if let Some(reply) = other_reply(core, entry.who, call, &entry.reply, steps)? {
            return Ok(Some(reply));
        }
    }
    Ok(None)
}
