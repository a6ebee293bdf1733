// The lines of a node.
ghost use Rattle.std.specs.Prelude.{◌≡◌, ◌≢◌, ◌<◌, ◌≤◌, ◌+◌, ◌++◌, ◌∷◌, [], length, map, true, false, Some, None, IfOk, IfSome, MatchOption};
ghost use Rattle.report_read.specs.Imports.{All, LogEntry, entry_text, option_map, told_entry};
ghost use Rattle.report_read.specs.Inside.Reading.{Reads, all_in, begins_number};
ghost use Rattle.report_read.specs.Inside.Entries.{front_in, entry_in};
ghost use Rattle.report_read.specs.Ranges.{IsActInRange, IsEntryOf};
ghost use Rattle.report_read.specs.Report.{IsNoLine};

use crate::acts::read_act;
use crate::bytes::Bytes;
use crate::parts::read_who;
use crate::replies::read_reply;
use dmx_calls::{Act, Entry, KeptAct, SharedReply};
use report_text::add_entry;
use std::alloc::{AllocError as NoMemory, Global};

// What stands in front of a reply.
#[derive(Drop)]
struct EntryFront {
    place: u64,
    step: u64,
    who: u32,
    act: Act,
}

#[tactic(auto, unfolding(crate::specs::Inside::Entries::front_in))]
fn read_front(bytes: &mut Bytes<'_>) -> Option<EntryFront>
    ensures value { Reads result bytes.new (front_in bytes.old) }
    ensures range { IfSome result (λ front. IsActInRange front.act) }
{
    let place = bytes.number64()?;
    bytes.past(b" ")?;
    let who = read_who(bytes)?;
    let step = bytes.named64(b" ")?;
    bytes.past(b" ")?;
    let act = read_act(bytes)?;
    bytes.past(b" = ")?;
    Some(EntryFront {
        place,
        step,
        who,
        act,
    })
}

/// A line of this node. Its reply is shared with that of this entry, where it is the same.
#[tactic(auto, unfolding(crate::specs::Inside::Entries::entry_in))]
pub fn read_entry(
    alloc: Global,
    node: u32,
    bytes: &mut Bytes<'_>,
    last: Option<&Entry>,
) -> Result<Option<Entry>, NoMemory>
    ensures value { IfOk result (λ entry. Reads (option_map told_entry entry) bytes.new (entry_in node bytes.old)) }
    ensures range { IfOk result (λ entry. IfSome entry (λ e. IsEntryOf node (told_entry e))) }
{
    let Some(front) = read_front(bytes) else {
        return Ok(None);
    };
    let Some(reply) = read_reply(alloc, bytes)? else {
        return Ok(None);
    };
    if !bytes.passes(b"\n") {
        return Ok(None);
    }
    Ok(Some(Entry {
        node,
        place: front.place,
        step: front.step,
        who: front.who,
        act: KeptAct::keep(alloc, front.act)?,
        reply: SharedReply::keep(alloc, last, reply)?,
    }))
}

/// The lines of this node, as many as there are.
#[tactic(auto, using(crate::proofs::Many::many_steps))]
pub fn read_entries(
    alloc: Global,
    node: u32,
    bytes: &mut Bytes<'_>,
) -> Result<Option<Vec<Entry>>, NoMemory>
    ensures value { IfOk result (λ entries. Reads (option_map (λ v. map told_entry v.items) entries) bytes.new
        (all_in begins_number (entry_in node) bytes.old)) }
    ensures range { IfOk result (λ entries. IfSome entries (λ v. All (IsEntryOf node) (map told_entry v.items))) }
{
    let mut entries = Vec::new(alloc);
    let mut left = bytes.len();
    'entries: while left > 0 {
        if !bytes.begins_number() {
            return Ok(Some(entries));
        }
        let Some(entry) = read_entry(alloc, node, bytes, entries.last())? else {
            return Ok(None);
        };
        entries.push(entry)?;
        left -= 1;
    }
    Ok(Some(entries))
}

// Whether these bytes are the same.
fn is_same(these: &[u8], those: &[u8]) -> bool
    ensures same { result ≡ true → these.now ≡ those.now }
    ensures other { result ≡ false → these.now ≢ those.now }
{
    these == those
}

/// The entry that a line of this node tells, its line feed with it; None exactly where the bytes are no such line. It is read,
/// written again and compared.
///
/// # Errors
///
/// `NoMemory` where memory for the entry or its text was refused.
#[tactic(auto, using(crate::proofs::Again::not_read, crate::proofs::Again::not_same))]
pub fn read_line(alloc: Global, node: u32, line: &[u8]) -> Result<Option<Entry>, NoMemory>
    ensures { IfOk result (λ told. MatchOption told (IsNoLine node line.now) (λ e. IsEntryOf node (told_entry e)
        × (line.now ≡ entry_text (told_entry e)))) }
{
    let mut bytes = Bytes::of(line);
    let Some(entry) = read_entry(alloc, node, &mut bytes, None)? else {
        return Ok(None);
    };
    let mut text = Vec::new(alloc);
    add_entry(&mut text, &entry)?;
    if is_same(&text, line) {
        Ok(Some(entry))
    } else {
        Ok(None)
    }
}
