// What the rules give where a report is wrong, in the report's own words. Nothing is claimed of it.
use crate::line::first_other;
use dmx_calls::{Act, Entry, KeptAct, Outcome, Reply, SharedReply};
use report_text::{add_clients, add_entry};
use std::alloc::{AllocError as NoMemory, Global};
use text_forms::{write_decimal, write_hex};

// The most bytes of a text; a longer one is cut there, and ends with ` ..`.
const MOST: usize = 240;

// The most bytes of data that are shown whole.
const WHOLE_DATA: usize = 48;

// How many bytes of longer data are shown, from the first on that differs.
const SHOWN_DATA: usize = 8;

/// What the rules give at a place of a report: one line, without its line feed.
#[derive(Clone, Copy, Debug, PartialEq, Eq, Drop)]
pub struct Expected {
    bytes: [u8; MOST],
    len: usize,
}

impl Expected {
    /// This text, cut at 240 bytes.
    pub fn of(text: &[u8]) -> Expected {
        let mut bytes = [0u8; MOST];
        let len = text.len().min(MOST);
        'bytes: for place in 0..len {
            bytes[place] = text[place];
        }
        if text.len() > MOST {
            bytes[MOST - 3..].copy_from_slice(b" ..");
        }
        Expected { bytes, len }
    }

    /// Its bytes.
    pub fn text(&self) -> &[u8] {
        &self.bytes[..self.len.min(MOST)]
    }
}

// A text without its first bytes and its last ones.
fn inside(text: &[u8], first: usize, last: usize) -> &[u8] {
    let end = text.len().saturating_sub(last);
    &text[first.min(end)..end]
}

// Data of more than 48 bytes: how many, and some from the first on that isn't there in the other data.
fn long_data(alloc: Global, own: &[u8], other: &[u8]) -> Result<Expected, NoMemory> {
    let mut text = Vec::new(alloc);
    text.extend_from_slice(b"data of ")?;
    write_decimal(&mut text, own.len() as u64)?;
    text.extend_from_slice(b" bytes")?;
    let first = first_other(own, other);
    let left = &own[first.min(own.len())..];
    if left.is_empty() {
        return Ok(Expected::of(&text));
    }
    text.extend_from_slice(b", from byte ")?;
    write_decimal(&mut text, first as u64)?;
    text.extend_from_slice(b" on ")?;
    write_hex(&mut text, &left[..left.len().min(SHOWN_DATA)])?;
    if left.len() > SHOWN_DATA {
        text.extend_from_slice(b"..")?;
    }
    Ok(Expected::of(&text))
}

// The data that an entry tells.
fn data_of(entry: Option<&Entry>) -> &[u8] {
    match entry {
        Some(entry) => match entry.reply.told() {
            Reply::Data(buf) => buf.bytes(),
            _ => &[],
        },
        None => &[],
    }
}

/// A reply, where this entry tells another one.
pub fn expected_reply(
    alloc: Global,
    told: Option<&Entry>,
    reply: Reply,
) -> Result<Expected, NoMemory> {
    if let Reply::Data(buf) = &reply {
        if buf.bytes().len() > WHOLE_DATA {
            return long_data(alloc, buf.bytes(), data_of(told));
        }
    }
    let entry = Entry {
        place: 0,
        step: 0,
        node: 0,
        who: 0,
        act: KeptAct::keep(alloc, Act::End)?,
        reply: SharedReply::of(alloc, None, reply)?,
    };
    let mut text = Vec::new(alloc);
    add_entry(&mut text, &entry)?;
    Ok(Expected::of(inside(&text, b"0 feed 0 end = ".len(), 1)))
}

/// Puts a call with its caller and its step behind these bytes, as the report tells it.
pub fn add_call(
    alloc: Global,
    out: &mut Vec<u8>,
    who: u32,
    step: u64,
    act: Act,
) -> Result<(), NoMemory> {
    let entry = Entry {
        place: 0,
        step,
        node: 0,
        who,
        act: KeptAct::keep(alloc, act)?,
        reply: SharedReply::of(alloc, None, Reply::Passed)?,
    };
    let mut text = Vec::new(alloc);
    add_entry(&mut text, &entry)?;
    out.extend_from_slice(inside(&text, b"0 ".len(), b" = passed\n".len()))
}

/// What became of the next command of a client, where these are its outcomes and so many of them are told.
pub fn expected_outcome(
    alloc: Global,
    outcomes: &[Outcome],
    same: usize,
) -> Result<Expected, NoMemory> {
    let Some(outcome) = outcomes.get(same) else {
        return Ok(Expected::of(b"no further command"));
    };
    let mut one = Vec::new(alloc);
    one.push(*outcome)?;
    let mut all = Vec::new(alloc);
    all.push(one)?;
    let mut text = Vec::new(alloc);
    add_clients(&mut text, &all)?;
    Ok(Expected::of(inside(&text, b"client 0\n".len(), 1)))
}

/// A word and the number of a client.
pub fn expected_client(alloc: Global, words: &[u8], client: u64) -> Result<Expected, NoMemory> {
    let mut text = Vec::new(alloc);
    text.extend_from_slice(words)?;
    write_decimal(&mut text, client)?;
    Ok(Expected::of(&text))
}
