// The names of clients, slots and nodes.
ghost use Rattle.std.specs.Prelude.{◌≡◌, ◌+◌, ◌<◌, ◌≤◌, ◌∷◌, IfSome, OnErr};
ghost use Rattle.std.specs.Fmt.{decimal};
ghost use Rattle.text_forms.specs.Names.{numbered as number_behind, client_text, client_named as client_of_word, demux_text, demux_named as demux_of_word, slot_text, slot_named as slot_of_word, who_text, who_named as who_of_word, node_text, node_named as node_of_word};
ghost use Rattle.text_forms.specs.Appended.{Appended};

use crate::number::{number_between, write_decimal};
use crate::room::put;
use crate::words::is_word;
use dmx_calls::limits::DEMUX_NODES;
use itoa::Buffer;
use std::alloc::AllocError as NoMemory;

// The number of the last client.
const LAST_CLIENT: u32 = 7;

// The number of the last demux node, and of the last slot.
const LAST_NODE: u32 = 31;

// The most bytes of a letter and a number of 32 bits.
const MOST_BYTES: usize = 11;

// The number behind this letter, where it is at most `most`.
#[tactic(auto, unfolding(crate::specs::Names::numbered))]
fn numbered(letter: u8, most: u32, word: &[u8]) -> Option<u32>
    ensures value { result ≡ number_behind letter most word.now }
    ensures bound { IfSome result (λ n. n ≤ most) }
{
    match word {
        [first, number @ ..] if *first == letter => {
            let n = number_between(0, most as u64, number)?;
            Some(n as u32)
        }
        _ => None,
    }
}

// Appends a letter and a number.
fn write_numbered(out: &mut Vec<u8>, letter: u8, n: u32) -> Result<(), NoMemory>
    ensures appended { Appended 20 (letter ∷ decimal n) out.old out.new result }
    ensures unchanged { OnErr result (out.new.items ≡ out.old.items) }
{
    out.reserve(MOST_BYTES)?;
    let mut digits = Buffer::new();
    put(out, &[letter]);
    put(out, digits.format(n).as_bytes());
    Ok(())
}

/// Appends the name of a client: `cK` for client K.
///
/// # Errors
///
/// `NoMemory`; `out` is then as it was.
pub fn write_client(out: &mut Vec<u8>, client: u32) -> Result<(), NoMemory>
    ensures appended { Appended 20 (client_text client) out.old out.new result }
    ensures unchanged { OnErr result (out.new.items ≡ out.old.items) }
{
    write_numbered(out, b'c', client)
}

/// The client of a word `c0` to `c7`.
pub fn client_named(word: &[u8]) -> Option<u32>
    ensures value { result ≡ client_of_word word.now }
    ensures bound { IfSome result (λ client. client ≤ 7) }
{
    numbered(b'c', LAST_CLIENT, word)
}

/// Appends the name of a demux node in a script: `nK` for node K.
///
/// # Errors
///
/// `NoMemory`; `out` is then as it was.
pub fn write_demux(out: &mut Vec<u8>, node: u32) -> Result<(), NoMemory>
    ensures appended { Appended 20 (demux_text node) out.old out.new result }
    ensures unchanged { OnErr result (out.new.items ≡ out.old.items) }
{
    write_numbered(out, b'n', node)
}

/// The demux node of a word `n0` to `n31`.
pub fn demux_named(word: &[u8]) -> Option<u32>
    ensures value { result ≡ demux_of_word word.now }
    ensures bound { IfSome result (λ node. node ≤ 31) }
{
    numbered(b'n', LAST_NODE, word)
}

/// Appends the name of a slot: `hK` for slot K.
///
/// # Errors
///
/// `NoMemory`; `out` is then as it was.
pub fn write_slot(out: &mut Vec<u8>, slot: u32) -> Result<(), NoMemory>
    ensures appended { Appended 20 (slot_text slot) out.old out.new result }
    ensures unchanged { OnErr result (out.new.items ≡ out.old.items) }
{
    write_numbered(out, b'h', slot)
}

/// The slot of a word `h0` to `h31`.
pub fn slot_named(word: &[u8]) -> Option<u32>
    ensures value { result ≡ slot_of_word word.now }
    ensures bound { IfSome result (λ slot. slot ≤ 31) }
{
    numbered(b'h', LAST_NODE, word)
}

/// Appends a caller as a report names it: `feed` for caller 0, the feeder, and `cK` for caller K + 1.
///
/// # Errors
///
/// `NoMemory`; `out` is then as it was.
#[tactic(auto, unfolding(crate::specs::Names::who_text))]
pub fn write_who(out: &mut Vec<u8>, who: u32) -> Result<(), NoMemory>
    ensures appended { Appended 20 (who_text who) out.old out.new result }
    ensures unchanged { OnErr result (out.new.items ≡ out.old.items) }
{
    if who == 0 {
        out.extend_from_slice(b"feed")
    } else {
        write_client(out, who - 1)
    }
}

/// The caller that a report names by a word: 0 for `feed`, and K + 1 for `c0` to `c7`.
#[tactic(auto, unfolding(crate::specs::Names::who_named))]
pub fn who_named(word: &[u8]) -> Option<u32>
    ensures value { result ≡ who_of_word word.now }
    ensures bound { IfSome result (λ who. who ≤ 8) }
{
    if is_word(word, "feed") {
        return Some(0);
    }
    let client = client_named(word)?;
    Some(client + 1)
}

/// Appends a node as a report names it: `dvr` for node 32, the dvr node, and the number of any other.
///
/// # Errors
///
/// `NoMemory`; `out` is then as it was.
#[tactic(auto, unfolding(crate::specs::Names::node_text))]
pub fn write_node(out: &mut Vec<u8>, node: u32) -> Result<(), NoMemory>
    ensures appended { Appended 20 (node_text node) out.old out.new result }
    ensures unchanged { OnErr result (out.new.items ≡ out.old.items) }
{
    if node == DEMUX_NODES {
        out.extend_from_slice(b"dvr")
    } else {
        write_decimal(out, node as u64)
    }
}

/// The node that a report names by a word: 0 to 31 by its number, and 32 by `dvr`.
#[tactic(auto, unfolding(crate::specs::Names::node_named))]
pub fn node_named(word: &[u8]) -> Option<u32>
    ensures value { result ≡ node_of_word word.now }
    ensures bound { IfSome result (λ node. node ≤ 32) }
{
    if is_word(word, "dvr") {
        return Some(DEMUX_NODES);
    }
    let node = number_between(0, LAST_NODE as u64, word)?;
    Some(node as u32)
}
