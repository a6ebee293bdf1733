// The sums of a report in one line.
ghost use Rattle.std.specs.Prelude.{◌≡◌, ◌*◌, ◌+◌, ◌^◌, ◌<◌, ◌≤◌, ◌++◌, length, map, take, drop, codes, IfOk, OnOk};
ghost use Rattle.report_text.specs.Imports.{DEMUX_NODES, decimal, response_of, told_entry, told_head};
ghost use Rattle.report_text.specs.Inside.Sums.{AreSums, AreAtMost};
ghost use Rattle.report_text.specs.Summary.{data_bytes as bytes_of_response, is_overflow as tells_overflow, bytes_read as bytes_of_entries, overflows as overflows_of_entries, summary_of};

use crate::acts::add_field;
use dmx_calls::limits::DEMUX_NODES;
use dmx_calls::{Entry, Histories, Reply, SharedReply};
use itoa::Buffer;
use std::alloc::{AllocError as NoMemory, Global};
use ts_watch::Head;

// Sums over nodes. They have 128 bits, so that no number of entries is too large for them.
#[derive(Clone, Copy, Drop)]
struct Sums {
    entries: u128,
    bytes: u128,
    overflows: u128,
}

/// How many bytes a reply answers.
pub fn data_bytes(reply: &SharedReply) -> usize
    ensures value { result ≡ bytes_of_response (response_of reply.now) }
    ensures bound { result < 2 ^ 63 }
{
    match reply.told() {
        Reply::Data(buf) => buf.bytes().len(),
        _ => 0,
    }
}

fn is_overflow(reply: &SharedReply) -> bool
    ensures { result ≡ tells_overflow (response_of reply.now) }
{
    matches!(reply.told(), Reply::Overflow { .. })
}

// The bytes that are read in these calls.
fn bytes_read(calls: &[Entry]) -> u128
    requires { length calls.now < 2 ^ 57 }
    ensures value { result ≡ bytes_of_entries (map told_entry calls.now) }
    ensures bound { result ≤ 2 ^ 120 }
{
    let mut sum: u128 = 0;
    'calls: for call in calls {
        sum += data_bytes(&call.reply) as u128;
    }
    sum
}

// The overflows among these calls.
fn overflows(calls: &[Entry]) -> usize
    ensures value { result ≡ overflows_of_entries (map told_entry calls.now) }
    ensures bound { result ≤ length calls.now }
{
    let mut count: usize = 0;
    'calls: for call in calls {
        if is_overflow(&call.reply) {
            count += 1;
        }
    }
    count
}

// The sums of a node.
fn node_sums(histories: &Histories, node: u32) -> Sums
    requires { node ≤ DEMUX_NODES }
    ensures sums { AreSums (take 1 (drop node histories.now)) result }
    ensures bound { AreAtMost (2 ^ 121) result }
    ensures nodes { length histories.now ≡ DEMUX_NODES + 1 }
{
    let (feeding, calls) = histories.node(node);
    Sums {
        entries: feeding.len() as u128 + 1 + calls.len() as u128,
        bytes: bytes_read(calls),
        overflows: overflows(calls) as u128,
    }
}

fn added(a: Sums, b: Sums) -> Sums
    requires a { AreAtMost (2 ^ 126) a }
    requires b { AreAtMost (2 ^ 126) b }
    ensures entries { result.entries ≡ a.entries + b.entries }
    ensures bytes { result.bytes ≡ a.bytes + b.bytes }
    ensures overflows { result.overflows ≡ a.overflows + b.overflows }
{
    Sums {
        entries: a.entries + b.entries,
        bytes: a.bytes + b.bytes,
        overflows: a.overflows + b.overflows,
    }
}

// The sums of the demux nodes.
fn demux_sums(histories: &Histories) -> Sums
    ensures sums { AreSums (take DEMUX_NODES histories.now) result }
    ensures bound { AreAtMost (2 ^ 126) result }
{
    let mut sums = Sums {
        entries: 0,
        bytes: 0,
        overflows: 0,
    };
    'nodes: for node in 0..DEMUX_NODES {
        sums = added(sums, node_sums(histories, node));
    }
    sums
}

// A name and a sum.
fn add_sum(out: &mut Vec<u8>, name: &[u8], sum: u128) -> Result<(), NoMemory>
    ensures { OnOk result (out.new.items ≡ out.old.items ++ (name.now ++ decimal sum)) }
{
    let mut digits = Buffer::new();
    out.extend_from_slice(name)?;
    out.extend_from_slice(digits.format(sum).as_bytes())
}

// The line of these sums: of all nodes, of the demux nodes and of the dvr node.
fn add_line(out: &mut Vec<u8>, all: &Sums, demux: u128, dvr: u128) -> Result<(), NoMemory>
    ensures { OnOk result (out.new.items
        ≡ out.old.items ++ (codes " entries=" ++ (decimal all.now.entries ++ (codes " demux=" ++ (decimal demux
        ++ (codes " dvr=" ++ (decimal dvr ++ (codes " overflows=" ++ (decimal all.now.overflows ++ codes "\n"))))))))) }
{
    add_sum(out, b" entries=", all.entries)?;
    add_sum(out, b" demux=", demux)?;
    add_sum(out, b" dvr=", dvr)?;
    add_sum(out, b" overflows=", all.overflows)?;
    out.extend_from_slice(b"\n")
}

/// The sums of a run in one line: the packets, the entries of all nodes, the bytes that were read on the demux nodes and on
/// the dvr node, and the overflows.
///
/// # Errors
///
/// `NoMemory` where memory for the text was refused.
pub fn summary(alloc: Global, head: &Head, histories: &Histories) -> Result<Vec<u8>, NoMemory>
    ensures { IfOk result (λ text. text.items ≡ summary_of (told_head head.now) histories.now) }
{
    let demux = demux_sums(histories);
    let dvr = node_sums(histories, DEMUX_NODES);
    let all = added(demux, dvr);
    let mut out = Vec::new(alloc);
    add_field(&mut out, b"packets=", head.tally.packets)?;
    add_line(&mut out, &all, demux.bytes, dvr.bytes)?;
    Ok(out)
}
