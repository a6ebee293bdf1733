// Whether a text is the one of what was read from it: it is written again, line by line, and compared.
ghost use Rattle.std.specs.Prelude.{◌≡◌, ◌≢◌, map, true, false, Some, IfOk};
ghost use Rattle.report_read.specs.Imports.{entry_text, flat_map, text_of, told_entry, told_node_text};
ghost use Rattle.report_read.specs.Inside.Reading.{gone};
ghost use Rattle.report_read.specs.Report.{told_of};

use crate::bytes::Bytes;
use crate::whole::ReadReport;
use dmx_calls::Entry;
use report_text::{add_clients, add_end, add_entry, add_head, add_node_line};
use std::alloc::{AllocError as NoMemory, Global};

// What is left behind this text; None where it doesn't stand at the front.
#[tactic(auto, unfolding(crate::specs::Inside::Reading::gone))]
fn behind_text<'a>(left: Option<Bytes<'a>>, text: &[u8]) -> Option<Bytes<'a>>
    ensures { result ≡ gone text.now left.entry }
{
    let mut bytes = left?;
    bytes.past(text)?;
    Some(bytes)
}

// What is left behind these entries, each of which is written to `line`.
#[tactic(auto, using(crate::proofs::Compared::gone_steps))]
fn behind_entries<'a>(
    line: &mut Vec<u8>,
    entries: &[Entry],
    first: Option<Bytes<'a>>,
) -> Result<Option<Bytes<'a>>, NoMemory>
    ensures { IfOk result (λ left. left ≡ gone (flat_map entry_text (map told_entry entries.now)) first.entry) }
{
    let mut left = first;
    'entries: for entry in entries {
        line.clear();
        add_entry(line, entry)?;
        left = behind_text(left, line);
    }
    Ok(left)
}

// What is left behind nodes with their entries.
#[tactic(auto, using(crate::proofs::Compared::gone_steps))]
fn behind_nodes<'a>(
    line: &mut Vec<u8>,
    nodes: &[(u32, Vec<Entry>)],
    first: Option<Bytes<'a>>,
) -> Result<Option<Bytes<'a>>, NoMemory>
    ensures { IfOk result (λ left. left
        ≡ gone (flat_map told_node_text (map (λ n. record { node = n.0; entries = map told_entry n.1.items }) nodes.now))
        first.entry) }
{
    let mut left = first;
    'nodes: for (number, entries) in nodes {
        line.clear();
        add_node_line(line, *number)?;
        left = behind_entries(line, entries, behind_text(left, line))?;
    }
    Ok(left)
}

// What is left behind the report that tells this.
fn behind_report<'a>(
    alloc: Global,
    told: &ReadReport,
    bytes: &'a [u8],
) -> Result<Option<Bytes<'a>>, NoMemory>
    ensures { IfOk result (λ left. left ≡ gone (text_of (told_of told.now)) (Some bytes.now)) }
{
    let mut line = Vec::new(alloc);
    add_head(&mut line, &told.head)?;
    add_clients(&mut line, &told.outcomes)?;
    let front = behind_text(Some(Bytes::of(bytes)), &line);
    let nodes = behind_nodes(&mut line, &told.nodes, front)?;
    line.clear();
    add_end(&mut line, told.head.read_fault)?;
    Ok(behind_text(nodes, &line))
}

/// Whether these bytes are the report that tells this.
#[tactic(auto, using(crate::proofs::Compared::ends))]
pub fn is_spelled(alloc: Global, told: &ReadReport, bytes: &[u8]) -> Result<bool, NoMemory>
    ensures same { IfOk result (λ is. is ≡ true → text_of (told_of told.now) ≡ bytes.now) }
    ensures other { IfOk result (λ is. is ≡ false → text_of (told_of told.now) ≢ bytes.now) }
{
    match behind_report(alloc, told, bytes)? {
        Some(rest) => Ok(rest.len() == 0),
        None => Ok(false),
    }
}
