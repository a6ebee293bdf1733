// Whether what was read stands in its order.
ghost use Rattle.std.specs.Prelude.{◌≡◌, map};
ghost use Rattle.dmx_calls.specs.Calls.{told_entry};
ghost use Rattle.report_read.specs.Report.{are_rows as rows_ascend, are_placed as stand_at_places, is_whole_node as node_is_whole, are_nodes as nodes_ascend};

use dmx_calls::Entry;
use dmx_calls::limits::LARGEST_PID;
use report_text::is_called;
use ts_watch::PidRow;

/// Whether the rows are those of PIDs that have a packet, ascending.
#[tactic(auto, unfolding(crate::specs::Report::are_rows))]
pub fn are_rows(rows: &[(u16, PidRow)]) -> bool
    ensures { result ≡ rows_ascend 0 rows.now }
{
    let mut least = 0;
    let mut rest = rows;
    'rows: while let [row, after @ ..] = rest {
        if row.0 < least || row.0 > LARGEST_PID || row.1.packets == 0 {
            return false;
        }
        least = row.0 + 1;
        rest = after;
    }
    true
}

// Whether each entry has its index as its place.
#[tactic(auto, unfolding(crate::specs::Report::are_placed))]
fn are_placed(entries: &[Entry]) -> bool
    ensures { result ≡ stand_at_places 0 (map told_entry entries.now) }
{
    let mut place: usize = 0;
    let mut rest = entries;
    'entries: while let [entry, after @ ..] = rest {
        if entry.place != place as u64 {
            return false;
        }
        place += 1;
        rest = after;
    }
    true
}

// Whether a client called the node, and each entry has its index as its place.
fn is_whole_node(node: &(u32, Vec<Entry>)) -> bool
    ensures { result ≡ node_is_whole (record { node = node.now.0; entries = map told_entry node.now.1.items }) }
{
    is_called(&node.1) && are_placed(&node.1)
}

/// Whether the nodes ascend, and each is whole.
#[tactic(auto, unfolding(crate::specs::Report::are_nodes))]
pub fn are_nodes(nodes: &[(u32, Vec<Entry>)]) -> bool
    ensures { result ≡ nodes_ascend 0 (map (λ n. record { node = n.0; entries = map told_entry n.1.items }) nodes.now) }
{
    let mut least: u64 = 0;
    let mut rest = nodes;
    'nodes: while let [node, after @ ..] = rest {
        if (node.0 as u64) < least || !is_whole_node(node) {
            return false;
        }
        least = node.0 as u64 + 1;
        rest = after;
    }
    true
}
