// The entries of a client on each node, one after another.
ghost use Rattle.std.specs.Prelude.{◌≡◌, ◌<◌, [], ◌∷◌, length, map, true, false, Some, slice_get, MatchOption, IfSome, All};
ghost use Rattle.dmx_calls.specs.Calls.{told_entry};
ghost use Rattle.report_check.specs.Walk.{of_client, queues_in};
ghost use Rattle.report_check.specs.Inside.Steps.{IsTaken, left_on};

use dmx_calls::Entry;

// The first entry, and those behind it.
fn parts(entries: &[Entry]) -> Option<(&Entry, &[Entry])>
    ensures { MatchOption result (entries.now ≡ []) (λ r. entries.now ≡ r.0.now ∷ r.1.now) }
{
    entries.split_first()
}

// The client's next entry of a node, and the node's entries behind it.
fn next_of(entries: &[Entry], client: u32) -> Option<(&Entry, &[Entry])>
    requires { client < 4294967295 }
    ensures next { MatchOption result (of_client client (map told_entry entries.now) ≡ [])
        (λ r. of_client client (map told_entry entries.now)
        ≡ told_entry r.0.now ∷ of_client client (map told_entry r.1.now)) }
    ensures fewer { IfSome result (λ r. length r.1.now < length entries.now) }
{
    let mut left = entries;
    'entries: while let Some((first, later)) = parts(left) {
        if first.who == client + 1 {
            return Some((first, later));
        }
        left = later;
    }
    None
}

// The client's next entry of a node, which is taken from the node with those before it.
pub(crate) fn take_next<'a>(
    nodes: &mut Vec<&'a [Entry]>,
    node: u32,
    client: u32,
) -> Option<&'a Entry>
    requires node { node < length nodes.old.items }
    requires client { client < 4294967295 }
    ensures next { MatchOption result (slice_get (queues_in client (map (λ h. map told_entry h.now) nodes.old.items)) node
        ≡ Some [])
        (λ e. IsTaken node (told_entry e.now) (queues_in client (map (λ h. map told_entry h.now) nodes.old.items))
        (queues_in client (map (λ h. map told_entry h.now) nodes.new.items))) }
    ensures fewer { IfSome result (λ e. left_on (map (λ h. map told_entry h.now) nodes.new.items)
        < left_on (map (λ h. map told_entry h.now) nodes.old.items)) }
    ensures nodes { length nodes.new.items ≡ length nodes.old.items }
{
    let entries = nodes[node as usize];
    match next_of(entries, client) {
        None => None,
        Some((first, later)) => {
            nodes[node as usize] = later;
            Some(first)
        }
    }
}

// Whether no entry of the client is left.
pub(crate) fn is_none_left(nodes: &[&[Entry]], client: u32) -> bool
    requires { client < 4294967295 }
    ensures none { result ≡ true → All (λ h. of_client client (map told_entry h.now) ≡ []) nodes.now }
    ensures some { result ≡ false → All (λ h. of_client client (map told_entry h.now) ≡ []) nodes.now → ⊥ }
{
    'nodes: for entries in nodes {
        if let Some(_) = next_of(entries, client) {
            return false;
        }
    }
    true
}
