// The feeder's calls on a node.
ghost use Rattle.std.specs.Prelude.{◌≡◌, ◌≢◌, ◌<◌, ◌≤◌, [], ◌∷◌, ◌&&◌, length, map, true, false, MatchOption, IfSome};
ghost use Rattle.report_check.specs.Imports.{steps_of, told_entry};
ghost use Rattle.report_check.specs.Inside.Feeding.{step_of, passed_behind as passed_by, is_end as is_end_act, are_none, feeds, IsFedAlike};

use dmx_calls::{Act, BatchRange, Entry, Input, KeptAct};

// The feeder's first call, and the entries behind it.
fn next_of(entries: &[Entry]) -> Option<(&Entry, &[Entry])>
    ensures next { MatchOption result (steps_of 0 (map told_entry entries.now) ≡ [])
        (λ r. steps_of 0 (map told_entry entries.now) ≡ step_of (told_entry r.0.now) ∷ steps_of 0 (map told_entry r.1.now)) }
    ensures fewer { IfSome result (λ r. length r.1.now < length entries.now) }
{
    let mut rest = entries;
    'entries: while let [entry, after @ ..] = rest {
        if entry.who == 0 {
            return Some((entry, after));
        }
        rest = after;
    }
    None
}

// How many packets have passed behind this call, where it passes the next 1 to 64.
fn passed_behind(act: &KeptAct, first: u64, packets: u64) -> Option<u64>
    requires within { first ≤ packets }
    ensures value { result ≡ passed_by packets first act.now }
    ensures within { IfSome result (λ next. next ≤ packets) }
{
    match act.act() {
        Act::Pass {
            input: Input::Frontend,
            batch: BatchRange { first: from, count },
            ..
        } if from == first && count > 0 && count <= 64 && u64::from(count) <= packets - first => {
            Some(first + u64::from(count))
        }
        _ => None,
    }
}

fn is_end(act: &KeptAct) -> bool
    ensures { result ≡ is_end_act act.now }
{
    matches!(act.act(), Act::End)
}

// The place of an entry that isn't the end, or comes before all packets have passed, or isn't the feeder's last.
fn unended(entry: &Entry, after: &[Entry], all: bool) -> Option<u64>
    ensures { MatchOption result ((is_end_act entry.now.act && (all && are_none (steps_of 0 (map told_entry after.now))))
        ≡ true)
        (λ _. (is_end_act entry.now.act && (all && are_none (steps_of 0 (map told_entry after.now)))) ≡ false) }
{
    if !is_end(&entry.act) || !all {
        return Some(entry.place);
    }
    match next_of(after) {
        None => None,
        Some((more, _)) => Some(more.place),
    }
}

// Whether two entries have the same call with the same number.
fn is_same_call(this: &Entry, other: &Entry) -> bool
    ensures same { result ≡ true → step_of (told_entry this.now) ≡ step_of (told_entry other.now) }
    ensures differs { result ≡ false → step_of (told_entry this.now) ≢ step_of (told_entry other.now) }
{
    this.step == other.step && this.act.act() == other.act.act()
}

/// The place of the first call of the feeder that doesn't pass the next packets, or isn't the end where they have all passed; the
/// one behind all entries where a call is missing.
pub fn unfed(entries: &[Entry], packets: u64) -> Option<u64>
    ensures { MatchOption result (feeds packets 0 0 (steps_of 0 (map told_entry entries.now)) ≡ true)
        (λ _. feeds packets 0 0 (steps_of 0 (map told_entry entries.now)) ≡ false) }
{
    let mut first = 0;
    let mut step = 0;
    let mut rest = entries;
    'calls: while let Some((entry, after)) = next_of(rest) {
        if entry.step != step {
            return Some(entry.place);
        }
        match passed_behind(&entry.act, first, packets) {
            Some(next) => first = next,
            None => return unended(entry, after, first == packets),
        }
        step += 1;
        rest = after;
    }
    Some(entries.len() as u64)
}

/// The place of the first call of the feeder that is another than the one in these other entries.
pub fn fed_unlike(others: &[Entry], entries: &[Entry]) -> Option<u64>
    ensures { MatchOption result (IsFedAlike (map told_entry others.now) (map told_entry entries.now))
        (λ _. IsFedAlike (map told_entry others.now) (map told_entry entries.now) → ⊥) }
{
    let mut left = others;
    let mut rest = entries;
    'calls: while let Some((other, behind)) = next_of(left) {
        let Some((entry, after)) = next_of(rest) else {
            return Some(entries.len() as u64);
        };
        if !is_same_call(entry, other) {
            return Some(entry.place);
        }
        left = behind;
        rest = after;
    }
    match next_of(rest) {
        None => None,
        Some((entry, _)) => Some(entry.place),
    }
}
