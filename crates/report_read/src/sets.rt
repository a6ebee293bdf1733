// Sets of PIDs and filters.
ghost use Rattle.std.specs.Prelude.{◌≡◌, Some, None, MatchOption, IfSome};
ghost use Rattle.report_read.specs.Imports.{HasBytes, IsFilter, with_place};
ghost use Rattle.report_read.specs.Ranges.{IsPidSet};
ghost use Rattle.report_read.specs.Inside.Reading.{Reads};
ghost use Rattle.report_read.specs.Inside.Parts.{pid_step, more_pids, pids_in, place_step, more_places, filter_in};

use crate::bytes::Bytes;
use crate::parts::read_place;
use filter_match::{Place, SectionFilter};
use pid_set::Pids;

// One more PID.
#[tactic(auto, unfolding(crate::specs::Inside::Parts::pid_step))]
fn read_next_pid(set: &mut Pids, bytes: &mut Bytes<'_>) -> Option<()>
    ensures { MatchOption result (pid_step set.old bytes.old ≡ None) (λ _. pid_step set.old bytes.old
        ≡ Some (set.new, bytes.new)) }
{
    let pid = bytes.number16()?;
    match set.add(pid) {
        Ok(_) => Some(()),
        Err(_) => None,
    }
}

// The same set. That it is one, and how large it is at most, is known by its length.
fn with_its_range(set: Pids) -> Pids
    ensures same { result ≡ set }
    ensures range { IsPidSet result }
{
    let fits = set.len() <= 128;
    prove!(fits);
    set
}

// So many more PIDs.
#[tactic(auto, using(crate::proofs::Steps::pids_steps))]
fn read_more_pids(most: u32, first: Pids, bytes: &mut Bytes<'_>) -> Option<Pids>
    ensures { Reads result bytes.new (more_pids most first bytes.old) }
{
    let mut set = first;
    let mut left = most;
    'pids: while left > 0 {
        if !bytes.passes(b",") {
            return Some(set);
        }
        read_next_pid(&mut set, bytes)?;
        left -= 1;
    }
    Some(set)
}

/// The PIDs of a set.
#[tactic(auto, unfolding(crate::specs::Inside::Parts::pids_in))]
pub fn read_pids(bytes: &mut Bytes<'_>) -> Option<Pids>
    ensures value { Reads result bytes.new (pids_in bytes.old) }
    ensures range { IfSome result IsPidSet }
{
    if bytes.passes(b"-") {
        return Some(with_its_range(Pids::new()));
    }
    let pid = bytes.number16()?;
    let set = read_more_pids(127, Pids::of(pid), bytes)?;
    Some(with_its_range(set))
}

// The filter with one more place.
fn put(filter: SectionFilter, place: Place) -> SectionFilter
    requires filter { IsFilter filter }
    requires place { HasBytes place }
    ensures value { result ≡ with_place filter place }
    ensures range { IsFilter result }
{
    let mut more = filter;
    more.set(place);
    more
}

// One more place.
#[tactic(auto, unfolding(crate::specs::Inside::Parts::place_step))]
fn read_next_place(filter: SectionFilter, bytes: &mut Bytes<'_>) -> Option<SectionFilter>
    requires { IsFilter filter }
    ensures value { Reads result bytes.new (place_step filter bytes.old) }
    ensures range { IfSome result IsFilter }
{
    bytes.past(b" ")?;
    let place = read_place(bytes)?;
    Some(put(filter, place))
}

// So many more places.
#[tactic(auto, using(crate::proofs::Steps::places_steps))]
fn read_more_places(most: u32, first: SectionFilter, bytes: &mut Bytes<'_>) -> Option<SectionFilter>
    requires { IsFilter first }
    ensures value { Reads result bytes.new (more_places most first bytes.old) }
    ensures range { IfSome result IsFilter }
{
    let mut filter = first;
    let mut left = most;
    'places: while left > 0 {
        if !bytes.begins_place() {
            return Some(filter);
        }
        filter = read_next_place(filter, bytes)?;
        left -= 1;
    }
    Some(filter)
}

/// The places of a section filter.
#[tactic(auto, unfolding(crate::specs::Inside::Parts::filter_in), using(crate::proofs::Steps::zeros_filter))]
pub fn read_filter(bytes: &mut Bytes<'_>) -> Option<SectionFilter>
    ensures value { Reads result bytes.new (filter_in bytes.old) }
    ensures range { IfSome result IsFilter }
{
    read_more_places(16, SectionFilter::empty(), bytes)
}
