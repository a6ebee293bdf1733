// What calls and replies are made of.
ghost use Rattle.std.specs.Prelude.{◌≡◌, ◌<◌, ◌≤◌, [], IfSome, length};
ghost use Rattle.report_read.specs.Inside.Reading.{Reads};
ghost use Rattle.report_read.specs.Inside.Parts.{input_in, output_in, flag_in, pending_in, who_in, more_pids, pids_in, place_in, begins_place, more_places, filter_in};
ghost use Rattle.text_forms.specs.Places.{HasBytes};

use crate::bytes::Bytes;
use dmx_calls::{Input, Output, PollError};
use filter_match::{Place, SectionFilter};
use pid_set::Pids;

#[tactic(auto, unfolding(crate::specs::Inside::Parts::input_in))]
pub fn read_input(bytes: &mut Bytes<'_>) -> Option<Input>
    ensures { Reads result bytes.new (input_in bytes.old) }
{
    if bytes.passes(b"frontend") {
        return Some(Input::Frontend);
    }
    bytes.past(b"dvr")?;
    Some(Input::Dvr)
}

#[tactic(auto, unfolding(crate::specs::Inside::Parts::output_in))]
pub fn read_output(bytes: &mut Bytes<'_>) -> Option<Output>
    ensures { Reads result bytes.new (output_in bytes.old) }
{
    if bytes.passes(b"decoder") {
        return Some(Output::Decoder);
    }
    if bytes.passes(b"tap") {
        return Some(Output::Tap);
    }
    if bytes.passes(b"ts_tap") {
        return Some(Output::TsTap);
    }
    bytes.past(b"tsdemux_tap")?;
    Some(Output::TsdemuxTap)
}

#[tactic(auto, unfolding(crate::specs::Inside::Parts::flag_in))]
pub fn read_flag(bytes: &mut Bytes<'_>) -> Option<bool>
    ensures { Reads result bytes.new (flag_in bytes.old) }
{
    if bytes.passes(b"1") {
        return Some(true);
    }
    bytes.past(b"0")?;
    Some(false)
}

#[tactic(auto, unfolding(crate::specs::Inside::Parts::pending_in))]
pub fn read_pending(bytes: &mut Bytes<'_>) -> Option<PollError>
    ensures { Reads result bytes.new (pending_in bytes.old) }
{
    if bytes.passes(b"none") {
        return Some(PollError::Quiet);
    }
    if bytes.passes(b"overflow") {
        return Some(PollError::Overflow);
    }
    bytes.past(b"timedout")?;
    Some(PollError::TimedOut)
}

/// A caller.
#[tactic(auto, unfolding(crate::specs::Inside::Parts::who_in))]
pub fn read_who(bytes: &mut Bytes<'_>) -> Option<u32>
    ensures { Reads result bytes.new (who_in bytes.old) }
{
    if bytes.passes(b"feed") {
        return Some(0);
    }
    bytes.past(b"c")?;
    let client = bytes.number(0, 4_294_967_294)?;
    Some(client as u32 + 1)
}

/// `I=FF/MM/DD`.
#[tactic(auto, unfolding(crate::specs::Inside::Parts::place_in))]
pub fn read_place(bytes: &mut Bytes<'_>) -> Option<Place>
    ensures value { Reads result bytes.new (place_in bytes.old) }
    ensures number { IfSome result (λ place. place.number < 16) }
    ensures bytes { IfSome result HasBytes }
{
    let number = bytes.number(0, 15)?;
    bytes.past(b"=")?;
    let filter = bytes.byte()?;
    bytes.past(b"/")?;
    let mask = bytes.byte()?;
    bytes.past(b"/")?;
    let mode = bytes.byte()?;
    Some(Place {
        number: number as u32,
        filter,
        mask,
        mode,
    })
}
