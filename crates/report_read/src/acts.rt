// Calls.
ghost use Rattle.std.specs.Prelude.{◌≡◌, IfSome};
ghost use Rattle.report_read.specs.Inside.Reading.{Reads};
ghost use Rattle.report_read.specs.Inside.Parts.{section_in, pes_in, pass_in, read_in, attach_in, other_act_in, plain_act_in, act_in};
ghost use Rattle.report_read.specs.Ranges.{IsActInRange};

use crate::bytes::Bytes;
use crate::parts::{read_input, read_output};
use crate::sets::{read_filter, read_pids};
use dmx_calls::{Act, BatchRange, PesParams, SectionParams};

#[tactic(auto, unfolding(crate::specs::Inside::Parts::section_in))]
fn read_section(bytes: &mut Bytes<'_>) -> Option<Act>
    ensures value { Reads result bytes.new (section_in bytes.old) }
    ensures range { IfSome result IsActInRange }
{
    let pid = bytes.number16()?;
    let timeout = bytes.named32(b" timeout=")?;
    let flags = bytes.named32(b" flags=")?;
    let now = bytes.named64(b" at=")?;
    let filter = read_filter(bytes)?;
    Some(Act::SetFilter {
        params: SectionParams {
            pid,
            filter,
            timeout,
            flags,
        },
        now,
    })
}

#[tactic(auto, unfolding(crate::specs::Inside::Parts::pes_in))]
fn read_pes(bytes: &mut Bytes<'_>) -> Option<Act>
    ensures value { Reads result bytes.new (pes_in bytes.old) }
    ensures range { IfSome result IsActInRange }
{
    let pid = bytes.number16()?;
    bytes.past(b" input=")?;
    let input = read_input(bytes)?;
    bytes.past(b" output=")?;
    let output = read_output(bytes)?;
    let pes_type = bytes.named32(b" type=")?;
    let flags = bytes.named32(b" flags=")?;
    let now = bytes.named64(b" at=")?;
    Some(Act::SetPes {
        params: PesParams {
            pid,
            input,
            output,
            pes_type,
            flags,
        },
        now,
    })
}

#[tactic(auto, unfolding(crate::specs::Inside::Parts::pass_in))]
fn read_pass(bytes: &mut Bytes<'_>) -> Option<Act>
    ensures value { Reads result bytes.new (pass_in bytes.old) }
    ensures range { IfSome result IsActInRange }
{
    let input = read_input(bytes)?;
    let first = bytes.named64(b" first=")?;
    let count = bytes.named32(b" count=")?;
    let now = bytes.named64(b" at=")?;
    Some(Act::Pass {
        input,
        batch: BatchRange { first, count },
        now,
    })
}

#[tactic(auto, unfolding(crate::specs::Inside::Parts::read_in))]
fn read_read(bytes: &mut Bytes<'_>) -> Option<Act>
    ensures value { Reads result bytes.new (read_in bytes.old) }
    ensures range { IfSome result IsActInRange }
{
    let room = bytes.number32()?;
    let now = bytes.named64(b" at=")?;
    Some(Act::Read { now, room })
}

#[tactic(auto, unfolding(crate::specs::Inside::Parts::attach_in))]
fn read_attach(bytes: &mut Bytes<'_>) -> Option<Act>
    ensures value { Reads result bytes.new (attach_in bytes.old) }
    ensures range { IfSome result IsActInRange }
{
    let node = bytes.number32()?;
    bytes.past(b" pids=")?;
    let pids = read_pids(bytes)?;
    Some(Act::Attach { node, pids })
}

// A call that isn't one of the first.
#[tactic(auto, unfolding(crate::specs::Inside::Parts::other_act_in))]
fn read_other_act(bytes: &mut Bytes<'_>) -> Option<Act>
    ensures value { Reads result bytes.new (other_act_in bytes.old) }
    ensures range { IfSome result IsActInRange }
{
    if bytes.passes(b"size ") {
        return Some(Act::SetSize(bytes.number32()?));
    }
    if bytes.passes(b"read ") {
        return read_read(bytes);
    }
    if bytes.passes(b"poll at=") {
        let now = bytes.number64()?;
        return Some(Act::Poll { now });
    }
    if bytes.passes(b"pass input=") {
        return read_pass(bytes);
    }
    if bytes.passes(b"end") {
        return Some(Act::End);
    }
    if bytes.passes(b"attach node=") {
        return read_attach(bytes);
    }
    let node = bytes.named32(b"detach node=")?;
    Some(Act::Detach { node })
}

#[tactic(auto, unfolding(crate::specs::Inside::Parts::plain_act_in))]
fn read_plain_act(bytes: &mut Bytes<'_>) -> Option<Act>
    ensures value { Reads result bytes.new (plain_act_in bytes.old) }
    ensures range { IfSome result IsActInRange }
{
    if bytes.passes(b"add ") {
        return Some(Act::AddPid(bytes.number16()?));
    }
    if bytes.passes(b"remove ") {
        return Some(Act::RemovePid(bytes.number16()?));
    }
    if bytes.passes(b"start at=") {
        let now = bytes.number64()?;
        return Some(Act::Start { now });
    }
    if bytes.passes(b"stop") {
        return Some(Act::Stop);
    }
    read_other_act(bytes)
}

/// A call.
#[tactic(auto, unfolding(crate::specs::Inside::Parts::act_in))]
pub fn read_act(bytes: &mut Bytes<'_>) -> Option<Act>
    ensures value { Reads result bytes.new (act_in bytes.old) }
    ensures range { IfSome result IsActInRange }
{
    if bytes.passes(b"open") {
        return Some(Act::Open);
    }
    if bytes.passes(b"close") {
        return Some(Act::Close);
    }
    if bytes.passes(b"section pid=") {
        return read_section(bytes);
    }
    if bytes.passes(b"pes pid=") {
        return read_pes(bytes);
    }
    read_plain_act(bytes)
}
