// The text of a call.
ghost use Rattle.std.specs.Prelude.{◌++◌, codes, ◌+◌, ◌<◌, length};
ghost use Rattle.report_text.specs.Imports.{Appended, decimal, input_text, output_text};
ghost use Rattle.report_text.specs.Acts.{act_text, pass_text, pes_text, pids_text, section_text};

use dmx_calls::{Act, Input, KeptAct, Output, PesParams, SectionParams};
use pid_set::Pids;
use std::alloc::AllocError as NoMemory;
use text_forms::{write_decimal, write_filter, write_input, write_output};

/// A name and a number.
pub fn add_field(out: &mut Vec<u8>, name: &[u8], n: u64) -> Result<(), NoMemory>
    ensures { Appended (length name.now + 20) (name.now ++ decimal n) out.old out.new result }
{
    out.extend_from_slice(name)?;
    write_decimal(out, n)
}

// A name and the word of an input.
fn add_input(out: &mut Vec<u8>, name: &[u8], input: Input) -> Result<(), NoMemory>
    ensures { Appended (length name.now + 20) (name.now ++ input_text input) out.old out.new result }
{
    out.extend_from_slice(name)?;
    write_input(out, input)
}

// A name and the word of an output.
fn add_output(out: &mut Vec<u8>, name: &[u8], output: Output) -> Result<(), NoMemory>
    ensures { Appended (length name.now + 20) (name.now ++ output_text output) out.old out.new result }
{
    out.extend_from_slice(name)?;
    write_output(out, output)
}

// The PIDs of a set with commas between them, or `-` where there are none.
#[tactic(auto, unfolding(crate::specs::Acts::pids_text))]
fn add_set(out: &mut Vec<u8>, pids: &Pids) -> Result<(), NoMemory>
    ensures { Appended 2720 (pids_text pids.now) out.old out.new result }
{
    let Some(first) = pids.get(0) else {
        return out.extend_from_slice(b"-");
    };
    write_decimal(out, first as u64)?;
    'pids: for place in 1..pids.len() {
        if let Some(pid) = pids.get(place) {
            add_field(out, b",", pid as u64)?;
        }
    }
    Ok(())
}

/// A name and the PIDs of a set.
pub fn add_pids(out: &mut Vec<u8>, name: &[u8], pids: &Pids) -> Result<(), NoMemory>
    ensures { Appended (length name.now + 2720) (name.now ++ pids_text pids.now) out.old out.new result }
{
    out.extend_from_slice(name)?;
    add_set(out, pids)
}

// A section filter that is set at this moment.
fn add_section(out: &mut Vec<u8>, params: &SectionParams, now: u64) -> Result<(), NoMemory>
    ensures { Appended 400 (section_text params.now now) out.old out.new result }
{
    add_field(out, b"section pid=", params.pid as u64)?;
    add_field(out, b" timeout=", params.timeout as u64)?;
    add_field(out, b" flags=", params.flags as u64)?;
    add_field(out, b" at=", now)?;
    write_filter(out, &params.filter)
}

// A PES filter that is set at this moment.
fn add_pes(out: &mut Vec<u8>, params: &PesParams, now: u64) -> Result<(), NoMemory>
    ensures { Appended 200 (pes_text params.now now) out.old out.new result }
{
    add_field(out, b"pes pid=", params.pid as u64)?;
    add_input(out, b" input=", params.input)?;
    add_output(out, b" output=", params.output)?;
    add_field(out, b" type=", params.pes_type as u64)?;
    add_field(out, b" flags=", params.flags as u64)?;
    add_field(out, b" at=", now)
}

/// So many packets of the stream, or of what a client writes, from this one on that pass at this moment.
pub fn add_pass(
    out: &mut Vec<u8>,
    input: Input,
    first: u64,
    count: u32,
    now: u64,
) -> Result<(), NoMemory>
    ensures { Appended 120 (pass_text input first count now) out.old out.new result }
{
    add_input(out, b"pass input=", input)?;
    add_field(out, b" first=", first)?;
    add_field(out, b" count=", count as u64)?;
    add_field(out, b" at=", now)
}

// A read of so many bytes at this moment.
fn add_read(out: &mut Vec<u8>, count: u32, now: u64) -> Result<(), NoMemory>
    ensures { Appended 60 (codes "read " ++ (decimal count ++ (codes " at=" ++ decimal now))) out.old out.new result }
{
    add_field(out, b"read ", count as u64)?;
    add_field(out, b" at=", now)
}

// A tap of this demux node for these PIDs.
fn add_attach(out: &mut Vec<u8>, node: u32, pids: &Pids) -> Result<(), NoMemory>
    ensures { Appended 2780 (codes "attach node=" ++ (decimal node ++ (codes " pids=" ++ pids_text pids.now)))
        out.old out.new result }
{
    add_field(out, b"attach node=", node as u64)?;
    add_pids(out, b" pids=", pids)
}

/// A call.
#[tactic(auto, unfolding(crate::specs::Acts::act_text))]
pub fn add_act(out: &mut Vec<u8>, act: &KeptAct) -> Result<(), NoMemory>
    ensures { Appended 2780 (act_text act.now) out.old out.new result }
{
    match act.act() {
        Act::Open => out.extend_from_slice(b"open"),
        Act::Close => out.extend_from_slice(b"close"),
        Act::SetFilter { params, now } => add_section(out, &params, now),
        Act::SetPes { params, now } => add_pes(out, &params, now),
        Act::AddPid(pid) => add_field(out, b"add ", pid as u64),
        Act::RemovePid(pid) => add_field(out, b"remove ", pid as u64),
        Act::Start { now } => add_field(out, b"start at=", now),
        Act::Stop => out.extend_from_slice(b"stop"),
        Act::SetSize(size) => add_field(out, b"size ", size as u64),
        Act::Read { now, room } => add_read(out, room, now),
        Act::Poll { now } => add_field(out, b"poll at=", now),
        Act::Pass { input, batch, now } => add_pass(out, input, batch.first, batch.count, now),
        Act::End => out.extend_from_slice(b"end"),
        Act::Attach { node, pids } => add_attach(out, node, &pids),
        Act::Detach { node } => add_field(out, b"detach node=", node as u64),
    }
}
