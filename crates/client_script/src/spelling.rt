// The one spelling of a line.
ghost use Rattle.std.specs.Prelude.{◌≡◌, ◌++◌, length, OnOk, OnErr, IfOk};
ghost use Rattle.client_script.specs.Spelling.{target_text, number_text, section_text, pes_text, want_arguments_text, request_text, bytes_text, arguments_text, command_text, line_text, spelling as spelling_of};
ghost use Rattle.client_script.specs.Script.{writes_of, written_by, HasVerb, HasWrite};

use crate::line::{Line, Target, Verb, Want};
use crate::script::Script;
use dmx_abi::{Request, encode};
use dmx_calls::{PesParams, SectionParams};
use std::alloc::{AllocError as NoMemory, Global};
use text_forms::{
    write_client, write_decimal, write_demux, write_filter, write_hex, write_input, write_output,
    write_slot,
};

#[tactic(auto, unfolding(crate::specs::Spelling::target_text))]
fn add_target(text: &mut Vec<u8>, target: Target) -> Result<(), NoMemory>
    ensures { OnOk result (text.new.items ≡ text.old.items ++ target_text target) }
{
    match target {
        Target::Node(n) => write_demux(text, n),
        Target::Slot(n) => write_slot(text, n),
        Target::Dvr => text.extend_from_slice(b"dvr"),
    }
}

// A space and a number.
fn add_number(text: &mut Vec<u8>, n: u64) -> Result<(), NoMemory>
    ensures { OnOk result (text.new.items ≡ text.old.items ++ number_text n) }
{
    text.push(b' ')?;
    write_decimal(text, n)
}

#[tactic(auto, unfolding(crate::specs::Spelling::section_text))]
fn add_section(text: &mut Vec<u8>, params: &SectionParams) -> Result<(), NoMemory>
    ensures { OnOk result (text.new.items ≡ text.old.items ++ section_text params.now) }
{
    add_number(text, params.pid as u64)?;
    add_number(text, params.timeout as u64)?;
    add_number(text, params.flags as u64)?;
    write_filter(text, &params.filter)
}

#[tactic(auto, unfolding(crate::specs::Spelling::pes_text))]
fn add_pes(text: &mut Vec<u8>, params: &PesParams) -> Result<(), NoMemory>
    ensures { OnOk result (text.new.items ≡ text.old.items ++ pes_text params.now) }
{
    add_number(text, params.pid as u64)?;
    text.push(b' ')?;
    write_input(text, params.input)?;
    text.push(b' ')?;
    write_output(text, params.output)?;
    add_number(text, params.pes_type as u64)?;
    add_number(text, params.flags as u64)
}

// What a call wants behind the target of its command.
#[tactic(auto, unfolding(crate::specs::Spelling::want_arguments_text))]
fn add_want_arguments(text: &mut Vec<u8>, want: &Want) -> Result<(), NoMemory>
    ensures { OnOk result (text.new.items ≡ text.old.items ++ want_arguments_text want.now) }
{
    match want {
        Want::Section(params) => add_section(text, params),
        Want::Pes(params) => add_pes(text, params),
        Want::Add(pid) => add_number(text, *pid as u64),
        Want::Remove(pid) => add_number(text, *pid as u64),
        Want::Size(n) => add_number(text, *n as u64),
        Want::Read(n) => add_number(text, *n as u64),
        Want::Open | Want::Close | Want::Start | Want::Stop | Want::Poll => Ok(()),
    }
}

// The number of a request and its argument, each behind a space.
#[tactic(auto, unfolding(crate::specs::Spelling::request_text))]
fn add_request(text: &mut Vec<u8>, request: &Request) -> Result<(), NoMemory>
    ensures { OnOk result (text.new.items ≡ text.old.items ++ request_text request.now) }
{
    let mut argument = [0; 60];
    let (number, len) = encode(request, &mut argument);
    text.push(b' ')?;
    write_hex(text, &number.to_be_bytes())?;
    text.push(b' ')?;
    write_hex(text, &argument[..len as usize])
}

// A space and the digits of bytes.
#[tactic(auto, unfolding(crate::specs::Spelling::bytes_text))]
fn add_bytes(text: &mut Vec<u8>, bytes: &[u8]) -> Result<(), NoMemory>
    ensures { OnOk result (text.new.items ≡ text.old.items ++ bytes_text bytes.now) }
{
    text.push(b' ')?;
    write_hex(text, bytes)
}

// What a command of a client wants behind its target.
#[tactic(auto, unfolding(crate::specs::Spelling::arguments_text))]
fn add_arguments(
    text: &mut Vec<u8>,
    script: &Script,
    client: u32,
    verb: &Verb,
) -> Result<(), NoMemory>
    requires { HasVerb (length (writes_of client script.now.writes)) verb.now }
    ensures { OnOk result (text.new.items ≡ text.old.items ++ arguments_text (written_by client script.now.writes) verb.now) }
{
    match verb {
        Verb::Write(write) => add_bytes(text, script.written(client, *write)),
        Verb::Once(want) => add_want_arguments(text, want),
        Verb::ReadWait(n) => add_number(text, *n as u64),
        Verb::Drain(n) => add_number(text, *n as u64),
        Verb::GetStc(num) => add_request(text, &Request::GetStc { num: *num }),
    }
}

#[tactic(auto, unfolding(crate::specs::Spelling::command_text))]
fn add_command(
    text: &mut Vec<u8>,
    script: &Script,
    client: u32,
    target: Target,
    verb: &Verb,
) -> Result<(), NoMemory>
    requires { HasVerb (length (writes_of client script.now.writes)) verb.now }
    ensures { OnOk result (text.new.items
        ≡ text.old.items ++ command_text (written_by client script.now.writes) client target verb.now) }
{
    write_client(text, client)?;
    text.push(b' ')?;
    text.extend_from_slice(verb.name().as_bytes())?;
    text.push(b' ')?;
    add_target(text, target)?;
    add_arguments(text, script, client, verb)
}

#[tactic(auto, unfolding(crate::specs::Spelling::line_text))]
fn add_line(text: &mut Vec<u8>, script: &Script, line: &Line) -> Result<(), NoMemory>
    requires { HasWrite script.now.writes line.now }
    ensures { OnOk result (text.new.items ≡ text.old.items ++ line_text script.now.writes line.now) }
{
    match line {
        Line::Feed(n) => {
            text.extend_from_slice(b"feed")?;
            add_number(text, *n as u64)
        }
        Line::Tick(n) => {
            text.extend_from_slice(b"tick")?;
            add_number(text, *n as u64)
        }
        Line::Command {
            client,
            target,
            verb,
            ..
        } => add_command(text, script, *client, *target, verb),
    }
}

// The one spelling of a line, with its line feed.
fn spelling(alloc: Global, line: &Line, script: &Script) -> Result<Vec<u8>, NoMemory>
    requires { HasWrite script.now.writes line.now }
    ensures { IfOk result (λ text. text.items ≡ spelling_of script.now.writes line.now) }
{
    let mut text = Vec::new(alloc);
    add_line(&mut text, script, line)?;
    text.push(b'\n')?;
    Ok(text)
}

/// Appends the one spelling of a line of this script, with its line feed: of a write with the bytes that the script has for it.
///
/// # Errors
///
/// `NoMemory`; `out` is then as it was.
pub fn print(alloc: Global, line: &Line, script: &Script, out: &mut Vec<u8>) -> Result<(), NoMemory>
    requires { HasWrite script.now.writes line.now }
    ensures appended { OnOk result (out.new.items ≡ out.old.items ++ spelling_of script.now.writes line.now) }
    ensures unchanged { OnErr result (out.new.items ≡ out.old.items) }
{
    let text = spelling(alloc, line, script)?;
    out.extend_from_slice(text.as_slice())
}
