// What a line asks for, word by word.
ghost use Rattle.std.specs.Prelude.{◌≡◌, ◌≤◌, IfOk};
ghost use Rattle.client_script.specs.Imports.{LARGEST_READ as MOST_READ, input_named as input_of_word, output_named as output_of_word};
ghost use Rattle.client_script.specs.Words.{Reads, next_as};
ghost use Rattle.client_script.specs.Grammar.{number_in, pid_in, count_in, target_of, name_of, section_in, pes_in, verb_in, command_in, dvr_named, write_in, asked_in, line_in, IsWantInRange, IsVerbInRange, IsTargetInRange, IsInRange, IsSaidInRange};
ghost use Rattle.client_script.specs.declared.fault.FaultKind.TheVariants.{Name as NoName, Target as NoTarget, Command as NoCommand};
ghost use Rattle.client_script.specs.declared.wanted.NumberName.TheVariants.{N as CountName};
ghost use Rattle.client_script.specs.declared.wanted.WantedWord.TheVariants.{Input as InputWanted, Output as OutputWanted, Target as TargetWanted, Dvr as DvrWanted};

use crate::fault::FaultKind;
use crate::line::{Line, Target, Verb, Want};
use crate::names::{CommandName, command_named, target_named};
use crate::places::read_filter;
use crate::requests::read_ioctl;
use crate::said::{Said, written_named};
use crate::wanted::{NumberName, WantedWord, WordFault};
use crate::words::Words;
use dmx_calls::limits::LARGEST_READ;
use dmx_calls::{Input, Output, PesParams, SectionParams};
use text_forms::{client_named, input_named, is_word, number_between, output_named};

// A number of this name from `least` to `most`.
#[tactic(auto, unfolding(crate::specs::Grammar::number_in))]
fn read_number(
    name: NumberName,
    least: u32,
    most: u32,
    words: &mut Words<'_>,
) -> Result<u32, WordFault>
    ensures value { Reads result words.new (number_in name least most words.old) }
    ensures bound { IfOk result (λ n. (least ≤ n) × (n ≤ most)) }
{
    let wanted = WantedWord::Number { name, least, most };
    let word = words.word(wanted)?;
    let n = number_between(least as u64, most as u64, word).ok_or(wanted.fault(FaultKind::Number))?;
    Ok(n as u32)
}

// A PID.
fn read_pid(words: &mut Words<'_>) -> Result<u16, WordFault>
    ensures value { Reads result words.new (pid_in words.old) }
    ensures bound { IfOk result (λ pid. pid ≤ 65535) }
{
    let pid = read_number(NumberName::Pid, 0, u16::MAX as u32, words)?;
    Ok(pid as u16)
}

// A number of this name, of 32 bits.
fn read_count(name: NumberName, words: &mut Words<'_>) -> Result<u32, WordFault>
    ensures value { Reads result words.new (count_in name words.old) }
    ensures bound { IfOk result (λ n. n ≤ 4294967295) }
{
    read_number(name, 0, u32::MAX, words)
}

// How many bytes a read asks for.
fn read_length(words: &mut Words<'_>) -> Result<u32, WordFault>
    ensures value { Reads result words.new (number_in CountName 0 MOST_READ words.old) }
    ensures bound { IfOk result (λ n. n ≤ MOST_READ) }
{
    read_number(NumberName::N, 0, LARGEST_READ, words)
}

// Where a filter's packets come from.
fn read_input(words: &mut Words<'_>) -> Result<Input, WordFault>
    ensures { Reads result words.new (next_as NoName InputWanted input_of_word words.old) }
{
    let word = words.word(WantedWord::Input)?;
    input_named(word).ok_or(WantedWord::Input.fault(FaultKind::Name))
}

// Where a filter's items go.
fn read_output(words: &mut Words<'_>) -> Result<Output, WordFault>
    ensures { Reads result words.new (next_as NoName OutputWanted output_of_word words.old) }
{
    let word = words.word(WantedWord::Output)?;
    output_named(word).ok_or(WantedWord::Output.fault(FaultKind::Name))
}

// The target of a command.
fn read_target(words: &mut Words<'_>) -> Result<Target, WordFault>
    ensures value { Reads result words.new (next_as NoTarget TargetWanted target_of words.old) }
    ensures range { IfOk result IsTargetInRange }
{
    let word = words.word(WantedWord::Target)?;
    target_named(word).ok_or(WantedWord::Target.fault(FaultKind::Target))
}

// The call that sets a section filter.
#[tactic(auto, unfolding(crate::specs::Grammar::section_in))]
fn read_section(words: &mut Words<'_>) -> Result<Want, WordFault>
    ensures value { Reads result words.new (section_in words.old) }
    ensures range { IfOk result IsWantInRange }
{
    let pid = read_pid(words)?;
    let timeout = read_count(NumberName::Timeout, words)?;
    let flags = read_count(NumberName::Flags, words)?;
    let filter = read_filter(words)?;
    Ok(Want::Section(SectionParams {
        pid,
        filter,
        timeout,
        flags,
    }))
}

// The call that sets a PES filter.
#[tactic(auto, unfolding(crate::specs::Grammar::pes_in))]
fn read_pes(words: &mut Words<'_>) -> Result<Want, WordFault>
    ensures value { Reads result words.new (pes_in words.old) }
    ensures range { IfOk result IsWantInRange }
{
    let pid = read_pid(words)?;
    let input = read_input(words)?;
    let output = read_output(words)?;
    let pes_type = read_count(NumberName::PesType, words)?;
    let flags = read_count(NumberName::Flags, words)?;
    Ok(Want::Pes(PesParams {
        pid,
        input,
        output,
        pes_type,
        flags,
    }))
}

// What a command of this name asks for.
#[tactic(auto, unfolding(crate::specs::Grammar::verb_in))]
fn read_verb(name: CommandName, words: &mut Words<'_>) -> Result<Verb, WordFault>
    ensures value { Reads result words.new (verb_in name words.old) }
    ensures range { IfOk result IsVerbInRange }
{
    match name {
        CommandName::Open => Ok(Verb::Once(Want::Open)),
        CommandName::Close => Ok(Verb::Once(Want::Close)),
        CommandName::Section => Ok(Verb::Once(read_section(words)?)),
        CommandName::Pes => Ok(Verb::Once(read_pes(words)?)),
        CommandName::Add => Ok(Verb::Once(Want::Add(read_pid(words)?))),
        CommandName::Remove => Ok(Verb::Once(Want::Remove(read_pid(words)?))),
        CommandName::Start => Ok(Verb::Once(Want::Start)),
        CommandName::Stop => Ok(Verb::Once(Want::Stop)),
        CommandName::Size => Ok(Verb::Once(Want::Size(read_count(NumberName::N, words)?))),
        CommandName::Read => Ok(Verb::Once(Want::Read(read_length(words)?))),
        CommandName::ReadWait => Ok(Verb::ReadWait(read_length(words)?)),
        CommandName::Drain => Ok(Verb::Drain(read_length(words)?)),
        CommandName::Poll => Ok(Verb::Once(Want::Poll)),
        CommandName::Ioctl => read_ioctl(words),
    }
}

// The target of a write.
#[tactic(auto, unfolding(crate::specs::Grammar::dvr_named))]
fn read_dvr(words: &mut Words<'_>) -> Result<Target, WordFault>
    ensures { Reads result words.new (next_as NoTarget DvrWanted dvr_named words.old) }
{
    let word = words.word(WantedWord::Dvr)?;
    if is_word(word, "dvr") {
        Ok(Target::Dvr)
    } else {
        Err(WantedWord::Dvr.fault(FaultKind::Target))
    }
}

// What a client writes.
#[tactic(auto, unfolding(crate::specs::Grammar::write_in))]
fn read_write<'a>(line: u32, client: u32, words: &mut Words<'a>) -> Result<Said<'a>, WordFault>
    requires number { (1 ≤ line) × (line ≤ 1048576) }
    requires client { client ≤ 7 }
    ensures value { Reads result words.new (write_in line client words.old) }
    ensures range { IfOk result IsSaidInRange }
{
    read_dvr(words)?;
    let word = words.word(WantedWord::Written)?;
    let bytes = written_named(word).ok_or(WantedWord::Written.fault(FaultKind::Bytes))?;
    Ok(Said::Writes {
        line,
        client,
        bytes,
    })
}

// A client's command of this name.
#[tactic(auto, unfolding(crate::specs::Grammar::command_in))]
fn read_command(
    line: u32,
    client: u32,
    name: Option<CommandName>,
    words: &mut Words<'_>,
) -> Result<Line, WordFault>
    requires number { (1 ≤ line) × (line ≤ 1048576) }
    requires client { client ≤ 7 }
    ensures value { Reads result words.new (command_in line client name words.old) }
    ensures range { IfOk result IsInRange }
{
    let name = name.ok_or(WantedWord::Command.fault(FaultKind::Command))?;
    let target = read_target(words)?;
    let verb = read_verb(name, words)?;
    Ok(Line::Command {
        line,
        client,
        target,
        verb,
    })
}

// What stands behind the client.
#[tactic(auto, unfolding(crate::specs::Grammar::asked_in))]
fn read_asked<'a>(line: u32, client: u32, words: &mut Words<'a>) -> Result<Said<'a>, WordFault>
    requires number { (1 ≤ line) × (line ≤ 1048576) }
    requires client { client ≤ 7 }
    ensures value { Reads result words.new (asked_in line client words.old) }
    ensures range { IfOk result IsSaidInRange }
{
    let word = words.word(WantedWord::Command)?;
    if is_word(word, "write") {
        return read_write(line, client, words);
    }
    let asked = read_command(line, client, command_named(word), words)?;
    Ok(Said::Asks(asked))
}

/// What the words at the front say.
#[tactic(auto, unfolding(crate::specs::Grammar::line_in))]
pub fn read_words<'a>(line: u32, words: &mut Words<'a>) -> Result<Said<'a>, WordFault>
    requires { (1 ≤ line) × (line ≤ 1048576) }
    ensures value { Reads result words.new (line_in line words.old) }
    ensures range { IfOk result IsSaidInRange }
{
    let first = words.word(WantedWord::First)?;
    if is_word(first, "feed") {
        return Ok(Said::Asks(Line::Feed(read_number(NumberName::N, 1, u32::MAX, words)?)));
    }
    if is_word(first, "tick") {
        return Ok(Said::Asks(Line::Tick(read_count(NumberName::N, words)?)));
    }
    let client = client_named(first).ok_or(WantedWord::First.fault(FaultKind::Client))?;
    read_asked(line, client, words)
}
