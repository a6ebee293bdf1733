// Requests of programs as commands, and the words that spell them.
ghost use Rattle.std.specs.Prelude.{◌≡◌, ◌≤◌, Some, None, IfOk, IfSome, MatchOption};
ghost use Rattle.client_script.specs.Imports.{IsFilter, IsSixteenBytes, argument_len as argument_len_of};
ghost use Rattle.client_script.specs.Words.{Reads};
ghost use Rattle.client_script.specs.Grammar.{IsWantInRange, IsVerbInRange};
ghost use Rattle.client_script.specs.Requests.{input_of as input_by, output_of as output_by, pes_of as pes_by, want_of as want_by, verb_of as verb_by, request_number as number_of_word, argument_named as argument_of_word, request_number_in, request_in, ioctl_in};

use crate::fault::FaultKind;
use crate::line::{Verb, Want};
use crate::wanted::{WantedWord, WordFault};
use crate::words::Words;
use arrayvec::ArrayVec;
use byteorder::{BigEndian, ByteOrder};
use dmx_abi::{Request, argument_len, decode};
use dmx_calls::{Input, Output, PesParams, SectionParams};
use filter_match::SectionFilter;
use text_forms::{hex_bytes, is_word};

// How many digits a request's number has.
const NUMBER_DIGITS: usize = 8;

/// The argument of a request: at most 60 bytes.
pub type Argument = ArrayVec<u8, 60>;

// Where packets come from, by its number in `enum dmx_input`.
fn input_of(number: u32) -> Option<Input>
    ensures { result ≡ input_by number }
{
    match number {
        0 => Some(Input::Frontend),
        1 => Some(Input::Dvr),
        _ => None,
    }
}

// Where items go, by its number in `enum dmx_output`.
fn output_of(number: u32) -> Option<Output>
    ensures { result ≡ output_by number }
{
    match number {
        0 => Some(Output::Decoder),
        1 => Some(Output::Tap),
        2 => Some(Output::TsTap),
        3 => Some(Output::TsdemuxTap),
        _ => None,
    }
}

// A PES filter, where its input and its output are any.
fn pes_of(pid: u16, input: u32, output: u32, pes_type: u32, flags: u32) -> Option<Want>
    ensures value { result ≡ pes_by pid (input_by input) (output_by output) pes_type flags }
    ensures range { IfSome result IsWantInRange }
{
    let input = input_of(input)?;
    let output = output_of(output)?;
    Some(Want::Pes(PesParams {
        pid,
        input,
        output,
        pes_type,
        flags,
    }))
}

// Looks at each byte: the range of a number is known where it is read.
fn look(bytes: &[u8; 16])
    ensures { IsSixteenBytes bytes.now }
{
    'bytes: for byte in bytes {
        let _byte = *byte;
    }
}

// A filter by its bytes.
fn filter_of(filter: [u8; 16], mask: [u8; 16], mode: [u8; 16]) -> SectionFilter
    ensures value { result ≡ record { filter = filter; mask = mask; mode = mode } }
    ensures range { IsFilter result }
{
    look(&filter);
    look(&mask);
    look(&mode);
    SectionFilter { filter, mask, mode }
}

/// The call that a request asks of a node; None where its input or its output is none, and for a system time counter, which no
/// node has.
pub fn want_of(request: Request) -> Option<Want>
    ensures value { result ≡ want_by request }
    ensures range { IfSome result IsWantInRange }
{
    match request {
        Request::SetFilter {
            pid,
            filter,
            mask,
            mode,
            timeout,
            flags,
        } => Some(Want::Section(SectionParams {
            pid,
            filter: filter_of(filter, mask, mode),
            timeout,
            flags,
        })),
        Request::SetPes {
            pid,
            input,
            output,
            pes_type,
            flags,
        } => pes_of(pid, input, output, pes_type, flags),
        Request::SetSize(size) => Some(Want::Size(size)),
        Request::Start => Some(Want::Start),
        Request::Stop => Some(Want::Stop),
        Request::AddPid(pid) => Some(Want::Add(pid)),
        Request::RemovePid(pid) => Some(Want::Remove(pid)),
        Request::GetStc { .. } => None,
    }
}

/// What a command asks by a request; None where its input or its output is none.
pub fn verb_of(request: Request) -> Option<Verb>
    ensures value { result ≡ verb_by request }
    ensures range { IfSome result IsVerbInRange }
{
    match request {
        Request::GetStc { num } => Some(Verb::GetStc(num)),
        _ => {
            let want = want_of(request)?;
            Some(Verb::Once(want))
        }
    }
}

/// The number that a word spells in eight hexadecimal digits in lower case, the highest first.
#[tactic(auto, unfolding(crate::specs::Requests::request_number))]
pub fn request_number(word: &[u8]) -> Option<u32>
    ensures { result ≡ number_of_word word.now }
{
    if word.len() != NUMBER_DIGITS {
        return None;
    }
    let bytes = hex_bytes::<4>(word)?;
    Some(BigEndian::read_u32(&bytes))
}

/// The bytes of an argument that a word spells: `-` for none, or 1 to 60 in two hexadecimal digits each, in lower case.
#[tactic(auto, unfolding(crate::specs::Requests::argument_named))]
pub fn argument_named(word: &[u8]) -> Option<Argument>
    ensures { MatchOption result (argument_of_word word.now ≡ None) (λ bytes. argument_of_word word.now ≡ Some bytes.items) }
{
    if word.is_empty() {
        return None;
    }
    if is_word(word, "-") {
        return Some(Argument::new());
    }
    hex_bytes(word)
}

// The number of a request.
#[tactic(auto, unfolding(crate::specs::Requests::request_number_in))]
fn read_number(words: &mut Words<'_>) -> Result<u32, WordFault>
    ensures { Reads result words.new (request_number_in words.old) }
{
    let wanted = WantedWord::Request;
    let word = words.word(wanted)?;
    let number = request_number(word).ok_or(wanted.fault(FaultKind::Number))?;
    if argument_len(number).is_none() {
        return Err(wanted.fault(FaultKind::Name));
    }
    Ok(number)
}

// The request of this number with the argument in the next word.
#[tactic(auto, unfolding(crate::specs::Requests::request_in))]
fn read_request(number: u32, words: &mut Words<'_>) -> Result<Request, WordFault>
    ensures { Reads result words.new (request_in number words.old) }
{
    let wanted = WantedWord::Argument(number);
    let word = words.word(wanted)?;
    let argument = argument_named(word).ok_or(wanted.fault(FaultKind::Bytes))?;
    decode(number, &argument)
        .ok()
        .ok_or(wanted.fault(FaultKind::Bytes))
}

/// What the words of a request ask for.
#[tactic(auto, unfolding(crate::specs::Requests::ioctl_in))]
pub fn read_ioctl(words: &mut Words<'_>) -> Result<Verb, WordFault>
    ensures value { Reads result words.new (ioctl_in words.old) }
    ensures range { IfOk result IsVerbInRange }
{
    let number = read_number(words)?;
    let request = read_request(number, words)?;
    verb_of(request).ok_or(WantedWord::Argument(number).fault(FaultKind::Name))
}
