// The options behind the first word, read by clap.
ghost use Rattle.std.specs.Prelude.{◌≡◌, ◌≤◌, IfOk, IfSome, map, string_bytes, codes, option_map};
ghost use Rattle.std.specs.Str.{bytes_eq};
ghost use Rattle.std.specs.List.{list_any};
ghost use Rattle.command_words.specs.Meant.{batch_of, batch_size as batch_by_text, options_by, options_of, packet_of, packet_size as packet_by_text, read_by};
ghost use Rattle.command_words.specs.Inside.Reader.{answer, reader};
ghost use Rattle.clap.specs.Words.{app_of};

use clap::error::ErrorKind;
use clap::{Arg, ArgAction, Command};
use std::alloc::{AllocError as NoMemory, Global};
use text_forms::number_between;
use ts_packet::PacketSize;

/// What the options ask for, where they are given.
#[derive(Clone, Copy, Drop)]
pub struct Options {
    /// How many packets a batch has, 1 to 64.
    pub batch: Option<u32>,
    /// How many bytes a packet takes up in the stream.
    pub packet: Option<PacketSize>,
}

impl Options {
    /// How many packets a batch has: 64 where that isn't given.
    pub fn batch(&self) -> u32
        ensures { result ≡ batch_of self.now }
    {
        self.batch.unwrap_or(64)
    }

    /// What a packet takes up: 188 bytes where that isn't given.
    pub fn packet(&self) -> PacketSize
        ensures { result ≡ packet_of self.now }
    {
        self.packet.unwrap_or(PacketSize::Of188)
    }
}

// What clap reads: two options, without help, and no program's name before them.
fn option_reader<'a>(alloc: Global) -> Result<Command<'a>, NoMemory>
    ensures { IfOk result (λ command. app_of command ≡ reader) }
{
    let batch = Arg::new(alloc, "batch")
        .long("batch")
        .action(ArgAction::Set);
    let packet = Arg::new(alloc, "packet")
        .long("packet")
        .action(ArgAction::Set);
    Command::new(alloc, "dvbemu")
        .no_binary_name(true)
        .disable_help_flag(true)
        .arg(batch)?
        .arg(packet)
}

// Whether the word `--`, behind which clap takes no word for an option, stands among these words.
fn has_end_of_options(words: &[String]) -> bool
    ensures { result ≡ list_any (λ word. bytes_eq (string_bytes word) (codes "--")) words.now }
{
    words.iter().any(|word| word.as_str() == "--")
}

// How many packets a batch has by the text of its option; None where the text is no number from 1 to 64.
fn batch_by(text: Option<&str>) -> Option<Option<u32>>
    ensures value { result ≡ read_by batch_by_text (option_map (λ text. text.now) text.entry) }
    ensures range { IfSome result (λ batch. IfSome batch (λ b. (1 ≤ b) × (b ≤ 64))) }
{
    match text {
        Some(word) => match number_between(1, 64, word.as_bytes()) {
            Some(batch) => Some(Some(batch as u32)),
            None => None,
        },
        None => Some(None),
    }
}

// The number of bytes that a text names.
#[tactic(auto, unfolding(crate::specs::Meant::packet_size))]
fn packet_size(text: &str) -> Option<PacketSize>
    ensures { result ≡ packet_by_text text.now }
{
    match text {
        "188" => Some(PacketSize::Of188),
        "204" => Some(PacketSize::Of204),
        _ => None,
    }
}

// What a packet takes up by the text of its option; None where the text is neither 188 nor 204.
fn packet_by(text: Option<&str>) -> Option<Option<PacketSize>>
    ensures { result ≡ read_by packet_by_text (option_map (λ text. text.now) text.entry) }
{
    match text {
        Some(word) => match packet_size(word) {
            Some(packet) => Some(Some(packet)),
            None => None,
        },
        None => Some(None),
    }
}

// What the texts of the options ask for.
#[tactic(auto, unfolding(crate::specs::Meant::options_by))]
fn options_by_texts(batch: Option<&str>, packet: Option<&str>) -> Option<Options>
    ensures value { result ≡ options_by
        (record { batch = option_map (λ text. text.now) batch.entry; packet = option_map (λ text. text.now) packet.entry }) }
    ensures range { IfSome result (λ options. IfSome options.batch (λ b. (1 ≤ b) × (b ≤ 64))) }
{
    let batch = batch_by(batch)?;
    let packet = packet_by(packet)?;
    Some(Options { batch, packet })
}

// What clap's answer to the words behind the first comes to: None where it finds a fault. Err where memory is refused.
fn ask(alloc: Global, rest: &[String]) -> Result<Option<Options>, NoMemory>
    ensures value { IfOk result (λ options. options ≡ answer (map string_bytes rest.now)) }
    ensures range { IfOk result (λ options. IfSome options (λ o. IfSome o.batch (λ b. (1 ≤ b) × (b ≤ 64)))) }
{
    let reader = option_reader(alloc)?;
    match reader.try_get_matches_from(rest) {
        Ok(matches) => Ok(options_by_texts(matches.get_str("batch"), matches.get_str("packet"))),
        Err(error) => {
            if error.kind() == ErrorKind::OutOfMemory {
                return Err(NoMemory);
            }
            Ok(None)
        }
    }
}

/// What the words behind the first ask for; None where they are refused. Err where memory is refused.
pub fn options_in(alloc: Global, rest: &[String]) -> Result<Option<Options>, NoMemory>
    ensures value { IfOk result (λ options. options ≡ options_of (map string_bytes rest.now)) }
    ensures range { IfOk result (λ options. IfSome options (λ o. IfSome o.batch (λ b. (1 ≤ b) × (b ≤ 64)))) }
{
    if has_end_of_options(rest) {
        return Ok(None);
    }
    ask(alloc, rest)
}
