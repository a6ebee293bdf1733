// The second line, for each kind of fault.
use crate::requests::{add_argument, add_request_name};
use crate::shown::{add_characters, add_eight_digits, add_number, add_word};
use client_script::{FaultyWord, MOST_BYTES, NumberName, ScriptFault, WantedWord};
use std::alloc::{AllocError as NoMemory, Global};
use text_forms::{is_word, place_named};

// The bytes of a packet, and the byte that it begins with (ISO/IEC 13818-1, 2.4.3.2).
const PACKET: usize = 188;

const SYNC: u8 = 0x47;

// Whether an input begins with a packet: with its first byte, and with that of the packet behind it if there is one.
fn begins_with_packet(bytes: &[u8]) -> bool {
    bytes.len() >= PACKET && bytes[0] == SYNC && (bytes.len() == PACKET || bytes[PACKET] == SYNC)
}

// What stands behind each command in its line.
static FORMS: [(&str, &str); 15] = [
    ("open", "T"),
    ("close", "T"),
    (
        "section",
        "T PID TIMEOUT FLAGS, and up to 16 words I=FF/MM/DD",
    ),
    ("pes", "T PID INPUT OUTPUT TYPE FLAGS"),
    ("add", "T PID"),
    ("remove", "T PID"),
    ("start", "T"),
    ("stop", "T"),
    ("size", "T N"),
    ("read", "T N"),
    ("readw", "T N"),
    ("drain", "T N"),
    ("poll", "T"),
    ("ioctl", "T REQ ARG"),
    ("write", "dvr HEX"),
];

// What a number is called in these forms.
fn name_of(name: NumberName) -> &'static str {
    match name {
        NumberName::Pid => "PID",
        NumberName::Timeout => "TIMEOUT",
        NumberName::Flags => "FLAGS",
        NumberName::PesType => "TYPE",
        NumberName::N => "N",
    }
}

// What a place asks for; of a number its name.
fn asked(wanted: WantedWord) -> &'static str {
    match wanted {
        WantedWord::First => "feed, tick, a client c0 to c7, or the line stream",
        WantedWord::Command => {
            "a command: open, close, section, pes, add, remove, start, stop, size, read, readw, drain, poll, ioctl or write"
        }
        WantedWord::Target => "a target: n0 to n31, h0 to h31, or dvr",
        WantedWord::Dvr => "dvr, to which a client writes",
        WantedWord::Written => "HEX: 1 to 12,032 bytes, two hexadecimal digits each, in lower case",
        WantedWord::Number { name, .. } => name_of(name),
        WantedWord::Input => "INPUT: frontend or dvr",
        WantedWord::Output => "OUTPUT: decoder, tap, ts_tap or tsdemux_tap",
        WantedWord::Byte(_) => "I=FF/MM/DD, two hexadecimal digits each, places rising",
        WantedWord::Request =>
            "REQ: the number of a request in eight hexadecimal digits, in lower case",
        WantedWord::Argument(_) => "ARG",
        WantedWord::End => "the end of the line",
    }
}

// The value of a hexadecimal digit.
fn digit_value(digit: u8) -> Option<u8> {
    match digit {
        b'0'..=b'9' => Some(digit - b'0'),
        b'a'..=b'f' => Some(digit - b'a' + 10),
        b'A'..=b'F' => Some(digit - b'A' + 10),
        _ => None,
    }
}

// The value of a word that spells a number of 64 bits in hexadecimal digits behind `0x`.
fn hexadecimal(word: &[u8]) -> Option<u64> {
    let [b'0', b'x' | b'X', first, digits @ ..] = word else {
        return None;
    };
    let mut n = digit_value(*first)? as u64;
    'digits: for digit in digits {
        let value = digit_value(*digit)?;
        n = n.checked_mul(16)?.checked_add(value as u64)?;
    }
    Some(n)
}

// Appends the range of a number, and the value of a word that spells one in hexadecimal digits.
fn add_range(text: &mut String, least: u32, most: u32, word: &[u8]) -> Result<(), NoMemory> {
    text.push_str(", ")?;
    add_number(text, least as u64)?;
    text.push_str(" to ")?;
    add_number(text, most as u64)?;
    text.push_str(" in decimal digits without leading zeros")?;
    let Some(n) = hexadecimal(word) else {
        return Ok(());
    };
    text.push_str(" (decimal: ")?;
    add_characters(text, word)?;
    text.push_str(" is ")?;
    add_number(text, n)?;
    text.push(')')
}

// Appends what is said of the place of a filter: what it may be where only its number is too low, else how it is spelled.
fn add_spelling(text: &mut String, least: u32, word: &[u8]) -> Result<(), NoMemory> {
    if place_named(0, word).is_none() {
        return text.push_str(" (I from 0 to 15, digits in lower case)");
    }
    text.push_str(": this one at least ")?;
    add_number(text, least as u64)
}

// Appends what is said of a word in the place of a request's number: the request's name, and its digits where they stand behind
// `0x`.
fn add_request(text: &mut String, word: &[u8]) -> Result<(), NoMemory> {
    add_request_name(text, word)?;
    let Some(n) = hexadecimal(word) else {
        return Ok(());
    };
    let Ok(number) = u32::try_from(n) else {
        return Ok(());
    };
    text.push_str(" (")?;
    add_characters(text, word)?;
    text.push_str(" is ")?;
    add_eight_digits(text, number)?;
    text.push(')')
}

// Appends what a place asks for, and what is said of the word that stands there, if one does.
fn add_asked(text: &mut String, wanted: WantedWord, word: Option<&[u8]>) -> Result<(), NoMemory> {
    text.push_str("; expected ")?;
    text.push_str(asked(wanted))?;
    let shown = word.unwrap_or(&[]);
    match wanted {
        WantedWord::Number { least, most, .. } => add_range(text, least, most, shown),
        WantedWord::Byte(least) => add_spelling(text, least, shown),
        WantedWord::Request => add_request(text, shown),
        WantedWord::Argument(request) => add_argument(text, request, word),
        _ => Ok(()),
    }
}

// Appends the form of a command's line, where its second word is a command.
fn add_form(text: &mut String, line: &[u8]) -> Result<(), NoMemory> {
    let command = word_of(line, 2).unwrap_or(&[]);
    let Some((_, behind)) = FORMS.iter().find(|form| is_word(command, form.0)) else {
        return Ok(());
    };
    text.push_str("; the line is cK ")?;
    add_characters(text, command)?;
    text.push(' ')?;
    text.push_str(behind)
}

// Appends what is said of a word whose end or whose place in the line isn't seen in it.
fn add_remark(text: &mut String, word: &[u8]) -> Result<(), NoMemory> {
    match word {
        [] => text.push_str(" (one space parts two words, and none stands at an end of a line)"),
        [.., b'\r'] => text.push_str(" (a line ends with the byte 0x0a alone)"),
        _ => Ok(()),
    }
}

// Appends where a word is missing in a line, or what stands in its place, and what was expected.
fn add_found(text: &mut String, line: &[u8], faulty: FaultyWord) -> Result<(), NoMemory> {
    let FaultyWord { number, wanted } = faulty;
    let Some(word) = word_of(line, number) else {
        text.push_str("the line ends in front of word ")?;
        add_number(text, number as u64)?;
        add_asked(text, wanted, None)?;
        return add_form(text, line);
    };
    text.push_str("word ")?;
    add_number(text, number as u64)?;
    text.push_str(" is ")?;
    add_word(text, word)?;
    add_asked(text, wanted, Some(word))?;
    if wanted == WantedWord::End {
        add_form(text, line)?;
    }
    add_remark(text, word)
}

// The piece of this number, from 1 on, between the bytes that part them, and what stands behind it; None where there are fewer.
fn piece_of(mark: u8, bytes: &[u8], number: usize) -> Option<(&[u8], Option<&[u8]>)> {
    let mut rest = bytes;
    'pieces: for _piece in 1..number {
        let (_, behind) = cut_at(mark, rest);
        rest = behind?;
    }
    Some(cut_at(mark, rest))
}

// The bytes in front of the first `mark`, and those behind it; None where there is no `mark`.
fn cut_at(mark: u8, bytes: &[u8]) -> (&[u8], Option<&[u8]>) {
    match bytes.iter().position(|byte| *byte == mark) {
        Some(place) => (&bytes[..place], Some(&bytes[place + 1..])),
        None => (bytes, None),
    }
}

// The word of this number, from 1 on; None where a line has fewer.
fn word_of(line: &[u8], number: usize) -> Option<&[u8]> {
    let (word, _) = piece_of(b' ', line, number)?;
    Some(word)
}

// The line of this number, from 1 on, without its line feed; None where there are fewer whole lines.
fn line_of(bytes: &[u8], number: u32) -> Option<&[u8]> {
    match piece_of(b'\n', bytes, number as usize)? {
        (line, Some(_)) => Some(line),
        (_, None) => None,
    }
}

// The bytes behind the last line feed.
fn last_piece(bytes: &[u8]) -> &[u8] {
    match bytes.iter().rposition(|byte| *byte == b'\n') {
        Some(place) => &bytes[place + 1..],
        None => bytes,
    }
}

// What is said where no line is `stream`.
fn no_stream(script: &[u8]) -> &'static str {
    if script.is_empty() {
        "the input is empty; expected a script, its line stream, and the packets behind that"
    } else if is_word(last_piece(script), "stream") {
        "the last line is 'stream' without its line feed, the byte 0x0a"
    } else if script.len() >= MOST_BYTES {
        "no line in the first 1048576 bytes is 'stream'; expected that line at the end of the script, and the packets behind it"
    } else {
        "no line is 'stream'; expected that line at the end of the script, and the packets behind it"
    }
}

/// The text of the line behind that of a script's fault, without a line feed: what stands there and what was expected. The bytes
/// are those that were searched for the script, or more. None where they don't hold that line, so that there is nothing to say.
pub fn hint(alloc: Global, script: &[u8], fault: ScriptFault) -> Result<Option<String>, NoMemory> {
    let mut text = String::from_str(alloc, "  ")?;
    if begins_with_packet(script) {
        text.push_str("the input begins with a packet: is there a script in front? ")?;
        text.push_str("cat SCRIPT STREAM | dvbemu steps")?;
        return Ok(Some(text));
    }
    let Some(faulty) = fault.word else {
        text.push_str(no_stream(script))?;
        return Ok(Some(text));
    };
    let Some(line) = line_of(script, fault.line) else {
        return Ok(None);
    };
    add_found(&mut text, line, faulty)?;
    Ok(Some(text))
}
