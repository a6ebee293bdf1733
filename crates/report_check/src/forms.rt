// The forms of an entry, for a line that is none. Nothing is claimed of them.
use report_read::read_line;
use std::alloc::{AllocError as NoMemory, Global};

// What stands between a call and its reply.
const BETWEEN: &[u8] = b" = ";

// A call and a reply of which each may stand with any other.
const SOME_ACT: &[u8] = b"stop";

const SOME_REPLY: &[u8] = b" = passed\n";

// The part before the first of these bytes, and the part behind it; the whole and nothing where they don't stand there.
fn cut_at<'a>(text: &'a [u8], mark: &[u8]) -> (&'a [u8], &'a [u8]) {
    'places: for place in 0..text.len() {
        let (before, rest) = text.split_at(place);
        if let Some(behind) = rest.strip_prefix(mark) {
            return (before, behind);
        }
    }
    (text, &[])
}

// The first word.
fn first_word(text: &[u8]) -> &[u8] {
    cut_at(text, b" ").0
}

// The part behind so many words.
fn behind_words(text: &[u8], words: usize) -> &[u8] {
    let mut rest = text;
    'words: for _ in 0..words {
        rest = cut_at(rest, b" ").1;
    }
    rest
}

// The form of an act that begins with this word. P is a PID, N a number, and T a moment.
fn act_form(word: &[u8]) -> &'static [u8] {
    match word {
        b"open" => b"open",
        b"close" => b"close",
        b"section" =>
            b"section pid=P timeout=N flags=N at=T I=FF/MM/DD .., with ascending I up to 15 and none of 00/00/00",
        b"pes" =>
            b"pes pid=P input=frontend or dvr output=decoder, tap, ts_tap or tsdemux_tap type=N flags=N at=T",
        b"add" => b"add P, with P up to 65535",
        b"remove" => b"remove P, with P up to 65535",
        b"start" => b"start at=T, with T up to 18446744073709551615",
        b"stop" => b"stop",
        b"size" => b"size N, with N up to 4294967295",
        b"read" => b"read N at=T, with N up to 4294967295 and T up to 18446744073709551615",
        b"poll" => b"poll at=T, with T up to 18446744073709551615",
        b"pass" => b"pass input=frontend or dvr first=N count=N at=T",
        b"end" => b"end",
        b"attach" => b"attach node=N pids=P,P,.., with at most 128 ascending P",
        b"detach" => b"detach node=N",
        _ =>
            b"an act: open, close, section, pes, add, remove, start, stop, size, read, poll, pass, end, attach or detach",
    }
}

// The form of a reply that begins with this word.
fn reply_form(word: &[u8]) -> &'static [u8] {
    match word {
        b"done" =>
            b"done drop=A..B tap=keep, detach or attach:P,P,.., with A at most B and ascending P",
        b"busy" => b"busy owner=feed or a client",
        b"data" => b"data and two lower-case hexadecimal digits a byte, or data -",
        b"again" => b"again ended=0 or 1",
        b"overflow" => b"overflow A..B item=N need=N room=N, with A at most B",
        b"timedout" => b"timedout started=T now=T timeout=N",
        b"ready" => b"ready readable=0 or 1 error=none, overflow or timedout at=N ended=0 or 1",
        _ =>
            b"a reply: done, busy, EBADF, EBUSY, EINVAL, ENOSPC, ENOMEM, data, again, overflow, timedout, ready or passed",
    }
}

// Whether these, one behind another, are the line of an entry at this place.
fn is_entry(alloc: Global, place: u64, parts: &[&[u8]]) -> Result<bool, NoMemory> {
    let mut line = Vec::new(alloc);
    'parts: for part in parts {
        line.extend_from_slice(part)?;
    }
    match read_line(alloc, 0, &line)? {
        Some(entry) => Ok(entry.place == place),
        None => Ok(false),
    }
}

/// Puts the form of the first part of this line that is no part of an entry at this place behind these bytes: of its reply, or of
/// its act. Nothing, and false, where the line is another one.
pub fn adds_part(
    alloc: Global,
    out: &mut Vec<u8>,
    place: u64,
    line: &[u8],
) -> Result<bool, NoMemory> {
    let (call, reply) = cut_at(line, BETWEEN);
    if call.len() == line.len() {
        return Ok(false);
    }
    if is_entry(alloc, place, &[call, SOME_REPLY])? {
        out.extend_from_slice(reply_form(first_word(reply)))?;
        return Ok(true);
    }
    let act = behind_words(call, 3);
    let caller = &call[..call.len().saturating_sub(act.len())];
    if is_entry(alloc, place, &[caller, SOME_ACT, SOME_REPLY])? {
        out.extend_from_slice(act_form(first_word(act)))?;
        return Ok(true);
    }
    Ok(false)
}
