// The text of a reply.
ghost use Rattle.std.specs.Prelude.{◌≡◌, ◌++◌, codes, ◌+◌, ◌*◌, ◌<◌, ◌≤◌, length};
ghost use Rattle.report_text.specs.Imports.{Appended, decimal, pending_text, response_of, who_text};
ghost use Rattle.report_text.specs.Replies.{data_text, flag_text, response_text, tap_text};

use crate::acts::{add_field, add_pids};
use dmx_calls::{LogTap, PollError, Reply, SharedReply, Span, Tap};
use std::alloc::AllocError as NoMemory;
use text_forms::{write_hex, write_who};

#[tactic(auto, unfolding(crate::specs::Replies::flag_text))]
fn flag_name(flag: bool) -> &'static str
    ensures value { result.now ≡ flag_text flag }
    ensures short { length result.now ≤ 1 }
{
    if flag { "1" } else { "0" }
}

/// A name and a word.
pub fn add_word(out: &mut Vec<u8>, name: &[u8], word: &str) -> Result<(), NoMemory>
    ensures { Appended (length name.now + length word.now) (name.now ++ word.now) out.old out.new result }
{
    out.extend_from_slice(name)?;
    out.extend_from_slice(word.as_bytes())
}

// A name and a caller.
fn add_who(out: &mut Vec<u8>, name: &[u8], who: u32) -> Result<(), NoMemory>
    ensures { Appended (length name.now + 20) (name.now ++ who_text who) out.old out.new result }
{
    out.extend_from_slice(name)?;
    write_who(out, who)
}

// The bytes of a read in hexadecimal digits, or `-` where there are none.
#[tactic(auto, unfolding(crate::specs::Replies::data_text))]
fn add_data(out: &mut Vec<u8>, bytes: &[u8]) -> Result<(), NoMemory>
    ensures { Appended (2 * length bytes.now + 6) (codes "data " ++ data_text bytes.now) out.old out.new result }
{
    out.extend_from_slice(b"data ")?;
    match bytes {
        [] => out.extend_from_slice(b"-"),
        _ => write_hex(out, bytes),
    }
}

#[tactic(auto, unfolding(crate::specs::Replies::tap_text))]
fn add_tap(out: &mut Vec<u8>, tap: &LogTap) -> Result<(), NoMemory>
    ensures { Appended 2730 (tap_text tap.now) out.old out.new result }
{
    match tap {
        Tap::Keep => out.extend_from_slice(b"keep"),
        Tap::Attach(pids) => add_pids(out, b"attach:", &pids.set()),
        Tap::Detach => out.extend_from_slice(b"detach"),
    }
}

fn add_done(out: &mut Vec<u8>, dropped: &Span, tap: &LogTap) -> Result<(), NoMemory>
    ensures { Appended 2820 (codes "done drop="
        ++ (decimal dropped.now.from ++ (codes ".." ++ (decimal dropped.now.to ++ (codes " tap=" ++ tap_text tap.now)))))
        out.old out.new result }
{
    add_field(out, b"done drop=", dropped.from)?;
    add_field(out, b"..", dropped.to)?;
    out.extend_from_slice(b" tap=")?;
    add_tap(out, tap)
}

// The bytes that were lost, and the first item that didn't fit.
fn add_overflow(
    out: &mut Vec<u8>,
    lost: Span,
    item: u64,
    need: u64,
    room: u64,
) -> Result<(), NoMemory>
    ensures { Appended 140 (codes "overflow "
        ++ (decimal lost.from ++ (codes ".." ++ (decimal lost.to ++ (codes " item=" ++ (decimal item
        ++ (codes " need=" ++ (decimal need ++ (codes " room=" ++ decimal room))))))))) out.old out.new result }
{
    add_field(out, b"overflow ", lost.from)?;
    add_field(out, b"..", lost.to)?;
    add_field(out, b" item=", item)?;
    add_field(out, b" need=", need)?;
    add_field(out, b" room=", room)
}

fn add_timed_out(out: &mut Vec<u8>, started: u64, now: u64, timeout: u32) -> Result<(), NoMemory>
    ensures { Appended 100 (codes "timedout started="
        ++ (decimal started ++ (codes " now=" ++ (decimal now ++ (codes " timeout=" ++ decimal timeout)))))
        out.old out.new result }
{
    add_field(out, b"timedout started=", started)?;
    add_field(out, b" now=", now)?;
    add_field(out, b" timeout=", timeout as u64)
}

#[tactic(auto, using(crate::proofs::Texts::short_pending))]
fn add_ready(
    out: &mut Vec<u8>,
    readable: bool,
    error: PollError,
    at: u64,
    ended: bool,
) -> Result<(), NoMemory>
    ensures { Appended 100 (codes "ready readable=" ++ (flag_text readable ++ (codes " error=" ++ (pending_text error
        ++ (codes " at=" ++ (decimal at ++ (codes " ended=" ++ flag_text ended))))))) out.old out.new result }
{
    add_word(out, b"ready readable=", flag_name(readable))?;
    add_word(out, b" error=", error.name())?;
    add_field(out, b" at=", at)?;
    add_word(out, b" ended=", flag_name(ended))
}

/// A reply.
#[tactic(auto, using(crate::proofs::Texts::short_errno), unfolding(crate::specs::Replies::response_text))]
pub fn add_reply(out: &mut Vec<u8>, reply: &SharedReply) -> Result<(), NoMemory>
    ensures { Appended 131100 (response_text (response_of reply.now)) out.old out.new result }
{
    match reply.told() {
        Reply::Done { dropped, tap } => add_done(out, dropped, tap),
        Reply::Busy { owner } => add_who(out, b"busy owner=", *owner),
        Reply::Refused(errno) => out.extend_from_slice(errno.name().as_bytes()),
        Reply::NoMemory => out.extend_from_slice(b"ENOMEM"),
        Reply::Data(buf) => {
            let _ = buf.count();
            add_data(out, buf.bytes())
        }
        Reply::Again { ended } => add_word(out, b"again ended=", flag_name(*ended)),
        Reply::Overflow {
            from,
            to,
            item,
            need,
            room,
        } => {
            let lost = Span {
                from: *from,
                to: *to,
            };
            add_overflow(out, lost, *item, *need, *room)
        }
        Reply::TimedOut {
            started,
            now,
            timeout,
        } => add_timed_out(out, *started, *now, *timeout),
        Reply::Ready {
            readable,
            error,
            at,
            ended,
        } => add_ready(out, *readable, *error, *at, *ended),
        Reply::Passed => out.extend_from_slice(b"passed"),
    }
}
