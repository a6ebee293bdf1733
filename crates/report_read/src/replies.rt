// Replies.
ghost use Rattle.std.specs.Prelude.{◌≡◌, ◌+◌, ◌*◌, ◌≤◌, ◌++◌, length, true, false, Some, None, IfOk, IfSome, ◌<◌};
ghost use Rattle.report_read.specs.Imports.{All, Busy, option_map, response_of};
ghost use Rattle.report_read.specs.Ranges.{IsTapInRange, IsResponseInRange};
ghost use Rattle.report_read.specs.Inside.Reading.{Reads, made, bytes_in};
ghost use Rattle.report_read.specs.Inside.Parts.{tap_in, done_in, data_in, overflow_in, timed_out_in, ready_in, other_response_in, refusal_in, response_in, who_in};

use crate::bytes::Bytes;
use crate::decoded::read_bytes;
use crate::parts::{read_flag, read_pending, read_who};
use crate::sets::read_pids;
use dmx_calls::limits::LARGEST_READ;
use dmx_calls::{ByteBuf, Errno, LogReply, LogTap, Reply, Span, Tap};
use pid_set::KeptPids;
use std::alloc::{AllocError as NoMemory, Global};

// What a tap names takes memory.
#[tactic(auto, unfolding(crate::specs::Inside::Parts::tap_in))]
fn read_tap(alloc: Global, bytes: &mut Bytes<'_>) -> Result<Option<LogTap>, NoMemory>
    ensures value { IfOk result (λ tap. Reads tap bytes.new (tap_in bytes.old)) }
    ensures range { IfOk result (λ tap. IfSome tap IsTapInRange) }
{
    if bytes.passes(b"keep") {
        return Ok(Some(Tap::Keep));
    }
    if bytes.passes(b"attach:") {
        let Some(pids) = read_pids(bytes) else {
            return Ok(None);
        };
        return Ok(Some(Tap::Attach(KeptPids::of(alloc, &pids)?)));
    }
    Ok(bytes.past(b"detach").map(|_| Tap::Detach))
}

#[tactic(auto, unfolding(crate::specs::Inside::Parts::done_in))]
fn read_done(alloc: Global, bytes: &mut Bytes<'_>) -> Result<Option<LogReply>, NoMemory>
    ensures value { IfOk result (λ reply. Reads (option_map response_of reply) bytes.new (done_in bytes.old)) }
    ensures range { IfOk result (λ reply. IfSome reply (λ r. IsResponseInRange (response_of r))) }
{
    let Some(from) = bytes.number64() else {
        return Ok(None);
    };
    let Some(to) = bytes.named64(b"..") else {
        return Ok(None);
    };
    let Some(()) = bytes.past(b" tap=") else {
        return Ok(None);
    };
    let Some(tap) = read_tap(alloc, bytes)? else {
        return Ok(None);
    };
    Ok(Some(Reply::Done {
        dropped: Span { from, to },
        tap,
    }))
}

#[tactic(auto, unfolding(crate::specs::Inside::Parts::overflow_in))]
fn read_overflow(bytes: &mut Bytes<'_>) -> Option<LogReply>
    ensures value { Reads (option_map response_of result) bytes.new (overflow_in bytes.old) }
    ensures range { IfSome result (λ r. IsResponseInRange (response_of r)) }
{
    let from = bytes.number64()?;
    let to = bytes.named64(b"..")?;
    let item = bytes.named64(b" item=")?;
    let need = bytes.named64(b" need=")?;
    let room = bytes.named64(b" room=")?;
    Some(Reply::Overflow {
        from,
        to,
        item,
        need,
        room,
    })
}

#[tactic(auto, unfolding(crate::specs::Inside::Parts::timed_out_in))]
fn read_timed_out(bytes: &mut Bytes<'_>) -> Option<LogReply>
    ensures value { Reads (option_map response_of result) bytes.new (timed_out_in bytes.old) }
    ensures range { IfSome result (λ r. IsResponseInRange (response_of r)) }
{
    let started = bytes.number64()?;
    let now = bytes.named64(b" now=")?;
    let timeout = bytes.named32(b" timeout=")?;
    Some(Reply::TimedOut {
        started,
        now,
        timeout,
    })
}

#[tactic(auto, unfolding(crate::specs::Inside::Parts::ready_in))]
fn read_ready(bytes: &mut Bytes<'_>) -> Option<LogReply>
    ensures value { Reads (option_map response_of result) bytes.new (ready_in bytes.old) }
    ensures range { IfSome result (λ r. IsResponseInRange (response_of r)) }
{
    let readable = read_flag(bytes)?;
    bytes.past(b" error=")?;
    let error = read_pending(bytes)?;
    let at = bytes.named64(b" at=")?;
    bytes.past(b" ended=")?;
    let ended = read_flag(bytes)?;
    Some(Reply::Ready {
        readable,
        error,
        at,
        ended,
    })
}

// The buffer of a read that gave these bytes.
fn filled(alloc: Global, bytes: &[u8]) -> Result<ByteBuf, NoMemory>
    requires { length bytes.now ≤ 65536 }
    ensures { IfOk result (λ buf. buf.bytes ≡ bytes.now) }
{
    let mut buf = ByteBuf::new(alloc, bytes.len() as u32)?;
    buf.append(bytes);
    Ok(buf)
}

#[tactic(auto, unfolding(crate::specs::Inside::Parts::data_in))]
fn read_data(alloc: Global, bytes: &mut Bytes<'_>) -> Result<Option<LogReply>, NoMemory>
    ensures value { IfOk result (λ reply. Reads (option_map response_of reply) bytes.new (data_in bytes.old)) }
    ensures range { IfOk result (λ reply. IfSome reply (λ r. IsResponseInRange (response_of r))) }
{
    if bytes.passes(b"-") {
        return Ok(Some(Reply::Data(ByteBuf::new(alloc, 0)?)));
    }
    let read = read_bytes(alloc, bytes)?;
    if read.len() > LARGEST_READ as usize {
        return Ok(None);
    }
    let buf = filled(alloc, &read)?;
    Ok(Some(Reply::Data(buf)))
}

// A reply that takes no memory, but for the first and the refusals.
#[tactic(auto, unfolding(crate::specs::Inside::Parts::other_response_in))]
fn read_other(alloc: Global, bytes: &mut Bytes<'_>) -> Result<Option<LogReply>, NoMemory>
    ensures value { IfOk result (λ reply. Reads (option_map response_of reply) bytes.new (other_response_in bytes.old)) }
    ensures range { IfOk result (λ reply. IfSome reply (λ r. IsResponseInRange (response_of r))) }
{
    if bytes.passes(b"data ") {
        return read_data(alloc, bytes);
    }
    if bytes.passes(b"again ended=") {
        return Ok(read_flag(bytes).map(|ended| Reply::Again { ended }));
    }
    if bytes.passes(b"overflow ") {
        return Ok(read_overflow(bytes));
    }
    if bytes.passes(b"timedout started=") {
        return Ok(read_timed_out(bytes));
    }
    if bytes.passes(b"ready readable=") {
        return Ok(read_ready(bytes));
    }
    if bytes.passes(b"passed") {
        return Ok(Some(Reply::Passed));
    }
    Ok(None)
}

// A refusal, or one of those.
#[tactic(auto, unfolding(crate::specs::Inside::Parts::refusal_in))]
fn read_refusal(alloc: Global, bytes: &mut Bytes<'_>) -> Result<Option<LogReply>, NoMemory>
    ensures value { IfOk result (λ reply. Reads (option_map response_of reply) bytes.new (refusal_in bytes.old)) }
    ensures range { IfOk result (λ reply. IfSome reply (λ r. IsResponseInRange (response_of r))) }
{
    if bytes.passes(b"EBADF") {
        return Ok(Some(Reply::Refused(Errno::Ebadf)));
    }
    if bytes.passes(b"EBUSY") {
        return Ok(Some(Reply::Refused(Errno::Ebusy)));
    }
    if bytes.passes(b"EINVAL") {
        return Ok(Some(Reply::Refused(Errno::Einval)));
    }
    if bytes.passes(b"ENOSPC") {
        return Ok(Some(Reply::Refused(Errno::Enospc)));
    }
    if bytes.passes(b"ENOMEM") {
        return Ok(Some(Reply::NoMemory));
    }
    read_other(alloc, bytes)
}

// Who owns the node.
fn read_busy(bytes: &mut Bytes<'_>) -> Option<LogReply>
    ensures value { Reads (option_map response_of result) bytes.new (made Busy (who_in bytes.old)) }
    ensures range { IfSome result (λ r. IsResponseInRange (response_of r)) }
{
    let owner = read_who(bytes)?;
    Some(Reply::Busy { owner })
}

/// A reply.
#[tactic(auto, unfolding(crate::specs::Inside::Parts::response_in))]
pub fn read_reply(alloc: Global, bytes: &mut Bytes<'_>) -> Result<Option<LogReply>, NoMemory>
    ensures value { IfOk result (λ reply. Reads (option_map response_of reply) bytes.new (response_in bytes.old)) }
    ensures range { IfOk result (λ reply. IfSome reply (λ r. IsResponseInRange (response_of r))) }
{
    if bytes.passes(b"done drop=") {
        return read_done(alloc, bytes);
    }
    if bytes.passes(b"busy owner=") {
        return Ok(read_busy(bytes));
    }
    read_refusal(alloc, bytes)
}
