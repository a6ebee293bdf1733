// Whether two replies are the same.
ghost use Rattle.std.specs.Prelude.{◌≡◌, ◌≢◌, true, false};
ghost use Rattle.dmx_calls.specs.Calls.{response_of};

use dmx_calls::{LogReply, LogTap, Reply, Tap};

// Whether two taps are the same.
fn is_same_tap(this: &Tap, other: &LogTap) -> bool
    ensures same { result ≡ true → this.now ≡ other.now }
    ensures differs { result ≡ false → this.now ≢ other.now }
{
    match this {
        Tap::Keep => matches!(other, Tap::Keep),
        Tap::Attach(pids) => matches!(other, Tap::Attach(p) if pids.widened() == p.set()),
        Tap::Detach => matches!(other, Tap::Detach),
    }
}

/// Whether a reply is the told one. Data replies are compared by their bytes.
pub fn is_same_reply(this: &Reply, other: &LogReply) -> bool
    ensures same { result ≡ true → response_of this.now ≡ response_of other.now }
    ensures differs { result ≡ false → response_of this.now ≢ response_of other.now }
{
    match this {
        Reply::Done { dropped, tap } => {
            matches!(other, Reply::Done { dropped: d, tap: t } if dropped == d && is_same_tap(tap, t))
        }
        Reply::Busy { owner } => matches!(other, Reply::Busy { owner: o } if owner == o),
        Reply::Refused(errno) => matches!(other, Reply::Refused(e) if errno == e),
        Reply::NoMemory => matches!(other, Reply::NoMemory),
        Reply::Data(buf) => matches!(other, Reply::Data(b) if buf.bytes() == b.bytes()),
        Reply::Again { ended } => matches!(other, Reply::Again { ended: e } if ended == e),
        Reply::Overflow {
            from,
            to,
            item,
            need,
            room,
        } => {
            matches!(other, Reply::Overflow { from: f, to: t, item: i, need: n, room: r }
                if from == f && to == t && item == i && need == n && room == r)
        }
        Reply::TimedOut {
            started,
            now,
            timeout,
        } => {
            matches!(other, Reply::TimedOut { started: s, now: n, timeout: t }
                if started == s && now == n && timeout == t)
        }
        Reply::Ready {
            readable,
            error,
            at,
            ended,
        } => {
            matches!(other, Reply::Ready { readable: r, error: e, at: a, ended: d }
                if readable == r && error == e && at == a && ended == d)
        }
        Reply::Passed => matches!(other, Reply::Passed),
    }
}
