// What every node answers: that a call was done, and answers that hand back the batch that the call brought.

ghost use Rattle.std.specs.Prelude.{◌≡◌, Option, Some, None, MatchResult};
ghost use Rattle.dmx_calls.specs.Back.{GivesBack};

use dmx_calls::{Answer, Call, Errno, Reply, Span, Tap};
use std::alloc::AllocError as NoMemory;

/// Of a call that drops nothing.
pub const NOTHING: Span = Span { from: 0, to: 0 };

/// The call was done, and what the dvr node is to be told.
pub fn done(dropped: Span, tap: Tap) -> Reply
    ensures { result ≡ Reply.Done dropped tap }
{
    Reply::Done { dropped, tap }
}

/// What is answered to open() of a free node: what was made for the owner is kept, or there was no memory for it and nothing
/// changes.
pub fn opened<T: Drop>(kept: &mut Option<T>, made: Result<T, NoMemory>) -> Reply
    ensures { MatchResult made (λ t. (kept.new ≡ Some t) × (result ≡ Reply.Done NOTHING Tap.Keep))
        (λ e. (kept.new ≡ kept.old) × (result ≡ Reply.NoMemory)) }
{
    match made {
        Ok(made) => {
            *kept = Some(made);
            done(NOTHING, Tap::Keep)
        }
        Err(_) => Reply::NoMemory,
    }
}

/// The answer to a call that brought no batch.
pub fn plain(reply: Reply) -> Answer
    ensures { result ≡ record { reply = reply; batch = None } }
{
    Answer { reply, batch: None }
}

/// The call is refused: the batch that it brought is handed back.
pub fn refused(errno: Errno, call: Call) -> Answer
    ensures reply { result.reply ≡ Reply.Refused errno }
    ensures back { GivesBack call result }
{
    let reply = Reply::Refused(errno);
    match call {
        Call::Pass { batch, .. } => Answer {
            reply,
            batch: Some(batch),
        },
        _ => plain(reply),
    }
}
