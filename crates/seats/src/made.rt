// Calls that were made, until there is memory to keep them in a log.
ghost use Rattle.std.specs.Prelude.{◌≡◌, ◌++◌, List, map, OnOk, IfOk};
ghost use Rattle.dmx_calls.specs.Calls.{response_of, told_entry};
ghost use Rattle.dmx_calls.specs.declared.log.Entry.{Entry as ToldEntry};
ghost use Rattle.seats.specs.Seated.{told_made};

use dmx_calls::{Act, Entry, KeptAct, Reply, SharedReply, Tap};
use std::alloc::{AllocError as NoMemory, Global};

/// A call of a seat with its reply. It takes no memory but a read's bytes, and so more of the seat than an entry of its log.
#[derive(Drop)]
pub struct Made {
    /// The node.
    pub node: u32,
    /// Its place in the node's history.
    pub place: u64,
    /// Its number among the seat's calls, counted from 0.
    pub step: u64,
    /// The call.
    pub act: Act,
    /// Its reply.
    pub reply: Reply,
}

// The reply once more, with no more room than its bytes take.
fn copied(alloc: Global, reply: &Reply) -> Result<Reply, NoMemory>
    ensures { IfOk result (λ copy. response_of copy ≡ response_of reply.now) }
{
    Ok(match reply {
        Reply::Done { dropped, tap } => Reply::Done {
            dropped: *dropped,
            tap: match tap {
                Tap::Keep => Tap::Keep,
                Tap::Attach(pids) => Tap::Attach(pids.copied()),
                Tap::Detach => Tap::Detach,
            },
        },
        Reply::Busy { owner } => Reply::Busy { owner: *owner },
        Reply::Refused(errno) => Reply::Refused(*errno),
        Reply::NoMemory => Reply::NoMemory,
        Reply::Data(buf) => Reply::Data(buf.fitted(alloc)?),
        Reply::Again { ended } => Reply::Again { ended: *ended },
        Reply::Overflow {
            from,
            to,
            item,
            need,
            room,
        } => Reply::Overflow {
            from: *from,
            to: *to,
            item: *item,
            need: *need,
            room: *room,
        },
        Reply::TimedOut {
            started,
            now,
            timeout,
        } => Reply::TimedOut {
            started: *started,
            now: *now,
            timeout: *timeout,
        },
        Reply::Ready {
            readable,
            error,
            at,
            ended,
        } => Reply::Ready {
            readable: *readable,
            error: *error,
            at: *at,
            ended: *ended,
        },
        Reply::Passed => Reply::Passed,
    })
}

// The entry of a call that this caller has made, behind this one.
fn entry_of(alloc: Global, who: u32, last: Option<&Entry>, made: &Made) -> Result<Entry, NoMemory>
    ensures { IfOk result (λ entry. told_entry entry ≡ told_made who made.now) }
{
    let act = KeptAct::keep(alloc, made.act.clone()?)?;
    let copy = copied(alloc, &made.reply)?;
    let reply = SharedReply::of(alloc, last, copy)?;
    Ok(Entry {
        place: made.place,
        step: made.step,
        node: made.node,
        who,
        act,
        reply,
    })
}

/// Puts the entries of these calls, which this caller has made, behind those of the log; some of them, where memory is refused.
/// Where the log has none this entry stands before them, if there is one.
pub fn keep_all(
    alloc: Global,
    who: u32,
    last: Option<&Entry>,
    calls: &[Made],
    log: &mut Vec<Entry>,
) -> Result<(), NoMemory>
    ensures { (rest : List ToldEntry) × (log.new.items ≡ log.old.items ++ rest)
        × OnOk result (map told_entry rest ≡ map (told_made who) calls.now) }
{
    'calls: for made in calls {
        let entry = entry_of(alloc, who, log.last().or(last), made)?;
        log.push(entry)?;
    }
    Ok(())
}
