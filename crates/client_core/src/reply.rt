// Replies, before they are kept.
ghost use Rattle.std.specs.Prelude.{◌≡◌, ◌≢◌, IfOk};
ghost use Rattle.dmx_calls.specs.Calls.{response_of};
ghost use Rattle.dmx_calls.specs.Response as response;

use dmx_calls::Reply;
use std::alloc::AllocError as NoMemory;

/// The reply, if it isn't want of memory; that one ends a run.
pub fn unless_no_memory(reply: Reply) -> Result<Reply, NoMemory>
    ensures same { IfOk result (λ kept. kept ≡ reply) }
    ensures some { IfOk result (λ kept. response_of kept ≢ response.NoMemory) }
{
    match reply {
        Reply::NoMemory => Err(NoMemory),
        other => Ok(other),
    }
}
