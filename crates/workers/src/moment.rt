// The moments of calls.
ghost use Rattle.workers.specs.Imports.{Batches, IsGiven, act_of, call_of};

use client_core::ClientRequest;
use client_script::Want;
use emu_io::Clock;

/// The moment at which a call is made. The clock is read where the call carries one, anew each time.
#[tactic(auto, using(crate::proofs::Playing::pass_is_given))]
pub fn moment_of<C: Clock>(clock: &C, request: &ClientRequest) -> u64
    ensures { (batches : Batches) → IsGiven (C.may_give clock.now) (act_of (call_of batches request.now result)) }
{
    let want = match request {
        ClientRequest::Own(want) => want,
        ClientRequest::Pass { .. } => return clock.now(),
        _ => return 0,
    };
    match want {
        Want::Section(_) | Want::Pes(_) | Want::Start | Want::Read(_) | Want::Poll => clock.now(),
        _ => 0,
    }
}
