// Laws of the definitions.
ghost use Rattle.client_core.specs.Repeats.{CallsAreFew};
ghost use Rattle.client_core.specs.Passes.{WritesPass};
ghost use Rattle.client_core.specs.Inside.More.{OneReplyMore};

/// A client makes at most 33 calls a command, beside the reads that it repeats.
#[tactic(auto, using(crate::proofs::FirstCalls::few))]
pub fn calls_are_few()
    ensures { CallsAreFew }
{}

/// One reply more adds at most one repeat of a read, and none after Again unless the client then waits.
pub fn one_reply_repeats_once()
    ensures { OneReplyMore }
{}

/// Once a client's commands are through, the batches that it has passed on each demux node are, in order and each once, those of
/// its writes whose poll was Ready and which complete a packet.
#[tactic(auto, using(crate::proofs::Passing::writes_pass))]
pub fn writes_pass_their_batches()
    ensures { WritesPass }
{}
