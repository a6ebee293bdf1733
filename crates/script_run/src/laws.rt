// Laws of the definitions.
ghost use Rattle.script_run.specs.Passing.{WritesPass};
ghost use Rattle.script_run.specs.SoFar.{CallsArePaid, RunsAreAccounted, RunsEnd};

/// Where each line of a client names the next of its writes, a client has made at each moment of a run no more calls than the
/// commands, the bytes of the packets and those of all writes pay for: its own commands where the feeder's entries alone pay for
/// the reads that it repeats, those of all clients where others' entries may.
pub fn calls_are_paid()
    ensures { CallsArePaid }
{}

/// A run so far that is over is a run, of the same batches and of the same calls.
#[tactic(auto, using(crate::proofs::Ending::runs_end))]
pub fn runs_end()
    ensures { RunsEnd }
{}

/// Each history of a run is accounted.
pub fn runs_are_accounted()
    ensures { RunsAreAccounted }
{}

/// In a run what passes a demux node by a client's calls, in the order of the node's history, are the batches of those of its
/// writes whose poll was answered Ready, each once and in the order of the writes.
pub fn writes_pass()
    ensures { WritesPass }
{}
