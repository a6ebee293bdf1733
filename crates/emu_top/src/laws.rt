// Laws of what is written, which have nothing to do.
ghost use Rattle.emu_top.specs.Laws.{SerialOutputsAreOfRuns, ThreadOutputsAreOfRuns};

/// The law that what is written on one thread is the report of a run.
#[tactic(auto, using(crate::proofs::Written::serial_outputs))]
pub fn serial_outputs_are_of_runs()
    ensures { SerialOutputsAreOfRuns }
{}

/// The law that what is written by threads is the report of a run.
#[tactic(auto, using(crate::proofs::Written::thread_outputs))]
pub fn thread_outputs_are_of_runs()
    ensures { ThreadOutputsAreOfRuns }
{}
