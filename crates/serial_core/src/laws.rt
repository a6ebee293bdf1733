// Laws of the definitions.
ghost use Rattle.serial_core.specs.Laws.{IsOne};
ghost use Rattle.serial_core.specs.Budget.{IsWithinBudget};
ghost use Rattle.serial_core.specs.Runs.{HaveSerialRuns, SerialRunsAreRuns};

/// A script and a stream have one serial run at most.
pub fn the_serial_run_is_one()
    ensures { IsOne }
{}

/// Each client of the serial run of a script's lines makes at most `most_calls` calls, for its own commands and the bytes
/// of the stream's packets and of all writes, where the lines of each client name its writes in their order, each once.
#[tactic(auto, using(crate::proofs::Runs::within_budget))]
pub fn clients_are_within_budget()
    ensures { IsWithinBudget }
{}

/// A script and a stream have a serial run: each command ends.
pub fn every_script_has_a_serial_run()
    ensures { HaveSerialRuns }
{}

/// The serial run of a script is a run of it: its nodes' histories are legal and accounted, every packet of the stream passes
/// each node once and in order, and each client did just what its commands ask.
pub fn the_serial_run_is_a_run()
    ensures { SerialRunsAreRuns }
{}
