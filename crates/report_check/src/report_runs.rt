// Reports and runs: the histories for which a report stands, and which reports are right.
ghost use Rattle.report_check.specs.RunLaws.{ReportsTell, RunsAreCompleted, IdleRunsAreRuns, RightAreOfRuns};

/// The law that a report is the text of what it tells. It has nothing to do.
pub fn reports_tell()
    ensures { ReportsTell }
{}

/// The law that a report of a run gives all histories of the run, where a client called a node. It has nothing to do.
pub fn runs_are_completed()
    ensures { RunsAreCompleted }
{}

/// The law that a report of a run stands for a run, where no client called a node. It has nothing to do.
pub fn idle_runs_are_runs()
    ensures { IdleRunsAreRuns }
{}

/// The law that the reports of runs are those that are right. It has nothing to do.
pub fn right_are_of_runs()
    ensures { RightAreOfRuns }
{}
