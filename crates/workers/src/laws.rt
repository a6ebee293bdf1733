//! Laws of runs by threads.
ghost use Rattle.workers.specs.Budget.{CallsAreWithinBudget, FewBytesAreFewCalls, ManyCallsAreTooLong};
ghost use Rattle.workers.specs.Telling.{WorkersHaveCalled};

/// At each moment of a run by threads, whatever the order of the threads, a client has made no more calls than the commands of
/// all clients and the bytes of the packets and of all writes allow.
pub fn calls_are_within_budget()
    ensures { CallsAreWithinBudget }
{}

/// Where commands and bytes are fewer than 4,294,967,296 together, no client comes to 549,755,813,888 calls.
pub fn few_bytes_are_few_calls()
    ensures { FewBytesAreFewCalls }
{}

/// Where a client comes to 549,755,813,888 calls, the commands, the bytes of the stream and those of all writes show that the run
/// is too long.
pub fn many_calls_are_too_long()
    ensures { ManyCallsAreTooLong }
{}

/// What the threads of a run leave was called: the feeder has passed its batches of the stream and then the end, and each
/// client has made just the calls of its log.
pub fn workers_have_called()
    ensures { WorkersHaveCalled }
{}
