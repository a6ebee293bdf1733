// The serial run of a script.
ghost use Rattle.std.specs.Prelude.{◌≡◌, ◌≢◌, true, false, ℕ, ◌+◌, ◌<◌, ◌≤◌, ◌^◌, ◌↔◌, List, [], ◌∷◌, ◌++◌, length, map, All, IfOk, OnOk, OnErr, IsErrOf, IsTrue, slice_index_or};
ghost use Rattle.serial_core.specs.Imports.{Core as CoreValue, Draws, Going, IsAfter, IsAtEnd, IsTooLong, OfStream, Pulling, Pulls, Scripted, TooMany, clients_in, has_failed, head_of, outcomes, range_with_len, told_head};
ghost use Rattle.serial_core.specs.Inside.Lines.{AreAfter};
ghost use Rattle.serial_core.specs.Inside.Moving.{IsSound};
ghost use Rattle.serial_core.specs.SerialRun.{Run, replies_of};
ghost use Rattle.serial_core.specs.Left.{AreFreshCores, IsFreshRunner, IsLeftBy, histories_in};
ghost use Rattle.serial_core.specs.Inside.Standing.{AreInOrder, IsNodes};

use crate::nodes::Nodes;
use crate::runner::Runner;
use client_core::{ClientCore, Stop};
use client_script::Script;
use dmx_calls::{Histories, Outcome};
use emu_io::Source;
use feed_pull::{PullFault, Puller};
use machine::steps::Steps;
use std::alloc::{AllocError as NoMemory, Global};
use std::marker::Brand;
use std::sync::ledger::{Blank, Ledger};
use ts_watch::Head;

/// What a run of one thread leaves.
#[derive(Drop)]
pub struct Left {
    /// The histories of the 33 nodes.
    pub histories: Histories,
    /// The outcomes of each client's commands.
    pub outcomes: Vec<Vec<Outcome>>,
    /// What is known of the stream.
    pub head: Head,
}

// The clients of the script before their first calls.
fn cores_of(alloc: Global, script: &Script) -> Result<Vec<ClientCore>, NoMemory>
    ensures { IfOk result (λ cores. AreFreshCores script.now cores.items) }
{
    let mut cores = Vec::new(alloc);
    'clients: for client in 0..script.clients() {
        cores.push(ClientCore::new(alloc, script, client)?)?;
    }
    Ok(cores)
}

// What became of the commands of each client.
fn outcomes_of(alloc: Global, cores: &[ClientCore]) -> Result<Vec<Vec<Outcome>>, NoMemory>
    ensures { IfOk result (λ all. (script : Scripted) (r : Run) → AreAfter script r cores.now
        → map (λ those. those.items) all.items
        ≡ map (λ client. outcomes client script (replies_of client r)) (range_with_len 0 (length cores.now))) }
{
    let mut all = Vec::new(alloc);
    'cores: for core in cores {
        all.push(core.copied_outcomes(alloc)?)?;
    }
    Ok(all)
}

// What a run leaves that is at its end.
fn left_by(alloc: Global, runner: Runner, cores: &[ClientCore]) -> Result<Left, Stop>
    requires sound { IsSound runner }
    requires ended { runner.nodes.has_ended ≡ true }
    ensures histories { IfOk result (λ left. (r : Run) → IsNodes runner.nodes r → AreInOrder r
        → left.histories ≡ histories_in r) }
    ensures outcomes { IfOk result (λ left. (script : Scripted) (r : Run) → AreAfter script r cores.now
        → map (λ those. those.items) left.outcomes.items
        ≡ map (λ client. outcomes client script (replies_of client r)) (range_with_len 0 (length cores.now))) }
    ensures head { IfOk result (λ left. (ahead taken : List ℕ) (given : List (List ℕ))
        → Pulls ahead taken given runner.puller
        → told_head left.head ≡ head_of runner.puller.cutting.size (ahead ++ taken) left.head.read_fault) }
    ensures fault { IfOk result (λ left. left.head.read_fault ≡ has_failed runner.puller.reading) }
    ensures well { IfOk result (λ left. runner.puller.reading ≢ TooMany) }
    ensures too_long { (turns : ℕ) → IsErrOf result (Stop.TooLong turns)
        → (turns ≡ 2 ^ 32) × (2 ^ 32 ≤ runner.puller.start + runner.puller.taken) }
{
    if let Some(PullFault::TooLong { turns }) = runner.puller.fault() {
        return Err(Stop::TooLong { turns });
    }
    let head = runner.puller.head(alloc)?;
    let outcomes = outcomes_of(alloc, cores)?;
    let histories = runner.into_histories()?;
    Ok(Left {
        histories,
        outcomes,
        head,
    })
}

// The serial run of a script, from before its first line on, with a counter of steps of its own.
fn run_over<S: Source, L: Ledger>(
    alloc: Global,
    script: &Script,
    source: &mut S,
    runner: Runner,
    batch: u32,
    cores: &mut [ClientCore],
    blank: Blank,
) -> Result<Left, Stop>
    requires name { blank.name ≡ L.name }
    requires parts { blank.parts ≡ L.parts }
    requires counter { 0 < blank.parts }
    requires some { 1 ≤ batch }
    requires few { batch ≤ 64 }
    requires begun { IsFreshRunner runner }
    requires fresh { AreFreshCores script.now cores.old }
    requires going { runner.puller.reading ≡ Going }
    ensures left { IfOk result (λ left. OfStream (S.end source.old) (S.end source.new) runner.puller
        (λ ahead taken. IsLeftBy script.now batch runner.puller.cutting.size (ahead ++ taken) left)) }
    ensures rose { IfOk result
        (λ left. IsTrue left.head.read_fault ↔ ((S.end source.old).faults < (S.end source.new).faults)) }
    ensures later { IfOk result (λ _. (S.end source.old).faults ≤ (S.end source.new).faults) }
    ensures once { (S.end source.new).faults ≤ (S.end source.old).faults + 1 }
    ensures end { IfOk result (λ left. left.head.read_fault ≡ false → IsAtEnd (S.end source.new).left) }
    ensures too_long { (turns : ℕ) → IsErrOf result (Stop.TooLong turns)
        → OfStream (S.end source.old) (S.end source.new) runner.puller (IsTooLong script.now runner.puller.start turns) }
    ensures draws { OnErr result ((packets : List (List ℕ))
        × ((last : Pulling) × Draws (S.end source.old) (S.end source.new) runner.puller last packets)) }
{
    let mut steps = Steps::<L>::new(blank);
    let mut runner = runner;
    match runner.whole(source, batch, cores, script.lines(), &mut steps) {
        Ok(()) => left_by(alloc, runner, cores),
        Err(stop) => Err(stop),
    }
}

/// Does the lines of a script in their order, on one thread, over the stream of the puller, in batches of at most `batch`
/// packets, 1 to 64. No pull of the puller was made before, and it reads from this source.
///
/// A line `feed` passes its packets through all nodes, a line `tick` lets time go by, and a command is done to its end: where
/// its client waits, a batch passes, or the end of the stream, and the read is repeated. After the last line the rest of the
/// stream passes. The end passes once, at the first time that a packet is wanted and none is left.
///
/// Where a read of the source fails the stream ends there, and the head says so. The answer is `TooLong` after a client's
/// 549,755,813,888th call, or where the puller stopped after 4,294,967,296 reads; else `NoMemory` where memory was refused.
pub fn run_steps<S: Source>(
    alloc: Global,
    script: &Script,
    source: &mut S,
    puller: Puller,
    batch: u32,
) -> Result<Left, Stop>
    requires some { 1 ≤ batch }
    requires few { batch ≤ 64 }
    requires going { puller.reading ≡ Going }
    requires fresh { puller.given ≡ 0 }
    // The histories, the outcomes and the head are those of the serial run, which is the only one.
    ensures left { IfOk result (λ left. OfStream (S.end source.old) (S.end source.new) puller
        (λ ahead taken. IsLeftBy script.now batch puller.cutting.size (ahead ++ taken) left)) }
    // The source failed exactly where its count rose; else it has nothing left.
    ensures rose { IfOk result
        (λ left. IsTrue left.head.read_fault ↔ ((S.end source.old).faults < (S.end source.new).faults)) }
    ensures later { IfOk result (λ _. (S.end source.old).faults ≤ (S.end source.new).faults) }
    // At most one read has failed: after it nothing more is read, however the run ends.
    ensures once { (S.end source.new).faults ≤ (S.end source.old).faults + 1 }
    ensures end { IfOk result (λ left. left.head.read_fault ≡ false → IsAtEnd (S.end source.new).left) }
    ensures too_long { (turns : ℕ) → IsErrOf result (Stop.TooLong turns)
        → OfStream (S.end source.old) (S.end source.new) puller (IsTooLong script.now puller.start turns) }
    // What was taken of the source where the run stopped, as the puller's pulls tell it.
    ensures draws { OnErr result ((packets : List (List ℕ))
        × ((last : Pulling) × Draws (S.end source.old) (S.end source.new) puller last packets)) }
{
    let mut cores = match cores_of(alloc, script) {
        Ok(cores) => cores,
        Err(_) => return Err(Stop::NoMemory),
    };
    let nodes = match Nodes::new(alloc) {
        Ok(nodes) => nodes,
        Err(_) => return Err(Stop::NoMemory),
    };
    let runner = Runner {
        nodes,
        puller,
        moment: 0,
    };
    run_over::<S, Brand>(
        alloc,
        script,
        source,
        runner,
        batch,
        &mut cores,
        Blank::new(1),
    )
}
