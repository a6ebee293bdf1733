// The client machine.
ghost use Rattle.std.specs.Prelude.{◌≡◌, ℕ, ◌+◌, ◌*◌, ◌<◌, ◌≤◌, List, [], ◌∷◌, ◌++◌, length, true, false, Some, None, IsSome, IfSome, IfOk, All, ◌^◌, ◌↔◌, vec_capacity};
ghost use Rattle.client_core.specs.Imports.{HasVerb, DEMUX_NODES as nodes, IsInRange, Response, Scripted, option_map, response_of, writes_of};
ghost use Rattle.client_core.specs.Plays.{HasPlayed, PlaysOf, batch_at, plays_batch};
ghost use Rattle.client_core.specs.Commands.{commands_among, commands_of, IsRequestInRange, IsRequestOf};
ghost use Rattle.client_core.specs.Events.{next_event, reading_on, waits_on, next_of_line};
ghost use Rattle.client_core.specs.Stc.{Exchange, with_reply};
ghost use Rattle.client_core.specs.Outcomes.{outcomes as outcomes_of};
ghost use Rattle.client_core.specs.Inside.Clocks.{HaveFollowed, AreFew};
ghost use Rattle.client_core.specs.Steps.{event_of as stands_at};
ghost use Rattle.client_core.specs.Inside.Tasks.{IsTaskInRange};
ghost use Rattle.client_core.specs.Inside.Core.{one_if_some, IsCommandInRange, IsCommandOf, IsMade, CanBegin, IsSound, IsAfter, HasTaken, next_of, waits_with};

use crate::clocks::Clocks;
use crate::command::{ClientCommand, Commands};
use crate::current::{Current, add, begin, bind, kind_of};
use crate::dvr_play::Plays;
use crate::event::Event;
use crate::task::{Next, Task, after, event_of, reading_of};
use client_script::{Line, Script, Verb};
use dmx_calls::{LogReply, Outcome, Reply};
use std::alloc::{AllocError as NoMemory, Global};
use std::marker::Model;
use std::sync::Arc;
use ts_batch::Batch;

/// A client of a script on its way: what it calls next, by the replies that it has taken.
#[derive(Drop)]
pub struct ClientCore {
    left: Commands,
    current: Option<Current>,
    slots: [Option<u32>; 32],
    step: u64,
    waits: Option<u32>,
    clocks: Clocks,
    plays: Plays,
    outcomes: Vec<Outcome>,
}

impl Model for ClientCore {
    ghost use Rattle.std.specs.Prelude.{◌≤◌, ◌+◌, length, vec_capacity};
    ghost use Rattle.client_core.specs.Inside.Core.{Core, IsSound, one_if_some};

    ghost Value = { Core };

    ghost view = { λ c. record {
      left = c.left;
      current = c.current;
      slots = c.slots;
      step = c.step;
      waits = c.waits;
      clocks = c.clocks;
      plays = c.plays.batches;
      outcomes = c.outcomes.items;
    } };

    ghost invariant = { λ c. IsSound (record {
      left = c.left;
      current = c.current;
      slots = c.slots;
      step = c.step;
      waits = c.waits;
      clocks = c.clocks;
      plays = c.plays.batches;
      outcomes = c.outcomes.items;
    })
        × (length c.outcomes.items + one_if_some c.current + length c.left ≤ vec_capacity c.outcomes) };
}

// The writes of a client.
fn plays_of(alloc: Global, script: &Script, client: u32) -> Result<Plays, NoMemory>
    ensures played { IfOk result (λ plays. HasPlayed (writes_of client script.now.writes) plays) }
{
    let mut plays = Plays::new(alloc);
    'writes: for write in 0..script.writes(client) {
        plays.push(alloc, script.written(client, write))?;
    }
    Ok(plays)
}

// Whether a command with this verb is a write that has a batch.
fn has_batch(plays: &Plays, verb: Verb) -> bool
    requires made { HasVerb (length plays.now.batches) verb }
    ensures value { result ≡ plays_batch plays.now.batches verb }
    ensures played { PlaysOf plays.now.batches verb result }
{
    match verb {
        Verb::Write(write) => plays.batch(write).is_some(),
        _ => false,
    }
}

// The client's commands among these lines, in their order.
fn commands(
    alloc: Global,
    lines: &[Line],
    client: u32,
    plays: &Plays,
) -> Result<Vec<ClientCommand>, NoMemory>
    requires ranges { All IsInRange lines.now }
    requires made { All (IsMade client (length plays.now.batches)) lines.now }
    ensures value { IfOk result (λ commands. commands.items ≡ commands_among client plays.now.batches lines.now) }
    ensures range { IfOk result (λ commands. All IsCommandInRange commands.items) }
    ensures played { IfOk result (λ commands. All (IsCommandOf plays.now.batches) commands.items) }
{
    let mut commands = Vec::new(alloc);
    'lines: for line in lines {
        if let Line::Command {
            line,
            client: who,
            target,
            verb,
        } = *line
        {
            if who == client {
                commands.push(ClientCommand {
                    line,
                    target,
                    verb,
                    has_batch: has_batch(plays, verb),
                })?;
            }
        }
    }
    Ok(commands)
}

// Whether a command asks for a counter.
fn asks(command: &ClientCommand) -> bool
    ensures none { result ≡ false → CanBegin 0 command.now }
    ensures some { result ≡ true → CanBegin 0 command.now → ⊥ }
{
    matches!(command.verb, Verb::GetStc(_))
}

// Whether one of these commands asks for a counter.
fn one_asks(commands: &[ClientCommand]) -> bool
    ensures none { result ≡ false → All (CanBegin 0) commands.now }
    ensures some { result ≡ true → All (CanBegin 0) commands.now → ⊥ }
{
    'commands: for command in commands {
        if asks(command) {
            return true;
        }
    }
    false
}

// The clocks follow the call of a task, and its reply.
fn follow(clocks: &mut Clocks, task: &Task, step: u64, reply: &LogReply)
    requires task { IsTaskInRange task.now }
    requires few { AreFew (65536 * step) clocks.old }
    requires step { step < 2 ^ 46 }
    ensures followed { (xs : List Exchange) → HaveFollowed xs clocks.old
        → HaveFollowed (with_reply (Some (stands_at task.now step)) (response_of reply.now) xs) clocks.new }
    ensures few { AreFew (65536 * (step + 1)) clocks.new }
    ensures count { length clocks.new ≡ length clocks.old }
{
    if !clocks.is_empty() {
        clocks.follow(&event_of(task, step), reply);
    }
}

// The node on which a client waits that goes on with this task after this reply.
fn waits_after(task: &Task, reply: &LogReply) -> Option<u32>
    ensures { (step : ℕ) → result ≡ waits_with (response_of reply.now) (reading_on (stands_at task.now step)) }
{
    match reply {
        Reply::Again { ended } => { if *ended { None } else { reading_of(task) } }
        _ => None,
    }
}

impl ClientCore {
    /// A client of the script before its first call. All memory is taken here.
    pub fn new(alloc: Global, script: &Script, client: u32) -> Result<ClientCore, NoMemory>
        ensures after { IfOk result (λ core. IsAfter client script.now [] core) }
        // Where no command asks for a counter, no clock is kept.
        ensures kept { IfOk result (λ core. All (CanBegin 0) (commands_of client script.now) → core.clocks ≡ []) }
    {
        let plays = plays_of(alloc, script, client)?;
        let commands = commands(alloc, script.lines(), client, &plays)?;
        let mut outcomes = Vec::with_capacity(alloc, commands.len())?;
        let clocks = Clocks::new(alloc, one_asks(&commands))?;
        let mut left = Commands::of(commands);
        let mut slots = [None; 32];
        let current = begin(&mut left, &mut slots, 0, &clocks, &mut outcomes);
        Ok(ClientCore {
            left,
            current,
            slots,
            step: 0,
            waits: None,
            clocks,
            plays,
            outcomes,
        })
    }

    /// The client's next call; None where its commands are through.
    pub fn next(&self) -> Option<Event>
        ensures next { result ≡ next_of self.now }
        ensures tied { (client : ℕ) (script : Scripted) (replies : List Response) → IsAfter client script replies self.now
            → result ≡ next_event client script replies }
        ensures node { IfSome result (λ e. (e.step ≡ self.now.step) × (e.node ≤ nodes)) }
        ensures range { IfSome result (λ e. IsRequestInRange e.want) }
        ensures some { IsSome result ↔ IsSome self.now.current }
        ensures played { IfSome result (λ e. IsRequestOf self.now.plays e.want) }
    {
        match &self.current {
            None => None,
            Some(current) => Some(event_of(&current.task, self.step)),
        }
    }

    /// The call before which the command of this line stands; None where that command is through.
    pub fn next_at(&self, line: u32) -> Option<Event>
        ensures tied { (client : ℕ) (script : Scripted) (replies : List Response) → IsAfter client script replies self.now
            → result ≡ next_of_line client script line replies }
        ensures node { IfSome result (λ e. (e.step ≡ self.now.step) × (e.node ≤ nodes)) }
        ensures range { IfSome result (λ e. IsRequestInRange e.want) }
        ensures some { IsSome result → IsSome self.now.current }
        ensures played { IfSome result (λ e. IsRequestOf self.now.plays e.want) }
    {
        match &self.current {
            None => None,
            Some(current) => {
                if current.line == line {
                    Some(event_of(&current.task, self.step))
                } else {
                    None
                }
            }
        }
    }

    /// The batch of a write of the client; None where the write completes no packet.
    pub fn batch(&self, write: u32) -> Option<&Arc<Batch>>
        requires { write < length self.now.plays }
        ensures { option_map (λ batch. batch.now.value) result ≡ batch_at self.now.plays write }
    {
        self.plays.batch(write)
    }

    /// How many replies were taken.
    pub fn steps(&self) -> u64
        ensures { result ≡ self.now.step }
    {
        self.step
    }

    /// Takes the reply to that call.
    pub fn take(&mut self, reply: &LogReply)
        requires some { IsSome self.old.current }
        requires few { self.old.step < 2 ^ 46 }
        ensures after { (client : ℕ) (script : Scripted) (replies : List Response) → IsAfter client script replies self.old
            → IsAfter client script (replies ++ response_of reply.now ∷ []) self.new }
        ensures taken { HasTaken (response_of reply.now) self.old self.new }
        ensures step { self.new.step ≡ self.old.step + 1 }
    {
        let current = self.current.take().unwrap();
        follow(&mut self.clocks, &current.task, self.step, reply);
        let step = self.step + 1;
        self.step = step;
        self.waits = None;
        match after(current.task, reply) {
            Next::Still(task) => {
                self.waits = waits_after(&task, reply);
                self.current = Some(Current {
                    line: current.line,
                    from: current.from,
                    task,
                });
            }
            Next::Through(ending) => {
                bind(&mut self.slots, ending);
                add(
                    &mut self.outcomes,
                    Outcome {
                        line: current.line,
                        from: current.from,
                        to: step,
                        kind: kind_of(ending, &self.clocks),
                    },
                );
                let next = begin(
                    &mut self.left,
                    &mut self.slots,
                    step,
                    &self.clocks,
                    &mut self.outcomes,
                );
                self.current = next;
            }
        }
    }

    /// The node on which the client waits: the last reply was Again, the stream hasn't ended, and the read is repeated.
    pub fn waits(&self) -> Option<u32>
        ensures value { result ≡ self.now.waits }
        ensures tied { (client : ℕ) (script : Scripted) (replies : List Response) → IsAfter client script replies self.now
            → result ≡ waits_on client script replies }
    {
        self.waits
    }

    /// The outcomes of the commands that are through.
    pub fn outcomes(&self) -> &[Outcome]
        ensures value { result.now ≡ self.now.outcomes }
        ensures tied { (client : ℕ) (script : Scripted) (replies : List Response) → IsAfter client script replies self.now
            → result.now ≡ outcomes_of client script replies }
    {
        &self.outcomes
    }

    /// A copy of these outcomes.
    pub fn copied_outcomes(&self, alloc: Global) -> Result<Vec<Outcome>, NoMemory>
        ensures value { IfOk result (λ copy. copy.items ≡ self.now.outcomes) }
        ensures tied { (client : ℕ) (script : Scripted) (replies : List Response) → IsAfter client script replies self.now
            → IfOk result (λ copy. copy.items ≡ outcomes_of client script replies) }
    {
        let outcomes = self.outcomes();
        let mut copy = Vec::with_capacity(alloc, outcomes.len())?;
        copy.extend_from_slice(outcomes)?;
        Ok(copy)
    }
}
