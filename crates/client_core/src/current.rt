// A client's commands, done by the replies that come.
ghost use Rattle.std.specs.Prelude.{◌≡◌, ◌+◌, ◌<◌, ◌≤◌, [], ◌∷◌, ◌++◌, length, Some, None, IfSome, IfNone, All, vec_capacity};
ghost use Rattle.client_core.specs.Events.{slots_after};
ghost use Rattle.client_core.specs.Outcomes.{stc_kind as stc_kind_of, kind_by};
ghost use Rattle.client_core.specs.Inside.Clocks.{counter_in};
ghost use Rattle.client_core.specs.Inside.Tasks.{IsEndingInRange, IsTaskInRange, IsTaskOf, AreSlots};
ghost use Rattle.client_core.specs.Inside.Core.{HasBegun, one_if_some, IsCommandInRange, IsCommandOf, CanBegin};
ghost use Rattle.client_core.specs.Plays.{Batches};

use crate::clocks::Clocks;
use crate::command::Commands;
use crate::task::{Ending, Next, Task, after, event_of, first};
use dmx_calls::{Outcome, OutcomeKind, Reply};

/// The command that is begun: its line, the step of its first call, and what is left of it.
#[derive(Drop)]
pub struct Current {
    pub line: u32,
    pub from: u64,
    pub task: Task,
}

/// How many units of 27 MHz make one of 90 kHz (ISO/IEC 13818-1, 2.4.2.2).
const STC_BASE: u32 = 300;

// What is told of a counter.
fn stc_kind(counter: Option<u64>) -> OutcomeKind
    ensures { result ≡ stc_kind_of counter }
{
    match counter {
        None => OutcomeKind::NoStc,
        Some(value) => OutcomeKind::Stc {
            base: STC_BASE,
            value,
        },
    }
}

/// How a command ended, by the clocks that its client has followed.
pub fn kind_of(ending: Ending, clocks: &Clocks) -> OutcomeKind
    ensures { result ≡ kind_by (counter_in clocks.now) ending }
{
    match ending {
        Ending::AllBusy => OutcomeKind::Emfile,
        Ending::NoNode => OutcomeKind::Unbound,
        Ending::Asked { node, num } => stc_kind(clocks.counter(node, num)),
        _ => OutcomeKind::Done,
    }
}

/// An open of a slot that succeeds binds it.
pub fn bind(slots: &mut [Option<u32>; 32], ending: Ending)
    requires range { IsEndingInRange ending }
    requires bound { AreSlots slots.old }
    ensures slots { slots.new ≡ slots_after ending slots.old }
    ensures bound { AreSlots slots.new }
{
    if let Ending::Bound { slot, node } = ending {
        slots[slot as usize] = Some(node);
    }
}

/// An outcome joins the others, for which there is room.
pub fn add(outcomes: &mut Vec<Outcome>, outcome: Outcome)
    requires room { length outcomes.old.items < vec_capacity outcomes.old }
    ensures added { outcomes.new.items ≡ outcomes.old.items ++ outcome ∷ [] }
    ensures room { vec_capacity outcomes.old ≤ vec_capacity outcomes.new }
{
    outcomes.push(outcome).unwrap();
}

/// Begins the next command that makes a call; those before it are through.
pub fn begin(
    left: &mut Commands,
    slots: &mut [Option<u32>; 32],
    step: u64,
    clocks: &Clocks,
    outcomes: &mut Vec<Outcome>,
) -> Option<Current>
    requires ranges { All IsCommandInRange left.old }
    requires asked { All (CanBegin (length clocks.now)) left.old }
    requires bound { AreSlots slots.old }
    requires room { length outcomes.old.items + length left.old ≤ vec_capacity outcomes.old }
    ensures begun { HasBegun clocks.now step slots.old slots.new left.old left.new outcomes.old.items outcomes.new.items result }
    ensures ranges { All IsCommandInRange left.new }
    ensures asked { All (CanBegin (length clocks.now)) left.new }
    ensures bound { AreSlots slots.new }
    ensures current { IfSome result (λ c. IsTaskInRange c.task × (c.from ≡ step)) }
    ensures room { length outcomes.new.items + one_if_some result + length left.new ≤ vec_capacity outcomes.new }
    ensures ended { IfNone result (left.new ≡ []) }
    ensures played { (batches : Batches) → All (IsCommandOf batches) left.old
        → All (IsCommandOf batches) left.new × IfSome result (λ c. IsTaskOf batches c.task) }
{
    'commands: while let Some(command) = left.take() {
        match first(slots, command.target, command.verb, command.has_batch) {
            Next::Still(task) => {
                return Some(Current {
                    line: command.line,
                    from: step,
                    task,
                });
            }
            Next::Through(ending) => {
                bind(slots, ending);
                add(
                    outcomes,
                    Outcome {
                        line: command.line,
                        from: step,
                        to: step,
                        kind: kind_of(ending, clocks),
                    },
                );
            }
        }
    }
    None
}
