// The packets that the clients of a script play.
ghost use Rattle.std.specs.Prelude.{◌≡◌, ◌<◌, ◌∷◌, ◌++◌, [], map, IfOk, OnOk, All};
ghost use Rattle.report_check.specs.Imports.{option_map, packets_in, played};
ghost use Rattle.report_check.specs.Playing.{AreFewPackets};
ghost use Rattle.report_check.specs.Inside.Parts.{all_played as played_by_all};

use client_core::dvr_play::Plays;
use client_script::Script;
use machine::steps::Steps;
use std::alloc::{AllocError as NoMemory, Global};
use std::marker::Brand;
use std::sync::Arc;
use std::sync::ledger::{Blank, Ledger};
use ts_batch::Batch;
use ts_packet::Packet;

// How many clients a script may have.
const CLIENTS: u32 = 8;

// Puts the packets of a write's batch behind these, if it has one.
fn add_some<L: Ledger>(
    packets: &mut Vec<Packet>,
    batch: Option<&Arc<Batch>>,
    steps: &mut Steps<L>,
) -> Result<(), NoMemory>
    ensures { OnOk result (packets.new.items ≡ packets.old.items ++ packets_in (option_map (λ b. b.now.value) batch.entry)) }
{
    match batch {
        None => Ok(()),
        Some(batch) => batch.add_to(packets, steps),
    }
}

// What a client plays, with the ledger of the steps.
fn played_with<L: Ledger>(
    alloc: Global,
    script: &Script,
    client: u32,
    blank: Blank,
) -> Result<Vec<Packet>, NoMemory>
    requires ledger { (blank.name ≡ L.name) × (blank.parts ≡ L.parts) × (0 < L.parts) }
    ensures { IfOk result (λ packets. packets.items ≡ played client script.now) }
{
    let mut steps: Steps<L> = Steps::new(blank);
    let mut plays = Plays::new(alloc);
    let mut packets = Vec::new(alloc);
    'writes: for write in 0..script.writes(client) {
        plays.push(alloc, script.written(client, write))?;
        add_some(&mut packets, plays.batch(write), &mut steps)?;
    }
    Ok(packets)
}

// What a client plays: the packets of its writes, one after another.
fn played_by(alloc: Global, script: &Script, client: u32) -> Result<Vec<Packet>, NoMemory>
    ensures { IfOk result (λ packets. packets.items ≡ played client script.now) }
{
    played_with::<Brand>(alloc, script, client, Blank::new(1))
}

// What the feeder plays: nothing.
fn of_feeder(alloc: Global) -> Result<Vec<Vec<Packet>>, NoMemory>
    ensures { IfOk result (λ all. map (λ p. p.items) all.items ≡ [] ∷ []) }
{
    let mut all = Vec::with_capacity(alloc, CLIENTS as usize + 1)?;
    all.push(Vec::new(alloc))?;
    Ok(all)
}

/// What each caller of a script plays, by its number: the feeder nothing.
pub fn all_played(alloc: Global, script: &Script) -> Result<Vec<Vec<Packet>>, NoMemory>
    ensures played { IfOk result (λ all. map (λ p. p.items) all.items ≡ played_by_all script.now) }
    ensures few { IfOk result (λ all. All AreFewPackets (map (λ p. p.items) all.items)) }
{
    // A script writes so few bytes that the numbers of the packets fit.
    let _lines = script.lines();
    let mut all = of_feeder(alloc)?;
    'clients: for client in 0..CLIENTS {
        let packets = played_by(alloc, script, client)?;
        all.push(packets)?;
    }
    Ok(all)
}
