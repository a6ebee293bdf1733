// The clients' workers before their first calls, and what is left of them.
ghost use Rattle.std.specs.Prelude.{◌≡◌, length, IfOk};
ghost use Rattle.client_script.specs.Script.{AreNumbered, clients_in};
ghost use Rattle.workers.specs.Inside.Begun.{AreFreshWorkers, IsLeftByClients};

use crate::client_worker::ClientWorker;
use adapter::Client;
use client_core::ClientCore;
use client_script::Script;
use dmx_calls::{Entry, Outcome};
use std::alloc::{AllocError as NoMemory, Global};

/// What is left of the clients' workers, in the clients' order.
#[derive(Drop)]
pub struct ClientsLeft {
    pub clients: Vec<Client>,
    pub logs: Vec<Vec<Entry>>,
    pub outcomes: Vec<Vec<Outcome>>,
}

/// A worker for each client of the script, before its first call.
pub fn workers_of(
    alloc: Global,
    clients: Vec<Client>,
    script: &Script,
) -> Result<Vec<ClientWorker>, NoMemory>
    requires { length clients.items ≡ clients_in script.now }
    ensures fresh { IfOk result (λ workers. AreFreshWorkers script.now clients.items workers.items) }
    ensures numbered { IfOk result (λ workers. AreNumbered script.now) }
{
    let mut workers = Vec::with_capacity(alloc, script.clients() as usize)?;
    let mut number = 0u32;
    'callers: for client in clients {
        let core = ClientCore::new(alloc, script, number)?;
        number += 1;
        workers.push(ClientWorker {
            client,
            who: number,
            core,
            log: Vec::new(alloc),
            stop: None,
        })?;
    }
    Ok(workers)
}

// The client of a worker, and its log.
fn parted(worker: ClientWorker) -> (Client, Vec<Entry>)
    ensures client { result.0 ≡ worker.client }
    ensures log { result.1 ≡ worker.log }
{
    let ClientWorker { client, log, .. } = worker;
    (client, log)
}

/// The clients, their logs and the outcomes of their commands.
pub fn left_by_clients(alloc: Global, workers: Vec<ClientWorker>) -> Result<ClientsLeft, NoMemory>
    ensures { IfOk result (IsLeftByClients workers.items) }
{
    let mut clients = Vec::new(alloc);
    let mut logs = Vec::new(alloc);
    let mut outcomes = Vec::new(alloc);
    'workers: for worker in workers {
        outcomes.push(worker.core.copied_outcomes(alloc)?)?;
        let (client, log) = parted(worker);
        clients.push(client)?;
        logs.push(log)?;
    }
    Ok(ClientsLeft {
        clients,
        logs,
        outcomes,
    })
}
