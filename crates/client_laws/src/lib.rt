//! Laws of what the commands of a client do: each is the contract of a function that does nothing.
//!
//! What a contract sees: `done` of `client_core`, what a command does by small steps, a task and a reply after the other; and
//! `Makes` (`specs/Verbs.antt`), the calls of each verb, all at once and in the words of `docs/BEHAVIOUR.md`.
//!
//! What is proved: both are the same. Where a command is through it has made calls as its verb says, it stood before each of
//! them by the replies to those before it, and it leaves the replies behind them (`commands_make_calls`); by the replies to
//! such calls it is through (`calls_end_commands`); and wherever it stands it can still end so (`commands_can_end`). So a
//! client does its commands one after another, each by its own replies, and its calls are numbered from 0
//! (`clients_do_their_commands`, `specs/Clients.antt`).
//!
//! No code of the crate runs, so nothing of it is tested, and no other crate stands on it. All of it is this project's own.
#![tactic(auto)]

ghost use Rattle.client_laws.specs.Clients.{ClientsDoTheirCommands};
ghost use Rattle.client_laws.specs.Laws.{CommandsMakeCalls, CallsEndCommands, CommandsCanEnd};

/// A command that is through has made calls as its verb says.
pub fn commands_make_calls()
    ensures { CommandsMakeCalls }
{}

/// By the replies to calls as its verb says, a command is through.
pub fn calls_end_commands()
    ensures { CallsEndCommands }
{}

/// Wherever a command stands, it can end.
pub fn commands_can_end()
    ensures { CommandsCanEnd }
{}

/// A client does its commands one after another.
pub fn clients_do_their_commands()
    ensures { ClientsDoTheirCommands }
{}
