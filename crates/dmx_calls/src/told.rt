// What a node's history keeps of a call.

use crate::call::Call;
use crate::reply::Reply;
use std::marker::Model;

/// A call of a node with its caller and its reply, for contracts: no value of the type is made when a program runs.
///
/// Contracts see the entry of a history.
pub struct Told {
    /// The caller's number.
    pub who: u32,
    /// The call.
    pub call: Call,
    /// Its reply.
    pub reply: Reply,
}

impl Model for Told {
    ghost use Rattle.dmx_calls.specs.History.{Entry, entry_of};
    ghost use Rattle.dmx_calls.specs.Calls.{invocation_of, response_of};

    ghost Value = { Entry };

    ghost view = { λ t. entry_of t.who (invocation_of t.call) (response_of t.reply) };
}
