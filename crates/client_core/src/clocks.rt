// The clocks of what a client reads, and the counters that it asks for.
ghost use Rattle.std.specs.Prelude.{◌≡◌, ℕ, ◌+◌, ◌<◌, ◌≤◌, ◌^◌, List, [], ◌++◌, length, replicate, Some, IfOk, OnOk, true, if◌then◌else◌};
ghost use Rattle.client_core.specs.Imports.{bytes_counted, response_of};
ghost use Rattle.client_core.specs.Clock.{HasFollowed};
ghost use Rattle.client_core.specs.Stc.{Exchange, begins_anew as begins_by, type_of as type_by, set_by_call, bytes_after, type_after, with_reply, is_counter as is_counter_by};
ghost use Rattle.client_core.specs.Inside.Clocks.{uncalled, counter_of, counter_in, HaveFollowed, AreFew};

use crate::event::{ClientRequest, Event};
use crate::stc_clock::StcClock;
use client_script::Want;
use dmx_calls::limits::DEMUX_NODES;
use dmx_calls::{ByteBuf, LogReply, Output, PesParams, Reply};
use std::alloc::{AllocError as NoMemory, Global};
use std::marker::Model;

/// What is kept of a node: the clock of what the client has read there, and the type of the filter that it has set last, where
/// that gives whole packets to its reader.
#[derive(Drop)]
pub struct NodeClock {
    clock: StcClock,
    filter_type: Option<u32>,
}

impl Model for NodeClock {
    ghost use Rattle.client_core.specs.Inside.Clocks.{NodeClock};

    ghost Value = { NodeClock };

    ghost view = { λ c. record { clock = c.clock; filter_type = c.filter_type } };
}

// Whether the bytes begin anew with this call, where it is accepted.
fn begins_anew(want: &Want) -> bool
    ensures { result ≡ begins_by want.now }
{
    matches!(
        want,
        Want::Open | Want::Close | Want::Section(_) | Want::Pes(_) | Want::Start | Want::Size(_)
    )
}

// The type of a filter whose items are whole packets, read on its own node.
fn type_of(params: &PesParams) -> Option<u32>
    ensures { result ≡ type_by params.now.output params.now.pes_type }
{
    match params.output {
        Output::TsdemuxTap => Some(params.pes_type),
        _ => None,
    }
}

// Whether a filter of this type is that of a counter.
fn is_counter(num: u32, filter_type: Option<u32>) -> bool
    ensures { result ≡ is_counter_by num filter_type }
{
    match filter_type {
        None => false,
        Some(pes_type) => num <= 3 && pes_type == 4 + 5 * num,
    }
}

impl NodeClock {
    // No call was made.
    fn new() -> NodeClock
        ensures { result ≡ uncalled }
    {
        NodeClock {
            clock: StcClock::new(),
            filter_type: None,
        }
    }

    // A call of a command was accepted.
    fn accept(&mut self, want: &Want)
        ensures followed { (bytes : List ℕ) → HasFollowed bytes self.old.clock
            → HasFollowed (if begins_by want.now then [] else bytes) self.new.clock }
        ensures set { self.new.filter_type ≡ set_by_call want.now self.old.filter_type }
        ensures few { bytes_counted self.new.clock.cutting ≤ bytes_counted self.old.clock.cutting }
    {
        if begins_anew(want) {
            self.clock.clear();
        }
        match want {
            Want::Section(_) => self.filter_type = None,
            Want::Pes(params) => self.filter_type = type_of(params),
            _ => {}
        }
    }

    // Bytes were read.
    fn read(&mut self, buf: &ByteBuf)
        requires few { bytes_counted self.old.clock.cutting < 2 ^ 62 }
        ensures followed { (bytes : List ℕ) → HasFollowed bytes self.old.clock
            → HasFollowed (bytes ++ buf.now.bytes) self.new.clock }
        ensures set { self.new.filter_type ≡ self.old.filter_type }
        ensures few { bytes_counted self.new.clock.cutting ≤ bytes_counted self.old.clock.cutting + 65536 }
    {
        let _ = buf.count();
        self.clock.push(buf.bytes());
    }

    // A call on the node, and its reply.
    fn follow(&mut self, request: &ClientRequest, reply: &LogReply)
        requires few { bytes_counted self.old.clock.cutting < 2 ^ 62 }
        ensures followed { (bytes : List ℕ) → HasFollowed bytes self.old.clock
            → HasFollowed (bytes_after request.now (response_of reply.now) bytes) self.new.clock }
        ensures set { self.new.filter_type ≡ type_after request.now (response_of reply.now) self.old.filter_type }
        ensures few { bytes_counted self.new.clock.cutting ≤ bytes_counted self.old.clock.cutting + 65536 }
    {
        match reply {
            Reply::Data(buf) => self.read(buf),
            Reply::Overflow { .. } => self.clock.clear(),
            Reply::Done { .. } => {
                if let ClientRequest::Own(want) = request {
                    self.accept(want);
                }
            }
            _ => {}
        }
    }

    // The counter of this number.
    fn counter(&self, num: u32) -> Option<u64>
        ensures { result ≡ counter_of num self.now }
    {
        if is_counter(num, self.filter_type) {
            self.clock.value()
        } else {
            None
        }
    }
}

/// The clocks of the 33 nodes, or of none where no counter is asked for. A contract sees them as a list.
#[derive(Drop)]
pub struct Clocks {
    nodes: Vec<NodeClock>,
}

impl Model for Clocks {
    ghost use Rattle.std.specs.Prelude.{List};
    ghost use Rattle.client_core.specs.Inside.Clocks.{NodeClock};

    ghost Value = { List NodeClock };

    ghost view = { λ c. c.nodes.items };
}

impl Clocks {
    /// Clocks that have followed no call: none at all where no counter is asked for.
    pub fn new(alloc: Global, asked: bool) -> Result<Clocks, NoMemory>
        ensures { IfOk result (λ clocks. clocks ≡ (if asked then replicate 33 uncalled else [])) }
    {
        let mut nodes = Vec::new(alloc);
        if asked {
            add_nodes(&mut nodes)?;
        }
        Ok(Clocks { nodes })
    }

    /// Whether none is kept.
    pub fn is_empty(&self) -> bool
        ensures empty { result ≡ true → self.now ≡ [] }
    {
        self.nodes.is_empty()
    }

    /// A call, and its reply.
    pub fn follow(&mut self, event: &Event, reply: &LogReply)
        requires few { AreFew 4611686018427387903 self.old }
        ensures followed { (xs : List Exchange) → HaveFollowed xs self.old
            → HaveFollowed (with_reply (Some event.now) (response_of reply.now) xs) self.new }
        ensures few { (most : ℕ) → AreFew most self.old → AreFew (most + 65536) self.new }
        ensures count { length self.new ≡ length self.old }
    {
        let node = event.node as usize;
        if node < self.nodes.len() {
            self.nodes[node].follow(&event.want, reply);
        }
    }

    /// The counter of this number on a node, in units of 27 MHz; None where the client has read none.
    pub fn counter(&self, node: u32, num: u32) -> Option<u64>
        ensures { result ≡ counter_in self.now node num }
    {
        self.nodes.get(node as usize)?.counter(num)
    }
}

// The clocks of all nodes, of which none has followed a call.
fn add_nodes(nodes: &mut Vec<NodeClock>) -> Result<(), NoMemory>
    requires { nodes.old.items ≡ [] }
    ensures { OnOk result (nodes.new.items ≡ replicate 33 uncalled) }
{
    nodes.reserve(DEMUX_NODES as usize + 1)?;
    'nodes: for _node in 0..DEMUX_NODES + 1 {
        nodes.push(NodeClock::new())?;
    }
    Ok(())
}
