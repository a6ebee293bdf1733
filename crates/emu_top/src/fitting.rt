// What a run left fits its types: the range of a number is known where it is read. Nothing is done with what is read.
ghost use Rattle.std.specs.Prelude.{◌≡◌, ◌<◌, ◌≤◌, ◌+◌, ◌^◌, List, Some, length, map, slice_get};
ghost use Rattle.emu_top.specs.Imports.{All, DEMUX_NODES as nodes_of_demux, IsActInRange, IsEntryInRange, IsFilter, IsOutcomeInRange, IsResponseInRange, IsRowInRange, IsSixteenBytes, IsTallyInRange, IsTapInRange, LogEntry, SetFilter as SetFilterAct, SetPes as SetPesAct, pass_act, response_of, told_entry, told_head};
ghost use Rattle.emu_top.specs.Inside.Fitting.{AreFitting};

use dmx_calls::limits::DEMUX_NODES;
use dmx_calls::{
    Act, BatchRange, Entry, Fed, Histories, KeptAct, LogTap, Outcome, OutcomeKind, PesParams,
    Reply, SectionParams, SharedReply, Span, Tap,
};
use filter_match::SectionFilter;
use serial_core::Left;
use ts_packet::Tally;
use ts_watch::PidRow;

// ------ calls

fn look_at_sixteen(bytes: &[u8; 16])
    ensures { IsSixteenBytes bytes.now }
{
    'bytes: for byte in bytes {
        let _byte = *byte;
    }
}

fn look_at_filter(filter: &SectionFilter)
    ensures { IsFilter filter.now }
{
    look_at_sixteen(&filter.filter);
    look_at_sixteen(&filter.mask);
    look_at_sixteen(&filter.mode);
}

fn look_at_section(params: &SectionParams, now: u64)
    ensures { IsActInRange (SetFilterAct params.now now) }
{
    let _pid = params.pid;
    let _timeout = params.timeout;
    let _flags = params.flags;
    look_at_filter(&params.filter);
}

fn look_at_pes(params: &PesParams, now: u64)
    ensures { IsActInRange (SetPesAct params.now now) }
{
    let _pid = params.pid;
    let _pes_type = params.pes_type;
    let _flags = params.flags;
}

fn look_at_act(act: &KeptAct)
    ensures { IsActInRange act.now }
{
    match act.act() {
        Act::SetFilter { params, now } => look_at_section(&params, now),
        Act::SetPes { params, now } => look_at_pes(&params, now),
        Act::AddPid(_pid) => {}
        Act::RemovePid(_pid) => {}
        Act::Start { now: _now } => {}
        Act::SetSize(_size) => {}
        Act::Read {
            now: _now,
            room: _room,
        } => {}
        Act::Poll { now: _now } => {}
        Act::Pass {
            batch: BatchRange {
                first: _first,
                count: _count,
            },
            now: _now,
            ..
        } => {}
        // that it is a set, and how large it is at most, is known by its length
        Act::Attach { node: _node, pids } => {
            let _len = pids.len();
        }
        Act::Detach { node: _node } => {}
        Act::Open | Act::Close | Act::Stop | Act::End => {}
    }
}

// ------ replies

fn look_at_bytes(bytes: &[u8])
    ensures { All (λ byte. byte < 256) bytes.now }
{
    'bytes: for byte in bytes {
        let _byte = *byte;
    }
}

fn look_at_span(span: &Span)
    ensures { (span.now.from < 2 ^ 64) × (span.now.to < 2 ^ 64) }
{
    let _from = span.from;
    let _to = span.to;
}

fn look_at_tap(tap: &LogTap)
    ensures { IsTapInRange tap.now }
{
    match tap {
        Tap::Attach(pids) => {
            let _len = pids.set().len();
        }
        _ => {}
    }
}

fn look_at_reply(reply: &SharedReply)
    ensures { IsResponseInRange (response_of reply.now) }
{
    match reply.told() {
        Reply::Done { dropped, tap } => {
            look_at_span(dropped);
            look_at_tap(tap);
        }
        Reply::Busy { owner } => {
            let _owner = *owner;
        }
        Reply::Data(buf) => {
            let _count = buf.count();
            look_at_bytes(buf.bytes());
        }
        Reply::Overflow {
            from,
            to,
            item,
            need,
            room,
        } => {
            let _lost = (*from, *to, *item, *need, *room);
        }
        Reply::TimedOut {
            started,
            now,
            timeout,
        } => {
            let _late = (*started, *now, *timeout);
        }
        Reply::Ready { at, .. } => {
            let _at = *at;
        }
        _ => {}
    }
}

// ------ nodes

fn look_at_entry(entry: &Entry)
    ensures { IsEntryInRange (told_entry entry.now) }
{
    let _place = entry.place;
    let _step = entry.step;
    let _who = entry.who;
    look_at_act(&entry.act);
    look_at_reply(&entry.reply);
}

fn look_at_calls(calls: &[Entry])
    ensures { All (λ entry. IsEntryInRange (told_entry entry)) calls.now }
{
    'calls: for entry in calls {
        look_at_entry(entry);
    }
}

fn look_at_fed(fed: Fed)
    ensures { IsActInRange (pass_act fed) }
{
    let _first = fed.first;
    let _count = fed.count;
    let _now = fed.now;
}

fn look_at_feeding(feeding: &[Fed])
    ensures { All (λ fed. IsActInRange (pass_act fed)) feeding.now }
{
    'feeding: for fed in feeding {
        look_at_fed(*fed);
    }
}

fn look_at_node(histories: &Histories, node: u32)
    requires { node ≤ nodes_of_demux }
    ensures entries { (h : List LogEntry) → slice_get histories.now node ≡ Some h → All IsEntryInRange h }
    ensures nodes { length histories.now ≡ nodes_of_demux + 1 }
{
    let (feeding, calls) = histories.node(node);
    let _long = (feeding.len(), calls.len());
    look_at_feeding(feeding);
    look_at_calls(calls);
}

fn look_at_histories(histories: &Histories)
    ensures { All (All IsEntryInRange) histories.now }
{
    'nodes: for node in 0..DEMUX_NODES + 1 {
        look_at_node(histories, node);
    }
}

// ------ the stream

fn look_at_tally(tally: &Tally)
    ensures { IsTallyInRange tally.now }
{
    let _packets = tally.packets;
    let _skipped = tally.skipped;
    let _rest = tally.rest;
}

fn look_at_row(row: &(u16, PidRow))
    ensures { IsRowInRange row.now }
{
    let (pid, counts) = row;
    let _pid = *pid;
    let _packets = counts.packets;
    let _breaks = counts.breaks;
    let _duplicates = counts.duplicates;
    let _errors = counts.errors;
}

fn look_at_rows(rows: &[(u16, PidRow)])
    ensures { All IsRowInRange rows.now }
{
    'rows: for row in rows {
        look_at_row(row);
    }
}

// ------ the clients

fn look_at_outcome(outcome: &Outcome)
    ensures { IsOutcomeInRange outcome.now }
{
    let _line = outcome.line;
    let _from = outcome.from;
    let _to = outcome.to;
    match &outcome.kind {
        OutcomeKind::Stc { base, value } => {
            let _counter = (*base, *value);
        }
        _ => {}
    }
}

fn look_at_commands(outcomes: &[Outcome])
    ensures { All IsOutcomeInRange outcomes.now }
{
    'outcomes: for outcome in outcomes {
        look_at_outcome(outcome);
    }
}

fn look_at_clients(clients: &[Vec<Outcome>])
    ensures { All (λ those. All IsOutcomeInRange those.items) clients.now }
{
    'clients: for outcomes in clients {
        look_at_commands(outcomes);
    }
}

/// Looks at all that a run left, so that it is known to fit.
pub fn look_at(left: &Left)
    ensures { AreFitting (told_head left.now.head) (map (λ those. those.items) left.now.outcomes.items) left.now.histories }
{
    look_at_tally(&left.head.tally);
    look_at_rows(&left.head.rows);
    look_at_clients(&left.outcomes);
    look_at_histories(&left.histories);
}
