// A ring, and what is kept of the capture whose bytes it holds: its ledger, and what it keeps of its filter.

ghost use Rattle.std.specs.Prelude.{[], ◌++◌, min, take, drop, ◌≡◌, ◌≤◌, ◌<◌, ◌+◌, ◌-◌, ◌^◌, length, Option, Some, None, option_map, IfOk, OnErr, if◌then◌else◌, nat_lt, slice_index, IfSome, is_some, not, ◌&&◌, false};
ghost use Rattle.node_buffer.specs.Imports.{Empty, LARGEST_SIZE, Ready, SMALLEST_SIZE, answered_of, is_readable, pending, response_of};
ghost use Rattle.node_buffer.specs.Inside.Capturing.{begun, terms_of as terms_by, is_due as due, expiring, state_by, with_item, with_stop, with_response, read_by, over_in, front_length as front_by};
ghost use Rattle.node_buffer.specs.Inside.Coherent.{CoherentIn, total_of};
ghost use Rattle.node_buffer.specs.Inside.BufferView.{misfit_of, ledger_of, pending_by, told_by};

use crate::filter::{Terms, terms_of};
use crate::node_ring::Ring;
use byteorder::{BigEndian, ByteOrder};
use dmx_calls::{ByteBuf, Params, PollError, Reply, Span, State};
use std::alloc::{AllocError as NoMemory, Global};
use std::marker::Model;

/// The first item that didn't fit.
#[derive(Clone, Copy, Drop)]
pub struct Lost {
    /// Its number in the capture, from 0.
    pub item: u64,
    /// Its place: how many bytes of the capture came before it. With KEEP these are given before the overflow is told.
    pub place: u64,
    /// Its length in bytes.
    pub need: u64,
    /// The room that it found, in bytes.
    pub room: u64,
}

/// The ledger of a capture, beside the bytes.
#[derive(Clone, Copy, Drop)]
pub struct Capture {
    /// The moment of the call that began it, in milliseconds.
    pub started: u64,
    /// A Stop came.
    pub is_stopped: bool,
    /// The moment at which it expired without an item.
    pub expired: Option<u64>,
    /// A Read was told that it expired.
    pub is_told: bool,
    /// How many items arrived.
    pub items: u64,
    /// How many bytes they have together.
    pub total: u64,
    /// How many of these were answered, by data or as lost.
    pub answered: u64,
    /// The pending overflow.
    pub over: Option<Lost>,
    /// On a section filter, how many of the unread bytes belong to the section that the next Read goes on with.
    pub rest: u64,
}

/// A ring, and the capture whose bytes it holds, if there is one.
#[derive(Drop)]
pub struct Buffer {
    ring: Ring,
    // Those of the filter that was given last.
    terms: Terms,
    capture: Option<Capture>,
}

impl Model for Buffer {
    ghost use Rattle.node_buffer.specs.Inside.BufferValue.{BufferValue};

    ghost Value = { BufferValue };

    ghost use Rattle.node_buffer.specs.Inside.BufferView.{buffer_view, BufferHolds};

    ghost view = { buffer_view };

    ghost invariant = { BufferHolds };
}

impl Buffer {
    /// An empty buffer of a size from 2 to 16,777,216 bytes, without a capture and with the terms of no filter.
    pub fn new(alloc: Global, size: u32) -> Result<Buffer, NoMemory>
        requires least { SMALLEST_SIZE ≤ size }
        requires most { size ≤ LARGEST_SIZE }
        ensures { IfOk result (λ b. b ≡ record { size = size; terms = terms_by Empty; ledger = None }) }
    {
        Ok(Buffer {
            ring: Ring::new(alloc, size)?,
            terms: terms_of(&Params::Empty),
            capture: None,
        })
    }

    /// The size in bytes.
    pub fn size(&self) -> u32
        ensures { result ≡ self.now.size }
    {
        self.ring.size()
    }

    /// The state of a node with a filter: Set, TimedOut, Done or Go, by its capture.
    pub fn state(&self) -> State
        ensures { result ≡ state_by self.now.terms self.now.ledger }
    {
        match &self.capture {
            None => State::Set,
            Some(capture) if capture.is_stopped => State::Set,
            Some(capture) if capture.expired.is_some() => State::TimedOut,
            Some(capture) if self.terms.is_oneshot && capture.items > 0 => State::Done,
            Some(_) => State::Go,
        }
    }

    /// The places of the capture's bytes that aren't answered yet.
    pub fn unread(&self) -> Span
        ensures from { result.from ≡ answered_of self.now.ledger }
        ensures to { result.to ≡ total_of self.now.ledger }
    {
        match &self.capture {
            Some(capture) => Span {
                from: capture.answered,
                to: capture.total,
            },
            None => Span { from: 0, to: 0 },
        }
    }

    /// Ends the capture and begins another at this moment, in milliseconds, with these terms.
    pub fn begin(&mut self, terms: Terms, now: u64)
        ensures after { self.new ≡ record { size = self.old.size; terms = terms; ledger = Some (begun now) } }
        ensures holds { CoherentIn self.new.ledger }
    {
        self.end();
        self.terms = terms;
        self.capture = Some(Capture {
            started: now,
            is_stopped: false,
            expired: None,
            is_told: false,
            items: 0,
            total: 0,
            answered: 0,
            over: None,
            rest: 0,
        });
    }

    /// Ends the capture.
    pub fn end(&mut self)
        ensures { self.new ≡ record { size = self.old.size; terms = self.old.terms; ledger = None } }
    {
        self.ring.flush();
        self.capture = None;
    }

    /// Ends the capture, and takes these terms. Where `begins` says so, another begins at this moment, in milliseconds.
    pub fn renew(&mut self, terms: Terms, begins: bool, now: u64)
        ensures after { self.new ≡ record {
          size = self.old.size;
          terms = terms;
          ledger = if begins then Some (begun now) else None;
        } }
        ensures holds { CoherentIn self.new.ledger }
    {
        if begins {
            self.begin(terms, now);
        } else {
            self.end();
            self.terms = terms;
        }
    }

    /// Notes a Stop.
    pub fn stop(&mut self)
        ensures after { self.new ≡ record {
          size = self.old.size;
          terms = self.old.terms;
          ledger = option_map with_stop self.old.ledger;
        } }
        ensures holds { CoherentIn self.new.ledger }
    {
        if let Some(capture) = &mut self.capture {
            capture.is_stopped = true;
        }
    }

    /// Notes the moment of a call, in milliseconds: a capture that goes on expires where its time is over and no item
    /// came.
    pub fn expire(&mut self, now: u64)
        ensures after { self.new ≡ record {
          size = self.old.size;
          terms = self.old.terms;
          ledger = option_map (expiring self.old.terms.timeout now) self.old.ledger;
        } }
        ensures holds { CoherentIn self.new.ledger }
    {
        if let Some(capture) = &mut self.capture {
            let goes_on = !capture.is_stopped && capture.expired.is_none();
            if goes_on && is_due(capture, self.terms.timeout, now) {
                capture.expired = Some(now);
            }
        }
    }

    /// Ends the capture and takes another size, from 2 to 16,777,216 bytes. After an `Err` it is unchanged.
    pub fn resize(&mut self, alloc: Global, size: u32) -> Result<(), NoMemory>
        requires least { SMALLEST_SIZE ≤ size }
        requires most { size ≤ LARGEST_SIZE }
        ensures ok { IfOk result (λ _. self.new ≡ record { size = size; terms = self.old.terms; ledger = None }) }
        ensures err { OnErr result (self.new ≡ self.old) }
    {
        self.ring.resize(alloc, size)?;
        self.capture = None;
        Ok(())
    }

    /// An item of at least one byte arrives. It is lost where one before it is; where it is longer than the room, the
    /// overflow is pending, and what is unread will be given before it where the filter keeps it, and else not at all.
    pub fn put(&mut self, item: &[u8])
        requires some { 0 < length item.now }
        requires total { total_of self.old.ledger + length item.now < 2 ^ 64 }
        ensures after { self.new ≡ record {
          size = self.old.size;
          terms = self.old.terms;
          ledger = option_map (λ l. with_item self.old.terms (self.old.size - 1) l item.now) self.old.ledger;
        } }
        ensures holds { CoherentIn self.new.ledger }
        ensures total { total_of self.new.ledger ≤ total_of self.old.ledger + length item.now }
    {
        let Some(capture) = &mut self.capture else {
            return;
        };
        let need = item.len() as u64;
        if capture.over.is_none() {
            let room = self.ring.room();
            if self.ring.put(item) {
                if self.terms.by_section && capture.rest == 0 {
                    capture.rest = need;
                }
            } else {
                capture.over = Some(Lost {
                    item: capture.items,
                    place: capture.total,
                    need,
                    room,
                });
                if !self.terms.keeps {
                    capture.rest = 0;
                    self.ring.flush();
                }
            }
        }
        capture.items += 1;
        capture.total += need;
    }

    /// The reply to a Read: a pending overflow once nothing before it is unread, else an expiry that wasn't told, else bytes in
    /// the Read's buffer. `ended` says that the stream has ended, which Again tells.
    pub fn read(&mut self, ended: bool, buf: ByteBuf) -> Reply
        ensures said { response_of result ≡ read_by ended self.old.terms self.old.ledger buf.count }
        ensures after { self.new ≡ record {
          size = self.old.size;
          terms = self.old.terms;
          ledger = option_map (with_response self.old.terms.by_section (response_of result)) self.old.ledger;
        } }
        ensures holds { CoherentIn self.new.ledger }
    {
        let at_edge = self.overflow_at_edge();
        let Some(capture) = &mut self.capture else {
            return no_bytes(buf);
        };
        if let Some(lost) = at_edge {
            let from = capture.answered;
            capture.answered = capture.total;
            capture.over = None;
            capture.rest = 0;
            return Reply::Overflow {
                from,
                to: capture.answered,
                item: lost.item,
                need: lost.need,
                room: lost.room,
            };
        }
        if let (Some(now), false) = (capture.expired, capture.is_told) {
            capture.is_told = true;
            return Reply::TimedOut {
                started: capture.started,
                now,
                timeout: self.terms.timeout,
            };
        }
        self.read_bytes(ended, buf)
    }

    // The pending overflow, where nothing before it is unread.
    fn overflow_at_edge(&self) -> Option<Lost>
        ensures { option_map misfit_of result ≡ over_in self.now.ledger }
    {
        let capture = self.capture.as_ref()?;
        told(capture.over, self.terms.keeps, capture.answered)
    }

    // The reply to a Read where nothing is pending, or bytes come before it: no bytes for a count of 0, Again where all is
    // answered, and else as many bytes as are asked for and there; on a section filter no more than are left of the section.
    fn read_bytes(&mut self, ended: bool, buf: ByteBuf) -> Reply
        requires overflow { over_in self.old.ledger ≡ None }
        requires expiry { IfSome self.old.ledger (λ l. is_some l.expired && not l.is_told ≡ false) }
        ensures said { response_of result ≡ read_by ended self.old.terms self.old.ledger buf.count }
        ensures after { self.new ≡ record {
          size = self.old.size;
          terms = self.old.terms;
          ledger = option_map (with_response self.old.terms.by_section (response_of result)) self.old.ledger;
        } }
        ensures holds { CoherentIn self.new.ledger }
    {
        let Some(capture) = &mut self.capture else {
            return no_bytes(buf);
        };
        if buf.count() > 0 && self.ring.unread() == 0 {
            return Reply::Again { ended };
        }
        let by_section = self.terms.by_section;
        let most = most_bytes(by_section, capture.rest, self.ring.unread(), buf.count());
        let mut filled = buf;
        fill(&mut self.ring, &mut filled, most);
        capture.answered += most;
        capture.rest = rest_behind(by_section, capture.rest, most, &self.ring);
        Reply::Data(filled)
    }

    /// The reply to a Poll: whether a Read of one byte would give something, what is pending, and the place up to which all is
    /// answered.
    pub fn poll(&self, ended: bool) -> Reply
        ensures { response_of result
            ≡ Ready (is_readable (read_by ended self.now.terms self.now.ledger 1))
            (pending (read_by ended self.now.terms self.now.ledger 1)) (answered_of self.now.ledger) ended }
    {
        let Some(capture) = &self.capture else {
            return Reply::Ready {
                readable: false,
                error: PollError::Quiet,
                at: 0,
                ended,
            };
        };
        let error = pending_error(self.overflow_at_edge(), capture);
        let bytes = most_bytes(self.terms.by_section, capture.rest, self.ring.unread(), 1);
        Reply::Ready {
            readable: error != PollError::Quiet || bytes > 0,
            error,
            at: capture.answered,
            ended,
        }
    }
}

// The timeout is over and no item came; a timeout of 0 is never over.
fn is_due(capture: &Capture, timeout: u32, now: u64) -> bool
    ensures { result ≡ due timeout now (ledger_of [] capture.now) }
{
    match capture.started.checked_add(u64::from(timeout)) {
        Some(moment) => timeout != 0 && capture.items == 0 && moment <= now,
        None => false,
    }
}

// The overflow, where all that is given before it is answered: with KEEP the bytes up to its place, and without KEEP none.
fn told(over: Option<Lost>, keeps: bool, answered: u64) -> Option<Lost>
    ensures { result ≡ told_by keeps answered over }
{
    match over {
        Some(lost) if !keeps || lost.place == answered => Some(lost),
        _ => None,
    }
}

// What is pending: this overflow at the edge, or an expiry that no Read was told of.
fn pending_error(at_edge: Option<Lost>, capture: &Capture) -> PollError
    ensures { result ≡ pending_by at_edge capture.now }
{
    if at_edge.is_some() {
        PollError::Overflow
    } else if capture.expired.is_some() && !capture.is_told {
        PollError::TimedOut
    } else {
        PollError::Quiet
    }
}

// Data of no bytes.
fn no_bytes(buf: ByteBuf) -> Reply
    ensures { result ≡ Reply.Data (record { count = buf.count; bytes = [] }) }
{
    let mut empty = buf;
    empty.clear();
    Reply::Data(empty)
}

// Moves this many of the ring's first bytes into the buffer, in place of what it held.
fn fill(ring: &mut Ring, buf: &mut ByteBuf, most: u64)
    requires there { most ≤ length ring.old.bytes }
    requires fits { most ≤ buf.old.count }
    ensures bytes { buf.new ≡ record { count = buf.old.count; bytes = take most ring.old.bytes } }
    ensures rest { ring.new ≡ record { bytes = drop most ring.old.bytes; size = ring.old.size } }
{
    let count = most as usize;
    let (front, back) = ring.as_slices();
    let split = count.min(front.len());
    buf.clear();
    buf.append(&front[..split]);
    buf.append(&back[..count - split]);
    ring.skip(count);
}

// How many bytes a Read of this count gives where so many are unread, on a section filter with so many left of its section.
fn most_bytes(by_section: bool, rest: u64, unread: u64, count: u32) -> u64
    ensures value { result ≡ (if by_section then min (min count unread) rest else min count unread) }
    ensures there { result ≤ unread }
    ensures fits { result ≤ count }
{
    let most = u64::from(count).min(unread);
    if by_section { most.min(rest) } else { most }
}

// What is left of the section at the front, on a section filter, once so many bytes were taken from the ring and so many were
// left before.
fn rest_behind(by_section: bool, rest: u64, taken: u64, ring: &Ring) -> u64
    ensures { result ≡ (if by_section then (if nat_lt taken rest then rest - taken else front_by ring.now.bytes) else rest) }
{
    if !by_section {
        rest
    } else if taken < rest {
        rest - taken
    } else {
        front_length(ring)
    }
}

// How long the section at the ring's front is: 3 bytes and as many as its section_length says (ISO/IEC 13818-1, 2.4.4.3).
// It is 0 where the ring is empty.
fn front_length(ring: &Ring) -> u64
    ensures { result ≡ front_by ring.now.bytes }
{
    if ring.unread() == 0 {
        return 0;
    }
    let (front, back) = ring.as_slices();
    let bytes = [byte_at(front, back, 1), byte_at(front, back, 2)];
    3 + u64::from(BigEndian::read_u16(&bytes) & 0x0fff)
}

// The byte in a place of two pieces that lie one behind the other; 0 behind them.
fn byte_at(front: &[u8], back: &[u8], place: usize) -> u8
    ensures { result ≡ slice_index (front.now ++ back.now) place }
{
    match front.get(place) {
        Some(byte) => *byte,
        None => back.get(place - front.len()).copied().unwrap_or(0),
    }
}
