// Sections from the packets of a PID, packet by packet.
ghost use Rattle.std.specs.Prelude.{◌≡◌, ℕ, ◌+◌, ◌-◌, ◌<◌, ◌≤◌, ◌↔◌, true, false, List, [], ◌∷◌, ◌++◌, length, take, drop, slice_get, map, Some, None, IfOk, IfSome, IsNone, MatchBool, MatchOption};
ghost use Rattle.std.specs.Option.{option_map};
ghost use Rattle.std.specs.Borrow.{sem};
ghost use Rattle.ts_packet.specs.Fields.{has_payload, payload_start};
ghost use Rattle.ts_packet.specs.Clean.{carried, is_usable};
ghost use Rattle.section_parse.specs.Segments.{pointed, is_pointed, pointer_field};
ghost use Rattle.section_parse.specs.Sections.{sections, IsSection};
ghost use Rattle.section_parse.specs.Inside.Held.{bytes_of};
ghost use Rattle.section_parse.specs.Inside.Keeping.{Assembly, Assembled, Gave, cleared, after_packet, bytes_kept, opened, repeats_last as repeated, joins_last as joined};

use crate::segment::{Found, Segment};
use std::alloc::{AllocError as NoMemory, Global};
use std::marker::Model;
use std::mem;
use ts_packet::{PACKET_LEN, Packet};

/// The sections of one PID, from its packets. A contract sees what it keeps between two packets: the PID, the last clean
/// packet, the sections that are ready, and the bytes behind them in the open segment.
#[derive(Drop)]
pub struct Assembler {
    pid: u16,
    last: Option<Packet>,
    // the segment that the last packet ended
    closing: Segment,
    open_now: Segment,
}

impl Model for Assembler {
    ghost use Rattle.std.specs.Prelude.{◌++◌};
    ghost use Rattle.section_parse.specs.Inside.Keeping.{Assembly, sections_of_open, left_of_open};

    ghost Value = { Assembly };

    ghost use Rattle.section_parse.specs.Inside.Held.{unread, bytes_of};

    ghost view = { λ a. record {
      pid = a.pid;
      before = a.last;
      ready = sections_of_open (unread a.closing (bytes_of a.last)) ++ sections_of_open (unread a.open_now (bytes_of a.last));
      open_now = left_of_open (unread a.open_now (bytes_of a.last));
    } };

    ghost use Rattle.std.specs.Prelude.{◌≡◌, true, None, length, MatchOption};
    ghost use Rattle.ts_packet.specs.Fields.{has_payload};

    ghost invariant = { λ a. MatchOption a.last ((a.closing.begun ≡ None) × (a.open_now.begun ≡ None))
        (λ p. (has_payload p ≡ true) × (length p ≡ 188)) };
}

// The first place of the payload of a packet of the PID that has one, and no error.
fn usable_payload(pid: u16, packet: &Packet) -> Option<usize>
    ensures { MatchOption result
        (is_usable pid packet.now ≡ false)
        (λ first. (is_usable pid packet.now ≡ true) × (first ≡ payload_start packet.now) × (first < 188) × (4 ≤ first)
        × (length packet.now ≡ 188)) }
{
    if packet.pid() != pid || packet.error() {
        return None;
    }
    match packet.payload() {
        Some(payload) => Some(packet.bytes().len() - payload.len()),
        None => None,
    }
}

// Whether a packet repeats the last one.
fn repeats_last(last: &Option<Packet>, packet: &Packet) -> bool
    requires last { IfSome last.now (λ p. has_payload p ≡ true) }
    requires packet { has_payload packet.now ≡ true }
    ensures { result ≡ repeated last.now packet.now }
{
    match last {
        Some(before) => packet.repeats(before),
        None => false,
    }
}

// Whether a packet joins the last one.
fn joins_last(last: &Option<Packet>, packet: &Packet) -> bool
    ensures { result ≡ joined last.now packet.now }
{
    match last {
        Some(before) => packet.joins(before),
        None => false,
    }
}

// The bytes of the last packet, if there was one.
fn last_bytes(last: &Option<Packet>) -> &[u8]
    ensures { result.now ≡ bytes_of last.now }
{
    match last {
        Some(packet) => packet.bytes(),
        None => &[],
    }
}

// The place that the pointer_field points to, which stands in the payload's first place, where it lies in the packet.
fn pointed_place(packet: &Packet, first: usize) -> Option<usize>
    requires first { first ≡ payload_start packet.now }
    requires below { first < 188 }
    ensures place { MatchOption result (is_pointed packet.now ≡ false) (λ place. (is_pointed packet.now ≡ true)
        × (place ≡ first + 1 + pointer_field packet.now)) }
    ensures fits { IfSome result (λ place. place ≤ 188) }
{
    let place = first + 1 + usize::from(packet.bytes()[first]);
    if place <= PACKET_LEN {
        Some(place)
    } else {
        None
    }
}

// Where the segment begins that a packet opens, if it opens one.
fn start_of_segment(packet: &Packet, first: usize) -> Option<usize>
    requires first { first ≡ payload_start packet.now }
    requires below { first < 188 }
    ensures start { MatchOption result (opened packet.now ≡ None) (λ start. opened packet.now
        ≡ Some (drop start packet.now)) }
    ensures fits { IfSome result (λ start. start ≤ 188) }
{
    if packet.unit_start() {
        pointed_place(packet, first)
    } else {
        None
    }
}

// Where the bytes behind the pointer_field end that belong to the segment before.
fn end_of_segment(packet: &Packet, first: usize) -> usize
    requires first { first ≡ payload_start packet.now }
    requires below { first < 188 }
    ensures end { take (result - (first + 1)) (drop (first + 1) packet.now) ≡ pointed packet.now }
    ensures order { first + 1 ≤ result }
    ensures fits { result ≤ 188 }
{
    pointed_place(packet, first).unwrap_or(first + 1)
}

impl Assembler {
    ghost use Rattle.std.specs.Io.BufRead.{Rests};
    ghost use Rattle.section_parse.specs.contracts.assembler.Assembler.{the_row};

    /// An assembler for PID 0, with all the memory that it will ever need.
    pub fn new(alloc: Global) -> Result<Assembler, NoMemory>
        ensures value { IfOk result (λ a. a ≡ cleared 0) }
        ensures stands { IfOk result (λ a. Assembled [] [] a) }
    {
        Ok(Assembler {
            pid: 0,
            last: None,
            closing: Segment::new(alloc)?,
            open_now: Segment::new(alloc)?,
        })
    }

    /// Begins anew for a PID. Takes no memory.
    pub fn clear(&mut self, pid: u16)
        ensures value { self.new ≡ cleared pid }
        ensures stands { Assembled [] [] self.new }
    {
        self.pid = pid;
        self.last = None;
        self.closing.close();
        self.open_now.close();
    }

    /// Takes in a packet, once `next` has answered None. Takes no memory.
    pub fn push(&mut self, packet: &Packet)
        requires drained { self.old.ready ≡ [] }
        ensures value { self.new ≡ after_packet self.old packet.now }
        ensures pid { self.new.pid ≡ self.old.pid }
        ensures stands { (packets given : List (List ℕ)) → Assembled packets given self.old
            → Assembled (packets ++ packet.now ∷ []) given self.new }
        ensures bytes { bytes_kept self.new ≤ bytes_kept self.old + 184 }
    {
        if let Some(first) = usable_payload(self.pid, packet) {
            self.take(packet, first);
        }
    }

    // Takes in a packet of the PID that has no error, and a payload that begins in this place.
    fn take(&mut self, packet: &Packet, first: usize)
        requires drained { self.old.ready ≡ [] }
        requires usable { is_usable self.old.pid packet.now ≡ true }
        requires first { first ≡ payload_start packet.now }
        requires below { first < 188 }
        requires size { length packet.now ≡ 188 }
        ensures value { self.new ≡ after_packet self.old packet.now }
    {
        if repeats_last(&self.last, packet) {
            return;
        }
        if !joins_last(&self.last, packet) {
            self.last = Some(*packet);
            self.closing.close();
            self.open_now.begin(start_of_segment(packet, first));
            return;
        }
        self.open_now.keep(last_bytes(&self.last));
        self.last = Some(*packet);
        if packet.unit_start() {
            self.open_now.add(first + 1, end_of_segment(packet, first));
            mem::swap(&mut self.closing, &mut self.open_now);
            self.open_now.begin(start_of_segment(packet, first));
            return;
        }
        self.closing.close();
        self.open_now.add(first, packet.bytes().len());
    }

    /// The next section of the packets pushed since `clear`: None exactly where no further one lies in them. Takes no memory.
    pub fn next(&mut self) -> Option<&[u8]>
        ensures section { option_map (λ s. s.now) result ≡ slice_get self.old.ready 0 }
        ensures drained { IsNone result ↔ (self.old.ready ≡ []) }
        ensures whole { IfSome result (λ s. IsSection s.now) }
        ensures none { (packets given : List (List ℕ)) → Assembled packets given self.old
            → (IsNone result ↔ (sections packets self.old.pid ≡ given)) }
        ensures* after { sem 𝓛 (Rests the_row self.entry (λ left. Gave self.old (option_map (λ s. s.now) result) left)) }
    {
        match self.closing.advance(last_bytes(&self.last)) {
            Found::InPacket(from, to) => return Some(&last_bytes(&self.last)[from..to]),
            Found::InSegment => return Some(self.closing.bytes()),
            Found::Nothing => {}
        }
        match self.open_now.advance(last_bytes(&self.last)) {
            Found::InPacket(from, to) => Some(&last_bytes(&self.last)[from..to]),
            Found::InSegment => Some(self.open_now.bytes()),
            Found::Nothing => None,
        }
    }
}

/// All sections of a PID in these packets.
pub fn all_sections(alloc: Global, pid: u16, packets: &[Packet]) -> Result<Vec<Vec<u8>>, NoMemory>
    ensures { IfOk result (λ found. map (λ s. s.items) found.items ≡ sections packets.now pid) }
{
    let mut assembler = Assembler::new(alloc)?;
    assembler.clear(pid);
    let mut found = Vec::new(alloc);
    'packets: for packet in packets {
        assembler.push(packet);
        'sections: while let Some(section) = assembler.next() {
            found.push(section.to_vec(alloc)?)?;
        }
    }
    Ok(found)
}
