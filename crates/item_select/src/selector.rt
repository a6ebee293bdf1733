// The items of a filter, packet by packet.
ghost use Rattle.std.specs.Prelude.{◌≡◌, ℕ, ◌+◌, ◌<◌, ◌≤◌, ◌↔◌, List, [], ◌∷◌, ◌++◌, length, slice_get, Some, None, IfOk, IfSome, IsNone};
ghost use Rattle.std.specs.Option.{option_map};
ghost use Rattle.std.specs.Borrow.{sem};
ghost use Rattle.item_select.specs.Items.{Choice, Nothing, Sections, Packets, items_of};
ghost use Rattle.item_select.specs.Selecting.{Selecting, Selects, Gave, begun, begun_again, after_offer, bytes_held, section_pid as sections_of};
ghost use Rattle.item_select.specs.Inside.SelectorView.{choice_of};

use crate::section::{drain, find};
use filter_match::{Compiled, SectionFilter};
use section_parse::Assembler;
use std::alloc::{AllocError as NoMemory, Global};
use std::marker::Model;
use ts_packet::Packet;

// The length of the longest section.
const ROOM: usize = 4096;

/// What a filter of packets gives of each packet.
#[derive(Clone, Copy, Debug, PartialEq, Eq, Drop)]
pub enum Give {
    /// Its payload, where it has one: DMX_OUT_TAP.
    Payload,
    /// All its bytes: DMX_OUT_TSDEMUX_TAP.
    Whole,
}

/// Which of the sections that match a filter are given.
#[derive(Clone, Copy, Debug, PartialEq, Eq, Drop)]
pub struct Checks {
    /// Those without a CRC, their section_syntax_indicator being 0, and those with a right one alone: DMX_CHECK_CRC.
    pub crc: bool,
    /// The first alone: DMX_ONESHOT.
    pub once: bool,
}

// What is selected.
#[derive(Drop)]
enum Wanted {
    Nothing,
    Sections {
        pid: u16,
        filter: Compiled,
        check: bool,
        once: bool,
    },
    Packets(Give),
}

/// The items that a filter selects from the packets offered to it.
#[derive(Drop)]
pub struct Selector {
    wanted: Wanted,
    assembler: Assembler,
    // the section that was lent last
    lent: Vec<u8>,
    // whether a one-shot filter has given its section
    is_spent: bool,
    // the last packet, and whether its item waits
    last: Packet,
    waits: bool,
}

impl Model for Selector {
    ghost use Rattle.item_select.specs.Selecting.{Selecting};
    ghost use Rattle.item_select.specs.Inside.SelectorView.{selecting_of};

    ghost Value = { Selecting };

    ghost view = { λ s. selecting_of s.wanted s.assembler s.is_spent s.waits s.last };

    ghost use Rattle.std.specs.Prelude.{◌≤◌, vec_capacity};

    ghost invariant = { λ s. 4096 ≤ vec_capacity s.lent };
}

// The PID whose sections are selected.
fn section_pid(wanted: &Wanted) -> u16
    ensures { result ≡ sections_of (choice_of wanted.now) }
{
    match wanted {
        Wanted::Sections { pid, .. } => *pid,
        Wanted::Nothing | Wanted::Packets(_) => 0,
    }
}

impl Selector {
    ghost use Rattle.std.specs.Io.BufRead.{Rests};
    ghost use Rattle.item_select.specs.contracts.selector.Selector.{the_row};

    /// A selector that selects nothing, with all the memory that it will ever need.
    ///
    /// # Errors
    ///
    /// `NoMemory` where the allocator refuses.
    pub fn new(alloc: Global) -> Result<Selector, NoMemory>
        ensures value { IfOk result (λ s. s ≡ begun Nothing) }
        ensures stands { IfOk result (λ s. Selects [] [] s) }
    {
        Ok(Selector {
            wanted: Wanted::Nothing,
            assembler: Assembler::new(alloc)?,
            lent: Vec::with_capacity(alloc, ROOM)?,
            is_spent: false,
            last: Packet::default(),
            waits: false,
        })
    }

    /// Selects, from now on, the sections of a PID that match a filter and pass these checks. Takes no memory.
    pub fn set_sections(&mut self, pid: u16, filter: &SectionFilter, checks: Checks)
        ensures value { self.new ≡ begun (Sections pid filter.now checks.crc checks.once) }
        ensures stands { Selects [] [] self.new }
    {
        self.wanted = Wanted::Sections {
            pid,
            filter: Compiled::of(filter),
            check: checks.crc,
            once: checks.once,
        };
        self.restart();
    }

    /// Selects, from now on, each packet that is offered: whole, or its payload. Takes no memory.
    pub fn set_packets(&mut self, give: Give)
        ensures value { self.new ≡ begun (Packets give) }
        ensures stands { Selects [] [] self.new }
    {
        self.wanted = Wanted::Packets(give);
        self.restart();
    }

    /// Selects nothing from now on. Takes no memory.
    pub fn set_none(&mut self)
        ensures value { self.new ≡ begun Nothing }
        ensures stands { Selects [] [] self.new }
    {
        self.wanted = Wanted::Nothing;
        self.restart();
    }

    /// Begins anew with the same filter. Takes no memory.
    pub fn restart(&mut self)
        ensures value { self.new ≡ begun_again self.old }
        ensures stands { Selects [] [] self.new }
    {
        self.assembler.clear(section_pid(&self.wanted));
        self.is_spent = false;
        self.waits = false;
    }

    /// Offers a packet, once `item` has answered None. A filter of sections passes over those of other PIDs, and a filter of
    /// packets takes each that it is offered. Takes no memory.
    pub fn offer(&mut self, packet: &Packet)
        requires drained { self.old.ready ≡ [] }
        ensures value { self.new ≡ after_offer self.old packet.now }
        ensures choice { self.new.choice ≡ self.old.choice }
        ensures stands { (offered given : List (List ℕ)) → Selects offered given self.old
            → Selects (offered ++ packet.now ∷ []) given self.new }
        ensures bytes { bytes_held self.new ≤ bytes_held self.old + 188 }
    {
        match &self.wanted {
            Wanted::Nothing => {}
            Wanted::Sections { .. } => {
                if !self.is_spent {
                    drain(&mut self.assembler);
                    self.assembler.push(packet);
                }
            }
            Wanted::Packets(_) => {
                // Its type says that it has 188 bytes.
                let _ = packet.bytes();
                self.waits = true;
                self.last = *packet;
            }
        }
    }

    /// The next item of the packets offered since the filter began: None exactly where no further one lies in them.
    /// An item has 1 to 4096 bytes. Takes no memory.
    pub fn item(&mut self) -> Option<&[u8]>
        ensures item { option_map (λ x. x.now) result ≡ slice_get self.old.ready 0 }
        ensures drained { IsNone result ↔ (self.old.ready ≡ []) }
        ensures some { IfSome result (λ x. 0 < length x.now) }
        ensures most { IfSome result (λ x. length x.now ≤ 4096) }
        ensures none { (offered given : List (List ℕ)) → Selects offered given self.old
            → (IsNone result ↔ (items_of self.old.choice offered ≡ given)) }
        ensures* after { sem 𝓛 (Rests the_row self.entry (λ left. Gave self.old (option_map (λ x. x.now) result) left)) }
    {
        match &self.wanted {
            Wanted::Nothing => None,
            Wanted::Sections {
                filter,
                check,
                once,
                ..
            } => {
                if self.is_spent || !find(&mut self.assembler, filter, *check, &mut self.lent) {
                    return None;
                }
                self.is_spent = *once;
                Some(&self.lent)
            }
            Wanted::Packets(give) => {
                if !self.waits {
                    return None;
                }
                self.waits = false;
                match give {
                    Give::Whole => Some(self.last.bytes()),
                    Give::Payload => self.last.payload(),
                }
            }
        }
    }
}
