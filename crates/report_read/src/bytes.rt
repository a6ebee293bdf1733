// Bytes that are read from their front on.
ghost use Rattle.std.specs.Prelude.{◌≡◌, ◌≤◌, ◌<◌, ◌+◌, [], length, true, false, Some, None, IfSome, MatchOption};
ghost use Rattle.std.specs.Char.{is_ascii_digit};
ghost use Rattle.report_read.specs.Inside.Reading.{Reads, behind, past, digits, number_in, number16, number32, number64, byte_in, bytes_in, with_first, begins_number, begins_with};
ghost use Rattle.report_read.specs.Inside.Parts.{begins_place};

use std::marker::Model;
use text_forms::{hex_byte, number_between};

/// The bytes that are still to be read.
#[derive(Drop)]
pub struct Bytes<'a> {
    rest: &'a [u8],
}

impl<'a> Model for Bytes<'a> {
    ghost use Rattle.std.specs.Prelude.{List, ℕ};

    ghost Value = { List ℕ };

    ghost view = { λ b. b.rest.now };
}

// How many digits stand at the front.
fn digits_of(bytes: &[u8]) -> usize
    ensures count { result ≡ digits bytes.now }
    ensures within { result ≤ length bytes.now }
{
    let mut count = 0;
    let mut rest = bytes;
    'digits: while let [first, after @ ..] = rest {
        if !first.is_ascii_digit() {
            return count;
        }
        count += 1;
        rest = after;
    }
    count
}

// The byte of the two digits at the front, and the bytes behind them.
#[tactic(auto, using(crate::proofs::Steps::bytes_steps))]
fn first_pair(bytes: &[u8]) -> Option<(u8, &[u8])>
    ensures pair { MatchOption result (bytes_in bytes.now ≡ ([], bytes.now)) (λ r. bytes_in bytes.now
        ≡ with_first r.0 (bytes_in r.1.now)) }
    ensures shorter { IfSome result (λ r. length r.1.now < length bytes.now) }
{
    let [high, low, rest @ ..] = bytes else {
        return None;
    };
    let byte = hex_byte(*high, *low)?;
    Some((byte, rest))
}

impl<'a> Bytes<'a> {
    /// All bytes of a text.
    pub fn of(text: &'a [u8]) -> Bytes<'a>
        ensures { result ≡ text.now }
    {
        Bytes { rest: text }
    }

    /// All that is left.
    pub fn all(&self) -> &'a [u8]
        ensures { result.now ≡ self.now }
    {
        self.rest
    }

    /// What is left of the line, or all where it has no end.
    pub fn line(&self) -> &'a [u8] {
        match self.rest.iter().position(|byte| *byte == b'\n') {
            Some(end) => &self.rest[..end],
            None => self.rest,
        }
    }

    /// How many bytes are left.
    pub fn len(&self) -> usize
        ensures { result ≡ length self.now }
    {
        self.rest.len()
    }

    /// Whether this text stands at the front.
    pub fn begins_with(&self, text: &[u8]) -> bool
        ensures { result ≡ begins_with text.now self.now }
    {
        self.rest.starts_with(text)
    }

    /// Goes past this text; where it doesn't stand at the front nothing changes.
    pub fn passes(&mut self, text: &[u8]) -> bool
        ensures there { result ≡ true → behind text.now self.old ≡ Some self.new }
        ensures absent { result ≡ false → (behind text.now self.old ≡ None) × (self.new ≡ self.old) }
    {
        match self.rest.strip_prefix(text) {
            Some(rest) => {
                self.rest = rest;
                true
            }
            None => false,
        }
    }

    /// Goes past this text.
    pub fn past(&mut self, text: &[u8]) -> Option<()>
        ensures { MatchOption result (behind text.now self.old ≡ None) (λ _. behind text.now self.old ≡ Some self.new) }
    {
        let rest = self.rest.strip_prefix(text)?;
        self.rest = rest;
        Some(())
    }

    /// The number at the front, from `least` to `most`.
    #[tactic(auto, unfolding(crate::specs::Inside::Reading::number_in))]
    pub fn number(&mut self, least: u64, most: u64) -> Option<u64>
        ensures value { Reads result self.new (number_in least most self.old) }
        ensures bound { IfSome result (λ n. (least ≤ n) × (n ≤ most)) }
    {
        let count = digits_of(self.rest);
        let n = number_between(least, most, &self.rest[..count])?;
        self.rest = &self.rest[count..];
        Some(n)
    }

    /// A number of 16 bits.
    pub fn number16(&mut self) -> Option<u16>
        ensures { Reads result self.new (number16 self.old) }
    {
        let n = self.number(0, u16::MAX as u64)?;
        Some(n as u16)
    }

    /// A number of 32 bits.
    pub fn number32(&mut self) -> Option<u32>
        ensures { Reads result self.new (number32 self.old) }
    {
        let n = self.number(0, u32::MAX as u64)?;
        Some(n as u32)
    }

    /// A number of 64 bits.
    pub fn number64(&mut self) -> Option<u64>
        ensures { Reads result self.new (number64 self.old) }
    {
        self.number(0, u64::MAX)
    }

    /// The number of 32 bits behind this text.
    pub fn named32(&mut self, name: &[u8]) -> Option<u32>
        ensures { Reads result self.new (past name.now self.old number32) }
    {
        self.past(name)?;
        self.number32()
    }

    /// The number of 64 bits behind this text.
    pub fn named64(&mut self, name: &[u8]) -> Option<u64>
        ensures { Reads result self.new (past name.now self.old number64) }
    {
        self.past(name)?;
        self.number64()
    }

    /// The byte of the two digits at the front.
    #[tactic(auto, unfolding(crate::specs::Inside::Reading::byte_in))]
    pub fn byte(&mut self) -> Option<u8>
        ensures { Reads result self.new (byte_in self.old) }
    {
        let [high, low, rest @ ..] = self.rest else {
            return None;
        };
        let byte = hex_byte(*high, *low)?;
        self.rest = rest;
        Some(byte)
    }

    /// Whether a digit stands at the front.
    pub fn begins_number(&self) -> bool
        ensures { result ≡ begins_number self.now }
    {
        match self.rest {
            [] => false,
            [first, ..] => first.is_ascii_digit(),
        }
    }

    /// Whether a space and a digit stand at the front.
    pub fn begins_place(&self) -> bool
        ensures { result ≡ begins_place self.now }
    {
        match self.rest {
            [space, first, ..] => *space == b' ' && first.is_ascii_digit(),
            _ => false,
        }
    }

    /// The byte of the two digits at the front; where there are none nothing changes.
    pub fn pair(&mut self) -> Option<u8>
        ensures pair { MatchOption result ((bytes_in self.old ≡ ([], self.old)) × (self.new ≡ self.old))
            (λ byte. bytes_in self.old ≡ with_first byte (bytes_in self.new)) }
        ensures shorter { IfSome result (λ _. length self.new < length self.old) }
    {
        let (byte, rest) = first_pair(self.rest)?;
        self.rest = rest;
        Some(byte)
    }
}
