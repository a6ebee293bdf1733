// Bytes in lower-case hexadecimal digits.
ghost use Rattle.std.specs.Prelude.{◌≡◌, ◌≢◌, ℕ, suc, ◌*◌, ◌<◌, [], ◌∷◌, length, Some, None, IfSome, MatchOption, OnErr, ◌+◌};
ghost use Rattle.std.specs.Option.{option_map};
ghost use Rattle.text_forms.specs.Hex.{hex_digit as digit_of_byte, hex_byte as byte_of_digits, hex_bytes as bytes_of_digits, digit_text, byte_text, hex_text};
ghost use Rattle.text_forms.specs.Appended.{Appended};

use arrayvec::ArrayVec;
use std::alloc::AllocError as NoMemory;

// What a lower-case hexadecimal digit stands for.
#[tactic(auto, unfolding(crate::specs::Hex::hex_digit))]
fn hex_digit(byte: u8) -> Option<u8>
    ensures value { result ≡ digit_of_byte byte }
    ensures bound { IfSome result (λ digit. digit < 16) }
{
    match byte {
        b'0'..=b'9' => Some(byte - b'0'),
        b'a'..=b'f' => Some(byte - b'a' + 10),
        _ => None,
    }
}

/// The byte that two lower-case hexadecimal digits spell.
#[tactic(auto, unfolding(crate::specs::Hex::hex_byte))]
pub fn hex_byte(high: u8, low: u8) -> Option<u8>
    ensures { result ≡ byte_of_digits high low }
{
    let high = hex_digit(high)?;
    let low = hex_digit(low)?;
    Some(high * 16 + low)
}

// The byte of the two digits at the front, and the digits behind them.
#[tactic(auto, using(crate::proofs::HexWords::pair_steps))]
fn first_pair(digits: &[u8]) -> Option<(u8, &[u8])>
    ensures none { result ≡ None → digits.now ≢ [] → (most : ℕ) → bytes_of_digits most digits.now ≡ None }
    ensures some { IfSome result (λ r. (left : ℕ)
        → bytes_of_digits (suc left) digits.now ≡ option_map (λ bytes. r.0 ∷ bytes) (bytes_of_digits left r.1.now)) }
    ensures two { IfSome result (λ r. length r.1.now + 2 ≡ length digits.now) }
{
    let [high, low, rest @ ..] = digits else {
        return None;
    };
    let byte = hex_byte(*high, *low)?;
    Some((byte, rest))
}

/// The bytes that a word spells in two lower-case hexadecimal digits each, where they are at most `MOST`.
pub fn hex_bytes<const MOST: usize>(word: &[u8]) -> Option<ArrayVec<u8, MOST>>
    ensures value { MatchOption result (bytes_of_digits MOST word.now ≡ None) (λ bytes. bytes_of_digits MOST word.now
        ≡ Some bytes.items) }
    ensures half { IfSome result (λ bytes. 2 * length bytes.items ≡ length word.now) }
{
    let mut bytes = ArrayVec::new();
    let mut rest = word;
    'pairs: while !rest.is_empty() {
        let (byte, behind) = first_pair(rest)?;
        if bytes.is_full() {
            return None;
        }
        bytes.push(byte);
        rest = behind;
    }
    Some(bytes)
}

// The digit of a value.
fn digit_of(value: u8) -> u8
    requires { value < 16 }
    ensures { result ≡ digit_text value }
{
    if value < 10 {
        b'0' + value
    } else {
        b'a' - 10 + value
    }
}

/// The two digits of a byte.
#[inline]
pub fn digits_of(byte: u8) -> [u8; 2]
    ensures { result ≡ byte_text byte }
{
    [digit_of(byte / 16), digit_of(byte % 16)]
}

/// Appends a byte as two lower-case hexadecimal digits.
///
/// # Errors
///
/// `NoMemory`; `out` is then as it was.
pub fn write_hex_byte(out: &mut Vec<u8>, byte: u8) -> Result<(), NoMemory>
    ensures appended { Appended (length (byte_text byte)) (byte_text byte) out.old out.new result }
    ensures unchanged { OnErr result (out.new.items ≡ out.old.items) }
{
    out.extend_from_slice(&digits_of(byte))
}

// Fills `room`, which has two places for each byte, with their digits.
fn fill_digits(room: &mut [u8], bytes: &[u8])
    requires { length room.old ≡ 2 * length bytes.now }
    ensures { room.new ≡ hex_text bytes.now }
{
    'bytes: for (i, byte) in bytes.iter().enumerate() {
        let [high, low] = digits_of(*byte);
        room[2 * i] = high;
        room[2 * i + 1] = low;
    }
}

/// Appends bytes, each as two lower-case hexadecimal digits. Room is asked for once.
///
/// # Errors
///
/// `NoMemory`; `out` is then as it was.
pub fn write_hex(out: &mut Vec<u8>, bytes: &[u8]) -> Result<(), NoMemory>
    ensures appended { Appended (2 * length bytes.now) (hex_text bytes.now) out.old out.new result }
    ensures unchanged { OnErr result (out.new.items ≡ out.old.items) }
{
    out.reserve(2 * bytes.len())?;
    let from = out.len();
    out.resize(from + 2 * bytes.len(), 0)?;
    fill_digits(&mut out[from..], bytes);
    Ok(())
}
