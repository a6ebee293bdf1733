// The bytes of a read, which stand as digits in front of the line's end: decoded at once, written again and compared.
ghost use Rattle.std.specs.Prelude.{◌≡◌, ◌*◌, ◌<◌, ◌≤◌, length, IfOk, IfSome, MatchOption};
ghost use Rattle.report_read.specs.Imports.{All};
ghost use Rattle.report_read.specs.Inside.Reading.{bytes_in};

use crate::bytes::Bytes;
use std::alloc::{AllocError as NoMemory, Global};
use text_forms::write_hex;

// What a lower-case hexadecimal digit stands for.
fn value_of(digit: u8) -> u8 {
    (digit & 15).wrapping_add((digit >> 6).wrapping_mul(9))
}

// Fills `room` with a byte for each two of these, which spell it where they are digits.
fn decode(room: &mut [u8], digits: &[u8])
    requires { 2 * length room.old ≤ length digits.now }
    ensures { All (λ byte. byte < 256) room.new }
{
    'bytes: for i in 0..room.len() {
        room[i] = (value_of(digits[2 * i]) << 4).wrapping_add(value_of(digits[2 * i + 1]));
    }
}

// A byte for each two of these, which spell it where they are digits.
fn decoded(alloc: Global, digits: &[u8]) -> Result<Vec<u8>, NoMemory>
    ensures { IfOk result (λ read. All (λ byte. byte < 256) read.items) }
{
    let mut read = vec![in alloc; 0; digits.len() / 2]?;
    decode(&mut read, digits);
    Ok(read)
}

// The bytes whose digits are all that stands in front of the line's end. None, and nothing is read, where it isn't so.
#[tactic(auto, using(crate::proofs::Decoding::decoded_are_read))]
fn read_line_of_bytes(alloc: Global, bytes: &mut Bytes<'_>) -> Result<Option<Vec<u8>>, NoMemory>
    ensures value { IfOk result
        (λ read. MatchOption read (bytes.new ≡ bytes.old) (λ r. bytes_in bytes.old ≡ (r.items, bytes.new))) }
    ensures range { IfOk result (λ read. IfSome read (λ r. All (λ byte. byte < 256) r.items)) }
{
    let read = decoded(alloc, bytes.line())?;
    let mut text = Vec::new(alloc);
    write_hex(&mut text, &read)?;
    let mut left = Bytes::of(bytes.all());
    if !left.passes(&text) || !left.begins_with(b"\n") {
        return Ok(None);
    }
    *bytes = left;
    Ok(Some(read))
}

// The bytes whose digits stand at the front, one after another.
fn read_pairs(alloc: Global, bytes: &mut Bytes<'_>) -> Result<Vec<u8>, NoMemory>
    ensures value { IfOk result (λ read. bytes_in bytes.old ≡ (read.items, bytes.new)) }
    ensures range { IfOk result (λ read. All (λ byte. byte < 256) read.items) }
{
    let mut read = Vec::new(alloc);
    'bytes: while let Some(byte) = bytes.pair() {
        read.push(byte)?;
    }
    Ok(read)
}

/// The bytes whose digits stand at the front.
pub fn read_bytes(alloc: Global, bytes: &mut Bytes<'_>) -> Result<Vec<u8>, NoMemory>
    ensures value { IfOk result (λ read. bytes_in bytes.old ≡ (read.items, bytes.new)) }
    ensures range { IfOk result (λ read. All (λ byte. byte < 256) read.items) }
{
    match read_line_of_bytes(alloc, bytes)? {
        Some(read) => Ok(read),
        None => read_pairs(alloc, bytes),
    }
}
